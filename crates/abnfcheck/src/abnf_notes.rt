//! The notes on a grammar in ABNF.
ghost use Rattle.std.specs.Prelude.{◌≡◌, ◌↔◌, ◌≤◌, ◌++◌, ℕ, Bool, List, length, map, drop, Option, Contains, IfOk};
ghost use Rattle.fixpoint.specs.StepRows.{rows_of, AreStepsWithin};
ghost use Rattle.ruletable.specs.Rules.{names_of};
ghost use Rattle.fixpoint.specs.IdMarks.{chosen, AreMarks};
ghost use Rattle.abnfread.specs.Element.{Rule};
ghost use Rattle.ruletable.specs.Notes.{said, said_of};
ghost use Rattle.abnfcheck.specs.AbnfNotes.{judged_in, IsRefused};
ghost use Rattle.abnfcheck.specs.NameIds.{IsGraph};
ghost use Rattle.abnfcheck.specs.NameMarks.{AreNoteMarks};
ghost use Rattle.abnfcheck.specs.ProseIn.{prose_marks};

use crate::name_ids::NameIds;
use crate::name_marks::{reaches_broken, some_set, used_marks};
use abnfread::Elem;
use fixpoint::{marks_at, note_marked, note_undefined, opposites};
use ruletable::{Memory, Note, NoteKind, RuleTable};
use std::alloc::Global;

/// Marks on the rules of a file, one for each of them and each kind of note.
#[derive(Drop)]
pub(crate) struct NoteMarks {
    /// They are defined again.
    pub(crate) redefined: Vec<bool>,
    /// They are extended before they are defined.
    pub(crate) extended: Vec<bool>,
    /// They hold prose.
    pub(crate) prose: Vec<bool>,
    /// They are not used.
    pub(crate) unused: Vec<bool>,
}

/// Returns the marks on the first `count` rules, which are those of the file.
///
/// `Memory` if an allocation fails.
pub(crate) fn note_marks(
    alloc: Global,
    count: usize,
    redefined: &[usize],
    extended: &[usize],
    ids: &NameIds,
    prose: &[bool],
) -> Result<NoteMarks, Memory>
    requires steps { AreStepsWithin (rows_of ids.now.rows.items) }
    requires prose { count ≤ length prose.now }
    requires rows { count ≤ length ids.now.rows.items }
    ensures { IfOk result (λ m. (rules : List Rule) (given : Option (List ℕ)) →
        IsGraph rules given (names_of ids.now.names) (rows_of ids.now.rows.items) ids.now.judged
        → prose.now ≡ prose_marks rules →
        AreNoteMarks rules count redefined.now extended.now (judged_in given rules) m.redefined.items m.extended.items
        m.prose.items m.unused.items) }
{
    let redefined = marks_at(alloc, redefined, count)?;
    let extended = marks_at(alloc, extended, count)?;
    let prose = Vec::from_slice(alloc, &prose[..count])?;
    let used = used_marks(alloc, &ids.rows, ids.judged)?;
    let unused = opposites(alloc, &used[..count])?;
    Ok(NoteMarks {
        redefined,
        extended,
        prose,
        unused,
    })
}

/// Returns the notes on the marked rules, and on the marked names. The marks of the names come after those of the
/// rules.
///
/// `Memory` if an allocation fails.
pub(crate) fn notes_on(
    alloc: Global,
    rules: &RuleTable<Elem>,
    names: &RuleTable<()>,
    marks: &NoteMarks,
) -> Result<Vec<Note>, Memory>
    requires redefined { length marks.now.redefined.items ≤ length rules.now.rules }
    requires extended { length marks.now.extended.items ≤ length rules.now.rules }
    requires prose { length marks.now.prose.items ≤ length rules.now.rules }
    requires unused { length marks.now.unused.items ≤ length rules.now.rules }
    ensures { IfOk result (λ notes. map said_of notes.items ≡ map (said NoteKind.Redefined)
        (chosen marks.now.redefined.items (names_of rules.now))
        ++ (map (said NoteKind.ExtendedEarly) (chosen marks.now.extended.items (names_of rules.now))
        ++ (map (said NoteKind.Undefined) (drop (length rules.now.rules) (names_of names.now))
        ++ (map (said NoteKind.Prose) (chosen marks.now.prose.items (names_of rules.now))
        ++ map (said NoteKind.Unused) (chosen marks.now.unused.items (names_of rules.now)))))) }
{
    let mut notes = Vec::new(alloc);
    note_marked(
        alloc,
        rules,
        &marks.redefined,
        NoteKind::Redefined,
        &mut notes,
    )?;
    note_marked(
        alloc,
        rules,
        &marks.extended,
        NoteKind::ExtendedEarly,
        &mut notes,
    )?;
    note_undefined(alloc, names, rules.len(), &mut notes)?;
    note_marked(alloc, rules, &marks.prose, NoteKind::Prose, &mut notes)?;
    note_marked(alloc, rules, &marks.unused, NoteKind::Unused, &mut notes)?;
    Ok(notes)
}

/// Returns whether a grammar is rejected: a rule of the file is defined again, or from the judged rule a name without a
/// rule, or prose, can be reached.
///
/// `Memory` if an allocation fails.
pub(crate) fn is_refused(
    alloc: Global,
    ids: &NameIds,
    prose: &[bool],
    redefined: &[bool],
) -> Result<bool, Memory>
    requires steps { AreStepsWithin (rows_of ids.now.rows.items) }
    requires rows { length prose.now ≤ length ids.now.rows.items }
    ensures { IfOk result (λ refused. (file rules : List Rule) (given : Option (List ℕ)) (again : List ℕ) →
        IsGraph rules given (names_of ids.now.names) (rows_of ids.now.rows.items) ids.now.judged
        → prose.now ≡ prose_marks rules →
        AreMarks (Contains again) (length file) redefined.now → (refused ≡ Bool.true)
        ↔ IsRefused file rules again (judged_in given rules)) }
{
    if some_set(redefined) {
        return Ok(true);
    }
    if ids.judged >= prose.len() {
        return Ok(true);
    }
    reaches_broken(alloc, &ids.rows, prose, ids.judged)
}

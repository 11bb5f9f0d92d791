//! Notes on marked rules, and on names that no rule has.
ghost use Rattle.std.specs.Prelude.{◌≡◌, ◌≤◌, ◌++◌, length, map, drop, IfOk};
ghost use Rattle.ruletable.specs.Notes.{said, said_of};
ghost use Rattle.ruletable.specs.Rules.{names_of};
ghost use Rattle.fixpoint.specs.IdMarks.{chosen};

use ruletable::{Memory, Note, NoteKind, RuleTable};
use std::alloc::Global;

/// Adds a note for each rule that is marked. There may be fewer marks than rules.
///
/// # Errors
/// `Memory` if an allocation fails.
pub fn note_marked<T>(
    alloc: Global,
    rules: &RuleTable<T>,
    marks: &[bool],
    kind: NoteKind,
    notes: &mut Vec<Note>,
) -> Result<(), Memory>
    requires { length marks.now ≤ length rules.now.rules }
    ensures { IfOk result (λ _. map said_of notes.new.items ≡ map said_of notes.old.items
        ++ map (said kind) (chosen marks.now (names_of rules.now))) }
{
    for id in 0..marks.len() {
        if marks[id] {
            let name = Vec::from_slice(alloc, rules.name(id))?;
            notes.push(Note { kind, name })?;
        }
    }
    Ok(())
}

/// Adds a note that it is used but not defined for each name but the first `count`.
///
/// # Errors
/// `Memory` if an allocation fails.
pub fn note_undefined(
    alloc: Global,
    names: &RuleTable<()>,
    count: usize,
    notes: &mut Vec<Note>,
) -> Result<(), Memory>
    ensures { IfOk result (λ _. map said_of notes.new.items ≡ map said_of notes.old.items
        ++ map (said NoteKind.Undefined) (drop count (names_of names.now))) }
{
    for id in count..names.len() {
        let name = Vec::from_slice(alloc, names.name(id))?;
        notes.push(Note {
            kind: NoteKind::Undefined,
            name,
        })?;
    }
    Ok(())
}

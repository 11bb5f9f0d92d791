//! The notes on a grammar.
ghost use Rattle.std.specs.Prelude.{◌≡◌, ◌++◌, ℕ, Bool, List, length, map, Contains, Option, IfOk};
ghost use Rattle.std.specs.Prelude.{option_copied, option_to_list};
ghost use Rattle.std.specs.List.{list_any};
ghost use Rattle.ruletable.specs.Notes.{Said, said, said_of};
ghost use Rattle.ruletable.specs.Rules.{names_of};
ghost use Rattle.fixpoint.specs.FirstUses.{news};
ghost use Rattle.fixpoint.specs.IdMarks.{chosen};
ghost use Rattle.pegread.specs.Pattern.{Rule};
ghost use Rattle.pegread.specs.PegViews.{rules_of};
ghost use Rattle.gramcheck.specs.Left.{IsLeftRecursive, Loops};
ghost use Rattle.gramcheck.specs.GrammarNotes.{AreMarks, AreNotes, AreRedefinitions, IsUnused, names_at, said_refuses};
ghost use Rattle.gramcheck.specs.Uses.{names_used, rule_names};

use crate::uses::uses_of;
use fixpoint::{marks_at, note_marked, note_undefined, opposites};
use pegread::{Expr, Peg};
use ruletable::{Memory, NameCase, Note, NoteKind, RuleTable};
use std::alloc::Global;

/// Returns the notes on a grammar, in order: on rules that are defined again, on names that no rule has, on rules that
/// are not used, on left-recursive rules, and on looping rules. `redefined` has the ids of the first.
///
/// `Memory` if an allocation fails.
pub(crate) fn notes(
    alloc: Global,
    rules: &RuleTable<Expr>,
    redefined: &[usize],
    start: Option<&str>,
    recursive: &[bool],
    looping: &[bool],
) -> Result<Vec<Note>, Memory>
    requires exact { rules.now.names ≡ NameCase.Exact }
    requires recursive { length recursive.now ≡ length rules.now.rules }
    requires looping { length looping.now ≡ length rules.now.rules }
    ensures { IfOk result (λ notes. AreMarks (IsLeftRecursive (rules_of rules.now)) (rules_of rules.now) recursive.now →
        AreMarks (Loops (rules_of rules.now)) (rules_of rules.now) looping.now →
        AreNotes (rules_of rules.now) (names_at (rules_of rules.now) redefined.now) (option_copied start.entry)
        (map said_of notes.items)) }
{
    let mut notes = Vec::new(alloc);
    note_redefined(alloc, rules, redefined, &mut notes)?;
    note_uses(alloc, rules, start, &mut notes)?;
    note_marked(alloc, rules, recursive, NoteKind::LeftRecursion, &mut notes)?;
    note_marked(alloc, rules, looping, NoteKind::Loop, &mut notes)?;
    Ok(notes)
}

// Adds a note for each rule with an id in `redefined`.
fn note_redefined(
    alloc: Global,
    rules: &RuleTable<Expr>,
    redefined: &[usize],
    notes: &mut Vec<Note>,
) -> Result<(), Memory>
    requires { rules.now.names ≡ NameCase.Exact }
    ensures { IfOk result (λ _. (again : List Bool)
        × AreMarks (λ rule. Contains (names_at (rules_of rules.now) redefined.now) rule.name) (rules_of rules.now) again
        × (map said_of notes.new.items ≡ map said_of notes.old.items
        ++ map (said NoteKind.Redefined) (chosen again (names_of rules.now)))) }
{
    let again = marks_at(alloc, redefined, rules.len())?;
    note_marked(alloc, rules, &again, NoteKind::Redefined, notes)
}

// Adds the notes on names that no rule has, and then those on rules that are not used.
fn note_uses(
    alloc: Global,
    rules: &RuleTable<Expr>,
    start: Option<&str>,
    notes: &mut Vec<Note>,
) -> Result<(), Memory>
    requires { rules.now.names ≡ NameCase.Exact }
    ensures { IfOk result (λ _. (unused : List Bool)
        × AreMarks (IsUnused (option_copied start.entry) (rules_of rules.now)) (rules_of rules.now) unused
        × (map said_of notes.new.items ≡ (map said_of notes.old.items
        ++ map (said NoteKind.Undefined) (news NameCase.Exact (rule_names (rules_of rules.now))
        (option_to_list (option_copied start.entry) ++ names_used (rules_of rules.now))))
        ++ map (said NoteKind.Unused) (chosen unused (names_of rules.now)))) }
{
    let uses = uses_of(alloc, rules, start)?;
    note_undefined(alloc, &uses.missing, 0, notes)?;
    let used = marks_at(alloc, &uses.ids, rules.len())?;
    let unused = opposites(alloc, &used)?;
    note_marked(alloc, rules, &unused, NoteKind::Unused, notes)
}

/// Returns the notes on the rules that a grammar defines again, alone, by the order of the rules.
///
/// # Errors
/// `Memory` if an allocation fails.
pub fn redefinitions(alloc: Global, peg: &Peg) -> Result<Vec<Note>, Memory>
    ensures { IfOk result (λ notes. AreRedefinitions (rules_of peg.now.rules)
        (names_at (rules_of peg.now.rules) peg.now.redefined.items) (map said_of notes.items)) }
{
    let mut notes = Vec::new(alloc);
    note_redefined(alloc, &peg.rules, &peg.redefined, &mut notes)?;
    Ok(notes)
}

fn refuses(note: &Note) -> bool
    ensures { result ≡ said_refuses (said_of note.now) }
{
    note.kind != NoteKind::Unused
}

/// Returns whether these notes reject a grammar: whether one of them is not "not used".
pub(crate) fn refused(notes: &[Note]) -> bool
    ensures { result ≡ list_any said_refuses (map said_of notes.now) }
{
    for note in notes {
        if refuses(note) {
            return true;
        }
    }
    false
}

/// States that there is at most one list of notes on a grammar.
pub fn one_list_of_notes()
    ensures { (rules : List Rule) (again : List (List ℕ)) (start : Option (List ℕ)) (a b : List Said) →
        AreNotes rules again start a → AreNotes rules again start b → a ≡ b }
{}

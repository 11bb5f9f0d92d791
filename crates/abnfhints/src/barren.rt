//! Rules that derive nothing.
ghost use Rattle.std.specs.Prelude.{◌≡◌, ◌↔◌, ◌++◌, List, flat_map, map, length, take, IsTrue, IfOk, OnOk};
ghost use Rattle.abnfread.specs.AbnfViews.{rules_of};
ghost use Rattle.abnfread.specs.Element.{Rule};
ghost use Rattle.abnfcheck.specs.AbnfGrammar.{IsSound};
ghost use Rattle.abnfcheck.specs.AbnfNotes.{Those};
ghost use Rattle.abnfcheck.specs.RuleMarks.{AreProductive};
ghost use Rattle.abnfhints.specs.AbnfHints.{DerivesNothing, barren_reported, reported_first};
ghost use Rattle.ruletable.specs.Letters.{has};
ghost use Rattle.ruletable.specs.declared.alphabet.Alphabet.{Alphabet};
ghost use Rattle.diagnostics.specs.DefinitionHeads.{defined_at};
ghost use Rattle.diagnostics.specs.NoteLines.{defined_line};
ghost use Rattle.fixpoint.specs.IdMarks.{AreMarks};

use crate::hinted::Hinted;
use crate::hints::MAX_HINTS;
use crate::marks::{Marks, is_marked};
use diagnostics::{Positions, explain_note, push_cut, push_more};
use ruletable::{Memory, NameCase, Note, NoteKind};
use std::alloc::Global;

// Returns whether the rule of that id derives nothing.
fn is_barren(marks: &Marks, id: usize) -> bool
    ensures { (letters : Alphabet) (rules : List Rule) → AreMarks (IsSound rules) (length rules) marks.now.sound.items
        → AreProductive letters rules marks.now.productive.items
        → IsTrue result ↔ DerivesNothing (has letters) rules id }
{
    is_marked(&marks.sound, id) && !is_marked(&marks.productive, id)
}

/// Returns the names of the rules of the file that derive nothing, in order.
///
/// `Memory` if an allocation fails.
pub(crate) fn barren_names<'a>(
    alloc: Global,
    hinted: &Hinted<'a>,
    marks: &Marks,
) -> Result<Vec<&'a [u8]>, Memory>
    requires sound { AreMarks (IsSound (rules_of hinted.now.rules.now)) (length (rules_of hinted.now.rules.now))
        marks.now.sound.items }
    requires productive { AreProductive hinted.now.letters (rules_of hinted.now.rules.now) marks.now.productive.items }
    ensures { IfOk result (λ names. Those (DerivesNothing (has hinted.now.letters) (rules_of hinted.now.rules.now)) 0
        (take hinted.now.count (rules_of hinted.now.rules.now)) (map (λ name. name.now) names.items)) }
{
    let mut names = Vec::new(alloc);
    for id in 0..hinted.rules.len().min(hinted.count) {
        if is_barren(marks, id) {
            names.push(hinted.rules.name(id))?;
        }
    }
    Ok(names)
}

// Returns the line that reports where a rule is first defined.
fn first_definition(alloc: Global, positions: &Positions, name: &[u8]) -> Result<Vec<u8>, Memory>
    requires { positions.now.names ≡ NameCase.Fold }
    ensures { IfOk result (λ why. why.items ≡ defined_line NameCase.Fold (map defined_at positions.now.heads.items)
        name.now) }
{
    let note = Note {
        kind: NoteKind::Unused,
        name: Vec::from_slice(alloc, name)?,
    };
    explain_note(alloc, positions, None, &note)
}

// Adds what is reported of a rule that derives nothing.
fn push_barren(
    alloc: Global,
    out: &mut Vec<u8>,
    positions: &Positions,
    name: &[u8],
) -> Result<(), Memory>
    requires { positions.now.names ≡ NameCase.Fold }
    ensures { OnOk result (out.new.items ≡ out.old.items ++ barren_reported (map defined_at positions.now.heads.items)
        name.now) }
{
    out.extend_from_slice(b"rule '")?;
    push_cut(out, name)?;
    out.extend_from_slice(b"' derives nothing\n")?;
    let line = first_definition(alloc, positions, name)?;
    out.extend_from_slice(&line)?;
    Ok(())
}

// Adds what is reported of each of these.
fn push_each_barren(
    alloc: Global,
    out: &mut Vec<u8>,
    positions: &Positions,
    names: &[&[u8]],
) -> Result<(), Memory>
    requires { positions.now.names ≡ NameCase.Fold }
    ensures { OnOk result (out.new.items ≡ out.old.items ++ flat_map (barren_reported (map defined_at
        positions.now.heads.items)) (map (λ name. name.now) names.now)) }
{
    for name in names {
        push_barren(alloc, out, positions, name)?;
    }
    Ok(())
}

/// Adds what is reported of rules that derive nothing: of the first ones, and how many more there are.
///
/// `Memory` if an allocation fails.
pub(crate) fn push_all_barren(
    alloc: Global,
    out: &mut Vec<u8>,
    positions: &Positions,
    names: &[&[u8]],
) -> Result<(), Memory>
    requires { positions.now.names ≡ NameCase.Fold }
    ensures { OnOk result (out.new.items ≡ out.old.items ++ reported_first (barren_reported (map defined_at
        positions.now.heads.items)) (map (λ name. name.now) names.now)) }
{
    let shown = names.len().min(MAX_HINTS);
    push_each_barren(alloc, out, positions, &names[..shown])?;
    push_more(out, names.len() - shown)?;
    Ok(())
}

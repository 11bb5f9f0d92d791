//! Explanations of notes on left-recursive rules.
ghost use Rattle.std.specs.Prelude.{◌≡◌, ◌<◌, ◌++◌, ℕ, List, Option, None, map, length, OnOk, option_map};
ghost use Rattle.diagnostics.specs.DefinitionHeads.{defined_at};
ghost use Rattle.diagnostics.specs.MentionLines.{mention_lines_by};
ghost use Rattle.diagnostics.specs.NoteLines.{defined_line};
ghost use Rattle.diagnostics.specs.declared.noteplaces.mentions.MentionKind.TheVariants.{Use};
ghost use Rattle.pegread.specs.PegViews.{pattern_of, rules_of};
ghost use Rattle.ruletable.specs.Rules.{find_in};
ghost use Rattle.fixpoint.specs.ShortChains.{IsRoundIfAny};
ghost use Rattle.pegexplain.specs.LeftLines.{way_reported};
ghost use Rattle.pegexplain.specs.LeftNotes.{EndsEarly};
ghost use Rattle.pegexplain.specs.LeftUses.{left_row};
ghost use Rattle.pegexplain.specs.NullTests.{null_mark_of, nullable_by};
ghost use Rattle.pegexplain.specs.PegNotes.{ArePegPositions, IsLeftReported};

use crate::left_lines::{MAX_STEPS, push_steps};
use crate::left_uses::left_rows;
use crate::positions::PegPositions;
use crate::ways::left_way;
use diagnostics::explain_note;
use ruletable::{Memory, Note, NoteKind};
use std::alloc::Global;

/// Of how many left-recursive rules the steps are reported.
pub const MAX_WAYS: usize = 8;

/// Returns before which id the left-recursive rules stand whose steps are explained.
pub(crate) fn ways_end(marks: &[bool]) -> usize
    ensures { EndsEarly marks.now result }
{
    let mut count = 0;
    for id in 0..marks.len() {
        if count == MAX_WAYS {
            return id;
        }
        if marks[id] {
            count += 1;
        }
    }
    marks.len()
}

// Adds where a rule is defined.
fn push_definition(
    alloc: Global,
    out: &mut Vec<u8>,
    positions: &PegPositions,
    name: &[u8],
) -> Result<(), Memory>
    ensures { OnOk result (out.new.items ≡ out.old.items ++ defined_line positions.now.positions.names
        (map defined_at positions.now.positions.heads.items) name.now) }
{
    let name = Vec::from_slice(alloc, name)?;
    let note = Note {
        kind: NoteKind::Unused,
        name,
    };
    let lines = explain_note(alloc, &positions.positions, None, &note)?;
    out.extend_from_slice(&lines)?;
    Ok(())
}

// Adds the steps of the way from a rule back to itself.
fn push_way(
    alloc: Global,
    out: &mut Vec<u8>,
    positions: &PegPositions,
    id: usize,
) -> Result<(), Memory>
    requires { id < length positions.now.rules.rules }
    ensures { OnOk result ((chain : Option (List ℕ))
        × IsRoundIfAny (map (λ rule. left_row (find_in positions.now.rules)
        (nullable_by (null_mark_of positions.now.rules positions.now.nulls.items)) (pattern_of rule.body))
        positions.now.rules.rules) id chain
        × (out.new.items ≡ out.old.items ++ way_reported (rules_of positions.now.rules)
        (nullable_by (null_mark_of positions.now.rules positions.now.nulls.items))
        (mention_lines_by positions.now.positions Use) id chain)) }
{
    let rows = left_rows(alloc, &positions.rules, &positions.nulls)?;
    match left_way(alloc, &rows, id)? {
        Some(chain) => {
            push_steps(alloc, out, positions, id, MAX_STEPS, &chain)?;
            Ok(())
        }
        None => Ok(()),
    }
}

/// Adds what follows a note on the left-recursive rule of a name: the steps of the way back to itself, or where
/// it is defined if `MAX_WAYS` such rules stand before it.
///
/// `Memory` if an allocation fails.
pub(crate) fn push_left(
    alloc: Global,
    out: &mut Vec<u8>,
    positions: &PegPositions,
    name: &[u8],
) -> Result<(), Memory>
    ensures { OnOk result ((text : List ℕ) → ArePegPositions text positions.now → (line : List ℕ)
        × IsLeftReported text name.now line × (out.new.items ≡ out.old.items ++ line)) }
{
    let Some(id) = positions.rules.find(name)? else {
        return Ok(());
    };
    if id < positions.ways {
        push_way(alloc, out, positions, id)?;
    } else {
        push_definition(alloc, out, positions, name)?;
    }
    Ok(())
}

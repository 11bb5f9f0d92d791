//! Explanations of notes.
ghost use Rattle.std.specs.Prelude.{◌≡◌, ◌++◌, ℕ, List, Option, IfOk, OnOk, option_copied};
ghost use Rattle.ruletable.specs.Notes.{Said, said_of};
ghost use Rattle.pegexplain.specs.PegNotes.{ArePegPositions, ExplainsNote, IsFollowingLine, IsLoopReported};

use crate::left_notes::push_left;
use crate::loops::push_first_loop;
use crate::meant::push_near;
use crate::positions::PegPositions;
use diagnostics::{MentionKind, explain_note, mention_lines};
use fixpoint::one_way_back;
use lexer::one_list;
use pegread::{Kind, one_reading};
use ruletable::{Memory, Note, NoteKind};
use std::alloc::Global;

// Adds the line of the first repetition of what may take nothing in the rule of a name.
fn push_loop(
    alloc: Global,
    out: &mut Vec<u8>,
    positions: &PegPositions,
    name: &[u8],
) -> Result<(), Memory>
    ensures { OnOk result ((text : List ℕ) → ArePegPositions text positions.now → (line : List ℕ)
        × IsLoopReported text name.now line × (out.new.items ≡ out.old.items ++ line)) }
{
    let Some(id) = positions.rules.find(name)? else {
        return Ok(());
    };
    let lines = mention_lines(alloc, &positions.positions, MentionKind::Repeat, name)?;
    push_first_loop(
        alloc,
        out,
        &positions.rules,
        &positions.nulls,
        positions.rules.body(id),
        &lines,
    )?;
    Ok(())
}

// Adds the line that follows those of a note, if one does.
fn push_after(
    alloc: Global,
    out: &mut Vec<u8>,
    positions: &PegPositions,
    start: Option<&str>,
    note: &Note,
) -> Result<(), Memory>
    ensures { OnOk result ((text : List ℕ) → ArePegPositions text positions.now → (line : List ℕ)
        × IsFollowingLine text (option_copied start.entry) note.now.kind note.now.name.items line
        × (out.new.items ≡ out.old.items ++ line)) }
{
    match note.kind {
        NoteKind::Undefined => {
            push_near(alloc, out, positions, start, note.name.as_slice())?;
            Ok(())
        }
        NoteKind::LeftRecursion => {
            push_left(alloc, out, positions, note.name.as_slice())?;
            Ok(())
        }
        NoteKind::Loop => {
            push_loop(alloc, out, positions, note.name.as_slice())?;
            Ok(())
        }
        _ => Ok(()),
    }
}

/// Returns the lines that explain a note on a grammar. A name may be given for the start rule.
///
/// - On a rule that is defined again: where it is first defined, and where it is defined again.
/// - On a name that no rule has: its first use, and the rule that is perhaps meant if the name is among the first ones.
/// - On a left-recursive rule: the left steps that lead from it back to it. If `MAX_WAYS` such rules stand before it:
///   where it is defined.
/// - On a rule that repeats what may take nothing: that repetition.
/// - Notes of other kinds have no lines.
///
/// # Errors
/// `Memory` if an allocation fails.
pub fn explain_peg_note(
    alloc: Global,
    positions: &PegPositions,
    start: Option<&str>,
    note: &Note,
) -> Result<Vec<u8>, Memory>
    ensures { IfOk result (λ why. (text : List ℕ) → ArePegPositions text positions.now
        → ExplainsNote text (option_copied start.entry) (said_of note.now) why.items) }
{
    let mut why = explain_note(alloc, &positions.positions, start, note)?;
    push_after(alloc, &mut why, positions, start, note)?;
    Ok(why)
}

/// Says that at most one text explains a note on the grammar of a text.
pub fn one_note_explanation()
    ensures { (text : List ℕ) (start : Option (List ℕ)) (note : Said) (a b : List ℕ) → ExplainsNote text start note a
        → ExplainsNote text start note b → a ≡ b }
{
    one_list::<Kind>();
    one_reading();
    one_way_back();
}

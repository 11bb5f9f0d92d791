//! Alternatives of a choice that the byte at its position decides to fail.
ghost use Rattle.std.specs.Prelude.{◌≡◌, ◌≤◌, ℕ, List, length, slice_get, Some};
ghost use Rattle.pegmatch.specs.Answers.{WasEnough};
ghost use Rattle.pegnodes.specs.Nodes.{Choice, shapes_of};
ghost use Rattle.memo.specs.declared.task.MatchTask.{MatchTask};
ghost use Rattle.packrat.specs.Skipped.{ArePassed, AreSkipped, IsRest};

use crate::iterations::sure_end;
use crate::onward::{Entering, tail_from};
use gramcheck::SoundPeg;
use pegnodes::Skip;

/// Names the tail of a choice after its first alternatives, which fail, if an alternative is left. So many evaluations
/// begin with those that fail.
#[derive(Clone, Copy)]
pub(crate) struct Skips {
    pub(crate) rest: Option<Entering>,
    pub(crate) evals: u32,
}

// Returns how many of the first alternatives of a choice the byte at a position decides to fail: none if the choice has
// no table.
#[inline(always)]
fn skip_at(peg: &SoundPeg, window: &[u8], more: bool, choice: usize, position: usize) -> Skip
    requires some { WasEnough window.now more 0 }
    ensures { (ms : List ℕ) → slice_get (shapes_of peg.now.nodes) choice ≡ Some (Choice ms) →
        ArePassed peg.now window.now more peg.now.keys choice position ms result.index result.evals }
{
    if position < sure_end(window, more) {
        if let Some(table) = peg.choice_table(choice) {
            return table.skip(window[position]);
        }
    }
    Skip { index: 0, evals: 0 }
}

// Returns the tail of a choice from an alternative on, if there is one.
#[inline(always)]
fn rest_from(
    peg: &SoundPeg,
    node: usize,
    alternatives: &[usize],
    index: usize,
    position: usize,
) -> Option<Entering>
    requires { index ≤ length alternatives.now }
    ensures { IsRest peg.now.keys node alternatives.now index position result }
{
    if index < alternatives.len() {
        Some(tail_from(peg, node, alternatives, index, position))
    } else {
        None
    }
}

/// Returns the tail of a choice after the alternatives that the byte at its position decides to fail.
#[inline(always)]
pub(crate) fn skips_at(
    peg: &SoundPeg,
    window: &[u8],
    more: bool,
    choice: usize,
    alternatives: &[usize],
    position: usize,
) -> Skips
    requires some { WasEnough window.now more 0 }
    requires at { slice_get (shapes_of peg.now.nodes) choice ≡ Some (Choice alternatives.now) }
    ensures { AreSkipped peg.now window.now more peg.now.keys (MatchTask.Eval choice position) result }
{
    let skip = skip_at(peg, window, more, choice, position);
    Skips {
        rest: rest_from(peg, choice, alternatives, usize::from(skip.index), position),
        evals: skip.evals,
    }
}

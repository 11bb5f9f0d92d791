//! Nodes whose outcome, or whose operand's, the byte at their position decides.
ghost use Rattle.std.specs.Prelude.{◌≡◌, ℕ, ◌+◌, ◌^◌, ◌<◌, Bool, List, length, IfSome, slice_get, Some};
ghost use Rattle.pegmatch.specs.Answers.{WasEnough};
ghost use Rattle.pegnodes.specs.ByteTables.{IsTabled};
ghost use Rattle.pegnodes.specs.Nodes.{Shape, Star, shapes_of};
ghost use Rattle.packrat.specs.ByteGives.{found_by};
ghost use Rattle.packrat.specs.Known.{IsDecidedAt, IsKnownAt, IsTakenAt};

use crate::iterations::sure_end;
use gramcheck::SoundPeg;
use memo::Found;
use pegnodes::{ByteVerdict, Decided};

/// The outcome of a node, which leaves no events, and how many evaluations begin with it.
#[derive(Clone, Copy)]
pub(crate) struct Known {
    pub(crate) found: Found,
    pub(crate) evals: u32,
}

/// A repetition of one or more, at a position whose byte its operand takes.
#[derive(Clone, Copy)]
pub(crate) struct Taken {
    /// The node of the repetition.
    pub(crate) plus: usize,
    /// The node of its operand.
    pub(crate) operand: usize,
    /// The node that goes on with it.
    pub(crate) star: usize,
    /// The position, in bytes from the front of the window.
    pub(crate) position: usize,
    /// How many evaluations begin with the operand.
    pub(crate) evals: u16,
}

// Returns the outcome at a position that a verdict says.
#[inline(always)]
fn found_at(verdict: ByteVerdict, position: usize) -> Found
    requires { position + 1 < 2 ^ 64 }
    ensures { result ≡ found_by verdict position }
{
    match verdict {
        ByteVerdict::Takes => Found::Took(position + 1),
        ByteVerdict::Stays => Found::Took(position),
        ByteVerdict::Fails => Found::Failed,
    }
}

/// Returns the outcome that the byte at a position decides by the table of a node, if it has one.
#[inline(always)]
pub(crate) fn decided_at(
    peg: &SoundPeg,
    window: &[u8],
    more: bool,
    node: usize,
    position: usize,
) -> Option<Decided>
    requires { WasEnough window.now more 0 }
    ensures decided { IfSome result (λ d. (s : Shape) (k : ℕ) →
        slice_get (shapes_of peg.now.nodes) node ≡ Some s → IsTabled node s k →
        IsDecidedAt peg.now window.now more peg.now.keys k position d) }
    ensures before { IfSome result (λ d. position < length window.now) }
{
    if position >= sure_end(window, more) {
        return None;
    }
    let table = peg.run_table(node)?;
    table.decided(window[position])
}

/// Returns the outcome of an option or predicate, if the byte at the position decides it.
#[inline(always)]
pub(crate) fn known_at(
    peg: &SoundPeg,
    window: &[u8],
    more: bool,
    node: usize,
    position: usize,
) -> Option<Known>
    requires some { WasEnough window.now more 0 }
    requires tabled { (s : Shape) × (slice_get (shapes_of peg.now.nodes) node ≡ Some s) × IsTabled node s node }
    ensures { IfSome result (IsKnownAt peg.now window.now more peg.now.keys node position) }
{
    let decided = decided_at(peg, window, more, node, position)?;
    Some(Known {
        found: found_at(decided.verdict, position),
        evals: u32::from(decided.count),
    })
}

/// Returns the outcome of a repetition that takes nothing: its operand is no key, and the byte at the position decides
/// that the operand fails.
#[inline(always)]
pub(crate) fn ended_at(
    peg: &SoundPeg,
    operand: usize,
    position: usize,
    decided: Decided,
) -> Option<Known>
    ensures { IfSome result (λ known. (window : List ℕ) (more : Bool) (star : ℕ) →
        slice_get (shapes_of peg.now.nodes) star ≡ Some (Star operand) →
        IsDecidedAt peg.now window more peg.now.keys operand position decided →
        IsKnownAt peg.now window more peg.now.keys star position known) }
{
    if peg.is_key_node(operand) {
        return None;
    }
    match decided.verdict {
        ByteVerdict::Fails => Some(Known {
            found: Found::Took(position),
            evals: 1 + u32::from(decided.count),
        }),
        ByteVerdict::Takes => None,
        ByteVerdict::Stays => None,
    }
}

/// Returns how many evaluations begin with the operand of a repetition, if the byte at the position decides that the
/// operand takes it.
#[inline(always)]
pub(crate) fn taken_at(
    peg: &SoundPeg,
    window: &[u8],
    more: bool,
    star: usize,
    position: usize,
) -> Option<u16>
    requires some { WasEnough window.now more 0 }
    ensures { IfSome result (λ evals. (k : ℕ) → slice_get (shapes_of peg.now.nodes) star ≡ Some (Star k) →
        IsTakenAt peg.now window.now more peg.now.keys k position evals) }
{
    let decided = decided_at(peg, window, more, star, position)?;
    match decided.verdict {
        ByteVerdict::Takes => Some(decided.count),
        ByteVerdict::Stays => None,
        ByteVerdict::Fails => None,
    }
}

//! Outcomes of expressions without operands.
ghost use Rattle.std.specs.Prelude.{◌≡◌, ◌≤◌, List, [], ◌∷◌, ◌++◌, length, false, get_or, IfOk, OnOk};
ghost use Rattle.pegread.specs.Pattern.{Pattern, Rule};
ghost use Rattle.gramcheck.specs.Outcome.{Gives};
ghost use Rattle.pegmatch.specs.KeptEvents.{quiet_outcome, EndsWithin};

use crate::compare::{compare, looked_after};
use crate::event::Kept;
use memo::Found;
use ruletable::{ByteSet, Memory};

/// The outcome of an expression without operands.
#[derive(Clone, Copy)]
pub struct Tried {
    /// The outcome.
    pub found: Found,
    /// One more than the last position compared, or 0.
    pub looked: usize,
}

/// Takes a byte, if there is one.
pub fn match_any(window: &[u8], position: usize) -> Tried
    ensures within { EndsWithin result.found (length window.now) }
    ensures looked { result.looked ≤ length window.now }
    ensures value { (rules : List Rule) → Gives rules window.now Pattern.Any position (quiet_outcome result.found)
        result.looked }
{
    if position < window.len() {
        Tried {
            found: Found::Took(position + 1),
            looked: position + 1,
        }
    } else {
        Tried {
            found: Found::Failed,
            looked: 0,
        }
    }
}

/// Takes a byte of the set, if one is next.
pub fn match_set(set: &ByteSet, window: &[u8], position: usize) -> Tried
    ensures within { EndsWithin result.found (length window.now) }
    ensures looked { result.looked ≤ length window.now }
    ensures value { (rules : List Rule) → Gives rules window.now (Pattern.Set (λ b. get_or set.now b false)) position
        (quiet_outcome result.found) result.looked }
{
    if position >= window.len() {
        return Tried {
            found: Found::Failed,
            looked: 0,
        };
    }
    let next = position + 1;
    if set.has(window[position]) {
        Tried {
            found: Found::Took(next),
            looked: next,
        }
    } else {
        Tried {
            found: Found::Failed,
            looked: next,
        }
    }
}

/// Takes these bytes, if they are next.
pub fn match_bytes(bytes: &[u8], window: &[u8], position: usize) -> Tried
    requires { position ≤ length window.now }
    ensures within { EndsWithin result.found (length window.now) }
    ensures looked { result.looked ≤ length window.now }
    ensures value { (rules : List Rule) → Gives rules window.now (Pattern.Bytes bytes.now) position
        (quiet_outcome result.found) result.looked }
{
    let comparison = compare(&window[position..], bytes);
    let looked = looked_after(position, comparison.compared);
    if comparison.begins {
        Tried {
            found: Found::Took(position + bytes.len()),
            looked,
        }
    } else {
        Tried {
            found: Found::Failed,
            looked,
        }
    }
}

//! A search of pairs that cuts states, so that it ends for nested grammars too.
ghost use Rattle.std.specs.Prelude.{◌≡◌, ◌≤◌, ◌<◌, ℕ, List, IsTrue, IfOk, length, slice_get, Some};
ghost use Rattle.rulelines.specs.CutSearch.{AreMorePairs, AreSoundIn, IsCutSearch, IsFollowedIn, state_pair};
ghost use Rattle.rulelines.specs.StackSets.{AsksMore};
ghost use Rattle.rulelines.specs.declared.pairs.SearchedPair.{SearchedPair as a_pair};

use crate::pairs::{SearchedPair, add_pair};
use crate::search::{PairSearch, expand};
use ruletable::Memory;

// Returns whether an earlier pair has the same old state, and a new state without further stacks.
fn is_covered(search: &PairSearch, at: usize) -> bool
    ensures { IsTrue result → (p : a_pair) → slice_get search.now.pairs.items.items at ≡ Some p → AreSoundIn search.now
        → (j : ℕ) × (other : a_pair) × (j < at) × (slice_get search.now.pairs.items.items j ≡ Some other) ×
        AsksMore (state_pair search.now.olds search.now.news other) (state_pair search.now.olds search.now.news p) }
{
    let Some(pair) = search.pairs.items.get(at) else {
        return false;
    };
    for j in 0..at {
        if let Some(other) = search.pairs.items.get(j) {
            if other.old == pair.old && search.news.is_within(other.new, pair.new) {
                return true;
            }
        }
    }
    false
}

// Returns whether the same samples are read in two states.
fn reads_same(search: &PairSearch, old: usize, new: usize, samples: &[u32]) -> bool {
    for symbol in samples {
        if search.olds.reads(old, *symbol) != search.news.reads(new, *symbol) {
            return false;
        }
    }
    true
}

// Cuts both states of a pair, and adds the pair of their tops and the pair of what is below these. Returns whether they
// were cut. A strict cut asks that the same samples are read in the states of both pairs. `Memory` if an allocation
// fails.
fn cut_pair(
    search: &mut PairSearch,
    at: usize,
    samples: &[u32],
    is_strict: bool,
) -> Result<bool, Memory>
    ensures more { IfOk result (λ done. AreMorePairs search.old search.new) }
    ensures cut { IfOk result (λ done. IsTrue done → (samples : List ℕ) (p : a_pair) →
        slice_get search.old.pairs.items.items at ≡ Some p → AreSoundIn search.old → IsFollowedIn search.new samples
        at p) }
{
    let Some(found) = search.pairs.items.get(at) else {
        return Ok(false);
    };
    let pair = *found;
    let Some(old) = search.olds.cut(pair.old)? else {
        return Ok(false);
    };
    let Some(new) = search.news.cut(pair.new)? else {
        return Ok(false);
    };
    if search.olds.has_ended(old.below) {
        return Ok(false);
    }
    if is_strict
        && !(reads_same(search, old.tops, new.tops, samples)
            && reads_same(search, old.below, new.below, samples))
    {
        return Ok(false);
    }
    let tops = SearchedPair {
        old: old.tops,
        new: new.tops,
        parent: at,
        symbol: 0,
    };
    add_pair(&mut search.pairs, tops)?;
    let below = SearchedPair {
        old: old.below,
        new: new.below,
        parent: at,
        symbol: 0,
    };
    add_pair(&mut search.pairs, below)?;
    Ok(true)
}

/// Searches at most `most` pairs, and cuts those that it can, or such as have a strict cut. Returns whether all were
/// searched, and the new whole is done in each where the old one is. `Memory` if an allocation fails.
pub(crate) fn search_by_cuts(
    search: &mut PairSearch,
    samples: &[u32],
    most: usize,
    is_strict: bool,
) -> Result<bool, Memory>
    ensures more { IfOk result (λ done. AreMorePairs search.old search.new) }
    ensures done { IfOk result (λ done. IsTrue done → IsCutSearch samples.now search.old 0 → (n : ℕ) ×
        (length search.new.pairs.items.items ≤ n) × IsCutSearch samples.now search.new n) }
{
    for at in 0..most {
        let Some(found) = search.pairs.items.get(at) else {
            return Ok(true);
        };
        let pair = *found;
        if search.olds.has_ended(pair.old) && !search.news.has_ended(pair.new) {
            return Ok(false);
        }
        if search.olds.is_dead(pair.old) {
            continue;
        }
        if is_covered(search, at) {
            continue;
        }
        if cut_pair(search, at, samples, is_strict)? {
            continue;
        }
        if !expand(search, at, samples)? {
            return Ok(false);
        }
    }
    Ok(false)
}

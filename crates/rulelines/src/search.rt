//! A breadth-first search of pairs of states, for the first line that the old grammar alone derives.
ghost use Rattle.std.specs.Prelude.{◌≡◌, ◌+◌, ℕ, Bool, false, List, IsTrue, IfOk, slice_get, Some};
ghost use Rattle.std.specs.Prelude.{Contains};
ghost use Rattle.rulelines.specs.CutSearch.{AreMorePairs, AreSoundIn, LeadsIn};
ghost use Rattle.rulelines.specs.declared.pairs.SearchedPair.{SearchedPair as a_pair};
ghost use Rattle.rulelines.specs.Samples.{AreInLineOrder};
ghost use Rattle.rulelines.specs.Search.{AreSameGrammars, IsExpanded, IsSearchOutcome, Searches};

use crate::pairs::{Pairs, SearchedPair, add_pair};
use lazydfa::States;
use ruletable::Memory;

/// The states of two grammars, and the pairs of them that a search has found.
#[derive(Drop)]
pub(crate) struct PairSearch {
    /// The states of the old grammar.
    pub(crate) olds: States,
    /// The states of the new grammar.
    pub(crate) news: States,
    /// The pairs.
    pub(crate) pairs: Pairs,
}

/// How a search ended. `First`: the old grammar alone derives the symbols that lead to the pair of that index.
/// `Nothing`: all pairs were searched. `Over`: there was no room for what the pair of that index leads to.
#[derive(Clone, Copy)]
pub(crate) enum SearchEnd {
    First(usize),
    Nothing,
    Over(usize),
}

// Finds the pair that a symbol leads to from another. Returns whether there is room for its states. `Memory` if an
// allocation fails.
fn lead(search: &mut PairSearch, at: usize, symbol: u32) -> Result<bool, Memory>
    ensures same { IfOk result (λ done. AreSameGrammars search.old search.new) }
    ensures led { IfOk result (λ done. (has : ℕ → Bool) (samples : List ℕ) (k m : ℕ) → Searches has samples search.old
        at k m → IsTrue done → AreInLineOrder has samples → slice_get samples k ≡ Some symbol → Searches has samples
        search.new at (k + 1) m) }
    ensures over { IfOk result (λ done. (has : ℕ → Bool) (samples : List ℕ) (k m : ℕ) → Searches has samples search.old
        at k m → (done ≡ false) → Searches has samples search.new at k m) }
    ensures more { IfOk result (λ done. AreMorePairs search.old search.new) }
    ensures leads { IfOk result (λ done. IsTrue done → (p : a_pair) → slice_get search.old.pairs.items.items at ≡ Some p
        → AreSoundIn search.old → LeadsIn search.new symbol p) }
{
    let Some(found) = search.pairs.items.get(at) else {
        return Ok(false);
    };
    let pair = *found;
    let Some(old) = search.olds.next(pair.old, symbol)? else {
        return Ok(false);
    };
    let Some(new) = search.news.next(pair.new, symbol)? else {
        return Ok(false);
    };
    let next = SearchedPair {
        old,
        new,
        parent: at,
        symbol,
    };
    add_pair(&mut search.pairs, next)?;
    Ok(true)
}

/// Finds the pairs that samples lead to from another. Returns whether there is room for their states. `Memory` if an
/// allocation fails.
pub(crate) fn expand(search: &mut PairSearch, at: usize, samples: &[u32]) -> Result<bool, Memory>
    ensures same { IfOk result (λ done. AreSameGrammars search.old search.new) }
    ensures expanded { IfOk result (λ done. (has : ℕ → Bool) (m : ℕ) → AreInLineOrder has samples.now → Searches has
        samples.now search.old at 0 m → IsExpanded done has samples.now search.new at m) }
    ensures more { IfOk result (λ done. AreMorePairs search.old search.new) }
    ensures leads { IfOk result (λ done. IsTrue done → (p : a_pair) → slice_get search.old.pairs.items.items at ≡ Some p
        → AreSoundIn search.old → (c : ℕ) → Contains samples.now c → LeadsIn search.new c p) }
{
    for symbol in samples {
        if !lead(search, at, *symbol)? {
            return Ok(false);
        }
    }
    Ok(true)
}

/// Searches at most `most` pairs in the order in which they were found. `Memory` if an allocation fails.
pub(crate) fn search_all(
    search: &mut PairSearch,
    samples: &[u32],
    most: usize,
) -> Result<SearchEnd, Memory>
    ensures same { IfOk result (λ outcome. AreSameGrammars search.old search.new) }
    ensures outcome { IfOk result (λ outcome. (has : ℕ → Bool) → AreInLineOrder has samples.now → Searches has
        samples.now search.old 0 0 0 → IsSearchOutcome outcome has samples.now search.new) }
{
    for at in 0..most {
        let Some(found) = search.pairs.items.get(at) else {
            return Ok(SearchEnd::Nothing);
        };
        let pair = *found;
        if search.olds.has_ended(pair.old) && !search.news.has_ended(pair.new) {
            return Ok(SearchEnd::First(at));
        }
        if !search.olds.is_dead(pair.old) && !expand(search, at, samples)? {
            return Ok(SearchEnd::Over(at));
        }
    }
    Ok(SearchEnd::Over(most))
}

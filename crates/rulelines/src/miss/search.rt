//! A breadth-first search of the states of a grammar, and of the symbols that cannot follow.
ghost use Rattle.std.specs.Prelude.{◌≡◌, ◌↔◌, ◌<◌, false, IsTrue, IfOk, IfSome, slice_get, Some, length};
ghost use Rattle.lazydfa.specs.StateSets.{StateSet};
ghost use Rattle.rulelines.specs.MissSearch.{IsExpanded, IsFoundAt, IsLedFrom, IsLive, IsNextLive, IsStatePassed};
ghost use Rattle.rulelines.specs.MissSearch.{found_states};

use crate::pairs::{Pairs, SearchedPair, add_pair};
use lazydfa::States;
use ruletable::Memory;
use std::alloc::Global;

/// The states of a grammar that a search has found, each as a pair with itself.
#[derive(Drop)]
pub(crate) struct StateSearch {
    /// The states.
    pub(crate) states: States,
    /// The states that were found, in order.
    pub(crate) pairs: Pairs,
    /// The search goes on from the found state of this index.
    pub(crate) at: usize,
}

// Returns whether a symbol can follow a state, or the whole may end there.
fn is_live(states: &States, state: usize) -> bool
    ensures { (s : StateSet) → slice_get states.now.states state ≡ Some s → IsTrue result ↔ IsLive s }
{
    !states.is_dead(state) || states.has_ended(state)
}

// Finds the state that a symbol leads to from the one of an index. Returns whether it is live; `None` if there is no
// room for it. `Memory` if an allocation fails.
fn lead(search: &mut StateSearch, at: usize, symbol: u32) -> Result<Option<bool>, Memory>
    ensures { IfOk result (λ reported. IfSome reported (IsLedFrom (found_states search.old) (found_states search.new)
        at symbol)) }
{
    let Some(found) = search.pairs.items.get(at) else {
        return Ok(None);
    };
    let from = found.old;
    let Some(next) = search.states.next(from, symbol)? else {
        return Ok(None);
    };
    let pair = SearchedPair {
        old: next,
        new: next,
        parent: at,
        symbol,
    };
    add_pair(&mut search.pairs, pair)?;
    Ok(Some(is_live(&search.states, next)))
}

/// Finds the states that samples lead to from the one of an index. Returns of each sample whether it leads on; `None`
/// if there is no room. `Memory` if an allocation fails.
pub(crate) fn expand(
    alloc: Global,
    search: &mut StateSearch,
    at: usize,
    samples: &[u32],
) -> Result<Option<Vec<bool>>, Memory>
    ensures { IfOk result (λ reported. IfSome reported (λ live. IsExpanded samples.now (found_states search.old)
        (found_states search.new) at live.items)) }
{
    let mut live = Vec::new(alloc);
    for symbol in samples {
        let Some(leads_on) = lead(search, at, *symbol)? else {
            return Ok(None);
        };
        live.push(leads_on)?;
    }
    Ok(Some(live))
}

// Returns whether the state of an index is live, or the first one.
fn is_next(search: &StateSearch, at: usize) -> bool
    ensures live { IsTrue result → 0 < at → (s : StateSet) → IsFoundAt (found_states search.now) at s → IsLive s }
    ensures passed { (result ≡ false) → at < length search.now.pairs.items.items →
        IsStatePassed (found_states search.now) at }
{
    match search.pairs.items.get(at) {
        Some(found) => at == 0 || is_live(&search.states, found.old),
        None => true,
    }
}

/// Returns the index of the next live state, or of the first state; `None` if there is none.
pub(crate) fn next_live(search: &StateSearch) -> Option<usize>
    ensures { IsNextLive (found_states search.now) result }
{
    for at in search.at..search.pairs.items.len() {
        if is_next(search, at) {
            return Some(at);
        }
    }
    None
}

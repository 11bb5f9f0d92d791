//! Pairs of states by number.
ghost use Rattle.std.specs.Prelude.{◌≡◌, IsTrue, IfOk, []};
ghost use Rattle.rulelines.specs.Search.{HasPair, IsPairAdded};

use ruletable::Memory;
use std::alloc::Global;
use std::collections::HashMap;

/// A pair of states of two grammars, and how a search found it.
#[derive(Clone, Copy)]
pub(crate) struct SearchedPair {
    /// The number of the old grammar's state.
    pub(crate) old: usize,
    /// The number of the new grammar's state.
    pub(crate) new: usize,
    /// The index of the pair that it was found from; 0 for the first.
    pub(crate) parent: usize,
    /// The symbol that leads from there.
    pub(crate) symbol: u32,
}

/// Pairs in the order in which a search found them. No two have the same states.
#[derive(Drop)]
pub(crate) struct Pairs {
    /// The pairs.
    pub(crate) items: Vec<SearchedPair>,
    /// Of two states the index of their pair. No contract relies on it.
    positions: HashMap<(usize, usize), usize>,
}

/// Returns no pair. It takes no memory.
pub(crate) fn no_pairs(alloc: Global) -> Pairs
    ensures { result.items.items ≡ [] }
{
    Pairs {
        items: Vec::new(alloc),
        positions: HashMap::new(alloc),
    }
}

// Returns whether a pair of the same states was found.
fn is_found(pairs: &Pairs, pair: SearchedPair) -> bool
    ensures { IsTrue result → HasPair pairs.now.items.items pair.old pair.new }
{
    let Some(index) = pairs.positions.get(&(pair.old, pair.new)) else {
        return false;
    };
    match pairs.items.get(*index) {
        Some(found) => found.old == pair.old && found.new == pair.new,
        None => false,
    }
}

/// Adds a pair, unless one of the same states was found. `Memory` if an allocation fails.
pub(crate) fn add_pair(pairs: &mut Pairs, pair: SearchedPair) -> Result<(), Memory>
    ensures { IfOk result (λ done. IsPairAdded pairs.old.items.items pair pairs.new.items.items) }
{
    if is_found(pairs, pair) {
        return Ok(());
    }
    let index = pairs.items.len();
    pairs.positions.insert((pair.old, pair.new), index)?;
    pairs.items.push(pair)?;
    Ok(())
}

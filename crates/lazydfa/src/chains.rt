//! Chains of numbers, in which entries are found by their hash. No contract relies on them: whoever finds
//! a number there compares the entry.
use ruletable::Memory;
use std::alloc::Global;

/// Hash chains of entries that are numbered from 1 on; 0 is none.
///
/// The entries themselves stand in a vector of the caller. A chain has the entries with one hash slot, each linked to
/// the one before it. `predictions` has a power of two of slots, or none before the first `restart`.
#[derive(Drop)]
pub(crate) struct HashChains {
    /// Of each entry the entry before it in its chain, or 0.
    links: Vec<usize>,
    /// Of each chain its last entry, or 0.
    predictions: Vec<usize>,
}

impl HashChains {
    /// Returns no chain. It takes no memory.
    pub(crate) fn new(alloc: Global) -> HashChains {
        HashChains {
            links: Vec::new(alloc),
            predictions: Vec::new(alloc),
        }
    }

    // Returns the number of the chain of what hashes to that.
    fn slot(&self, hash: usize) -> usize {
        match self.predictions.len().checked_sub(1) {
            Some(mask) => (hash ^ (hash >> 16)) & mask,
            None => 0,
        }
    }

    /// Returns the last entry in the chain of a hash.
    pub(crate) fn last(&self, hash: usize) -> usize {
        self.predictions.get(self.slot(hash)).copied().unwrap_or(0)
    }

    /// Returns the entry before that one in its chain.
    pub(crate) fn before(&self, entry: usize) -> usize {
        if entry > 0 {
            self.links.get(entry - 1).copied().unwrap_or(0)
        } else {
            0
        }
    }

    /// Adds the next entry, which has that hash. `Memory` if an allocation fails.
    pub(crate) fn add(&mut self, hash: usize) -> Result<(), Memory> {
        let slot = self.slot(hash);
        let last = self.predictions.get(slot).copied().unwrap_or(0);
        self.links.push(last)?;
        if slot < self.predictions.len() {
            self.predictions[slot] = self.links.len();
        }
        Ok(())
    }

    /// Forgets all entries and chains.
    pub(crate) fn clear(&mut self) {
        self.links.clear();
        self.predictions.clear();
    }

    /// Where there are fewer chains than entries, forgets all entries, and makes at least so many chains, a power of
    /// two; returns whether it does. `Memory` if an allocation fails; there is no chain then.
    pub(crate) fn restart(&mut self, count: usize) -> Result<bool, Memory> {
        if self.predictions.len() > self.links.len() {
            return Ok(false);
        }
        self.clear();
        let count = count.checked_next_power_of_two().unwrap_or(count);
        self.predictions.resize(count, 0usize)?;
        Ok(true)
    }
}

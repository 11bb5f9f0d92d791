//! Symbols of the lines that are listed.
ghost use Rattle.std.specs.Option.{ForSome};
ghost use Rattle.std.specs.List.Sorted.{IsStrictlyIncreasing};

use crate::list::keys::{LineSymbols, is_inner};
use crate::samples::key_of;
use ruletable::Memory;
use std::alloc::Global;

/// The symbols of the lines that are listed: all symbols of a line, or some.
#[derive(Drop)]
pub(crate) struct ListedSymbols {
    /// The symbols of a line.
    pub(crate) inner: LineSymbols,
    /// The keys of those that stand in the lines, in ascending order; all may, if there is no list.
    pub(crate) only: Option<Vec<u32>>,
    ghost ascends: { ForSome only (λ keys. IsStrictlyIncreasing keys.items) },
}

impl ListedSymbols {
    ghost use Rattle.std.specs.Prelude.{◌≡◌, IfOk};
    ghost use Rattle.rulelines.specs.ListedSets.{listed_in, symbol_set};

    /// Returns a copy of the symbols. `Memory` if an allocation fails.
    pub(crate) fn copied(&self, alloc: Global) -> Result<ListedSymbols, Memory>
        ensures { IfOk result (λ copy. symbol_set copy ≡ symbol_set self.now) }
    {
        let only = match &self.only {
            Some(keys) => Some(Vec::from_slice(alloc, keys)?),
            None => None,
        };
        Ok(ListedSymbols {
            inner: self.inner,
            only,
        })
    }

    /// Returns whether a number is one of the symbols.
    pub(crate) fn has(&self, number: u32) -> bool
        ensures { result ≡ listed_in self.now number }
    {
        if !is_inner(self.inner, number) {
            return false;
        }
        match &self.only {
            Some(keys) => keys.binary_search(&key_of(number)).is_ok(),
            None => true,
        }
    }
}

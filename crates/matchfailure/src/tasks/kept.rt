//! The farthest failing comparisons so far.
ghost use Rattle.std.specs.Prelude.{◌≡◌, [], ◌∷◌, Some, None, OnOk};
ghost use Rattle.matchfailure.specs.KeptFailures.{AddsFailure};

use crate::farthest::Visit;
use ruletable::Memory;
use std::alloc::Global;

/// The farthest byte at which a comparison failed, and the comparisons that failed there. One that was evaluated again
/// is there again.
#[derive(Drop)]
pub(crate) struct KeptFailures {
    /// The byte, from the front of the window, if a comparison failed.
    pub(crate) position: Option<usize>,
    /// The leaves whose comparison failed there.
    pub(crate) visits: Vec<Visit>,
}

impl KeptFailures {
    /// Returns that no comparison failed.
    pub(crate) fn new(alloc: Global) -> KeptFailures
        ensures position { result.position ≡ None }
        ensures visits { result.visits.items ≡ [] }
    {
        KeptFailures {
            position: None,
            visits: Vec::new(alloc),
        }
    }

    // Keeps this failing comparison alone.
    fn begin(&mut self, visit: Visit, stop: usize) -> Result<(), Memory>
        ensures position { OnOk result (self.new.position ≡ Some stop) }
        ensures visits { OnOk result (self.new.visits.items ≡ visit ∷ []) }
    {
        self.visits.clear();
        self.visits.push(visit)?;
        self.position = Some(stop);
        Ok(())
    }

    /// Adds a comparison that fails at a byte, if none failed farther. Drops those that failed before that byte.
    ///
    /// # Errors
    /// `Memory` if an allocation fails.
    pub(crate) fn add(&mut self, visit: Visit, stop: usize) -> Result<(), Memory>
        ensures { OnOk result (AddsFailure visit stop self.old self.new) }
    {
        match self.position {
            None => self.begin(visit, stop),
            Some(position) => {
                if position < stop {
                    return self.begin(visit, stop);
                }
                if position == stop {
                    self.visits.push(visit)?;
                }
                Ok(())
            }
        }
    }
}

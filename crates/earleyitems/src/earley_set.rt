//! An item set of a line, where it stands.
ghost use Rattle.std.specs.Prelude.{◌≡◌};
ghost use Rattle.earleyitems.specs.EarleySets.{predictions_of, firsts_of};

use crate::sets::{Record, SetBounds, Stores};
use flatgrammar::Item;
use std::marker::Model;

/// A view of one Earley set, whose lists stand among those of the line's other sets.
///
/// A set has predictions and items. A prediction is a target; the items of its precomputed closure are not stored. The
/// record of a prediction says where its waiting list begins.
#[derive(Drop)]
pub(crate) struct EarleySet<'a> {
    /// The lists of all sets.
    pub(crate) stores: &'a Stores,
    /// Where the lists of this set stand.
    pub(crate) bounds: &'a SetBounds,
}

impl<'a> Model for EarleySet<'a> {
    ghost use Rattle.earleyitems.specs.EarleySets.{EarleySet, set_in, AreBounds};

    ghost Value = { EarleySet };

    ghost view = { λ f. set_in f.stores.now f.bounds.now };

    ghost invariant = { λ f. AreBounds f.stores.now f.bounds.now };
}

impl<'a> EarleySet<'a> {
    /// Returns the records of the predictions.
    #[inline(always)]
    pub(crate) fn records(&self) -> &'a [Record]
        ensures predictions { predictions_of result.now ≡ self.now.predictions }
        ensures firsts { firsts_of result.now ≡ self.now.firsts }
    {
        &self.stores.records[self.bounds.records.from..self.bounds.records.to]
    }

    /// Returns the items beside the closures.
    #[inline(always)]
    pub(crate) fn items(&self) -> &'a [Item]
        ensures { result.now ≡ self.now.items }
    {
        &self.stores.items[self.bounds.items.from..self.bounds.items.to]
    }

    /// Returns the number of its items, those of the closures counted.
    #[inline(always)]
    pub(crate) fn size(&self) -> usize
        ensures { result ≡ self.now.size }
    {
        self.bounds.size
    }
}

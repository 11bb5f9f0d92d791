//! The sets of a line, one after another.
ghost use Rattle.std.specs.Prelude.{◌≡◌, ◌++◌, ◌∷◌, ℕ, List, [], length, slice_get, slice_index_or, Some, IfOk, OnOk};
ghost use Rattle.flatgrammar.specs.ItemClosures.{closure_of, AreOwners, AreDotLists};
ghost use Rattle.earleyitems.specs.Chosen.{AreCallers};
ghost use Rattle.earleyitems.specs.SetViews.{expand};
ghost use Rattle.earleyitems.specs.EarleySets.{EarleySet as kept_set, set_in, sets_in, AreBounds, AreStored, GoesOn};
ghost use Rattle.earleyitems.specs.EarleySets.{GoOn};
ghost use Rattle.earleyitems.specs.EarleySets.{IsAppended};
ghost use Rattle.earleyitems.specs.ItemOwners.{prediction_rows_with, AreCallersOwned, AreSetsOwned, AreWaitersOwned};
ghost use Rattle.earleyitems.specs.Waiting.{IsKept};

use crate::earley_set::EarleySet;
use crate::postdot::CallingItem;
use crate::predictions::Predictions;
use crate::waiters::{Waiter, list_waiters};
use flatgrammar::{Item, Tables};
use ruletable::Memory;
use std::alloc::Global;
use std::marker::Model;

/// The entries of a vector from index `from` to before index `to`.
#[derive(Clone, Copy)]
pub(crate) struct IndexRange {
    pub(crate) from: usize,
    pub(crate) to: usize,
}

/// A prediction of a set, with its waiting list.
#[derive(Clone, Copy)]
pub(crate) struct Record {
    /// The target that is predicted.
    pub(crate) prediction: usize,
    /// One more than the index of the first entry of its waiting list, or 0 for an empty list.
    pub(crate) first: usize,
}

/// Where the lists of a set stand in `Stores`.
#[derive(Clone, Copy)]
pub(crate) struct SetBounds {
    /// Its predictions.
    pub(crate) records: IndexRange,
    /// Its items beside the closures.
    pub(crate) items: IndexRange,
    /// The entries of its waiting lists stand before this index.
    pub(crate) waiters: usize,
    /// The number of its items, with those of closures.
    pub(crate) size: usize,
}

/// A set as it was filled, before it is stored.
#[derive(Clone, Copy)]
pub(crate) struct Filled<'a> {
    /// Its predictions.
    pub(crate) predictions: &'a Predictions,
    /// Its items beside the closures.
    pub(crate) items: &'a [Item],
    /// Those of the items that call.
    pub(crate) callers: &'a [CallingItem],
    /// The number of items of the closures.
    pub(crate) closures: usize,
}

/// The lists of all sets, one vector for each kind, so that a set needs no vector of its own.
#[derive(Drop)]
pub(crate) struct Stores {
    /// The predictions, set after set.
    pub(crate) records: Vec<Record>,
    /// The items beside the closures, set after set.
    pub(crate) items: Vec<Item>,
    /// The entries of waiting lists, set after set.
    pub(crate) waiters: Vec<Waiter>,
}

/// The Earley sets of a line. Contracts see a list of sets.
///
/// The lists of all sets share three vectors, and `bounds` says where those of a set stand. Emptying keeps the vectors'
/// memory, so that the next line allocates little.
#[derive(Drop)]
pub(crate) struct Sets {
    /// Of each set where its lists stand.
    bounds: Vec<SetBounds>,
    /// The lists of all sets.
    stores: Stores,
}

impl Model for Sets {
    ghost use Rattle.std.specs.Prelude.{List};
    ghost use Rattle.earleyitems.specs.EarleySets.{EarleySet, sets_in, AreStored};

    ghost Value = { List EarleySet };

    ghost view = { λ s. sets_in s.stores s.bounds.items };

    ghost invariant = { λ s. AreStored s.stores s.bounds.items };
}

// Appends a list to another, and returns where it stands.
#[inline(always)]
fn append<T: Copy>(list: &mut Vec<T>, more: &[T]) -> Result<IndexRange, Memory>
    ensures more { GoesOn list.old.items list.new.items }
    ensures part { IfOk result (λ part. IsAppended list.new.items more.now part) }
{
    let from = list.len();
    list.extend_from_slice(more)?;
    Ok(IndexRange {
        from,
        to: list.len(),
    })
}

// Appends the lists of a set to those of the others, and returns where they stand.
#[inline(always)]
fn store(
    flat: &Tables,
    filled: Filled<'_>,
    number: usize,
    stores: &mut Stores,
) -> Result<SetBounds, Memory>
    requires lists { AreDotLists flat.now }
    requires callers { AreCallers flat.now filled.items.now filled.callers.now }
    requires closures { (j : ℕ) → filled.closures ≡ length (expand (closure_of flat.now) j filled.predictions.now) }
    requires owners { AreOwners flat.now }
    ensures more { GoOn stores.old stores.new }
    ensures bounds { IfOk result (λ bounds. AreBounds stores.new bounds) }
    ensures ends { IfOk result (λ bounds. bounds.waiters ≡ length stores.new.waiters.items) }
    ensures owners { IfOk result (λ bounds. (rows : List (List ℕ)) → slice_index_or rows number []
        ≡ filled.entry.predictions.now → AreCallersOwned flat.now rows filled.entry.callers.now
        → AreWaitersOwned flat.now rows stores.old.waiters.items
        → AreWaitersOwned flat.now rows stores.new.waiters.items) }
    ensures kept { IfOk result (λ bounds. IsKept flat.now number filled.entry.predictions.now filled.entry.items.now
        (set_in stores.new bounds)) }
{
    let Some(size) = filled.closures.checked_add(filled.items.len()) else {
        return Err(Memory);
    };
    let items = append(&mut stores.items, filled.items)?;
    let records = list_waiters(
        flat,
        filled.predictions,
        filled.callers,
        number,
        &mut stores.records,
        &mut stores.waiters,
    )?;
    Ok(SetBounds {
        records,
        items,
        waiters: stores.waiters.len(),
        size,
    })
}

// Puts a set after the others.
#[inline(always)]
fn add_set(
    flat: &Tables,
    filled: Filled<'_>,
    bounds: &mut Vec<SetBounds>,
    stores: &mut Stores,
) -> Result<(), Memory>
    requires stored { AreStored stores.old bounds.old.items }
    requires lists { AreDotLists flat.now }
    requires callers { AreCallers flat.now filled.items.now filled.callers.now }
    requires closures { (j : ℕ) → filled.closures ≡ length (expand (closure_of flat.now) j filled.predictions.now) }
    requires owners { AreOwners flat.now }
    ensures stored { OnOk result (AreStored stores.new bounds.new.items) }
    ensures added { IfOk result (λ _. (f : kept_set)
        × ((sets_in stores.new bounds.new.items ≡ sets_in stores.old bounds.old.items ++ f ∷ [])
        × IsKept flat.now (length bounds.old.items) filled.entry.predictions.now filled.entry.items.now f)) }
    ensures owners { IfOk result (λ _. AreSetsOwned flat.now (sets_in stores.old bounds.old.items)
        → AreCallersOwned flat.now
        (prediction_rows_with (sets_in stores.old bounds.old.items) filled.entry.predictions.now)
        filled.entry.callers.now → AreSetsOwned flat.now (sets_in stores.new bounds.new.items)) }
{
    let more = store(flat, filled, bounds.len(), stores)?;
    bounds.push(more)?;
    Ok(())
}

// Empties the lists of all sets, and keeps their memory.
fn empty(bounds: &mut Vec<SetBounds>, stores: &mut Stores)
    ensures bounds { bounds.new.items ≡ [] }
    ensures waiters { stores.new.waiters.items ≡ [] }
{
    bounds.clear();
    stores.records.clear();
    stores.items.clear();
    stores.waiters.clear();
}

impl Sets {
    /// Returns no sets. It takes no memory.
    pub(crate) fn new(alloc: Global) -> Sets
        ensures { result ≡ [] }
    {
        Sets {
            bounds: Vec::new(alloc),
            stores: Stores {
                records: Vec::new(alloc),
                items: Vec::new(alloc),
                waiters: Vec::new(alloc),
            },
        }
    }

    /// Returns the number of sets.
    #[inline(always)]
    pub(crate) fn len(&self) -> usize
        ensures { result ≡ length self.now }
    {
        self.bounds.len()
    }

    /// Returns set `j`, if there is one.
    #[inline(always)]
    pub(crate) fn get(&self, j: usize) -> Option<EarleySet<'_>>
        ensures { result ≡ slice_get self.now j }
    {
        match self.bounds.get(j) {
            Some(bounds) => Some(EarleySet {
                stores: &self.stores,
                bounds,
            }),
            None => None,
        }
    }

    /// Returns the waiting lists of all sets.
    #[inline(always)]
    pub(crate) fn waiters(&self) -> &[Waiter]
        ensures { (k : ℕ) (f : kept_set) → slice_get self.now k ≡ Some f → GoesOn f.waiters result.now }
    {
        &self.stores.waiters
    }

    /// Adds a set as it was filled, with the waiting lists of its predictions. `Memory` if its items are 2 ^ 64 or
    /// more, or if an allocation fails; there is no set then.
    #[inline(always)]
    pub(crate) fn push(&mut self, flat: &Tables, filled: Filled<'_>) -> Result<(), Memory>
        requires lists { AreDotLists flat.now }
        requires callers { AreCallers flat.now filled.items.now filled.callers.now }
        requires closures { (j : ℕ) → filled.closures ≡ length (expand (closure_of flat.now) j filled.predictions.now) }
        requires owners { AreOwners flat.now }
        ensures added { IfOk result (λ _. (f : kept_set) × ((self.new ≡ self.old ++ f ∷ [])
            × IsKept flat.now (length self.old) filled.entry.predictions.now filled.entry.items.now f)) }
        ensures owners { IfOk result (λ _. AreSetsOwned flat.now self.old
            → AreCallersOwned flat.now
            (prediction_rows_with self.old filled.entry.predictions.now) filled.entry.callers.now
            → AreSetsOwned flat.now self.new) }
    {
        match add_set(flat, filled, &mut self.bounds, &mut self.stores) {
            Ok(()) => Ok(()),
            Err(memory) => {
                empty(&mut self.bounds, &mut self.stores);
                Err(memory)
            }
        }
    }

    /// Empties it, and keeps its memory.
    pub(crate) fn clear(&mut self)
        ensures { self.new ≡ [] }
    {
        empty(&mut self.bounds, &mut self.stores);
    }
}

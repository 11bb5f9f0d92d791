//! Sets of items as rows of bits.
ghost use Rattle.std.specs.Prelude.{◌≡◌, ◌⊎◌, ◌<◌, ◌^◌, ℕ, [], length, slice_index_or, Contains, IfOk, IfSome, IfNone};
ghost use Rattle.std.specs.Prelude.{replicate};
ghost use Rattle.earley.specs.RowSets.{HasAt, HasSome, AddsAt, TakesAt, no_items};

use crate::row::BitRow;
use ruletable::Memory;
use std::alloc::Global;
use std::marker::Model;
use std::mem;

/// A set of pairs of a row and a number, with a worklist.
///
/// A number that was added, and not taken yet, is pending. `add` looks for new numbers in a whole row at once, and
/// `take` takes all that is pending in one row. So a fixed point is found with few operations on words.
#[derive(Drop)]
pub struct RowSet {
    /// Allocates the rows.
    alloc: Global,
    /// Of each row its numbers, with those that are pending.
    rows: Vec<BitRow>,
    /// Of each row the numbers that are pending.
    pending: Vec<BitRow>,
    /// The rows that have pending numbers.
    queue: Vec<usize>,
}

impl Model for RowSet {
    ghost use Rattle.earley.specs.RowSets.{Rows, AreQueued};

    ghost Value = { Rows };

    ghost view = { λ s. record { all = s.rows.items; pending = s.pending.items } };

    ghost invariant = { λ s. AreQueued s.rows.items s.pending.items s.queue.items };
}

// Puts a dotted rule into the queue, unless something is pending there already. `Memory` if an allocation fails.
fn enqueue(queue: &mut Vec<usize>, pending: &[BitRow], position: usize) -> Result<(), Memory>
    requires { position < length pending.now }
    ensures kept { (q : ℕ) → Contains queue.old.items q → Contains queue.new.items q }
    ensures only { (q : ℕ) → Contains queue.new.items q → Contains queue.old.items q ⊎ (q ≡ position) }
    ensures there { IfOk result (λ done. Contains queue.new.items position ⊎ HasSome pending.now position) }
{
    match pending[position].next(0) {
        Some(_) => Ok(()),
        None => {
            queue.push(position)?;
            Ok(())
        }
    }
}

/// Returns so many empty rows. `Memory` if an allocation fails.
pub fn empty_rows(alloc: Global, positions: usize) -> Result<Vec<BitRow>, Memory>
    ensures { IfOk result (λ rows. rows.items ≡ replicate positions []) }
{
    let mut rows = Vec::with_capacity(alloc, positions)?;
    for _position in 0..positions {
        rows.push(BitRow::new(alloc))?;
    }
    Ok(rows)
}

impl RowSet {
    /// Returns a set of so many rows, of which each has no number. `Memory` if an allocation fails.
    pub fn new(alloc: Global, positions: usize) -> Result<RowSet, Memory>
        ensures { IfOk result (λ set. set ≡ no_items positions) }
    {
        let rows = empty_rows(alloc, positions)?;
        let pending = empty_rows(alloc, positions)?;
        Ok(RowSet {
            alloc,
            rows,
            pending,
            queue: Vec::new(alloc),
        })
    }

    /// Returns a row by its index.
    pub fn row(&self, position: usize) -> &BitRow
        requires { position < length self.now.all }
        ensures { result.now ≡ slice_index_or self.now.all position [] }
    {
        &self.rows[position]
    }

    /// Adds numbers to a row. Those that are new to it are pending. `Memory` if an allocation fails.
    pub fn add(&mut self, position: usize, found: &BitRow) -> Result<(), Memory>
        requires { position < length self.old.all }
        ensures { IfOk result (λ done. AddsAt position (λ k. Contains found.now k) self.old self.new) }
    {
        if self.rows[position].has_all(found) {
            return Ok(());
        }
        enqueue(&mut self.queue, &self.pending, position)?;
        self.rows[position].merge(found, &mut self.pending[position])?;
        Ok(())
    }

    /// Takes what is pending in a row, which has nothing pending then. `None` if nothing is pending.
    pub fn take(&mut self) -> Option<(usize, BitRow)>
        ensures some { IfSome result (λ taken. TakesAt taken.0 taken.1 self.old self.new) }
        ensures none { IfNone result ((p k : ℕ) → HasAt self.old.pending p k → ⊥) }
        ensures same { IfNone result (self.new ≡ self.old) }
    {
        let position = self.queue.pop()?;
        let row = mem::replace(&mut self.pending[position], BitRow::new(self.alloc));
        Some((position, row))
    }

    /// Returns the rows, in order.
    pub fn into_rows(self) -> Vec<BitRow>
        ensures { result.items ≡ self.all }
    {
        self.rows
    }
}

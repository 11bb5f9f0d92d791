//! An index of keys by their numbers.
ghost use Rattle.std.specs.Prelude.{◌≡◌, ℕ, ◌<◌, ◌≤◌, ◌^◌, [], ◌∷◌, ◌++◌, length, slice_get, Some, IfSome, IfNone};
ghost use Rattle.std.specs.Prelude.{OnOk, OnErr};
ghost use Rattle.memo.specs.KeyLog.{tasks_of};
ghost use Rattle.memo.specs.LogEntries.{evals_of};
ghost use Rattle.memo.specs.Parts.{IsIn};
ghost use Rattle.memo.specs.TaskLinks.{positions_of, bucket_of, bucket_of_cell, AreLinkedCells};
ghost use Rattle.memo.specs.declared.entry.Entry.{Entry};

use crate::entry::{Entry, given_in};
use crate::key_log::Given;
use crate::narrow::narrow;
use crate::task::MatchTask;
use ruletable::Memory;
use std::alloc::Global;
use std::marker::Model;

/// A cell of the index.
#[derive(Clone, Copy)]
pub(crate) struct IndexCell {
    /// The number of a key.
    pub(crate) number: usize,
    /// An entry of the log that has the key.
    pub(crate) entry: u32,
    /// One more than the index of the last cell before it in its bucket, or 0.
    pub(crate) link: u32,
}

/// A hash index of keys by their numbers. Contracts see the list of its cells, in the order in which they were added.
///
/// Cells of one bucket are linked, the last one first. A cell names an entry of the log, not an outcome: an entry has
/// the keys of a whole run of positions.
#[derive(Drop)]
pub(crate) struct Index {
    /// The cells, in order.
    cells: Vec<IndexCell>,
    /// Of each bucket one more than the index of its last cell, or 0.
    heads: Vec<u32>,
}

impl Model for Index {
    ghost use Rattle.std.specs.Prelude.{List, length, ◌<◌};
    ghost use Rattle.memo.specs.TaskLinks.{Position, positions_of, bucket_of_cell, AreLinkedCells};

    ghost Value = { List Position };

    ghost view = { λ m. positions_of m.cells.items };

    ghost invariant = { λ m. AreLinkedCells (bucket_of_cell (length m.heads.items)) m.cells.items m.heads.items
        × (0 < length m.cells.items → 0 < length m.heads.items) };
}

// So many buckets there are at first.
const FIRST: usize = 64;

// Returns the bucket of a number.
#[tactic(auto, unfolding(crate::specs::TaskLinks::bucket_of))]
#[inline(always)]
fn bucket(count: usize, number: usize) -> usize
    requires { 0 < count }
    ensures value { result ≡ bucket_of count number }
    ensures within { result < count }
{
    number & (count - 1)
}

// Returns what an entry says of the key of that number, sought among the cells of its bucket.
fn walk(
    cells: &[IndexCell],
    heads: &[u32],
    entries: &[Entry],
    number: usize,
    task: MatchTask,
) -> Option<Given>
    requires some { 0 < length heads.now }
    requires linked { AreLinkedCells (bucket_of_cell (length heads.now)) cells.now heads.now }
    ensures some { IfSome result (λ g. (i : ℕ) × (e : Entry) × (slice_get entries.now i ≡ Some e)
        × IsIn (record { task = task; given = g }) (evals_of e)) }
    ensures none { IfNone result ((i : ℕ) (e : Entry) → IsIn (record { number = number; entry = i })
        (positions_of cells.now) → slice_get entries.now i ≡ Some e → IsIn task (tasks_of (evals_of e)) → ⊥) }
{
    let mut at = heads[bucket(heads.len(), number)] as usize;
    while at > 0 {
        let cell = cells[at - 1];
        if cell.number == number {
            if let Some(given) = given_in(entries, cell.entry, task) {
                return Some(given);
            }
        }
        at = cell.link as usize;
    }
    None
}

// Empties all buckets.
fn wipe(heads: &mut [u32])
    ensures count { length heads.new ≡ length heads.old }
    ensures none { (b h : ℕ) → slice_get heads.new b ≡ Some h → h ≡ 0 }
{
    for head in heads.iter_mut() {
        *head = 0;
    }
}

// Links all cells anew, whatever the heads were.
fn relink(cells: &mut [IndexCell], heads: &mut [u32])
    requires some { 0 < length heads.old }
    requires few { length cells.old < 2 ^ 32 }
    ensures linked { AreLinkedCells (bucket_of_cell (length heads.new)) cells.new heads.new }
    ensures same { positions_of cells.new ≡ positions_of cells.old }
    ensures count { length heads.new ≡ length heads.old }
{
    wipe(heads);
    for i in 0..cells.len() {
        let cell = cells[i];
        let at = bucket(heads.len(), cell.number);
        cells[i].link = heads[at];
        heads[at] = i as u32 + 1;
    }
}

// Makes twice so many buckets, and some at first.
fn grow(cells: &mut [IndexCell], heads: &mut Vec<u32>) -> Result<(), Memory>
    requires few { length cells.old < 2 ^ 32 }
    requires linked { AreLinkedCells (bucket_of_cell (length heads.old.items)) cells.old heads.old.items }
    ensures linked { AreLinkedCells (bucket_of_cell (length heads.new.items)) cells.new heads.new.items }
    ensures same { positions_of cells.new ≡ positions_of cells.old }
    ensures some { OnOk result (0 < length heads.new.items) }
    ensures unchanged { OnErr result (heads.new.items ≡ heads.old.items) }
{
    let count = heads.len().saturating_add(heads.len()).max(FIRST);
    heads.resize(count, 0)?;
    relink(cells, heads);
    Ok(())
}

// Adds a cell after the last one of its bucket.
fn add(
    cells: &mut Vec<IndexCell>,
    heads: &mut [u32],
    number: usize,
    entry: u32,
) -> Result<(), Memory>
    requires some { 0 < length heads.old }
    requires linked { AreLinkedCells (bucket_of_cell (length heads.old)) cells.old.items heads.old }
    ensures linked { AreLinkedCells (bucket_of_cell (length heads.new)) cells.new.items heads.new }
    ensures added { OnOk result (positions_of cells.new.items ≡ positions_of cells.old.items
        ++ record { number = number; entry = entry } ∷ []) }
    ensures unchanged { OnErr result (cells.new.items ≡ cells.old.items) }
    ensures count { length heads.new ≡ length heads.old }
{
    let next = narrow(cells.len() + 1)?;
    let at = bucket(heads.len(), number);
    let link = heads[at];
    cells.push(IndexCell {
        number,
        entry,
        link,
    })?;
    heads[at] = next;
    Ok(())
}

impl Index {
    /// Returns an index without cells; it takes no memory.
    pub(crate) fn new(alloc: Global) -> Index
        ensures { result ≡ [] }
    {
        Index {
            cells: Vec::new(alloc),
            heads: Vec::new(alloc),
        }
    }

    /// Empties it, in constant time.
    pub(crate) fn clear(&mut self)
        ensures { self.new ≡ [] }
    {
        self.cells.clear();
        self.heads.clear();
    }

    /// Adds a cell: the number of a key, and the entry that has the key.
    ///
    /// # Errors
    /// `Memory` if an allocation fails; no cell is added.
    pub(crate) fn push(&mut self, number: usize, entry: u32) -> Result<(), Memory>
        ensures added { OnOk result (self.new ≡ self.old ++ record { number = number; entry = entry } ∷ []) }
        ensures unchanged { OnErr result (self.new ≡ self.old) }
    {
        if self.cells.len() >= self.heads.len() {
            let _few = narrow(self.cells.len())?;
            grow(&mut self.cells, &mut self.heads)?;
        }
        add(&mut self.cells, &mut self.heads, number, entry)
    }

    /// Looks up the stored outcome of the key of that number, if the index has the key.
    pub(crate) fn find(&self, entries: &[Entry], number: usize, task: MatchTask) -> Option<Given>
        ensures some { IfSome result (λ g. (i : ℕ) × (e : Entry) × (slice_get entries.now i ≡ Some e)
            × IsIn (record { task = task; given = g }) (evals_of e)) }
        ensures none { IfNone result ((i : ℕ) (e : Entry) → IsIn (record { number = number; entry = i }) self.now
            → slice_get entries.now i ≡ Some e → IsIn task (tasks_of (evals_of e)) → ⊥) }
    {
        if self.cells.is_empty() {
            None
        } else {
            walk(&self.cells, &self.heads, entries, number, task)
        }
    }
}

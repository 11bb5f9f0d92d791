//! The log of the keys.
ghost use Rattle.std.specs.Prelude.{◌≡◌, ℕ, ◌+◌, ◌<◌, ◌≤◌, ◌^◌, [], ◌∷◌, ◌++◌, length, true, IfOk};
ghost use Rattle.std.specs.Prelude.{IfSome, IfNone, OnOk, OnErr, vec_capacity, vec_len};
ghost use Rattle.memo.specs.KeyLog.{tasks_of, row_of, position_of, run_of, steps_of};
ghost use Rattle.memo.specs.LogEntries.{node_of, evals_of, AreCovered};
ghost use Rattle.memo.specs.Parts.{IsIn};
ghost use Rattle.memo.specs.TaskLinks.{Position};
ghost use Rattle.memo.specs.declared.key_log.Stored.{Stored};

use crate::entry::{Entry, given_in};
use crate::found::Found;
use crate::index::Index;
use crate::narrow::narrow;
use crate::task::MatchTask;
use ruletable::Memory;
use std::alloc::Global;
use std::marker::Model;

/// The stored outcome of a key.
#[derive(Clone, Copy)]
pub struct Given {
    /// The outcome.
    pub found: Found,
    /// The head of its events in a log of events, or 0 if it has none.
    pub events: usize,
}

/// A key that was evaluated, with its outcome.
#[derive(Clone, Copy)]
pub struct Stored {
    /// The key.
    pub task: MatchTask,
    /// The outcome.
    pub given: Given,
}

/// The high-water mark of a row. It counts only in its own unit, so that no mark is reset.
#[derive(Clone, Copy)]
pub(crate) struct Mark {
    /// The unit in which a key of the row was stored last.
    pub(crate) unit: u64,
    /// The greatest position of the row's keys in that unit.
    pub(crate) highest: u32,
    /// The entry of the row that was stored last.
    pub(crate) last: u32,
}

/// The memo table of a unit, as a log: the keys that were evaluated, with their outcomes. Contracts see the keys, the
/// last one first, and the number of rows. A row has the keys of one node.
///
/// Each row has a high-water mark: no key of the row at the mark or after it was stored in this unit. So most keys are
/// seen to be new without a search. A mark has the number of its unit, and one of an earlier unit counts for nothing.
/// So no mark is reset when a unit begins.
///
/// An entry takes 24 bytes, and has all positions of a run. A key below its row's mark is sought in the row's last
/// entry, and then in the index. The index is filled only when a key is sought there.
#[derive(Drop)]
pub struct KeyLog {
    /// The entries, in the order in which they were stored.
    entries: Vec<Entry>,
    /// How many keys the entries have.
    count: usize,
    /// Of each row its high-water mark.
    high: Vec<Mark>,
    /// The number of this unit. It wraps around after 2^64 units.
    unit: u64,
    /// Finds a key in the first `covered` entries.
    index: Index,
    /// How many entries the index covers.
    covered: usize,
}

impl Model for KeyLog {
    ghost use Rattle.std.specs.Prelude.{reverse, length};
    ghost use Rattle.memo.specs.KeyLog.{LogView};
    ghost use Rattle.memo.specs.LogEntries.{stored_of, IsLog};

    ghost Value = { LogView };

    ghost view = { λ m. record { stored = stored_of (reverse m.entries.items); rows = length m.high.items } };

    ghost invariant = { λ m. IsLog m.unit m.count m.covered m.high.items m.entries.items m.index };
}

// Returns a row's mark where an entry of the row is stored, whose keys stand at `highest` or below.
#[inline(always)]
fn raised(mark: Mark, unit: u64, highest: u32, last: u32) -> Mark
    ensures unit { result.unit ≡ unit }
    ensures highest { highest ≤ result.highest }
    ensures kept { mark.unit ≡ unit → mark.highest ≤ result.highest }
{
    if mark.unit == unit && highest <= mark.highest {
        Mark { last, ..mark }
    } else {
        Mark {
            unit,
            highest,
            last,
        }
    }
}

// Puts so many numbers of an entry into the index.
fn put_numbers(index: &mut Index, first: usize, count: usize, entry: u32) -> Result<(), Memory>
    requires room { first + count < 2 ^ 64 }
    ensures kept { (p : Position) → IsIn p index.old → IsIn p index.new }
    ensures numbers { OnOk result ((n : ℕ) → first ≤ n → n < first + count
        → IsIn (record { number = n; entry = entry }) index.new) }
{
    for number in first..first + count {
        index.push(number, entry)?;
    }
    Ok(())
}

// Puts the keys of the entries into the index, from entry `covered` on.
fn cover(index: &mut Index, entries: &[Entry], covered: &mut usize) -> Result<(), Memory>
    requires covered { AreCovered covered.old entries.now index.old }
    requires within { covered.old ≤ length entries.now }
    ensures covered { AreCovered covered.new entries.now index.new }
    ensures within { covered.new ≤ length entries.now }
    ensures all { OnOk result (length entries.now ≤ covered.new) }
{
    for at in *covered..entries.len() {
        let extent = entries[at].extent();
        put_numbers(index, extent.first, extent.count, narrow(at)?)?;
        *covered = at + 1;
    }
    Ok(())
}

// Makes room for more entries.
#[inline(never)]
fn more_entries(entries: &mut Vec<Entry>) -> Result<(), Memory>
    ensures items { entries.new.items ≡ entries.old.items }
    ensures room { OnOk result (vec_len entries.new < vec_capacity entries.new) }
{
    entries.reserve(1)?;
    Ok(())
}

// Makes room for one more entry.
#[inline(always)]
fn make_room(entries: &mut Vec<Entry>) -> Result<(), Memory>
    ensures items { entries.new.items ≡ entries.old.items }
    ensures room { OnOk result (vec_len entries.new < vec_capacity entries.new) }
{
    if entries.len() < entries.capacity() {
        return Ok(());
    }
    more_entries(entries)
}

impl KeyLog {
    /// Returns an empty log without rows; it takes no memory.
    pub fn new(alloc: Global) -> KeyLog
        ensures { result ≡ record { stored = []; rows = 0 } }
    {
        KeyLog {
            entries: Vec::new(alloc),
            count: 0,
            high: Vec::new(alloc),
            unit: 0,
            index: Index::new(alloc),
            covered: 0,
        }
    }

    /// Returns how many keys are stored.
    pub fn len(&self) -> usize
        ensures { result ≡ length self.now.stored }
    {
        self.count
    }

    /// Empties it; its rows stay.
    pub fn clear(&mut self)
        ensures { self.new ≡ record { stored = []; rows = self.old.rows } }
    {
        self.entries.clear();
        self.count = 0;
        self.unit = self.unit.wrapping_add(1);
        self.index.clear();
        self.covered = 0;
    }

    /// Empties it for the next unit, and gives it so many rows. If it has as many, that takes constant time.
    ///
    /// # Errors
    /// `Memory` if an allocation fails; it is empty.
    pub fn begin_unit(&mut self, rows: usize) -> Result<(), Memory>
        ensures rows { OnOk result (self.new ≡ record { stored = []; rows = rows }) }
        ensures empty { self.new.stored ≡ [] }
    {
        self.clear();
        let none = Mark {
            unit: 0,
            highest: 0,
            last: 0,
        };
        self.high.resize(rows, none)?;
        Ok(())
    }

    /// Returns the mark of a row: a position that no stored key of the row reaches.
    #[inline(always)]
    pub fn mark(&self, row: usize) -> usize
        ensures { (s : Stored) → IsIn s self.now.stored → row_of s.task ≡ row → position_of s.task < result }
    {
        match self.high.get(row) {
            Some(mark) => {
                if mark.unit == self.unit {
                    mark.highest as usize + 1
                } else {
                    0
                }
            }
            None => 0,
        }
    }

    /// Returns whether a position is at the mark of a row or after it: no key of the row is stored there or after it.
    #[inline(always)]
    pub fn is_new(&self, row: usize, position: usize) -> bool
        ensures { result ≡ true → (s : Stored) → IsIn s self.now.stored → row_of s.task ≡ row → position_of s.task
            < position }
    {
        position >= self.mark(row)
    }

    /// Looks up the outcome of a key, if it is stored.
    ///
    /// # Errors
    /// `Memory` if an allocation fails.
    #[inline]
    pub fn get(&mut self, task: MatchTask) -> Result<Option<Given>, Memory>
        ensures some { IfOk result (λ found. IfSome found (λ g. IsIn (record { task = task; given = g })
            self.old.stored)) }
        ensures none { IfOk result (λ found. IfNone found (IsIn task (tasks_of self.old.stored) → ⊥)) }
        ensures same { self.new ≡ self.old }
    {
        if self.is_new(task.row(), task.position()) {
            return Ok(None);
        }
        match self.last_given(task) {
            Some(given) => Ok(Some(given)),
            None => self.seek(task),
        }
    }

    // Returns what the last entry of its row says of a key, if it has the key.
    fn last_given(&self, task: MatchTask) -> Option<Given>
        ensures { IfSome result (λ g. IsIn (record { task = task; given = g }) self.now.stored) }
    {
        match self.high.get(task.row()) {
            Some(mark) => given_in(&self.entries, mark.last, task),
            None => None,
        }
    }

    // Returns what the index says of a key, with all entries in it.
    #[inline(never)]
    fn seek(&mut self, task: MatchTask) -> Result<Option<Given>, Memory>
        ensures some { IfOk result (λ found. IfSome found (λ g. IsIn (record { task = task; given = g })
            self.old.stored)) }
        ensures none { IfOk result (λ found. IfNone found (IsIn task (tasks_of self.old.stored) → ⊥)) }
        ensures same { self.new ≡ self.old }
    {
        match task.number() {
            Ok(number) => {
                cover(&mut self.index, &self.entries, &mut self.covered)?;
                Ok(self.index.find(&self.entries, number, task))
            }
            Err(_) => Ok(None),
        }
    }

    /// Stores what was found for a key, which must be of a row that the log has.
    ///
    /// # Errors
    /// `Memory` if an allocation fails, or if a number does not fit into 32 bits; nothing is stored.
    #[inline]
    pub fn put(&mut self, task: MatchTask, given: Given) -> Result<(), Memory>
        requires row { row_of task < self.old.rows }
        ensures stored { OnOk result (self.new.stored ≡ record { task = task; given = given } ∷ self.old.stored) }
        ensures rows { self.new.rows ≡ self.old.rows }
        ensures unchanged { OnErr result (self.new.stored ≡ self.old.stored) }
    {
        let entry = Entry::of_task(task, given)?;
        self.store(entry)
    }

    /// Stores what was found for the evaluations of a node at the positions from `from` to `to`. The node must be a row
    /// that the log has.
    ///
    /// # Errors
    /// `Memory` if an allocation fails, or if a number does not fit into 32 bits; nothing is stored.
    #[inline]
    pub fn put_run(
        &mut self,
        node: usize,
        from: usize,
        to: usize,
        given: Given,
    ) -> Result<(), Memory>
        requires row { node < self.old.rows }
        ensures stored { OnOk result (self.new.stored ≡ run_of node from to given ++ self.old.stored) }
        ensures rows { self.new.rows ≡ self.old.rows }
        ensures unchanged { OnErr result (self.new.stored ≡ self.old.stored) }
    {
        let entry = Entry::run(node, from, to, given)?;
        self.store(entry)
    }

    /// Stores that a node takes one byte, with no events, at each position from `from` on, short of `to`. The node must
    /// be a row that the log has.
    ///
    /// # Errors
    /// `Memory` if an allocation fails, or if a number does not fit into 32 bits; nothing is stored.
    #[inline]
    pub fn put_steps(&mut self, node: usize, from: usize, to: usize) -> Result<(), Memory>
        requires row { node < self.old.rows }
        ensures stored { OnOk result (self.new.stored ≡ steps_of node from to ++ self.old.stored) }
        ensures rows { self.new.rows ≡ self.old.rows }
        ensures unchanged { OnErr result (self.new.stored ≡ self.old.stored) }
    {
        let entry = Entry::steps(node, from, to)?;
        self.store(entry)
    }

    // Stores an entry.
    #[inline(always)]
    fn store(&mut self, entry: Entry) -> Result<(), Memory>
        requires row { node_of entry < self.old.rows }
        ensures stored { OnOk result (self.new.stored ≡ evals_of entry ++ self.old.stored) }
        ensures rows { self.new.rows ≡ self.old.rows }
        ensures unchanged { OnErr result (self.new.stored ≡ self.old.stored) }
    {
        let extent = entry.extent();
        let last = narrow(self.entries.len())?;
        let count = self.count.checked_add(extent.count).ok_or(Memory)?;
        make_room(&mut self.entries)?;
        self.entries.push_reserved(entry);
        self.count = count;
        let row = extent.row;
        self.high[row] = raised(self.high[row], self.unit, extent.highest, last);
        Ok(())
    }
}

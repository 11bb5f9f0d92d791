//! States of a grammar, their transitions, and from which of them so many symbols lead to the end.
ghost use Rattle.std.specs.Prelude.{◌≡◌, ◌↔◌, ◌<◌, ◌≤◌, ℕ, IsTrue, IfOk, IfSome, slice_get, Some, Contains};
ghost use Rattle.lazydfa.specs.StateSets.{AreMoreStates, StateSet};
ghost use Rattle.rulelines.specs.StateTables.{HasRestIn, IsCan, IsEntryAdded, IsFirstKeyIn, IsTableGrown};
ghost use Rattle.rulelines.specs.StateTables.{IsStateTable};
ghost use Rattle.rulelines.specs.StateTables.{IsStep, IsWholeRow, TakesKeyIn};

use crate::list::listed::ListedSymbols;
use crate::list::starts::start_up_to;
use crate::samples::{key_of, symbol_at};
use lazydfa::States;
use ruletable::Memory;
use std::alloc::Global;

/// The states that symbols lead to from the start, and what is known of them. It grows with the length of the lines
/// that are asked for.
#[derive(Drop)]
pub(crate) struct Table {
    /// The symbols of the lines that are listed.
    pub(crate) symbols: ListedSymbols,
    /// The states.
    pub(crate) states: States,
    /// The number of the start state.
    pub(crate) start: usize,
    /// States below this number were reached.
    pub(crate) seen: usize,
    /// The keys at which classes of symbols start, in ascending order.
    pub(crate) starts: Vec<u32>,
    /// Of each of the first states, of each start, the number of the state that it leads to.
    pub(crate) rows: Vec<Vec<usize>>,
    /// Of each count, of each of the first states, whether exactly so many symbols may lead from there to the end.
    pub(crate) levels: Vec<Vec<bool>>,
    /// The number of entries of all levels.
    pub(crate) cells: usize,
    /// The most entries that all levels may have.
    pub(crate) room: usize,
}

/// Returns the number of the state that a symbol that is listed leads to from another; `None` if it is none, or the
/// table has no such entry.
pub(crate) fn step(table: &Table, state: usize, symbol: u32) -> Option<usize>
    requires table { IsStateTable table.now }
    ensures { IfSome result (IsStep table.now state symbol) }
{
    if !table.symbols.has(symbol) {
        return None;
    }
    let class = start_up_to(&table.starts, key_of(symbol))?;
    let row = table.rows.get(state)?;
    let next = row.get(class)?;
    Some(*next)
}

/// Returns whether exactly so many symbols may lead from a state to the end; `None` if the table has no such entry.
pub(crate) fn can_end(table: &Table, state: usize, count: usize) -> Option<bool>
    requires table { IsStateTable table.now }
    ensures { IfSome result (IsCan table.now state count) }
{
    let level = table.levels.get(count)?;
    let can = level.get(state)?;
    Some(*can)
}

/// Returns whether the symbol of a key, and exactly `rest` more, may lead from a state to the end; `None` if the table
/// lacks an entry.
pub(crate) fn takes_key(table: &Table, state: usize, key: u32, rest: usize) -> Option<bool>
    requires table { IsStateTable table.now }
    ensures { IfSome result (λ takes. (s : StateSet) → slice_get table.now.states.states state ≡ Some s →
        IsTrue takes ↔ TakesKeyIn table.now s key rest) }
{
    let symbol = symbol_at(key);
    if !table.symbols.has(symbol) || key_of(symbol) != key {
        return Some(false);
    }
    let next = step(table, state, symbol)?;
    can_end(table, next, rest)
}

/// Returns the first key from a number on whose symbol, and exactly `rest` more, may lead from a state to the end.
/// `None` if the table lacks an entry.
pub(crate) fn first_key(table: &Table, state: usize, from: u32, rest: usize) -> Option<Option<u32>>
    requires table { IsStateTable table.now }
    ensures { IfSome result (λ found. (s : StateSet) → slice_get table.now.states.states state ≡ Some s →
        IsFirstKeyIn table.now s from rest found) }
{
    if takes_key(table, state, from, rest)? {
        return Some(Some(from));
    }
    for key in &table.starts {
        if *key > from && takes_key(table, state, *key, rest)? {
            return Some(Some(*key));
        }
    }
    Some(None)
}

// Returns whether exactly so many symbols may lead from a state to the end, by the levels of fewer; `None` if they lack
// an entry.
fn entry_of(table: &Table, state: usize, count: usize) -> Option<bool>
    requires table { IsStateTable table.now }
    ensures { IfSome result (λ can. (s : StateSet) → slice_get table.now.states.states state ≡ Some s →
        IsTrue can ↔ HasRestIn table.now s count) }
{
    let Some(rest) = count.checked_sub(1) else {
        return Some(table.states.has_ended(state));
    };
    let found = first_key(table, state, 0, rest)?;
    Some(found.is_some())
}

// Adds an entry to the end of a level. `Memory` if an allocation fails.
fn add_entry(levels: &mut Vec<Vec<bool>>, count: usize, can: bool) -> Result<(), Memory>
    ensures { IfOk result (λ done. IsEntryAdded levels.old.items count can levels.new.items) }
{
    if let Some(level) = levels.get_mut(count) {
        level.push(can)?;
    }
    Ok(())
}

// Adds the next entry to a level, and returns whether there is one. `Memory` if an allocation fails.
fn extend_once(table: &mut Table, count: usize) -> Result<bool, Memory>
    requires table { IsStateTable table.old }
    ensures { IfOk result (λ done. IsTableGrown table.old table.new) }
{
    let Some(level) = table.levels.get(count) else {
        return Ok(false);
    };
    let state = level.len();
    if state >= table.seen || table.cells >= table.room {
        return Ok(false);
    }
    let Some(can) = entry_of(table, state, count) else {
        return Ok(false);
    };
    add_entry(&mut table.levels, count, can)?;
    table.cells += 1;
    Ok(true)
}

// Adds entries to a level, as long as there are more. `Memory` if an allocation fails.
fn extend_level(table: &mut Table, count: usize) -> Result<(), Memory>
    requires table { IsStateTable table.old }
    ensures { IfOk result (λ done. IsTableGrown table.old table.new) }
{
    for _ in 0..table.seen {
        if !extend_once(table, count)? {
            break;
        }
    }
    Ok(())
}

// Returns a number that is greater than each of a row.
fn row_end(row: &[usize]) -> usize
    ensures { (n : ℕ) → ((t : ℕ) → Contains row.now t → t < n) → result ≤ n }
{
    let mut end = 0;
    for next in row {
        if *next >= end {
            end = next.saturating_add(1);
        }
    }
    end
}

// Returns the numbers of the states that starts lead to from a state; `None` if there is no room for them. `Memory` if
// an allocation fails.
fn lead_row(
    alloc: Global,
    states: &mut States,
    starts: &[u32],
    state: usize,
) -> Result<Option<Vec<usize>>, Memory>
    ensures more { IfOk result (λ reported. AreMoreStates states.old states.new) }
    ensures row { IfOk result (λ reported. IfSome reported (λ row. IsWholeRow states.new starts.now state row.items)) }
{
    let mut row = Vec::new(alloc);
    for start in starts {
        let Some(next) = states.next(state, symbol_at(*start))? else {
            return Ok(None);
        };
        row.push(next)?;
    }
    Ok(Some(row))
}

// Finds the transitions of the next state; returns whether there is room for them. `Memory` if an allocation fails.
fn explore_next(alloc: Global, table: &mut Table) -> Result<bool, Memory>
    requires table { IsStateTable table.old }
    ensures { IfOk result (λ done. IsTableGrown table.old table.new) }
{
    let state = table.rows.len();
    let Some(row) = lead_row(alloc, &mut table.states, &table.starts, state)? else {
        return Ok(false);
    };
    let end = row_end(&row);
    table.rows.push(row)?;
    if end > table.seen {
        table.seen = end;
    }
    Ok(true)
}

// Finds the transitions of the states that were reached, if there is a level; returns whether there is room for them.
// `Memory` if an allocation fails.
fn explore_all(alloc: Global, table: &mut Table) -> Result<bool, Memory>
    requires table { IsStateTable table.old }
    ensures { IfOk result (λ done. IsTableGrown table.old table.new) }
{
    let end = if table.levels.is_empty() {
        0
    } else {
        table.seen
    };
    for _ in table.rows.len()..end {
        if !explore_next(alloc, table)? {
            return Ok(false);
        }
    }
    Ok(true)
}

// Adds a level; returns whether there is room for it. `Memory` if an allocation fails.
fn add_level(alloc: Global, table: &mut Table) -> Result<bool, Memory>
    requires table { IsStateTable table.old }
    ensures { IfOk result (λ done. IsTableGrown table.old table.new) }
{
    if table.cells >= table.room {
        return Ok(false);
    }
    if !explore_all(alloc, table)? {
        return Ok(false);
    }
    table.levels.push(Vec::new(alloc))?;
    let whole = table
        .levels
        .partition_point(|level| level.len() >= table.seen);
    for count in whole..table.levels.len() {
        extend_level(table, count)?;
    }
    Ok(true)
}

/// Adds levels until there are that many, or there is no room. `Memory` if an allocation fails.
pub(crate) fn add_levels(alloc: Global, table: &mut Table, most: usize) -> Result<(), Memory>
    requires table { IsStateTable table.old }
    ensures { IfOk result (λ done. IsTableGrown table.old table.new) }
{
    for _ in table.levels.len()..most {
        if !add_level(alloc, table)? {
            break;
        }
    }
    Ok(())
}

//! The first line of a length, and the line after another.
ghost use Rattle.std.specs.Prelude.{◌≡◌, ◌<◌, [], IsTrue, IfOk, IfSome, slice_get, Some, length};
ghost use Rattle.lazydfa.specs.StateSets.{StateSet};
ghost use Rattle.rulelines.specs.LineSets.{IsLineAfter, IsLineIn};
ghost use Rattle.rulelines.specs.StateTables.{IsChange, IsChangedTo, IsFilledBy, IsFirstFrom, IsTableGrown};
ghost use Rattle.rulelines.specs.StateTables.{IsLastChange};
ghost use Rattle.rulelines.specs.StateTables.{IsStateTable, table_lines};

use crate::list::lines::NextLine;
use crate::list::over::is_over;
use crate::list::table::{Table, add_levels, can_end, first_key, step};
use crate::samples::{key_of, symbol_at};
use ruletable::Memory;
use std::alloc::Global;

/// Where a line changes to one after it: the symbol at an index, and the state that it leads to.
#[derive(Clone, Copy)]
pub(crate) struct Change {
    pub(crate) at: usize,
    pub(crate) symbol: u32,
    pub(crate) state: usize,
}

// Adds the first list of that many symbols that leads from a state to the end; returns whether there is one, and the
// table has the entries for it. `Memory` if an allocation fails.
fn fill_word(table: &Table, word: &mut Vec<u32>, state: usize, count: usize) -> Result<bool, Memory>
    requires table { IsStateTable table.now }
    ensures { IfOk result (λ done. IsTrue done → IsFilledBy table.now state count word.old.items word.new.items) }
{
    let mut at = state;
    for done in 0..count {
        let Some(Some(key)) = first_key(table, at, 0, count - 1 - done) else {
            return Ok(false);
        };
        let symbol = symbol_at(key);
        let Some(next) = step(table, at, symbol) else {
            return Ok(false);
        };
        word.push(symbol)?;
        at = next;
    }
    Ok(table.states.has_ended(at))
}

// Returns the change, at an index, to the first symbol from a key on that exactly `rest` more may follow to the end.
// `None` if the table lacks an entry.
fn change_from(
    table: &Table,
    state: usize,
    from: u32,
    rest: usize,
    at: usize,
) -> Option<Option<Change>>
    requires table { IsStateTable table.now }
    ensures { IfSome result (λ change. (s : StateSet) → slice_get table.now.states.states state ≡ Some s →
        IsChange table.now state s from rest at change) }
{
    match first_key(table, state, from, rest)? {
        None => Some(None),
        Some(key) => {
            let symbol = symbol_at(key);
            let next = step(table, state, symbol)?;
            Some(Some(Change {
                at,
                symbol,
                state: next,
            }))
        }
    }
}

// Returns the last change of a line to one after it that is as long. `None` if the table lacks an entry, or the line
// has what is no symbol of a line.
fn last_change(table: &Table, line: &[u32]) -> Option<Option<Change>>
    requires table { IsStateTable table.now }
    ensures { IfSome result (λ best. (s : StateSet) → slice_get table.now.states.states table.now.start ≡ Some s →
        IsLastChange table.now s line.now best) }
{
    let mut state = table.start;
    let mut best = None;
    for at in 0..line.len() {
        let symbol = line[at];
        let next = step(table, state, symbol)?;
        let rest = line.len() - 1 - at;
        let change = change_from(table, state, key_of(symbol) + 1, rest, at)?;
        if change.is_some() {
            best = change;
        }
        state = next;
    }
    Some(best)
}

// Returns the first line of a change; `None` if the table lacks an entry. `Memory` if an allocation fails.
fn changed_line(
    alloc: Global,
    table: &Table,
    line: &[u32],
    change: Change,
) -> Result<Option<Vec<u32>>, Memory>
    requires table { IsStateTable table.now }
    requires within { change.at < length line.now }
    ensures { IfOk result (λ reported. IfSome reported (λ word. IsChangedTo table.now line.now change word.items)) }
{
    let mut word = Vec::new(alloc);
    word.extend_from_slice(&line[..change.at])?;
    word.push(change.symbol)?;
    if !fill_word(table, &mut word, change.state, line.len() - 1 - change.at)? {
        return Ok(None);
    }
    Ok(Some(word))
}

// Returns the first line of that many symbols; `None` if the table lacks an entry. `Memory` if an allocation fails.
fn line_of(alloc: Global, table: &Table, count: usize) -> Result<Option<Vec<u32>>, Memory>
    requires table { IsStateTable table.now }
    ensures { IfOk result (λ reported. IfSome reported (λ word. IsFilledBy table.now table.now.start count []
        word.items)) }
{
    let mut word = Vec::new(alloc);
    if !fill_word(table, &mut word, table.start, count)? {
        return Ok(None);
    }
    Ok(Some(word))
}

/// Returns the first line of at least that many symbols and at most `limit`; `None` if there is no room for the states.
/// `Memory` if an allocation fails.
pub(crate) fn line_from(
    alloc: Global,
    table: &mut Table,
    least: usize,
    limit: u32,
) -> Result<Option<NextLine>, Memory>
    requires table { IsStateTable table.old }
    ensures kept { IfOk result (λ reported. IsTableGrown table.old table.new) }
    ensures is { IfOk result (λ line. IfSome line (IsFirstFrom (IsLineIn (table_lines table.old limit)) least)) }
{
    for count in least..limit as usize + 1 {
        add_levels(alloc, table, count + 1)?;
        let Some(can) = can_end(table, table.start, count) else {
            return Ok(None);
        };
        if can {
            let Some(word) = line_of(alloc, table, count)? else {
                return Ok(None);
            };
            return Ok(Some(NextLine::Line(word)));
        }
        if is_over(table, count) {
            return Ok(Some(NextLine::Done));
        }
    }
    Ok(Some(NextLine::Done))
}

/// Returns the line after another; `None` if there is no room for the states, or the other is no line. `Memory` if an
/// allocation fails.
pub(crate) fn line_after(
    alloc: Global,
    table: &mut Table,
    line: &[u32],
    limit: u32,
) -> Result<Option<NextLine>, Memory>
    requires table { IsStateTable table.old }
    ensures kept { IfOk result (λ reported. IsTableGrown table.old table.new) }
    ensures is { IfOk result (λ reported. IfSome reported (IsLineAfter
        (IsLineIn (table_lines table.old limit)) line.now)) }
{
    if line.len() > limit as usize {
        return Ok(None);
    }
    add_levels(alloc, table, line.len())?;
    match last_change(table, line) {
        None => Ok(None),
        Some(None) => line_from(alloc, table, line.len() + 1, limit),
        Some(Some(change)) => {
            let Some(word) = changed_line(alloc, table, line, change)? else {
                return Ok(None);
            };
            Ok(Some(NextLine::Line(word)))
        }
    }
}

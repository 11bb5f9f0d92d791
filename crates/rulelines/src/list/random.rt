//! Lines by lot.
ghost use Rattle.std.specs.Prelude.{◌≡◌, ◌≤◌, IfOk, IfSome, slice_get, Some};
ghost use Rattle.lazydfa.specs.StateSets.{StateSet};
ghost use Rattle.rulelines.specs.LineSets.{IsLineIn, IsSomeLine};
ghost use Rattle.rulelines.specs.StateTables.{IsRestIn, IsStateTable, IsTableGrown, table_lines};

use crate::list::keys::LineSymbols;
use crate::list::lines::NextLine;
use crate::list::lots::{Lots, NO_CHOICE, offer};
use crate::list::search::line_from;
use crate::list::table::{Table, add_levels, can_end, step, takes_key};
use crate::samples::{key_of, symbol_at};
use ruletable::{Alphabet, Memory};
use std::alloc::Global;

// Returns by lot one of the lengths, at most `limit`, of which the table shows lines. `None` if there is none.
fn draw_length(table: &Table, limit: u32, lots: &mut Lots) -> Option<usize>
    requires table { IsStateTable table.now }
    ensures { IfSome result (λ length. length ≤ limit) }
{
    let mut choice = NO_CHOICE;
    for length in 0..limit as usize + 1 {
        match can_end(table, table.start, length) {
            Some(true) => choice = offer(choice, length, lots),
            Some(false) => {}
            None => break,
        }
    }
    choice.number
}

// Returns by lot the index of a class whose symbols, and exactly `rest` more, may lead from a state to the end, as the
// table shows. `None` if there is none.
fn draw_class(table: &Table, state: usize, rest: usize, lots: &mut Lots) -> Option<usize>
    requires table { IsStateTable table.now }
{
    let mut choice = NO_CHOICE;
    for class in 0..table.starts.len() {
        if takes_key(table, state, table.starts[class], rest).unwrap_or(false) {
            choice = offer(choice, class, lots);
        }
    }
    choice.number
}

// Returns the keys that end rows of symbols of a line: that of the symbol that ends a line, and those behind the last
// key before %x7F, before the surrogates and of the alphabet.
fn row_ends(inner: LineSymbols) -> [u32; 4] {
    let last = match inner.alphabet {
        Alphabet::Bytes => 0xFF,
        Alphabet::Utf8 => 0x10_FFFF,
    };
    [
        key_of(u32::from(inner.terminator)),
        key_of(0x1F) + 1,
        key_of(0xD7FF) + 1,
        key_of(last) + 1,
    ]
}

// Returns the key behind those of the class that starts at a key, before the next start if there is one.
fn class_end(inner: LineSymbols, start: u32, next: Option<u32>) -> u32 {
    let mut end = next.unwrap_or(u32::MAX);
    for key in row_ends(inner) {
        if start < key {
            end = end.min(key);
        }
    }
    end
}

// Returns by lot a symbol that, with exactly `rest` more, may lead from a state to the end: its class, and then one of
// the class. `None` if there is none.
fn draw_symbol(table: &Table, state: usize, rest: usize, lots: &mut Lots) -> Option<u32>
    requires table { IsStateTable table.now }
{
    let class = draw_class(table, state, rest, lots)?;
    let start = table.starts.get(class).copied()?;
    let next = table.starts.get(class.saturating_add(1)).copied();
    if table.symbols.only.is_some() {
        return Some(symbol_at(start));
    }
    let count = class_end(table.symbols.inner, start, next).saturating_sub(start);
    Some(symbol_at(start.saturating_add(lots.below(count))))
}

// Returns by lot that many symbols that lead from the start state to the end. `None` if the table lacks an entry.
// `Memory` if an allocation fails.
fn draw_word(
    alloc: Global,
    table: &Table,
    count: usize,
    lots: &mut Lots,
) -> Result<Option<Vec<u32>>, Memory>
    requires table { IsStateTable table.now }
    ensures { IfOk result (λ reported. IfSome reported (λ word. (s : StateSet) →
        slice_get table.now.states.states table.now.start ≡ Some s → IsRestIn table.now s count word.items)) }
{
    let mut word = Vec::new(alloc);
    let mut at = table.start;
    for done in 0..count {
        let Some(symbol) = draw_symbol(table, at, count - 1 - done, lots) else {
            return Ok(None);
        };
        let Some(next) = step(table, at, symbol) else {
            return Ok(None);
        };
        word.push(symbol)?;
        at = next;
    }
    if !table.states.has_ended(at) {
        return Ok(None);
    }
    Ok(Some(word))
}

/// Returns by lot a line of at most `limit` symbols: one of the lengths that the table has room for, then each symbol.
/// `None` if there is no room for the states of the first line. `Memory` if an allocation fails.
pub(crate) fn line_by_lot(
    alloc: Global,
    table: &mut Table,
    limit: u32,
    lots: &mut Lots,
) -> Result<Option<NextLine>, Memory>
    requires table { IsStateTable table.old }
    ensures kept { IfOk result (λ reported. IsTableGrown table.old table.new) }
    ensures is { IfOk result (λ reported. IfSome reported (IsSomeLine (IsLineIn (table_lines table.old limit)))) }
{
    add_levels(alloc, table, limit as usize + 1)?;
    let Some(count) = draw_length(table, limit, lots) else {
        return line_from(alloc, table, 0, limit);
    };
    match draw_word(alloc, table, count, lots)? {
        Some(word) => Ok(Some(NextLine::Line(word))),
        None => Ok(None),
    }
}

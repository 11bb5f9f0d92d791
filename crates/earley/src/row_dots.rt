//! The dotted rules of the items of a set that is kept as rows.
ghost use Rattle.std.specs.Prelude.{◌↔◌, ◌<◌, ℕ, length, Contains, IsTrue, IfOk};
ghost use Rattle.earley.specs.RowSets.{HasOlder, HasSome};
ghost use Rattle.earley.specs.RowItems.{AreDotsBelow};

use crate::BitRow;
use flatgrammar::DottedRule;
use ruletable::Memory;
use std::alloc::Global;

// Returns whether a row has a number.
fn is_used(row: &BitRow) -> bool
    ensures { IsTrue result ↔ ((k : ℕ) × Contains row.now k) }
{
    match row.next(0) {
        Some(_) => true,
        None => false,
    }
}

// Returns whether the row of a dotted rule has a number.
fn has_some(rows: &[BitRow], position: usize) -> bool
    ensures { IsTrue result ↔ HasSome rows.now position }
{
    match rows.get(position) {
        Some(row) => is_used(row),
        None => false,
    }
}

/// Returns the dotted rules that have a number, each once where the dotted rules are different. `Memory`
/// if an allocation fails.
pub(crate) fn row_dots(
    alloc: Global,
    dots: &[DottedRule],
    rows: &[BitRow],
) -> Result<Vec<DottedRule>, Memory>
    ensures { IfOk result (λ found. AreDotsBelow dots.now (HasSome rows.now) (length dots.now) found.items) }
{
    let mut found = Vec::new(alloc);
    for position in 0..dots.len() {
        if has_some(rows, position) {
            found.push(dots[position])?;
        }
    }
    Ok(found)
}

// Returns whether a row has a number below `n`.
fn is_older(row: &BitRow, n: usize) -> bool
    ensures { IsTrue result ↔ ((k : ℕ) × Contains row.now k × (k < n)) }
{
    match row.next(0) {
        Some(first) => first < n,
        None => false,
    }
}

// Returns whether the row of a dotted rule has a number below `n`.
fn has_older(rows: &[BitRow], position: usize, n: usize) -> bool
    ensures { IsTrue result ↔ HasOlder rows.now n position }
{
    match rows.get(position) {
        Some(row) => is_older(row, n),
        None => false,
    }
}

/// Returns the dotted rules that have a number below `n`, each once where the dotted rules are different. `Memory` if
/// an allocation fails.
pub(crate) fn row_older_dots(
    alloc: Global,
    dots: &[DottedRule],
    rows: &[BitRow],
    n: usize,
) -> Result<Vec<DottedRule>, Memory>
    ensures { IfOk result (λ found. AreDotsBelow dots.now (HasOlder rows.now n) (length dots.now) found.items) }
{
    let mut found = Vec::new(alloc);
    for position in 0..dots.len() {
        if has_older(rows, position, n) {
            found.push(dots[position])?;
        }
    }
    Ok(found)
}

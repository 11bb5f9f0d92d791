//! Filled sets as rows.
ghost use Rattle.std.specs.Prelude.{◌≡◌, ℕ, List, [], IfOk, length, slice_index_or};
ghost use Rattle.std.specs.List.Sorted.{IsStrictlyIncreasing};
ghost use Rattle.flatgrammar.specs.declared.closure.DottedRule.{DottedRule as code_dot};
ghost use Rattle.earley.specs.RowItems.{row_items};

use crate::dot_table::DotTable;
use crate::{BitRow, RowSet};
use ruletable::Memory;

/// A filled set.
#[derive(Drop)]
pub(crate) struct KeptRows {
    /// Of each dotted rule the origins of its items.
    pub(crate) rows: Vec<BitRow>,
    /// The number of items.
    pub(crate) size: usize,
}

/// The sets of a line as rows.
#[derive(Drop)]
pub(crate) struct RowChart {
    /// The dotted rules that the rows are of, by number.
    pub(crate) table: DotTable,
    /// The sets: one before the first symbol, and one after each.
    pub(crate) sets: Vec<KeptRows>,
}

/// Keeps a set that is filled. `Memory` if its items are 2 ^ 64 or more.
pub(crate) fn kept_rows(set: RowSet) -> Result<KeptRows, Memory>
    ensures rows { IfOk result (λ kept. kept.rows.items ≡ set.all) }
    ensures size { IfOk result (λ kept. (dots : List code_dot) → length dots ≡ length set.all
        → kept.size ≡ length (row_items dots kept.rows.items)) }
    ensures ascend { IfOk result (λ kept. (p : ℕ) → IsStrictlyIncreasing (slice_index_or kept.rows.items p [])) }
{
    let rows = set.into_rows();
    let mut size = 0usize;
    for row in &rows {
        let Some(sum) = size.checked_add(row.len()) else {
            return Err(Memory);
        };
        size = sum;
    }
    Ok(KeptRows { rows, size })
}

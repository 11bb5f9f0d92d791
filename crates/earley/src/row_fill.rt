//! Fills a set of rows.
ghost use Rattle.std.specs.Prelude.{◌≡◌, ◌↔◌, ◌<◌, ◌^◌, ℕ, List, true, IfOk, length, Contains};
ghost use Rattle.earley.specs.RowSets.{HasAt};
ghost use Rattle.earleyitems.specs.Closed.{HoldAll};
ghost use Rattle.flatgrammar.specs.ItemClosures.{AreExact};
ghost use Rattle.flatgrammar.specs.NodeSteps.{flat_of};
ghost use Rattle.flatgrammar.specs.declared.flat_item.Item as code_item;
ghost use Rattle.earley.specs.DotTables.{IsDotTable};
ghost use Rattle.earley.specs.RowCharts.{row_views, IsRowWorklist};
ghost use Rattle.earley.specs.RowIndexes.{AreIndexed};
ghost use Rattle.earley.specs.RowItems.{IsRowItem};

use crate::dot_table::DotTable;
use crate::row_index::FilledSets;
use crate::row_step::work_row;
use crate::{BitRow, RowSet};
use ruletable::Memory;
use std::alloc::Global;

/// Returns the row of one number. `Memory` if an allocation fails.
pub(crate) fn row_of(alloc: Global, number: usize) -> Result<BitRow, Memory>
    requires { number < 2 ^ 63 }
    ensures { IfOk result (λ row. (k : ℕ) → Contains row k ↔ (k ≡ number)) }
{
    let mut row = BitRow::new(alloc);
    row.insert(number)?;
    Ok(row)
}

/// Works on the pending row of one dotted rule. Returns whether nothing was pending.
fn work_once(
    table: &DotTable,
    filled: &FilledSets,
    here: &BitRow,
    set: &mut RowSet,
) -> Result<bool, Memory>
    requires table { IsDotTable table.now }
    requires exact { AreExact table.now.flat.value }
    requires indexed { AreIndexed (length table.now.dots.items) filled.now }
    requires here { (k : ℕ) → Contains here.now k ↔ (k ≡ length filled.now.sets.items) }
    requires begun { (line : List ℕ) × HoldAll (flat_of table.now.flat.value) line
        (row_views table.now.dots.items filled.now.sets.items) × IsRowWorklist table.now.flat.value
        table.now.dots.items line (row_views table.now.dots.items filled.now.sets.items) set.old }
    ensures count { IfOk result (λ done. length set.new.all ≡ length table.now.dots.items) }
    ensures keeps { IfOk result (λ done. (a : code_item.Item) → IsRowItem table.now.dots.items set.old.all a
        → IsRowItem table.now.dots.items set.new.all a) }
    ensures worklist { IfOk result (λ done. (line : List ℕ) → HoldAll (flat_of table.now.flat.value) line
        (row_views table.now.dots.items filled.now.sets.items) → IsRowWorklist table.now.flat.value
        table.now.dots.items line (row_views table.now.dots.items filled.now.sets.items) set.old
        → IsRowWorklist table.now.flat.value table.now.dots.items line
        (row_views table.now.dots.items filled.now.sets.items) set.new) }
    ensures none { IfOk result (λ done. done ≡ true → (p k : ℕ) → HasAt set.new.pending p k → ⊥) }
{
    let Some((position, row)) = set.take() else {
        return Ok(true);
    };
    let Some(_least) = row.next(0) else {
        return Ok(false);
    };
    work_row(table, filled, position, &row, here, set)?;
    Ok(false)
}

/// Predicts, advances and completes until nothing can be added; each item is worked on once. `Memory` if an allocation
/// fails.
pub(crate) fn fill_rows(
    alloc: Global,
    table: &DotTable,
    filled: &FilledSets,
    set: &mut RowSet,
) -> Result<(), Memory>
    requires table { IsDotTable table.now }
    requires exact { AreExact table.now.flat.value }
    requires indexed { AreIndexed (length table.now.dots.items) filled.now }
    requires number { length filled.now.sets.items < 2 ^ 63 }
    requires begun { (line : List ℕ) × HoldAll (flat_of table.now.flat.value) line
        (row_views table.now.dots.items filled.now.sets.items) × IsRowWorklist table.now.flat.value
        table.now.dots.items line (row_views table.now.dots.items filled.now.sets.items) set.old }
    ensures count { IfOk result (λ done. length set.new.all ≡ length table.now.dots.items) }
    ensures keeps { IfOk result (λ done. (a : code_item.Item) → IsRowItem table.now.dots.items set.old.all a
        → IsRowItem table.now.dots.items set.new.all a) }
    ensures worklist { IfOk result (λ done. (line : List ℕ) → HoldAll (flat_of table.now.flat.value) line
        (row_views table.now.dots.items filled.now.sets.items) → IsRowWorklist table.now.flat.value
        table.now.dots.items line (row_views table.now.dots.items filled.now.sets.items) set.old
        → IsRowWorklist table.now.flat.value table.now.dots.items line
        (row_views table.now.dots.items filled.now.sets.items) set.new) }
    ensures none { IfOk result (λ done. (p k : ℕ) → HasAt set.new.pending p k → ⊥) }
{
    let here = row_of(alloc, filled.sets.len())?;
    // Each iteration works on an item that is new, so there are far fewer.
    for _iteration in 0..u64::MAX {
        let done = work_once(table, filled, &here, set)?;
        if done {
            return Ok(());
        }
    }
    Err(Memory)
}

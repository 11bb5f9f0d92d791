//! Fills the sets of a line as rows.
ghost use Rattle.std.specs.Prelude.{◌≡◌, ◌↔◌, ◌+◌, ◌<◌, ◌≤◌, ◌^◌, ◌++◌, ◌∷◌, ℕ, [], IsTrue, IfOk, IfSome, length, map};
ghost use Rattle.std.specs.Prelude.{slice_get, slice_index_or, Contains, Some};
ghost use Rattle.earley.specs.RowSets.{HasAt};
ghost use Rattle.earleyitems.specs.ChartSets.{set_at, IsSet};
ghost use Rattle.earleyitems.specs.Charts.{IsWhole, IsFirst, IsBuilt};
ghost use Rattle.earleyitems.specs.ScannedItems.{IsScannedItem};
ghost use Rattle.flatgrammar.specs.ItemClosures.{AreExact, dot};
ghost use Rattle.flatgrammar.specs.Flat.{Dot};
ghost use Rattle.flatgrammar.specs.FlatVerdicts.{DerivesLine};
ghost use Rattle.flatgrammar.specs.Holds.{Holds};
ghost use Rattle.flatgrammar.specs.NodeSteps.{flat_of};
ghost use Rattle.earley.specs.DotTables.{IsDotTable};
ghost use Rattle.earley.specs.RowCharts.{row_views, rows_chart, AreSizedRows};
ghost use Rattle.earley.specs.RowIndexes.{AreIndexed};
ghost use Rattle.earley.specs.RowItems.{Gains, IsFor, IsScannedFor, IsRowItem, row_items};

use crate::dot_table::{Call, DotTable, dot_table};
use crate::row_fill::{fill_rows, row_of};
use crate::row_index::{FilledSets, keep_set, no_sets};
use crate::row_sets::{KeptRows, RowChart, kept_rows};
use crate::row_step::{advance_call, predict_target};
use crate::{BitRow, RowSet};
use flatgrammar::{DottedRule, Flat, Item, reads, start_target};
use ruletable::{Letter, Memory};
use std::alloc::Global;

// A longer line is not judged by rows.
const LONGEST: usize = 1 << 32;

/// The sets of a line with the answer.
#[derive(Drop)]
pub(crate) struct JudgedRows {
    /// The sets.
    pub(crate) chart: RowChart,
    /// Whether the last set has the end of the augmented start, with origin 0.
    pub(crate) yes: bool,
}

// Scans a symbol for the row of a dotted rule.
fn scan_row(
    table: &DotTable,
    value: u32,
    rows: &[BitRow],
    position: usize,
    set: &mut RowSet,
) -> Result<(), Memory>
    requires table { IsDotTable table.now }
    requires count { length set.old.all ≡ length table.now.dots.items }
    requires position { position < length table.now.dots.items }
    ensures { IfOk result (λ done. Gains table.now.dots.items (IsFor table.now.dots.items position
        (slice_index_or rows.now position []) (IsScannedFor table.now.flat.value value)) set.old set.new) }
{
    let at = table.dots[position];
    let item = Item {
        node: at.node,
        step: at.step,
        origin: 0,
    };
    let Some(after) = table.steps[position].read else {
        return Ok(());
    };
    if reads(&table.flat, item, value) {
        advance_call(
            rows,
            Call {
                from: position,
                after,
            },
            set,
        )?;
        return Ok(());
    }
    Ok(())
}

// Scans a symbol for the rows of a set.
fn scan_rows(table: &DotTable, value: u32, rows: &[BitRow], set: &mut RowSet) -> Result<(), Memory>
    requires table { IsDotTable table.now }
    requires count { length set.old.all ≡ length table.now.dots.items }
    ensures { IfOk result (λ done. Gains table.now.dots.items (IsScannedItem table.now.flat.value value
        (row_items table.now.dots.items rows.now)) set.old set.new) }
{
    for position in 0..table.dots.len() {
        scan_row(table, value, rows, position, set)?;
    }
    Ok(())
}

// Predicts the augmented start.
fn start_rows(alloc: Global, table: &DotTable, set: &mut RowSet) -> Result<(), Memory>
    requires table { IsDotTable table.now }
    requires count { length set.old.all ≡ length table.now.dots.items }
    ensures { IfOk result (λ done. Gains table.now.dots.items (IsWhole table.now.flat.value) set.old set.new) }
{
    let Some(target) = start_target(&table.flat) else {
        return Ok(());
    };
    let zero = row_of(alloc, 0)?;
    predict_target(table, target, &zero, set)?;
    Ok(())
}

// Adds what the next set begins with.
fn begin_rows<L: Letter>(
    alloc: Global,
    table: &DotTable,
    line: &[L],
    sets: &[KeptRows],
    set: &mut RowSet,
) -> Result<(), Memory>
    requires table { IsDotTable table.now }
    requires count { length set.old.all ≡ length table.now.dots.items }
    requires length { length sets.now ≤ length line.now }
    ensures { IfOk result (λ done. Gains table.now.dots.items (IsFirst table.now.flat.value (map L.number line.now)
        (row_views table.now.dots.items sets.now)) set.old set.new) }
{
    if sets.is_empty() {
        start_rows(alloc, table, set)?;
        return Ok(());
    }
    let last = sets.len() - 1;
    scan_rows(table, line[last].value(), &sets[last].rows, set)?;
    Ok(())
}

// Returns the next set. `Memory` if an allocation fails.
fn next_set<L: Letter>(
    alloc: Global,
    table: &DotTable,
    line: &[L],
    filled: &FilledSets,
) -> Result<KeptRows, Memory>
    requires table { IsDotTable table.now }
    requires exact { AreExact table.now.flat.value }
    requires indexed { AreIndexed (length table.now.dots.items) filled.now }
    requires length { length filled.now.sets.items ≤ length line.now }
    requires short { length line.now < 2 ^ 63 }
    requires built { IsBuilt table.now.flat.value (map L.number line.now)
        (row_views table.now.dots.items filled.now.sets.items) }
    ensures count { IfOk result (λ kept. length kept.rows.items ≡ length table.now.dots.items) }
    ensures size { IfOk result (λ kept. kept.size ≡ length (row_items table.now.dots.items kept.rows.items)) }
    ensures built { IfOk result (λ kept. IsBuilt table.now.flat.value (map L.number line.now)
        (row_views table.now.dots.items filled.now.sets.items
        ++ row_items table.now.dots.items kept.rows.items ∷ [])) }
{
    let mut set = RowSet::new(alloc, table.dots.len())?;
    begin_rows(alloc, table, line, &filled.sets, &mut set)?;
    fill_rows(alloc, table, filled, &mut set)?;
    kept_rows(set)
}

// Returns the sets of a line. `Memory` if an allocation fails.
fn row_sets<L: Letter>(alloc: Global, table: &DotTable, line: &[L]) -> Result<Vec<KeptRows>, Memory>
    requires table { IsDotTable table.now }
    requires exact { AreExact table.now.flat.value }
    requires short { length line.now < 2 ^ 63 }
    ensures count { IfOk result (λ sets. length sets.items ≡ length line.now + 1) }
    ensures sized { IfOk result (λ sets. AreSizedRows table.now.dots.items sets.items) }
    ensures built { IfOk result (λ sets. IsBuilt table.now.flat.value (map L.number line.now)
        (row_views table.now.dots.items sets.items)) }
{
    let mut filled = no_sets(alloc, table.dots.len())?;
    while filled.sets.len() <= line.len() {
        let kept = next_set(alloc, table, line, &filled)?;
        keep_set(kept, &mut filled)?;
    }
    let FilledSets {
        sets,
        own: _,
        rest: _,
        union: _,
    } = filled;
    Ok(sets)
}

// Returns whether a row has a number.
fn has(row: &BitRow, number: usize) -> bool
    ensures { IsTrue result ↔ Contains row.now number }
{
    let Some(least) = row.next(number) else {
        return false;
    };
    if least == number {
        return true;
    }
    false
}

// Returns whether the row of a dotted rule has a number.
fn has_number(rows: &[BitRow], position: usize, number: usize) -> bool
    ensures { IsTrue result ↔ HasAt rows.now position number }
{
    match rows.get(position) {
        Some(row) => has(row, number),
        None => false,
    }
}

// Returns whether an item stands at a dotted rule.
fn is_at(at: DottedRule, item: Item) -> bool
    ensures { IsTrue result ↔ ((at.node ≡ item.node) × (at.step ≡ item.step)) }
{
    at.node == item.node && at.step == item.step
}

// Returns whether a dotted rule is that of an item, and its row has the item's origin.
fn holds_at(dots: &[DottedRule], rows: &[BitRow], position: usize, item: Item) -> bool
    requires { position < length dots.now }
    ensures { IsTrue result ↔ ((slice_get dots.now position ≡ Some (dot item.node item.step))
        × HasAt rows.now position item.origin) }
{
    let at = dots[position];
    if is_at(at, item) {
        return has_number(rows, position, item.origin);
    }
    false
}

// Returns whether rows hold an item.
fn has_item(dots: &[DottedRule], rows: &[BitRow], item: Item) -> bool
    ensures { IsTrue result ↔ IsRowItem dots.now rows.now item }
{
    for position in 0..dots.len() {
        if holds_at(dots, rows, position, item) {
            return true;
        }
    }
    false
}

// Judges a line by the table of a grammar: returns its sets, and whether the last holds the augmented start's end with
// origin 0.
// `Memory` if an allocation fails.
fn judge_by_table<L: Letter>(
    alloc: Global,
    table: DotTable,
    line: &[L],
) -> Result<JudgedRows, Memory>
    requires table { IsDotTable table }
    requires exact { AreExact table.flat.value }
    requires short { length line.now < 2 ^ 63 }
    ensures sized { IfOk result (λ d. AreSizedRows d.chart.table.dots.items d.chart.sets.items) }
    ensures sets { IfOk result (λ d. (j : ℕ) → IsSet (flat_of table.flat.value) (map L.number line.now) j
        (set_at (rows_chart d.chart) j)) }
    ensures answer { IfOk result (λ d. IsTrue d.yes ↔ Holds (flat_of table.flat.value) (map L.number line.now)
        (length line.now) (Dot.at (flat_of table.flat.value).start 1) 0) }
{
    let sets = row_sets(alloc, &table, line)?;
    let whole = Item {
        node: table.flat.start,
        step: 1,
        origin: 0,
    };
    let yes = has_item(&table.dots, &sets[line.len()].rows, whole);
    let chart = RowChart { table, sets };
    Ok(JudgedRows { chart, yes })
}

/// Judges a line by rows: returns its sets, and whether the flat grammar derives the line. `None` if the line is too
/// long, or the grammar has too many dotted rules. `Memory` if an allocation fails.
pub(crate) fn judge_rows<L: Letter>(
    alloc: Global,
    flat: &Flat,
    line: &[L],
) -> Result<Option<JudgedRows>, Memory>
    ensures sized { IfOk result (λ reported. IfSome reported (λ d. AreSizedRows d.chart.table.dots.items
        d.chart.sets.items)) }
    ensures sets { IfOk result (λ reported. IfSome reported (λ d. (j : ℕ) → IsSet flat.now (map L.number line.now) j
        (set_at (rows_chart d.chart) j))) }
    ensures answer { IfOk result (λ reported. IfSome reported (λ d. IsTrue d.yes
        ↔ DerivesLine flat.now (map L.number line.now))) }
{
    if line.len() >= LONGEST {
        return Ok(None);
    }
    let tables = flat.share()?;
    let Some(table) = dot_table(alloc, tables)? else {
        return Ok(None);
    };
    let judged = judge_by_table(alloc, table, line)?;
    Ok(Some(judged))
}

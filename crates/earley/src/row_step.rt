//! Prediction, advance and completion for the items of a row.
ghost use Rattle.std.specs.Prelude.{◌≡◌, ◌↔◌, ◌<◌, ℕ, List, [], IsTrue, IfOk, length, Contains};
ghost use Rattle.earley.specs.RowSets.{HasAt};
ghost use Rattle.earleyitems.specs.ItemSets.{IsPredicted, IsCompleted};
ghost use Rattle.earleyitems.specs.Worklist.{AdvancesNullable, IsWork};
ghost use Rattle.flatgrammar.specs.ItemClosures.{begin_count};
ghost use Rattle.flatgrammar.specs.declared.closure.DottedRule.{DottedRule as code_dot};
ghost use Rattle.flatgrammar.specs.declared.flat_item.Item as code_item;
ghost use Rattle.earley.specs.DotTables.{IsDotTable, IsReached};
ghost use Rattle.earley.specs.RowCharts.{row_views};
ghost use Rattle.earley.specs.RowIndexes.{AreIndexed, IsAfterIn, IsAfterLast, IsAfterOwn};
ghost use Rattle.earley.specs.RowItems.{Gains, IsAfterCall, IsCompletedBy, IsFor, IsRowItem};

use crate::dot_table::{Call, DotTable};
use crate::row_index::FilledSets;
use crate::row_sets::KeptRows;
use crate::{BitRow, RowSet};
use ruletable::Memory;

/// Predicts a target that is reached: adds the numbers of a row to the dotted rules where it starts.
pub(crate) fn predict_target(
    table: &DotTable,
    target: usize,
    here: &BitRow,
    set: &mut RowSet,
) -> Result<(), Memory>
    requires table { IsDotTable table.now }
    requires reached { IsReached table.now.targets.items target }
    requires count { length set.old.all ≡ length table.now.dots.items }
    ensures { IfOk result (λ done. Gains table.now.dots.items
        (λ a. (a.node ≡ target) × (a.step < begin_count table.now.flat.value target) × Contains here.now a.origin)
        set.old set.new) }
{
    let Some(positions) = table.targets.get(target) else {
        return Ok(());
    };
    for position in &positions.starts {
        set.add(*position, here)?;
    }
    Ok(())
}

/// Predicts the target that a dotted rule calls: adds the numbers of a row to the dotted rules where it starts.
fn predict_row(
    table: &DotTable,
    position: usize,
    here: &BitRow,
    set: &mut RowSet,
) -> Result<(), Memory>
    requires table { IsDotTable table.now }
    requires count { length set.old.all ≡ length table.now.dots.items }
    requires position { position < length table.now.dots.items }
    ensures { IfOk result (λ done. (row : List ℕ) (some j : ℕ) → Contains row some
        → ((k : ℕ) → Contains here.now k ↔ (k ≡ j)) → Gains table.now.dots.items
        (IsFor table.now.dots.items position row (IsPredicted table.now.flat.value j)) set.old set.new) }
{
    match table.steps[position].called {
        Some(called) => {
            predict_target(table, called.target, here, set)?;
            Ok(())
        }
        None => Ok(()),
    }
}

/// Advances the row of a dotted rule over what it calls, if that can be passed without a symbol.
fn advance_row(
    table: &DotTable,
    position: usize,
    row: &BitRow,
    set: &mut RowSet,
) -> Result<(), Memory>
    requires table { IsDotTable table.now }
    requires count { length set.old.all ≡ length table.now.dots.items }
    requires position { position < length table.now.dots.items }
    ensures { IfOk result (λ done. Gains table.now.dots.items
        (IsFor table.now.dots.items position row.now (AdvancesNullable table.now.flat.value)) set.old set.new) }
{
    match table.steps[position].called {
        Some(called) if called.free => {
            set.add(called.after, row)?;
            Ok(())
        }
        _ => Ok(()),
    }
}

/// Advances the row of a dotted rule over a call.
pub(crate) fn advance_call(rows: &[BitRow], call: Call, set: &mut RowSet) -> Result<(), Memory>
    requires { call.after < length set.old.all }
    ensures { IfOk result (λ done. (dots : List code_dot) → Gains dots (IsAfterCall dots call rows.now) set.old
        set.new) }
{
    match rows.get(call.from) {
        Some(row) => {
            set.add(call.after, row)?;
            Ok(())
        }
        None => Ok(()),
    }
}

// Advances over a call the sets of those numbers of a row that are the dotted rule's own.
fn complete_own(own: &[BitRow], call: Call, row: &BitRow, set: &mut RowSet) -> Result<(), Memory>
    requires { call.after < length set.old.all }
    ensures { IfOk result (λ done. (dots : List code_dot) → Gains dots (IsAfterOwn dots call own.now row.now)
        set.old set.new) }
{
    match own.get(call.from) {
        Some(own) => {
            let both = row.common(own)?;
            set.add(call.after, &both)?;
            Ok(())
        }
        None => Ok(()),
    }
}

// Advances over a call the set of each number of a row.
fn complete_each(
    sets: &[KeptRows],
    call: Call,
    row: &BitRow,
    set: &mut RowSet,
) -> Result<(), Memory>
    requires { call.after < length set.old.all }
    ensures { IfOk result (λ done. (dots : List code_dot) → Gains dots (IsAfterIn dots call sets.now row.now
        (length sets.now)) set.old set.new) }
{
    let mut from = 0;
    while from < sets.len() {
        let Some(origin) = row.next(from) else {
            return Ok(());
        };
        if origin >= sets.len() {
            return Ok(());
        }
        advance_call(&sets[origin].rows, call, set)?;
        from = origin + 1;
    }
    Ok(())
}

// Advances over a call the set of the greatest number of a row.
fn complete_last(
    sets: &[KeptRows],
    call: Call,
    row: &BitRow,
    set: &mut RowSet,
) -> Result<(), Memory>
    requires { call.after < length set.old.all }
    ensures { IfOk result (λ done. (dots : List code_dot) → Gains dots (IsAfterLast dots call sets.now row.now
        (length sets.now)) set.old set.new) }
{
    let Some(origin) = row.last() else {
        return Ok(());
    };
    if origin >= sets.len() {
        return Ok(());
    }
    advance_call(&sets[origin].rows, call, set)?;
    Ok(())
}

// Returns whether the dotted rule after a call has all numbers that one of these rows has at the dotted rule that
// calls.
fn has_union(union: &[BitRow], call: Call, set: &RowSet) -> bool
    requires { call.after < length set.now.all }
    ensures { IsTrue result → (k : ℕ) → HasAt union.now call.from k → HasAt set.now.all call.after k }
{
    match union.get(call.from) {
        Some(union) => set.row(call.after).has_all(union),
        None => true,
    }
}

// Returns whether a row has one number at most.
fn is_single(row: &BitRow) -> bool
    ensures { IsTrue result → (j k : ℕ) → Contains row.now j → Contains row.now k → j ≡ k }
{
    match (row.next(0), row.last()) {
        (Some(least), Some(last)) => least == last,
        _ => false,
    }
}

// Advances over a call the set of each number of a row, where those of the dotted rule's own sets are done. The set of
// the greatest number comes first: in a dense line it mostly has what all of them have, and then the others add
// nothing.
fn complete_rest(
    filled: &FilledSets,
    call: Call,
    row: &BitRow,
    set: &mut RowSet,
) -> Result<(), Memory>
    requires after { call.after < length set.old.all }
    requires own { (dots : List code_dot) (a : code_item.Item) → IsAfterOwn dots call filled.now.own.items row.now a
        → IsRowItem dots set.old.all a }
    ensures { IfOk result (λ done. (positions : ℕ) → AreIndexed positions filled.now → (dots : List code_dot)
        → Gains dots (IsAfterIn dots call filled.now.sets.items row.now (length filled.now.sets.items)) set.old
        set.new) }
{
    let Some(rest) = filled.rest.get(call.from) else {
        return Ok(());
    };
    let both = row.common(rest)?;
    complete_last(&filled.sets, call, &both, set)?;
    if is_single(&both) {
        return Ok(());
    }
    if has_union(&filled.union, call, set) {
        return Ok(());
    }
    complete_each(&filled.sets, call, &both, set)?;
    Ok(())
}

// Advances over a call the set of each number of a row.
fn complete_call(
    filled: &FilledSets,
    call: Call,
    row: &BitRow,
    set: &mut RowSet,
) -> Result<(), Memory>
    requires { call.after < length set.old.all }
    ensures { IfOk result (λ done. (positions : ℕ) → AreIndexed positions filled.now → (dots : List code_dot)
        → Gains dots (IsAfterIn dots call filled.now.sets.items row.now (length filled.now.sets.items)) set.old
        set.new) }
{
    complete_own(&filled.own, call, row, set)?;
    complete_rest(filled, call, row, set)?;
    Ok(())
}

/// Completes a target with each origin of a row: advances the rows that call it there.
fn complete_all(
    table: &DotTable,
    filled: &FilledSets,
    target: usize,
    row: &BitRow,
    set: &mut RowSet,
) -> Result<(), Memory>
    requires table { IsDotTable table.now }
    requires indexed { AreIndexed (length table.now.dots.items) filled.now }
    requires count { length set.old.all ≡ length table.now.dots.items }
    ensures { IfOk result (λ done. Gains table.now.dots.items (IsCompletedBy table.now.flat.value
        (row_views table.now.dots.items filled.now.sets.items) target row.now (length filled.now.sets.items)) set.old
        set.new) }
{
    let Some(positions) = table.targets.get(target) else {
        return Ok(());
    };
    for call in &positions.calls {
        complete_call(filled, *call, row, set)?;
    }
    Ok(())
}

/// Completes the row of a dotted rule, if its node is done there.
fn complete_row(
    table: &DotTable,
    filled: &FilledSets,
    position: usize,
    row: &BitRow,
    set: &mut RowSet,
) -> Result<(), Memory>
    requires table { IsDotTable table.now }
    requires indexed { AreIndexed (length table.now.dots.items) filled.now }
    requires count { length set.old.all ≡ length table.now.dots.items }
    requires position { position < length table.now.dots.items }
    ensures { IfOk result (λ done. Gains table.now.dots.items (IsFor table.now.dots.items position row.now
        (IsCompleted table.now.flat.value (row_views table.now.dots.items filled.now.sets.items) []))
        set.old set.new) }
{
    if table.steps[position].done {
        complete_all(table, filled, table.dots[position].node, row, set)?;
        return Ok(());
    }
    Ok(())
}

/// Works on the row of a dotted rule, which is not empty: predicts what the dotted rule calls, advances and completes.
/// The other row has the number of the set alone.
pub(crate) fn work_row(
    table: &DotTable,
    filled: &FilledSets,
    position: usize,
    row: &BitRow,
    here: &BitRow,
    set: &mut RowSet,
) -> Result<(), Memory>
    requires table { IsDotTable table.now }
    requires indexed { AreIndexed (length table.now.dots.items) filled.now }
    requires count { length set.old.all ≡ length table.now.dots.items }
    requires position { position < length table.now.dots.items }
    requires some { (k : ℕ) × Contains row.now k }
    requires here { (k : ℕ) → Contains here.now k ↔ (k ≡ length filled.now.sets.items) }
    ensures { IfOk result (λ done. Gains table.now.dots.items (IsFor table.now.dots.items position row.now
        (IsWork table.now.flat.value (row_views table.now.dots.items filled.now.sets.items))) set.old set.new) }
{
    predict_row(table, position, here, set)?;
    advance_row(table, position, row, set)?;
    complete_row(table, filled, position, row, set)?;
    Ok(())
}

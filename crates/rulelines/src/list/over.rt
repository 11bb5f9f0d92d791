//! Whether all longer lines are out of reach.
ghost use Rattle.std.specs.Prelude.{◌≡◌, ◌<◌, ℕ, IsTrue, slice_get, Some};
ghost use Rattle.rulelines.specs.StateTables.{AreRowsClosed, HasNoRestFrom, HaveNoRest, IsStateTable};

use crate::list::table::{Table, can_end};

// Returns whether each number of a row is below another.
fn are_below(row: &[usize], end: usize) -> bool
    ensures { IsTrue result → (j t : ℕ) → slice_get row.now j ≡ Some t → t < end }
{
    for next in row {
        if *next >= end {
            return false;
        }
    }
    true
}

// Returns whether each state that was reached has a row, which leads each start to a state that was reached.
fn is_closed(table: &Table) -> bool
    ensures { IsTrue result → AreRowsClosed table.now table.now.seen }
{
    let starts: &[u32] = &table.starts;
    for state in 0..table.seen {
        let Some(row) = table.rows.get(state) else {
            return false;
        };
        if row.len() != starts.len() || !are_below(row, table.seen) {
            return false;
        }
    }
    true
}

// Returns whether exactly so many symbols lead from none of the states that were reached to the end, by their level.
fn are_false(table: &Table, count: usize) -> bool
    requires table { IsStateTable table.now }
    ensures { IsTrue result → HaveNoRest table.now count table.now.seen }
{
    for state in 0..table.seen {
        let Some(can) = can_end(table, state, count) else {
            return false;
        };
        if can {
            return false;
        }
    }
    true
}

/// Returns whether the table shows that no line has so many symbols or more: all states were reached, and exactly so
/// many symbols lead from none of them to the end.
pub(crate) fn is_over(table: &Table, count: usize) -> bool
    requires table { IsStateTable table.now }
    ensures { IsTrue result → HasNoRestFrom table.now count }
{
    if table.start >= table.seen {
        return false;
    }
    are_false(table, count) && is_closed(table)
}

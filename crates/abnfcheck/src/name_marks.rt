//! Marks on names and rules by id.
ghost use Rattle.std.specs.Prelude.{◌≡◌, ◌↔◌, ◌⊎◌, ℕ, ◌<◌, Bool, length, IfOk};
ghost use Rattle.fixpoint.specs.NumberMarks.{AreBelow, IsMarked};
ghost use Rattle.fixpoint.specs.StepRows.{Step, rows_of, AreStepsWithin};
ghost use Rattle.abnfcheck.specs.NameMarks.{IsBroken, IsUsed, ReachesBroken};

use fixpoint::{mark, reached, slices};
use ruletable::Memory;
use std::alloc::Global;

// Marks the numbers to which steps lead.
fn mark_targets(rows: &[Vec<usize>], marks: &mut [bool])
    requires within { AreStepsWithin (rows_of rows.now) }
    requires count { length marks.old ≡ length rows.now }
    ensures count { length marks.new ≡ length marks.old }
    ensures marks { (id : ℕ) → IsMarked marks.new id
        ↔ (IsMarked marks.old id ⊎ ((user : ℕ) × Step (rows_of rows.now) user id)) }
{
    for row in rows {
        mark(row, marks);
    }
}

/// Returns one mark for each row, set for the judged number and for those to which steps lead.
///
/// `Memory` if an allocation fails.
pub(crate) fn used_marks(
    alloc: Global,
    rows: &[Vec<usize>],
    judged: usize,
) -> Result<Vec<bool>, Memory>
    requires { AreStepsWithin (rows_of rows.now) }
    ensures count { IfOk result (λ marks. length marks.items ≡ length rows.now) }
    ensures marks { IfOk result (λ marks. (id : ℕ) → id < length rows.now
        → (IsMarked marks.items id ↔ IsUsed (rows_of rows.now) judged id)) }
{
    let mut marks = vec![in alloc; false; rows.len()]?;
    if judged < marks.len() {
        marks[judged] = true;
    }
    mark_targets(rows, &mut marks);
    Ok(marks)
}

/// Returns whether a mark is set.
pub(crate) fn some_set(marks: &[bool]) -> bool
    ensures { (result ≡ Bool.true) ↔ ((id : ℕ) × IsMarked marks.now id) }
{
    for mark in marks {
        if *mark {
            return true;
        }
    }
    false
}

// Returns whether a marked number stands for no rule, or for one that holds prose.
fn is_broken(marks: &[bool], prose: &[bool]) -> bool
    ensures { (result ≡ Bool.true) ↔ ((id : ℕ) × IsBroken marks.now prose.now id) }
{
    for id in 0..marks.len() {
        if marks[id] && (id >= prose.len() || prose[id]) {
            return true;
        }
    }
    false
}

/// Returns whether a number that stands for no rule, or for one that holds prose, can be reached from the judged one,
/// by steps or by none.
///
/// `Memory` if an allocation fails.
pub(crate) fn reaches_broken(
    alloc: Global,
    rows: &[Vec<usize>],
    prose: &[bool],
    judged: usize,
) -> Result<bool, Memory>
    requires within { AreStepsWithin (rows_of rows.now) }
    requires judged { judged < length rows.now }
    ensures { IfOk result (λ broken. (broken ≡ Bool.true)
        ↔ ((id : ℕ) × ReachesBroken (rows_of rows.now) prose.now judged id)) }
{
    let steps = slices(alloc, rows)?;
    let marks = reached(alloc, &steps, &[judged])?;
    Ok(is_broken(&marks, prose))
}

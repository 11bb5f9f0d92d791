//! Numbers that chains of steps reach.
ghost use Rattle.std.specs.Prelude.{◌≡◌, ℕ, ◌<◌, Bool, List, [], ◌∷◌, length, replicate, IfOk};
ghost use Rattle.fixpoint.specs.NumberMarks.{AreBelow};
ghost use Rattle.fixpoint.specs.Reach.{Stacks, AreReachedFrom};
ghost use Rattle.fixpoint.specs.StepRows.{slices_of, AreStepsWithin};

use std::alloc::{AllocError, Global};

// Marks and stacks `m` if it is not marked.
fn mark_one(m: usize, marks: &mut [bool], stack: &mut Vec<usize>) -> Result<(), AllocError>
    requires { m < length marks.old }
    ensures { IfOk result (λ _. Stacks (m ∷ []) marks.old stack.old.items marks.new stack.new.items) }
{
    if !marks[m] {
        marks[m] = true;
        stack.push(m)?;
    }
    Ok(())
}

// Marks and stacks each number of the row that is not marked.
fn mark_all(row: &[usize], marks: &mut [bool], stack: &mut Vec<usize>) -> Result<(), AllocError>
    requires { AreBelow row.now (length marks.old) }
    ensures { IfOk result (λ _. Stacks row.now marks.old stack.old.items marks.new stack.new.items) }
{
    for m in row {
        mark_one(*m, marks, stack)?;
    }
    Ok(())
}

// Marks the numbers that chains of steps from `these` reach. Each is stacked once, when it is marked.
fn spread(
    steps: &[&[usize]],
    these: &[usize],
    marks: &mut [bool],
    stack: &mut Vec<usize>,
) -> Result<(), AllocError>
    requires within { AreStepsWithin (slices_of steps.now) }
    requires these { AreBelow these.now (length steps.now) }
    requires fresh { marks.old ≡ replicate (length steps.now) Bool.false }
    requires stack { stack.old.items ≡ [] }
    ensures count { IfOk result (λ _. length marks.new ≡ length steps.now) }
    ensures marks { IfOk result (λ _. AreReachedFrom (slices_of steps.now) these.now marks.new) }
{
    mark_all(these, marks, stack)?;
    while let Some(n) = stack.pop() {
        mark_all(steps[n], marks, stack)?;
    }
    Ok(())
}

/// Marks exactly the numbers that a chain of steps from a number in `these` reaches. A chain may have no step.
///
/// `steps[n]` lists the numbers to which steps lead from `n`. The time is linear in rows and steps.
///
/// # Errors
/// `AllocError` if an allocation fails.
pub fn reached(alloc: Global, steps: &[&[usize]], these: &[usize]) -> Result<Vec<bool>, AllocError>
    requires within { AreStepsWithin (slices_of steps.now) }
    requires these { AreBelow these.now (length steps.now) }
    ensures count { IfOk result (λ marks. length marks.items ≡ length steps.now) }
    ensures marks { IfOk result (λ marks. AreReachedFrom (slices_of steps.now) these.now marks.items) }
{
    let mut marks = vec![in alloc; false; steps.len()]?;
    let mut stack = Vec::new(alloc);
    spread(steps, these, &mut marks, &mut stack)?;
    Ok(marks)
}

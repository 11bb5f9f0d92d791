//! How far numbers are.
ghost use Rattle.std.specs.Prelude.{◌≡◌, ℕ, ◌<◌, ◌≤◌, List, [], ◌∷◌, length, Some, IfOk};
ghost use Rattle.fixpoint.specs.NumberMarks.{AreBelow};
ghost use Rattle.fixpoint.specs.StepRows.{slices_of, AreStepsWithin};
ghost use Rattle.fixpoint.specs.Way.{At};
ghost use Rattle.fixpoint.specs.Distances.{AreDistances};
ghost use Rattle.fixpoint.specs.Fills.{IsFilling, Queues};

use std::alloc::{AllocError, Global};

// Sets the distance of `m` and adds it to the queue, if it has none.
fn meet(
    m: usize,
    d: usize,
    far: &mut [Option<usize>],
    queue: &mut Vec<usize>,
) -> Result<(), AllocError>
    requires { m < length far.old }
    ensures { IfOk result (λ _. Queues (m ∷ []) d far.old queue.old.items far.new queue.new.items) }
{
    if let None = far[m] {
        far[m] = Some(d);
        queue.push(m)?;
    }
    Ok(())
}

// Sets the distance of each number of the row that has none, and adds it to the queue.
fn meet_all(
    row: &[usize],
    d: usize,
    far: &mut [Option<usize>],
    queue: &mut Vec<usize>,
) -> Result<(), AllocError>
    requires { AreBelow row.now (length far.old) }
    ensures { IfOk result (λ _. Queues row.now d far.old queue.old.items far.new queue.new.items) }
{
    for m in row {
        meet(*m, d, far, queue)?;
    }
    Ok(())
}

/// Returns of each number that a chain of steps reaches from `from` the number of steps of the shortest one.
///
/// `AllocError` if an allocation fails.
pub(crate) fn distances(
    alloc: Global,
    steps: &[&[usize]],
    from: usize,
) -> Result<Vec<Option<usize>>, AllocError>
    requires within { AreStepsWithin (slices_of steps.now) }
    requires from { from < length steps.now }
    ensures { IfOk result (λ far. AreDistances (slices_of steps.now) from far.items) }
{
    let mut far: Vec<Option<usize>> = vec![in alloc; None; steps.len()]?;
    let mut queue = Vec::new(alloc);
    meet(from, 0, &mut far, &mut queue)?;
    let mut head = 0;
    while head < queue.len() {
        let n = queue[head];
        if let Some(d) = far[n] {
            meet_all(steps[n], d + 1, &mut far, &mut queue)?;
        }
        head += 1;
    }
    Ok(far)
}

//! The number before each on its chain.
ghost use Rattle.std.specs.Prelude.{◌≡◌, ◌↔◌, ℕ, ◌<◌, Bool, [], ◌∷◌, length, IfOk};
ghost use Rattle.fixpoint.specs.NumberMarks.{AreBelow};
ghost use Rattle.fixpoint.specs.StepRows.{slices_of, AreStepsWithin};
ghost use Rattle.fixpoint.specs.Distances.{AreDistances};
ghost use Rattle.fixpoint.specs.Fills.{IsNext, SetsBacks};
ghost use Rattle.fixpoint.specs.ShortChains.{AreBacks};

use std::alloc::{AllocError, Global};

// Whether the second number is one step farther than the first.
fn is_next(far: &[Option<usize>], n: usize, m: usize) -> bool
    requires first { n < length far.now }
    requires second { m < length far.now }
    ensures { (result ≡ Bool.true) ↔ IsNext far.now n m }
{
    let Some(d) = far[n] else {
        return false;
    };
    let Some(e) = far[m] else {
        return false;
    };
    e > d && e - d == 1
}

// Sets `n` before `m` if `m` is one step farther, and has none before it.
fn set_back(far: &[Option<usize>], n: usize, m: usize, backs: &mut [Option<usize>])
    requires first { n < length far.now }
    requires second { m < length far.now }
    requires room { m < length backs.old }
    ensures { SetsBacks far.now n (m ∷ []) backs.old backs.new }
{
    if let None = backs[m] {
        if is_next(far, n, m) {
            backs[m] = Some(n);
        }
    }
}

// Sets `n` before each number of the row that is one step farther, and has none before it.
fn set_backs(far: &[Option<usize>], n: usize, row: &[usize], backs: &mut [Option<usize>])
    requires first { n < length far.now }
    requires second { AreBelow row.now (length far.now) }
    requires room { length backs.old ≡ length far.now }
    ensures { SetsBacks far.now n row.now backs.old backs.new }
{
    for m in row {
        set_back(far, n, *m, backs);
    }
}

/// Returns of each number the least one that is a step nearer.
///
/// `AllocError` if an allocation fails.
pub(crate) fn backs_of(
    alloc: Global,
    steps: &[&[usize]],
    far: &[Option<usize>],
) -> Result<Vec<Option<usize>>, AllocError>
    requires within { AreStepsWithin (slices_of steps.now) }
    requires far { length far.now ≡ length steps.now }
    ensures { IfOk result (λ backs. (s : ℕ) → AreDistances (slices_of steps.now) s far.now
        → AreBacks (slices_of steps.now) s backs.items) }
{
    let mut backs: Vec<Option<usize>> = vec![in alloc; None; steps.len()]?;
    for n in 0..steps.len() {
        set_backs(far, n, steps[n], &mut backs);
    }
    Ok(backs)
}

//! The way from a number back to itself.
ghost use Rattle.std.specs.Prelude.{◌≡◌, ◌↔◌, Bool, Contains, length};
ghost use Rattle.fixpoint.specs.StepRows.{slices_of};
ghost use Rattle.fixpoint.specs.Fills.{IsLess, IsNearestIfAny};

use crate::chains::reported;

/// A number with its distance.
#[derive(Clone, Copy)]
pub(crate) struct Near {
    /// The number.
    pub(crate) number: usize,
    /// The number of steps to it.
    pub(crate) far: usize,
}

// Whether a row has a number.
fn leads_to(row: &[usize], n: usize) -> bool
    ensures { (result ≡ Bool.true) ↔ Contains row.now n }
{
    row.contains(&n)
}

// Whether a distance is less than that of the one so far, if there is one.
fn is_nearer(far: usize, best: Option<Near>) -> bool
    ensures { (result ≡ Bool.true) ↔ IsLess far best }
{
    match best {
        Some(best) => far < best.far,
        None => true,
    }
}

/// Returns of the numbers from which a step leads to `from` the nearest one, and of these the least.
pub(crate) fn nearest_before(far: &[Option<usize>], steps: &[&[usize]], from: usize) -> Option<Near>
    ensures { IsNearestIfAny (slices_of steps.now) from far.now (length steps.now) result }
{
    let mut best: Option<Near> = None;
    for number in 0..steps.len() {
        if leads_to(steps[number], from) {
            if let Some(far) = reported(far, number) {
                if is_nearer(far, best) {
                    best = Some(Near { number, far });
                }
            }
        }
    }
    best
}

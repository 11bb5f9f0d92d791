//! Tests of what the other functions require of their tables.
ghost use Rattle.std.specs.Prelude.{◌≡◌, ◌↔◌, ℕ, Bool, length};
ghost use Rattle.fixpoint.specs.NumberMarks.{AreBelow};
ghost use Rattle.fixpoint.specs.StepRows.{slices_of, AreStepsWithin, AreStepsWithinTo};

/// Returns whether each number in `these` is less than `count`.
pub fn are_below(these: &[usize], count: usize) -> bool
    ensures { (result ≡ Bool.true) ↔ AreBelow these.now count }
{
    for m in these {
        if *m >= count {
            return false;
        }
    }
    true
}

/// Returns whether each step leads to a number that has a row, which is a number less than `steps.len()`.
pub fn are_within(steps: &[&[usize]]) -> bool
    ensures { (result ≡ Bool.true) ↔ AreStepsWithin (slices_of steps.now) }
{
    for row in steps {
        if !are_below(row, steps.len()) {
            return false;
        }
    }
    true
}

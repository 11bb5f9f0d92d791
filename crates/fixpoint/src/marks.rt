//! Marks: one `bool` for each number.
ghost use Rattle.std.specs.Prelude.{◌≡◌, ◌↔◌, ℕ, Bool, length, IfOk, Contains};
ghost use Rattle.fixpoint.specs.NumberMarks.{IsMarked, AreBelow, MarksThose, AreMarksOf};

use std::alloc::{AllocError, Global};

/// Sets the mark of each number in `these`. Each must be less than `marks.len()`.
pub fn mark(these: &[usize], marks: &mut [bool])
    requires { AreBelow these.now (length marks.old) }
    ensures { MarksThose these.now marks.old marks.new }
{
    for m in these {
        marks[*m] = true;
    }
}

/// Returns `count` marks, set exactly for the numbers in `these`. Each must be less than `count`.
///
/// # Errors
/// `AllocError` if an allocation fails.
pub fn marks_of(alloc: Global, count: usize, these: &[usize]) -> Result<Vec<bool>, AllocError>
    requires { AreBelow these.now count }
    ensures count { IfOk result (λ marks. length marks.items ≡ count) }
    ensures marks { IfOk result (λ marks. AreMarksOf these.now marks.items) }
{
    let mut marks = vec![in alloc; false; count]?;
    mark(these, &mut marks);
    Ok(marks)
}

/// Returns whether a number in `these` is marked. Each must be less than `marks.len()`.
pub fn some_marked(these: &[usize], marks: &[bool]) -> bool
    requires { AreBelow these.now (length marks.now) }
    ensures { (result ≡ Bool.true) ↔ ((m : ℕ) × Contains these.now m × IsMarked marks.now m) }
{
    for m in these {
        if marks[*m] {
            return true;
        }
    }
    false
}

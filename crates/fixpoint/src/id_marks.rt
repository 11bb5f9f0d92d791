//! Marks on ids.
ghost use Rattle.std.specs.Prelude.{◌≡◌, map, not, Contains, IfOk};
ghost use Rattle.fixpoint.specs.IdMarks.{AreMarks};

use ruletable::Memory;
use std::alloc::Global;

/// Returns so many marks, set for the ids in the list. Other ids in the list are of no account.
///
/// # Errors
/// `Memory` if an allocation fails.
pub fn marks_at(alloc: Global, ids: &[usize], count: usize) -> Result<Vec<bool>, Memory>
    ensures { IfOk result (λ marks. AreMarks (Contains ids.now) count marks.items) }
{
    let mut marks = vec![in alloc; false; count]?;
    for id in ids {
        if *id < marks.len() {
            marks[*id] = true;
        }
    }
    Ok(marks)
}

/// Returns the opposite of each mark.
///
/// # Errors
/// `Memory` if an allocation fails.
pub fn opposites(alloc: Global, marks: &[bool]) -> Result<Vec<bool>, Memory>
    ensures { IfOk result (λ others. others.items ≡ map not marks.now) }
{
    let mut others = Vec::new(alloc);
    for mark in marks {
        others.push(!*mark)?;
    }
    Ok(others)
}

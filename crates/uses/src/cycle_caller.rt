//! A caller of `fixpoint`.
ghost use Rattle.std.specs.Prelude.{◌≡◌, ◌↔◌, ◌<◌, Bool, length, IfOk};
ghost use Rattle.fixpoint.specs.Leads.{Leads};
ghost use Rattle.fixpoint.specs.StepRows.{slices_of, AreStepsWithin};

use fixpoint::on_cycle;
use std::alloc::{AllocError, Global};

/// Returns whether a chain of at least one step leads from `n` back to `n`.
pub fn comes_back(alloc: Global, steps: &[&[usize]], n: usize) -> Result<bool, AllocError>
    requires within { AreStepsWithin (slices_of steps.now) }
    requires n { n < length steps.now }
    ensures { IfOk result (λ back. (back ≡ Bool.true) ↔ Leads (slices_of steps.now) n n) }
{
    let found = on_cycle(alloc, steps)?;
    Ok(found.marks[n])
}

//! The left steps that lead from a left-recursive rule back to it.
ghost use Rattle.std.specs.Prelude.{◌≡◌, ◌<◌, length, IfOk, option_map};
ghost use Rattle.fixpoint.specs.StepRows.{rows_of, AreStepsWithin};
ghost use Rattle.fixpoint.specs.ShortChains.{IsRoundIfAny};

use fixpoint::{chains_from, slices};
use ruletable::Memory;
use std::alloc::Global;

/// Returns the rules on the shortest way from one back to itself by left steps, the first at its start alone, if
/// they lead back.
///
/// # Errors
/// `Memory` if an allocation fails.
pub fn left_way(alloc: Global, rows: &[Vec<usize>], id: usize) -> Result<Option<Vec<usize>>, Memory>
    requires within { AreStepsWithin (rows_of rows.now) }
    requires there { id < length rows.now }
    ensures { IfOk result (λ chain. IsRoundIfAny (rows_of rows.now) id (option_map (λ v. v.items) chain)) }
{
    let steps = slices(alloc, rows)?;
    let chains = chains_from(alloc, &steps, id)?;
    Ok(chains.way_back(alloc, &steps, id)?)
}

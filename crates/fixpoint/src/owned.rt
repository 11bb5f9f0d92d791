//! Rows and needs whose numbers are vectors, borrowed for the other functions.
ghost use Rattle.std.specs.Prelude.{◌≡◌, IfOk};
ghost use Rattle.fixpoint.specs.Demands.{demand_of, demands_of, owned_demand_of, owned_demands_of};
ghost use Rattle.fixpoint.specs.StepRows.{slices_of, rows_of};

use crate::needs::Need;
use std::alloc::{AllocError, Global};

/// Returns a slice of each row, for a caller whose rows are vectors.
///
/// # Errors
/// `AllocError` if an allocation fails.
pub fn slices(alloc: Global, rows: &[Vec<usize>]) -> Result<Vec<&[usize]>, AllocError>
    ensures { IfOk result (λ slices. slices_of slices.items ≡ rows_of rows.now) }
{
    let mut slices = Vec::with_capacity(alloc, rows.len())?;
    for row in rows {
        slices.push(row.as_slice())?;
    }
    Ok(slices)
}

/// A need whose numbers are a vector of its own.
#[derive(Drop)]
pub enum OwnedNeed {
    /// All of these numbers must be in the set.
    All(Vec<usize>),
    /// One of these numbers must be in the set.
    One(Vec<usize>),
}

impl OwnedNeed {
    // Returns the same need of a slice.
    fn borrowed(&self) -> Need<'_>
        ensures { demand_of result ≡ owned_demand_of self.now }
    {
        match self {
            OwnedNeed::All(row) => Need::All(row),
            OwnedNeed::One(row) => Need::One(row),
        }
    }
}

/// Returns the same needs of slices, for a caller whose needs have vectors of their own.
///
/// # Errors
/// `AllocError` if an allocation fails.
pub fn borrowed_needs(alloc: Global, needs: &[OwnedNeed]) -> Result<Vec<Need<'_>>, AllocError>
    ensures { IfOk result (λ borrowed. demands_of borrowed.items ≡ owned_demands_of needs.now) }
{
    let mut borrowed = Vec::with_capacity(alloc, needs.len())?;
    for need in needs {
        borrowed.push(need.borrowed())?;
    }
    Ok(borrowed)
}

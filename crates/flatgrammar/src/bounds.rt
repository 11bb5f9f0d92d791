//! Numbers where classes of symbols begin.
ghost use Rattle.std.specs.Prelude.{IsTrue, IfOk, Contains};
ghost use Rattle.flatgrammar.specs.ClassBounds.{IsBoundAdded};

use ruletable::Memory;
use std::alloc::Global;

/// The numbers at which classes begin. One below 256 is added once; a greater one may repeat until they are sorted.
#[derive(Drop)]
pub(crate) struct Bounds {
    /// The numbers, in the order in which they were added.
    pub(crate) numbers: Vec<u32>,
    /// Of each number below 256 the index where it may stand in `numbers`. No contract relies on it.
    dots: [usize; 256],
}

/// Returns no number. It takes no memory.
pub(crate) fn empty_bounds(alloc: Global) -> Bounds {
    Bounds {
        numbers: Vec::new(alloc),
        dots: [0; 256],
    }
}

#[inline(always)]
fn is_bound(bounds: &Bounds, number: u32) -> bool
    ensures { IsTrue result → Contains bounds.now.numbers.items number }
{
    match bounds.dots.get(number as usize) {
        Some(dot) => match bounds.numbers.get(*dot) {
            Some(found) => *found == number,
            None => false,
        },
        None => false,
    }
}

// Adds a number that was not found. `Memory` if an allocation fails.
#[cold]
#[inline(never)]
fn push_bound(number: u32, bounds: &mut Bounds) -> Result<(), Memory>
    ensures { IfOk result (λ done. IsBoundAdded bounds.old.numbers.items bounds.new.numbers.items number) }
{
    let dot = bounds.numbers.len();
    bounds.numbers.push(number)?;
    if number < 256 {
        bounds.dots[number as usize] = dot;
    }
    Ok(())
}

/// Adds a number; one below 256 is added once. `Memory` if an allocation fails.
#[inline(always)]
pub(crate) fn add_bound(number: u32, bounds: &mut Bounds) -> Result<(), Memory>
    ensures { IfOk result (λ done. IsBoundAdded bounds.old.numbers.items bounds.new.numbers.items number) }
{
    if is_bound(bounds, number) {
        return Ok(());
    }
    push_bound(number, bounds)
}

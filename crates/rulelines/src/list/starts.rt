//! Keys at which classes of symbols start.
ghost use Rattle.std.specs.Prelude.{◌≡◌, true, IfOk, IfSome};
ghost use Rattle.std.specs.List.Sorted.{IsStrictlyIncreasing};
ghost use Rattle.rulelines.specs.LineSets.{is_line_symbol};
ghost use Rattle.rulelines.specs.Starts.{AreLineBounds, AreClassStarts, HaveBothEnds, HaveBothKeys, HaveEnds};
ghost use Rattle.rulelines.specs.Starts.{HaveKeys, IsLastUpTo};

use crate::list::keys::{LineSymbols, is_inner};
use crate::samples::key_of;
use flatgrammar::{Flat, find_classes};
use ruletable::Memory;
use std::alloc::Global;

// Returns where classes of a grammar begin, with the edges in the order of symbols, in the alphabets and beside the
// symbol that ends a line. `Memory` if an allocation fails.
fn line_bounds(alloc: Global, terminator: u8, flat: &Flat) -> Result<Vec<u32>, Memory>
    ensures { IfOk result (λ bounds. AreLineBounds flat.now terminator bounds.items) }
{
    let tables = flat.share()?;
    let classes = find_classes(alloc, &tables)?;
    let mut bounds = classes.samples;
    let end = u32::from(terminator);
    bounds.extend_from_slice(&[0, 32, 33, 127, 57_344, end, end + 1])?;
    Ok(bounds)
}

// Returns bounds, and the number before each of them, which may be the last of its class. `Memory` if an allocation
// fails.
fn with_ends(alloc: Global, bounds: &[u32]) -> Result<Vec<u32>, Memory>
    ensures { IfOk result (λ all. HaveEnds bounds.now all.items) }
{
    let mut all = Vec::new(alloc);
    for bound in bounds {
        all.push(*bound)?;
        all.push(bound.saturating_sub(1))?;
    }
    Ok(all)
}

// Returns where classes of a grammar begin, as `line_bounds`, and with `edges` where they end. `Memory` if an
// allocation fails.
fn class_bounds(
    alloc: Global,
    inner: LineSymbols,
    flat: &Flat,
    edges: bool,
) -> Result<Vec<u32>, Memory>
    ensures bounds { IfOk result (λ bounds. AreLineBounds flat.now inner.terminator bounds.items) }
    ensures ends { IfOk result (λ bounds. edges ≡ true → HaveBothEnds flat.now
        (is_line_symbol inner.alphabet inner.terminator) bounds.items) }
{
    let bounds = line_bounds(alloc, inner.terminator, flat)?;
    if edges {
        return with_ends(alloc, &bounds);
    }
    Ok(bounds)
}

// Returns the keys of the bounds that are symbols of a line. `Memory` if an allocation fails.
fn inner_keys(alloc: Global, inner: LineSymbols, bounds: &[u32]) -> Result<Vec<u32>, Memory>
    ensures { IfOk result (λ keys. HaveKeys (is_line_symbol inner.alphabet inner.terminator) bounds.now keys.items) }
{
    let mut keys = Vec::new(alloc);
    for bound in bounds {
        if is_inner(inner, *bound) {
            keys.push(key_of(*bound))?;
        }
    }
    Ok(keys)
}

/// Returns the keys at which classes of symbols of a line start, in ascending order. With `edges`, also those of
/// symbols next to another class by number. `Memory` if an allocation fails.
pub(crate) fn find_starts(
    alloc: Global,
    inner: LineSymbols,
    flat: &Flat,
    edges: bool,
) -> Result<Vec<u32>, Memory>
    ensures starts { IfOk result (λ starts. AreClassStarts flat.now (is_line_symbol inner.alphabet inner.terminator)
        starts.items) }
    ensures rise { IfOk result (λ starts. IsStrictlyIncreasing starts.items) }
    ensures ends { IfOk result (λ starts. edges ≡ true → HaveBothKeys flat.now
        (is_line_symbol inner.alphabet inner.terminator) starts.items) }
{
    let bounds = class_bounds(alloc, inner, flat, edges)?;
    let mut keys = inner_keys(alloc, inner, &bounds)?;
    keys.sort_unstable();
    keys.dedup();
    Ok(keys)
}

/// Returns the index of the last start up to a key; `None` if each is greater.
pub(crate) fn start_up_to(starts: &[u32], key: u32) -> Option<usize>
    requires rise { IsStrictlyIncreasing starts.now }
    ensures { IfSome result (IsLastUpTo starts.now key) }
{
    let above = starts.partition_point(|start| *start <= key);
    above.checked_sub(1)
}

//! Links of an event log.
ghost use Rattle.std.specs.Prelude.{◌≡◌, ℕ, List, [], ◌∷◌, IfOk};
ghost use Rattle.pegmatch.specs.declared.event.Kept.{Kept};
ghost use Rattle.packrat.specs.EventLog.{events_of, IsBefore};

use pegmatch::Kept;
use ruletable::Memory;

/// One event, or the events of a head and then those of another.
#[derive(Clone, Copy)]
pub enum Link {
    Opened(u32),
    Closed(u32),
    Acted(u32),
    Join { first: u32, second: u32 },
}

/// Returns a number as a link keeps it.
///
/// # Errors
/// `Memory` if it is too great.
#[inline(always)]
pub(crate) fn narrow(number: usize) -> Result<u32, Memory>
    ensures { IfOk result (λ kept. kept ≡ number) }
{
    if number <= u32::MAX as usize {
        Ok(number as u32)
    } else {
        Err(Memory)
    }
}

/// Returns the link of an event.
///
/// # Errors
/// `Memory` if its position or node is too great.
#[inline(always)]
pub(crate) fn link_of(event: Kept) -> Result<Link, Memory>
    ensures event { IfOk result (λ link. (kept : ℕ → List Kept) → events_of kept link ≡ event ∷ []) }
    ensures before { IfOk result (λ link. (head : ℕ) → IsBefore head link) }
{
    match event {
        Kept::Opened(position) => Ok(Link::Opened(narrow(position)?)),
        Kept::Closed(position) => Ok(Link::Closed(narrow(position)?)),
        Kept::Acted(node) => Ok(Link::Acted(narrow(node)?)),
    }
}

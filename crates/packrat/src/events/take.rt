//! Takes the events of the heads that wait, one by one.
ghost use Rattle.std.specs.Prelude.{◌≡◌, ℕ, ◌+◌, ◌≤◌, [], ◌++◌, length, reverse, slice_get, Some, IfSome, IfNone};
ghost use Rattle.std.specs.Prelude.{option_to_list};
ghost use Rattle.packrat.specs.EventLog.{AreOrdered};
ghost use Rattle.packrat.specs.WaitingHeads.{kept_at_all, AreWaiting};

use crate::events::link::Link;
use crate::events::waiting::Waiting;
use pegmatch::Kept;

/// Returns the link of a head, if it has one.
#[inline(always)]
pub(crate) fn link_at(links: &[Link], head: usize) -> Option<Link>
    requires { head ≤ length links.now }
    ensures some { IfSome result (λ link. (i : ℕ) × (head ≡ i + 1) × (slice_get links.now i ≡ Some link)) }
    ensures none { IfNone result (head ≡ 0) }
{
    if head == 0 {
        None
    } else {
        Some(links[head - 1])
    }
}

/// Takes the next event of the heads that wait, if there is one.
#[inline(always)]
pub(crate) fn take_event(links: &[Link], waiting: &mut Waiting) -> Option<Kept>
    requires order { AreOrdered (reverse links.now) }
    requires room { length links.now ≤ waiting.old.room }
    requires waits { AreWaiting (length links.now + 1) 0 waiting.old.heads }
    ensures kept { kept_at_all (reverse links.now) waiting.old.heads
        ≡ option_to_list result ++ kept_at_all (reverse links.now) waiting.new.heads }
    ensures none { IfNone result (waiting.new.heads ≡ []) }
    ensures waits { AreWaiting (length links.now + 1) 0 waiting.new.heads }
    ensures room { waiting.new.room ≡ waiting.old.room }
{
    let mut top = waiting.take()?;
    'down: loop {
        match link_at(links, top as usize) {
            None => top = waiting.take()?,
            Some(Link::Opened(position)) => return Some(Kept::Opened(position as usize)),
            Some(Link::Closed(position)) => return Some(Kept::Closed(position as usize)),
            Some(Link::Acted(node)) => return Some(Kept::Acted(node as usize)),
            Some(Link::Join { first, second }) => {
                waiting.push(second);
                top = first;
            }
        }
    }
}

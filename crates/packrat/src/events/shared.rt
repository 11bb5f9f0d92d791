//! Writes what events print whose links are shared. A join that printed nothing is passed when it comes again, so a
//! success that prints little takes little time, however many events it has.
ghost use Rattle.std.specs.Prelude.{◌≡◌, ℕ, ◌+◌, ◌<◌, ◌≤◌, List, length, reverse, slice_range, Option, true, false};
ghost use Rattle.std.specs.Io.KnownBytes.{Appends};
ghost use Rattle.pegnodes.specs.Nodes.{Shape, shapes_of};
ghost use Rattle.gramcheck.specs.Outcome.{Event};
ghost use Rattle.pegmatch.specs.KeptEvents.{StandsFor, StandFor};
ghost use Rattle.pegmatch.specs.EventPrinting.{event_text, capture_by, IsPrinted};
ghost use Rattle.pegmatch.specs.Text.{text_of};
ghost use Rattle.ruletable.specs.Writing.{Writes, Flags};
ghost use Rattle.packrat.specs.EventLog.{AreOrdered};
ghost use Rattle.packrat.specs.WaitingHeads.{kept_at_all, AreWaiting};
ghost use Rattle.packrat.specs.QuietJoins.{IsSilent, Recalls, IsNextEvent, PassesEvent};

use crate::events::link::Link;
use crate::events::silence::Silence;
use crate::events::take::link_at;
use crate::events::walk::ReplayWalk;
use gramcheck::SoundPeg;
use pegmatch::{Capture, Kept, PrintStyle, capture_after, write_event};
use ruletable::{Sink, WriteFault};

// Takes the next event of the heads that wait, if there is one, and passes joins that print nothing.
fn next_event(links: &[Link], walk: &mut ReplayWalk) -> Option<Kept>
    requires order { AreOrdered (reverse links.now) }
    requires room { length links.now < walk.old.waiting.room }
    requires waits { AreWaiting (length links.now + 1) 0 walk.old.waiting.heads }
    ensures event { (style : PrintStyle) (nodes : List Shape) (x : List ℕ) →
        Recalls style nodes x (reverse links.now) walk.old.waiting.heads (length walk.old.waiting.heads) walk.old →
        IsNextEvent style nodes x (reverse links.now) walk.old walk.new result }
    ensures waits { AreWaiting (length links.now + 1) 0 walk.new.waiting.heads }
    ensures room { walk.new.waiting.room ≡ walk.old.waiting.room }
{
    'heads: while let Some(head) = walk.next_head() {
        match link_at(links, head as usize) {
            None => {}
            Some(Link::Opened(position)) => return Some(Kept::Opened(position as usize)),
            Some(Link::Closed(position)) => return Some(Kept::Closed(position as usize)),
            Some(Link::Acted(node)) => return Some(Kept::Acted(node as usize)),
            Some(Link::Join { first, second }) => match walk.passed(head) {
                Some(after) => walk.capture = after,
                None => walk.begin(head, first, second),
            },
        }
    }
    None
}

// Returns whether an event prints nothing.
fn is_silent(
    peg: &SoundPeg,
    window: &[u8],
    style: PrintStyle,
    event: Kept,
    capture: Capture,
) -> bool
    requires order { capture.from ≤ capture.to }
    requires within { capture.to ≤ length window.now }
    requires stands { (e : Event) × StandsFor (shapes_of peg.now.nodes) event e }
    ensures { result ≡ true → IsSilent style (shapes_of peg.now.nodes) window.now capture event }
{
    let mut silence = Silence { failed: false };
    write_event(peg, window, style, event, capture, &mut silence).is_ok()
}

// Writes what an event prints. If it prints something, so do the joins that it is of.
fn pass_event<W: Sink>(
    peg: &SoundPeg,
    window: &[u8],
    style: PrintStyle,
    event: Kept,
    walk: &mut ReplayWalk,
    out: &mut W,
) -> Result<(), WriteFault>
    requires order { walk.old.capture.from ≤ walk.old.capture.to }
    requires within { walk.old.capture.to ≤ length window.now }
    requires stands { (e : Event) × StandsFor (shapes_of peg.now.nodes) event e }
    requires out_is_fresh { W.failed out.old ≡ false }
    ensures bytes { (e : Event) → StandsFor (shapes_of peg.now.nodes) event e →
        Writes (W.contents out.old) (W.contents out.new)
        (event_text style e (slice_range window.now walk.old.capture.from walk.old.capture.to)) result }
    ensures flag { Flags (W.failed out.old) (W.failed out.new) result }
    ensures passed { PassesEvent style (shapes_of peg.now.nodes) window.now event walk.old walk.new }
{
    let before = walk.capture;
    walk.capture = capture_after(before, event);
    if is_silent(peg, window, style, event, before) {
        return Ok(());
    }
    walk.joins.clear();
    write_event(peg, window, style, event, before, out)
}

/// Writes what the events of the heads that wait print, from the capture of the walk on.
#[inline(never)]
pub(crate) fn write_shared<W: Sink>(
    peg: &SoundPeg,
    window: &[u8],
    style: PrintStyle,
    links: &[Link],
    walk: &mut ReplayWalk,
    out: &mut W,
) -> Result<(), WriteFault>
    requires order { AreOrdered (reverse links.now) }
    requires room { length links.now < walk.old.waiting.room }
    requires waits { AreWaiting (length links.now + 1) 0 walk.old.waiting.heads }
    requires stands { (all later : List Event) × (done : List ℕ) × StandFor (shapes_of peg.now.nodes)
        (kept_at_all (reverse links.now) walk.old.waiting.heads) later
        × IsPrinted style window.now all later walk.old.capture done }
    requires out_is_fresh { W.failed out.old ≡ false }
    ensures bytes { (old : Option (List ℕ)) (all later : List Event) (done : List ℕ) →
        Appends old (W.contents out.old) done → StandFor (shapes_of peg.now.nodes)
        (kept_at_all (reverse links.now) walk.old.waiting.heads) later →
        IsPrinted style window.now all later walk.old.capture done →
        Writes old (W.contents out.new) (text_of style window.now all) result }
    ensures flag { Flags (W.failed out.old) (W.failed out.new) result }
{
    walk.joins.clear();
    walk.passages.clear();
    // `clear` takes as long as there is room, so the room of another unit is let go.
    walk.passages.shrink_to_fit();
    'events: while let Some(event) = next_event(links, walk) {
        match pass_event(peg, window, style, event, walk, out) {
            Ok(()) => {}
            Err(fault) => return Err(fault),
        }
    }
    Ok(())
}

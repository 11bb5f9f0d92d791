//! Writes what events print.
ghost use Rattle.std.specs.Prelude.{◌≡◌, ◌+◌, ◌<◌, List, length, reverse, false};
ghost use Rattle.pegnodes.specs.Nodes.{shapes_of};
ghost use Rattle.gramcheck.specs.Outcome.{Event};
ghost use Rattle.gramcheck.specs.Rising.{Rise};
ghost use Rattle.pegmatch.specs.KeptEvents.{StandFor};
ghost use Rattle.pegmatch.specs.Text.{text_of};
ghost use Rattle.ruletable.specs.Writing.{Writes, Flags};
ghost use Rattle.packrat.specs.EventLog.{AreOrdered};
ghost use Rattle.packrat.specs.WaitingHeads.{kept_at_all, AreWaiting};

use crate::events::link::Link;
use crate::events::shared::write_shared;
use crate::events::take::take_event;
use crate::events::walk::ReplayWalk;
use gramcheck::SoundPeg;
use pegmatch::{NO_CAPTURE, PrintStyle, capture_after, write_event};
use ruletable::{Sink, WriteFault};

/// Writes what the events of the heads that wait print. Where there are more events than links, links are shared, and
/// `write_shared` writes the others.
pub(crate) fn write_waiting<W: Sink>(
    peg: &SoundPeg,
    window: &[u8],
    style: PrintStyle,
    links: &[Link],
    walk: &mut ReplayWalk,
    out: &mut W,
) -> Result<(), WriteFault>
    requires order { AreOrdered (reverse links.now) }
    requires room { length links.now < walk.old.waiting.room }
    requires waits { AreWaiting (length links.now + 1) 0 walk.old.waiting.heads }
    requires stands { (events : List Event) × StandFor (shapes_of peg.now.nodes)
        (kept_at_all (reverse links.now) walk.old.waiting.heads) events × Rise 0 (length window.now) events }
    requires out_is_fresh { W.failed out.old ≡ false }
    ensures bytes { (events : List Event) → StandFor (shapes_of peg.now.nodes)
        (kept_at_all (reverse links.now) walk.old.waiting.heads) events → Rise 0 (length window.now) events →
        Writes (W.contents out.old) (W.contents out.new) (text_of style window.now events) result }
    ensures flag { Flags (W.failed out.old) (W.failed out.new) result }
{
    let mut capture = NO_CAPTURE;
    let mut left = links.len();
    'events: while let Some(event) = take_event(links, &mut walk.waiting) {
        match write_event(peg, window, style, event, capture, out) {
            Ok(()) => capture = capture_after(capture, event),
            Err(fault) => return Err(fault),
        }
        if left == 0 {
            walk.capture = capture;
            return write_shared(peg, window, style, links, walk, out);
        }
        left -= 1;
    }
    Ok(())
}

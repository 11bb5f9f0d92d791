//! How a run ends: the explanations of rejected lines, a stop, and what explains it.
ghost use Rattle.std.specs.Prelude.{◌≡◌, ◌++◌, [], false};
ghost use Rattle.ruletable.specs.Writing.{Flags, Writes};
ghost use Rattle.toolrun.specs.RunEnd.{ended_status, ended_text, more_refused, plainly, refusals_text};
ghost use Rattle.toolrun.specs.Stop.{message_of};

use crate::status::Status;
use crate::stop::{NOT_EXPLAINED, Stop, status, write_stop};
use itoa::Buffer;
use ruletable::{Sink, WriteFault, write_pieces, write_whole};
use std::alloc::Global;

/// The explanations of rejected lines.
#[derive(Drop)]
pub struct ReportedRefusals {
    /// The lines that explain the first ones.
    pub text: Vec<u8>,
    /// How many more there are.
    pub more: usize,
}

impl ReportedRefusals {
    /// Returns the explanations where no line is rejected: none.
    pub fn none(alloc: Global) -> ReportedRefusals
        ensures { refusals_text result ≡ [] }
    {
        ReportedRefusals {
            text: Vec::new(alloc),
            more: 0,
        }
    }
}

/// How a run ends.
#[derive(Drop)]
pub enum Ending {
    /// It stops so, and writes nothing more.
    Plain(Stop),
    /// It writes the explanations of rejected lines first; it stops so, and these lines explain that.
    Explained {
        reported: ReportedRefusals,
        stop: Stop,
        why: Vec<u8>,
    },
    /// It writes the explanations of rejected lines first; it stops so, and an allocation failed in explaining that.
    Unexplained {
        reported: ReportedRefusals,
        stop: Stop,
    },
}

/// Wraps the stop of a run as its ending, where nothing explains it.
pub fn plain_ending(stop: Result<Stop, WriteFault>) -> Result<Ending, WriteFault>
    ensures { result ≡ plainly stop }
{
    match stop {
        Ok(stop) => Ok(Ending::Plain(stop)),
        Err(fault) => Err(fault),
    }
}

/// Returns the status of a run that ended so.
pub fn ending_status(ending: &Ending) -> Status
    ensures { result ≡ ended_status ending.now }
{
    match ending {
        Ending::Plain(stop) => status(*stop),
        Ending::Explained { stop, .. } => status(*stop),
        Ending::Unexplained { stop, .. } => status(*stop),
    }
}

/// Writes how many more lines were rejected, if some were.
fn write_more<W: Sink>(more: usize, w: &mut W) -> Result<(), WriteFault>
    requires { W.failed w.old ≡ false }
    ensures bytes { Writes (W.contents w.old) (W.contents w.new) (more_refused more) result }
    ensures flag { Flags (W.failed w.old) (W.failed w.new) result }
{
    if more == 0 {
        return Ok(());
    }
    let mut digits = Buffer::new();
    let count = digits.format(more).as_bytes();
    let pieces: [&[u8]; 3] = [b"more refused lines: ", count, b"\n"];
    write_pieces(w, &pieces)
}

/// Writes the explanations of rejected lines.
fn write_refusals<W: Sink>(reported: &ReportedRefusals, w: &mut W) -> Result<(), WriteFault>
    requires { W.failed w.old ≡ false }
    ensures bytes { Writes (W.contents w.old) (W.contents w.new) (refusals_text reported.now) result }
    ensures flag { Flags (W.failed w.old) (W.failed w.new) result }
{
    match write_whole(w, reported.text.as_slice()) {
        Ok(()) => write_more(reported.more, w),
        Err(fault) => Err(fault),
    }
}

/// Writes the line of a stop, and then more.
fn write_after<W: Sink>(stop: Stop, more: &[u8], w: &mut W) -> Result<(), WriteFault>
    requires { W.failed w.old ≡ false }
    ensures bytes { Writes (W.contents w.old) (W.contents w.new) (message_of stop ++ more.now) result }
    ensures flag { Flags (W.failed w.old) (W.failed w.new) result }
{
    match write_stop(stop, w) {
        Ok(()) => write_whole(w, more),
        Err(fault) => Err(fault),
    }
}

/// Writes the explanations of rejected lines, the line of a stop, and then more.
fn write_reported<W: Sink>(
    reported: &ReportedRefusals,
    stop: Stop,
    more: &[u8],
    w: &mut W,
) -> Result<(), WriteFault>
    requires { W.failed w.old ≡ false }
    ensures bytes { Writes (W.contents w.old) (W.contents w.new) (refusals_text reported.now
        ++ (message_of stop ++ more.now)) result }
    ensures flag { Flags (W.failed w.old) (W.failed w.new) result }
{
    match write_refusals(reported, w) {
        Ok(()) => write_after(stop, more, w),
        Err(fault) => Err(fault),
    }
}

/// Writes the explanations of rejected lines, the line of a stop, and then the lines that explain it, or
/// `  not explained: out of memory` if an allocation failed in that.
pub fn write_ending<W: Sink>(ending: &Ending, w: &mut W) -> Result<(), WriteFault>
    requires { W.failed w.old ≡ false }
    ensures bytes { Writes (W.contents w.old) (W.contents w.new) (ended_text ending.now) result }
    ensures flag { Flags (W.failed w.old) (W.failed w.new) result }
{
    match ending {
        Ending::Plain(stop) => write_stop(*stop, w),
        Ending::Explained {
            reported,
            stop,
            why,
        } => write_reported(reported, *stop, why.as_slice(), w),
        Ending::Unexplained { reported, stop } => write_reported(reported, *stop, NOT_EXPLAINED, w),
    }
}

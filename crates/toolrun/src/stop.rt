//! How a run stops.
ghost use Rattle.std.specs.Prelude.{◌≡◌, ◌++◌, codes, decimal, false};
ghost use Rattle.ruletable.specs.Writing.{Flags, Writes};
ghost use Rattle.toolrun.specs.Stop.{status_of, message_of, unread};

use crate::status::Status;
use itoa::Buffer;
use ruletable::{ReadFault, Sink, WriteFault, write_fault, write_pieces, write_whole};

/// The line in place of an explanation in which an allocation failed.
pub const NOT_EXPLAINED: &[u8] = b"  not explained: out of memory\n";

/// Why a run stopped. A position counts the bytes before it; lines count from 1.
#[derive(Clone, Copy, PartialEq, Eq)]
pub enum Stop {
    /// The run writes no message; it has this status.
    Quiet(Status),
    /// No unit matches at this position.
    NoMatch(usize),
    /// The unit at this position looks at more bytes than the limit.
    LongUnit { position: usize, limit: usize },
    /// The unit at this position prints more bytes than its budget.
    CostlyUnit { position: usize, budget: usize },
    /// The line of this number has more bytes than the limit.
    LongLine { line: usize, limit: usize },
    /// The line of this number needs more items than its budget.
    CostlyLine { line: usize, budget: usize },
    /// The reader failed before all that was to be looked at was held.
    Broken,
    /// An allocation failed.
    NoMemory,
    /// The grammar's text has this fault.
    Refused(ReadFault),
    /// The grammar's file cannot be read.
    Unreadable,
}

/// Returns the status of a run that stopped so.
pub fn status(stop: Stop) -> Status
    ensures { result ≡ status_of stop }
{
    match stop {
        Stop::Quiet(status) => status,
        Stop::NoMatch(_) => Status::NoMatch,
        Stop::LongUnit { .. } => Status::Overlong,
        Stop::CostlyUnit { .. } => Status::Overlong,
        Stop::LongLine { .. } => Status::Overlong,
        Stop::CostlyLine { .. } => Status::Overlong,
        Stop::Broken => Status::Fault,
        Stop::NoMemory => Status::NoMemory,
        Stop::Refused(_) => Status::Refused,
        Stop::Unreadable => Status::Fault,
    }
}

/// Returns the stop of a run whose grammar was not read.
pub fn stop_unread(fault: ReadFault) -> Stop
    ensures { result ≡ unread fault }
{
    match fault {
        ReadFault::Memory => Stop::NoMemory,
        _ => Stop::Refused(fault),
    }
}

/// Writes the line for it, with its LF; nothing for `Quiet`.
pub fn write_stop<W: Sink>(stop: Stop, w: &mut W) -> Result<(), WriteFault>
    requires { W.failed w.old ≡ false }
    ensures bytes { Writes (W.contents w.old) (W.contents w.new) (message_of stop) result }
    ensures flag { Flags (W.failed w.old) (W.failed w.new) result }
{
    match stop {
        Stop::Quiet(_) => Ok(()),
        Stop::NoMatch(at) => write_numbers(b"no match at byte ", at, b"\n", w),
        Stop::LongUnit { position, limit } => {
            let over: &[u8] = b" longer than ";
            write_excess(b"unit at byte ", position, over, limit, b" bytes\n", w)
        }
        Stop::CostlyUnit { position, budget } => {
            let over: &[u8] = b" prints more than ";
            write_excess(b"unit at byte ", position, over, budget, b" bytes\n", w)
        }
        Stop::LongLine { line, limit } => {
            write_excess(b"line ", line, b" longer than ", limit, b" bytes\n", w)
        }
        Stop::CostlyLine { line, budget } => {
            let over: &[u8] = b" needs more than ";
            write_excess(b"line ", line, over, budget, b" items\n", w)
        }
        Stop::Broken => write_whole(w, b"read error\n"),
        Stop::NoMemory => write_whole(w, b"out of memory\n"),
        Stop::Refused(fault) => write_fault(&fault, w),
        Stop::Unreadable => write_whole(w, b"cannot read the grammar\n"),
    }
}

fn write_numbers<W: Sink>(
    before: &[u8],
    at: usize,
    after: &[u8],
    w: &mut W,
) -> Result<(), WriteFault>
    requires { W.failed w.old ≡ false }
    ensures bytes { Writes (W.contents w.old) (W.contents w.new) (before.now ++ decimal at ++ after.now) result }
    ensures flag { Flags (W.failed w.old) (W.failed w.new) result }
{
    let mut digits = Buffer::new();
    let position = digits.format(at).as_bytes();
    let pieces: [&[u8]; 3] = [before, position, after];
    write_pieces(w, &pieces)
}

fn write_excess<'a, W: Sink>(
    what: &'a [u8],
    at: usize,
    over: &'a [u8],
    limit: usize,
    unit: &'a [u8],
    w: &mut W,
) -> Result<(), WriteFault>
    requires { W.failed w.old ≡ false }
    ensures bytes { Writes (W.contents w.old) (W.contents w.new)
        (what.now ++ decimal at ++ over.now ++ decimal limit ++ unit.now) result }
    ensures flag { Flags (W.failed w.old) (W.failed w.new) result }
{
    let mut position_digits = Buffer::new();
    let mut limit_digits = Buffer::new();
    let position = position_digits.format(at).as_bytes();
    let most = limit_digits.format(limit).as_bytes();
    let pieces: [&[u8]; 5] = [what, position, over, most, unit];
    write_pieces(w, &pieces)
}

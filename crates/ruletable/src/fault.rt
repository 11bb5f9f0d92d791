//! Faults of a grammar's text.
ghost use Rattle.std.specs.Prelude.{◌≡◌, ◌++◌, codes, decimal, false};
ghost use Rattle.ruletable.specs.Faults.{at_line, fault_text};
ghost use Rattle.ruletable.specs.Writing.{Writes, Flags};

use crate::memory::Memory;
use crate::sink::{Sink, WriteFault, write_pieces, write_whole};
use itoa::Buffer;
use std::alloc::{AllocError, AllocFailed};
use thiserror::Error;

/// Why a grammar's text was rejected. A line counts from 1, and is that of the first byte of the token that decides.
#[derive(Clone, Copy, Debug, PartialEq, Eq, Error)]
pub enum ReadFault {
    /// A token with which the tokens up to it begin no grammar.
    #[error("line {line}: syntax error")]
    Syntax { line: usize },
    /// The bracket that is one too many of those open at once.
    #[error("line {line}: nested too deeply")]
    Depth { line: usize },
    /// An action right after `&`, which peg(1) would run as C.
    #[error("line {line}: code predicate")]
    CodePredicate { line: usize },
    /// More bytes than a grammar may have.
    #[error("grammar too long")]
    TooLong,
    /// An allocation failed.
    #[error("out of memory")]
    Memory,
    /// A number over its limit.
    #[error("line {line}: number too large")]
    NumberTooLarge { line: usize },
}

/// Writes the fault's line, with its LF. `WriteFault` where the writer fails; then a prefix of the line is written.
pub fn write_fault<W: Sink>(fault: &ReadFault, w: &mut W) -> Result<(), WriteFault>
    requires { W.failed w.old ≡ false }
    ensures bytes { Writes (W.contents w.old) (W.contents w.new) (fault_text fault.now) result }
    ensures flag { Flags (W.failed w.old) (W.failed w.new) result }
{
    match fault {
        ReadFault::Syntax { line } => write_at_line(*line, b"syntax error", w),
        ReadFault::Depth { line } => write_at_line(*line, b"nested too deeply", w),
        ReadFault::CodePredicate { line } => write_at_line(*line, b"code predicate", w),
        ReadFault::TooLong => write_whole(w, b"grammar too long\n"),
        ReadFault::Memory => write_whole(w, b"out of memory\n"),
        ReadFault::NumberTooLarge { line } => write_at_line(*line, b"number too large", w),
    }
}

fn write_at_line<W: Sink>(line: usize, what: &[u8], w: &mut W) -> Result<(), WriteFault>
    requires { W.failed w.old ≡ false }
    ensures bytes { Writes (W.contents w.old) (W.contents w.new) (at_line line what.now) result }
    ensures flag { Flags (W.failed w.old) (W.failed w.new) result }
{
    let mut digits = Buffer::new();
    let number = digits.format(line).as_bytes();
    let pieces: [&[u8]; 5] = [b"line ", number, b": ", what, b"\n"];
    write_pieces(w, &pieces)
}

//! The messages before any input is read, on the error output.
ghost use Rattle.std.specs.Prelude.{◌≡◌, ◌++◌, false};
ghost use Rattle.ruletable.specs.Faults.{fault_text};
ghost use Rattle.ruletable.specs.Writing.{Flags, Writes};
ghost use Rattle.toolrun.specs.Plan.{first_text};

use crate::notes::write_notes;
use crate::plan::First;
use ruletable::{ReadFault, Sink, WriteFault, write_fault, write_whole};
use std::alloc::Global;

/// Writes the line of a fault, and then the lines that explain it.
fn write_explained<W: Sink>(fault: &ReadFault, why: &[u8], w: &mut W) -> Result<(), WriteFault>
    requires { W.failed w.old ≡ false }
    ensures bytes { Writes (W.contents w.old) (W.contents w.new) (fault_text fault.now ++ why.now) result }
    ensures flag { Flags (W.failed w.old) (W.failed w.new) result }
{
    match write_fault(fault, w) {
        Ok(()) => write_whole(w, why),
        Err(fault) => Err(fault),
    }
}

/// Writes the messages before any input is read.
pub fn write_first<W: Sink>(alloc: Global, first: &First, w: &mut W) -> Result<(), WriteFault>
    requires { W.failed w.old ≡ false }
    ensures bytes { Writes (W.contents w.old) (W.contents w.new) (first_text first.now) result }
    ensures flag { Flags (W.failed w.old) (W.failed w.new) result }
{
    match first {
        First::Notes(notes) => write_notes(alloc, notes.as_slice(), w),
        First::Reported(reported) => write_whole(w, reported.as_slice()),
        First::Fault { fault, why } => write_explained(fault, why.as_slice(), w),
    }
}

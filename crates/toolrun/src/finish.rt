//! The end of a run: a message, and both flushes.
ghost use Rattle.std.specs.Prelude.{◌≡◌, ℕ, List, true, false};
ghost use Rattle.std.specs.Io.KnownBytes.{Appends, Keeps};
ghost use Rattle.ruletable.specs.Writing.{Flags, Writes};
ghost use Rattle.toolrun.specs.Finish.{reported_of, ending_of, Concludes, Finishes};
ghost use Rattle.toolrun.specs.Flush.{Flushes};
ghost use Rattle.toolrun.specs.Status.{code_of};

use crate::ending::{Ending, ending_status, plain_ending, write_ending};
use crate::status::Status;
use crate::stop::Stop;
use ruletable::{Sink, WriteFault, write_whole};

/// Flushes the output, and reports a fault on the error output.
fn flush_out<O: Sink, E: Sink>(out: &mut O, err: &mut E)
    ensures kept { Keeps (O.contents out.old) (O.contents out.new) }
    ensures reported { (more : List ℕ) × Appends (E.contents err.old) (E.contents err.new) more ×
        Flushes (O.failed out.old) (O.failed out.new) (E.failed err.old) (E.failed err.new) more }
{
    if out.has_failed() {
        return;
    }
    match out.flush() {
        Ok(()) => {}
        Err(_) => {
            if !err.has_failed() {
                let _ = write_whole(err, b"write error\n");
            }
        }
    }
}

/// Flushes the error output.
fn flush_err<E: Sink>(err: &mut E)
    ensures kept { Keeps (E.contents err.old) (E.contents err.new) }
    ensures stays { E.failed err.old ≡ true → E.failed err.new ≡ true }
{
    if err.has_failed() {
        return;
    }
    let _ = err.flush();
}

/// Writes on the error output how a run ends, or that the output failed.
fn report<E: Sink>(ending: &Result<Ending, WriteFault>, err: &mut E) -> Result<(), WriteFault>
    requires { E.failed err.old ≡ false }
    ensures bytes { Writes (E.contents err.old) (E.contents err.new) (reported_of ending.now) result }
    ensures flag { Flags (E.failed err.old) (E.failed err.new) result }
{
    match ending {
        Ok(ending) => write_ending(ending, err),
        Err(_) => write_whole(err, b"write error\n"),
    }
}

fn status_at_end(ending: &Result<Ending, WriteFault>) -> Status
    ensures { result ≡ ending_of ending.now }
{
    match ending {
        Ok(ending) => ending_status(ending),
        Err(_) => Status::Fault,
    }
}

/// Concludes a run that ended so, or whose output failed: writes a line on `err`, and those that explain it. Then it
/// flushes each writer that has not failed, `out` first; no clause sees a flush.
pub fn conclude<O: Sink, E: Sink>(
    ending: Result<Ending, WriteFault>,
    out: &mut O,
    err: &mut E,
) -> Status
    requires fresh { E.failed err.old ≡ false }
    requires flag { Flags false (O.failed out.old) ending }
    ensures kept { Keeps (O.contents out.old) (O.contents out.new) }
    ensures stays { O.failed out.old ≡ true → O.failed out.new ≡ true }
    ensures reported { (reported : List ℕ) × Appends (E.contents err.old) (E.contents err.new) reported ×
        Concludes ending (O.failed out.new) (E.failed err.new) reported (code_of result) }
{
    let base = status_at_end(&ending);
    let _ = report(&ending, err);
    flush_out(out, err);
    flush_err(err);
    if out.has_failed() {
        return base.at_least_fault();
    }
    if err.has_failed() {
        return base.at_least_fault();
    }
    base
}

/// Ends a run that stopped so, or whose output failed: writes a line on `err`. Then it flushes each writer that has not
/// failed, `out` first; no clause sees a flush.
pub fn finish<O: Sink, E: Sink>(stop: Result<Stop, WriteFault>, out: &mut O, err: &mut E) -> Status
    requires fresh { E.failed err.old ≡ false }
    requires flag { Flags false (O.failed out.old) stop }
    ensures kept { Keeps (O.contents out.old) (O.contents out.new) }
    ensures stays { O.failed out.old ≡ true → O.failed out.new ≡ true }
    ensures reported { (reported : List ℕ) × Appends (E.contents err.old) (E.contents err.new) reported ×
        Finishes stop (O.failed out.new) (E.failed err.new) reported (code_of result) }
{
    conclude(plain_ending(stop), out, err)
}

/// Ends a run whose error output failed: it writes nothing more, and flushes the output if that has not failed; no
/// clause sees a flush.
pub fn close<O: Sink, E: Sink>(out: &mut O, err: &mut E) -> Status
    requires { E.failed err.old ≡ true }
    ensures out { Keeps (O.contents out.old) (O.contents out.new) }
    ensures err { Keeps (E.contents err.old) (E.contents err.new) }
    ensures stays { E.failed err.new ≡ true }
    ensures status { result ≡ Status.Fault }
{
    flush_out(out, err);
    flush_err(err);
    Status::Fault
}

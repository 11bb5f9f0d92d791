//! The ends of runs, over writers in memory that fail.
ghost use Rattle.std.specs.Prelude.{Some};

use crate::fields::{Fields, Text};
use ruletable::{SinkOf, write_whole};
use std::alloc::Global;
use std::cell::Cell;
use std::io;
use std::io::Write;
use toolrun::{Status, Stop, end_run};

/// A writer in memory.
#[derive(Drop)]
struct Paper<'a> {
    /// The bytes that it took.
    taken: Vec<u8>,
    /// How many bytes it takes; then it fails.
    room: usize,
    /// Whether it can be flushed.
    flushes: bool,
    /// Counts the flushes of all the papers that share it.
    clock: &'a Cell<u32>,
    /// The flushes of this paper, each by the clock's count: 0 for none, and 99 for more than one.
    flushed: u32,
}

impl Write for Paper<'_> {
    ghost contents = { λ p. Some p.taken.items };

    fn write(&mut self, buf: &[u8]) -> io::Result<usize> {
        let n = buf.len().min(self.room.saturating_sub(self.taken.len()));
        if n == 0 && !buf.is_empty() {
            return Err(io::Error::other("no more room"));
        }
        self.taken.extend_from_slice(&buf[..n])?;
        Ok(n)
    }

    fn flush(&mut self) -> io::Result<()> {
        let now = self.clock.get().wrapping_add(1);
        self.clock.set(now);
        self.flushed = if self.flushed == 0 { now } else { 99 };
        if self.flushes {
            Ok(())
        } else {
            Err(io::Error::other("no flush"))
        }
    }
}

// Returns a writer that took nothing.
fn new_paper(alloc: Global, room: usize, flushes: bool, clock: &Cell<u32>) -> Paper<'_> {
    Paper {
        taken: Vec::new(alloc),
        room,
        flushes,
        clock,
        flushed: 0,
    }
}

/// `end ROOM | FLUSH`: a run that writes a byte and ends, where the output takes so many bytes, and `fails` in place of
/// FLUSH says that it cannot be flushed. Adds the status, when each output was flushed, standard output first (0:
/// never), and what is reported.
pub(crate) fn end_of(alloc: Global, fields: &Fields, out: &mut Text) {
    let clock = Cell::new(0);
    let flushes = !fields.is(1, b"fails");
    let mut output = SinkOf::new(new_paper(alloc, fields.number(0), flushes, &clock));
    let mut errors = SinkOf::new(new_paper(alloc, 100, true, &clock));
    let status = match write_whole(&mut output, b"x") {
        Ok(()) => end_run(Ok(Stop::Quiet(Status::Done)), &mut output, &mut errors),
        Err(fault) => end_run(Err(fault), &mut output, &mut errors),
    };
    let (output, errors) = (output.into_inner(), errors.into_inner());
    out.add_number(u128::from(status.code()));
    out.add(b" ");
    out.add_number(u128::from(output.flushed));
    out.add(b" ");
    out.add_number(u128::from(errors.flushed));
    out.add(b" ");
    out.add(errors.taken.as_slice());
}

//! The output of a program.
ghost use Rattle.std.specs.Prelude.{◌≡◌, false};
ghost use Rattle.std.specs.Io.Buffered.{writer_contents};
ghost use Rattle.std.specs.Io.KnownBytes.{Keeps};
ghost use Rattle.cli.specs.WrittenOut.{IsWrittenOut};

use ruletable::{Sink, WriteFault};
use std::io::{BufWriter, Write};

/// A sink that holds text back until it has enough of it.
pub trait BufferedSink: Sink {
    /// Says whether each call of `write` from now on writes out all that was taken. If that fails, the call after it
    /// fails.
    fn write_through(&mut self, through: bool)
        ensures contents { Self.contents self.new ≡ Self.contents self.old }
        ensures failed { Self.failed self.new ≡ Self.failed self.old };
}

/// A sink over a buffered writer.
///
/// Once it writes through, the writer holds nothing after a call of `write`, unless writing out failed.
#[derive(Drop)]
pub struct Output<W: Write + Drop> {
    /// The writer.
    inner: BufWriter<W>,
    /// Whether a call has failed.
    failed: bool,
    /// Whether nothing is held back.
    through: bool,
    /// Whether the writer failed to write out what a call had taken.
    late: bool,
}

impl<W: Write + Drop> Output<W> {
    /// Returns a sink that has not failed, over that writer.
    pub fn new(inner: BufWriter<W>) -> Output<W>
        ensures contents { ⟦<Output<W> as Sink>⟧.contents result ≡ writer_contents W.contents inner }
        ensures failed { ⟦<Output<W> as Sink>⟧.failed result ≡ false }
    {
        Output {
            inner,
            failed: false,
            through: false,
            late: false,
        }
    }

    /// Writes out what is held, if nothing is to be held back.
    #[inline(always)]
    fn write_out(&mut self)
        ensures contents { Keeps (writer_contents W.contents self.old.inner)
            (writer_contents W.contents self.new.inner) }
        ensures failed { self.new.failed ≡ self.old.failed }
        ensures out { IsWrittenOut self.new }
    {
        if self.through && !self.late && self.inner.flush().is_err() {
            self.late = true;
        }
    }
}

impl<W: Write + Drop> Sink for Output<W> {
    ghost contents = { λ s. writer_contents W.contents s.inner };

    ghost failed = { λ s. s.failed };

    fn write(&mut self, bytes: &[u8]) -> Result<usize, WriteFault> {
        if self.late {
            self.failed = true;
            return Err(WriteFault);
        }
        match self.inner.write(bytes) {
            Ok(n) if n > 0 || bytes.is_empty() => {
                self.write_out();
                Ok(n)
            }
            _ => {
                self.failed = true;
                Err(WriteFault)
            }
        }
    }

    fn flush(&mut self) -> Result<(), WriteFault> {
        if self.late || self.inner.flush().is_err() {
            self.failed = true;
            return Err(WriteFault);
        }
        Ok(())
    }

    fn has_failed(&self) -> bool {
        self.failed
    }
}

impl<W: Write + Drop> BufferedSink for Output<W> {
    fn write_through(&mut self, through: bool) {
        self.through = through;
    }
}

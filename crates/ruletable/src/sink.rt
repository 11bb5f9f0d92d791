//! Writers.
ghost use Rattle.std.specs.Prelude.{◌≡◌, ℕ, Option, ◌<◌, ◌≤◌, Bool, false, List, length, take, IfOk, OnOk, OnErr};
ghost use Rattle.std.specs.Io.KnownBytes.{Appends, Keeps, WriteAppends};
ghost use Rattle.ruletable.specs.Writing.{Flags};
ghost use Rattle.ruletable.specs.Writing.{Writes};

use std::io;
use thiserror::Error;

/// A writer failed: it took nothing of what it was given, or could not flush.
#[derive(Clone, Copy, Debug, Drop, PartialEq, Eq, Error)]
#[error("write error")]
pub struct WriteFault;

/// A writer of bytes.
pub trait Sink {
    /// The bytes taken so far, where the inner writer's contract states them.
    ghost contents: { Self → Option (List ℕ) };

    /// Whether a call has failed.
    ghost failed: { Self → Bool };

    /// Takes a prefix of `bytes`, or fails and takes nothing. Nothing is written after a failure.
    fn write(&mut self, bytes: &[u8]) -> Result<usize, WriteFault>
        requires { failed self.old ≡ false }
        ensures within { IfOk result (λ n. n ≤ length bytes.now) }
        ensures some { IfOk result (λ n. 0 < length bytes.now → 0 < n) }
        ensures bytes { WriteAppends (contents self.old) (contents self.new) result bytes.now }
        ensures flag { Flags (failed self.old) (failed self.new) result };

    /// Writes out what it holds back, or fails. A writer that has failed is not flushed.
    fn flush(&mut self) -> Result<(), WriteFault>
        requires { failed self.old ≡ false }
        ensures bytes { Keeps (contents self.old) (contents self.new) }
        ensures flag { Flags (failed self.old) (failed self.new) result };

    /// Returns whether a call has failed.
    fn has_failed(&self) -> bool
        ensures { result ≡ failed self.now };
}

/// A sink over a writer of `std`.
#[derive(Drop)]
pub struct SinkOf<T> {
    /// The writer.
    inner: T,
    /// Whether a call has failed.
    failed: bool,
}

impl<T: io::Write> SinkOf<T> {
    /// Returns a sink that has not failed, over that writer.
    pub fn new(inner: T) -> SinkOf<T>
        ensures contents { ⟦<SinkOf<T> as Sink>⟧.contents result ≡ T.contents inner }
        ensures failed { ⟦<SinkOf<T> as Sink>⟧.failed result ≡ false }
    {
        SinkOf {
            inner,
            failed: false,
        }
    }

    /// Returns the writer.
    pub fn into_inner(self) -> T
        ensures { T.contents result ≡ ⟦<SinkOf<T> as Sink>⟧.contents self }
    {
        let SinkOf { inner, failed: _ } = self;
        inner
    }
}

impl<T: io::Write> Sink for SinkOf<T> {
    ghost contents = { λ s. T.contents s.inner };

    ghost failed = { λ s. s.failed };

    fn write(&mut self, bytes: &[u8]) -> Result<usize, WriteFault> {
        match self.inner.write(bytes) {
            Ok(n) if n > 0 || bytes.is_empty() => Ok(n),
            _ => {
                self.failed = true;
                Err(WriteFault)
            }
        }
    }

    fn flush(&mut self) -> Result<(), WriteFault> {
        match self.inner.flush() {
            Ok(()) => Ok(()),
            Err(_) => {
                self.failed = true;
                Err(WriteFault)
            }
        }
    }

    fn has_failed(&self) -> bool {
        self.failed
    }
}

/// Writes all of `bytes`, in as many calls as it takes. `WriteFault` where the writer fails; then a prefix is
/// written, and not all.
pub fn write_whole<W: Sink>(w: &mut W, bytes: &[u8]) -> Result<(), WriteFault>
    requires { W.failed w.old ≡ false }
    ensures bytes { Writes (W.contents w.old) (W.contents w.new) bytes.now result }
    ensures flag { Flags (W.failed w.old) (W.failed w.new) result }
{
    let mut at = 0;
    while at < bytes.len() {
        match w.write(&bytes[at..]) {
            Ok(n) => at += n,
            Err(fault) => return Err(fault),
        }
    }
    Ok(())
}

ghost use Rattle.std.specs.List.{flat_map};

/// Writes the pieces, one after another. `WriteFault` where the writer fails; then a prefix is written, and not
/// all.
pub fn write_pieces<W: Sink>(w: &mut W, pieces: &[&[u8]]) -> Result<(), WriteFault>
    requires { W.failed w.old ≡ false }
    ensures bytes { Writes (W.contents w.old) (W.contents w.new) (flat_map (λ p. p.now) pieces.now) result }
    ensures flag { Flags (W.failed w.old) (W.failed w.new) result }
{
    for piece in pieces {
        match write_whole(w, piece) {
            Ok(()) => {}
            Err(fault) => return Err(fault),
        }
    }
    Ok(())
}

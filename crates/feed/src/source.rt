//! Readers.
ghost use Rattle.std.specs.Prelude.{◌≡◌, ℕ, Option, ◌≤◌, Bool, false, List, length, IfOk};
ghost use Rattle.std.specs.Io.KnownBytes.{ReadConsumes};
ghost use Rattle.feed.specs.Ending.{ReportsEnd};
ghost use Rattle.ruletable.specs.Writing.{Flags};

use std::io;
use thiserror::Error;

/// A reader failed.
#[derive(Clone, Copy, Debug, Drop, PartialEq, Eq, Error)]
#[error("read error")]
pub struct Broken;

/// A reader of bytes.
pub trait Source {
    /// The bytes still to come, where the inner reader's contract states them.
    ghost remaining: { Self → Option (List ℕ) };

    /// Whether a call has failed.
    ghost failed: { Self → Bool };

    /// Whether a call has reported the end.
    ghost ended: { Self → Bool };

    /// Puts the next bytes at the front of `buffer` and answers how many, or fails and takes nothing.
    /// 0 into a buffer that is not empty reports the end: none is to come. Nothing is asked after a failure or the end.
    fn read(&mut self, buffer: &mut [u8]) -> Result<usize, Broken>
        requires not_failed { failed self.old ≡ false }
        requires not_ended { ended self.old ≡ false }
        ensures within { IfOk result (λ n. n ≤ length buffer.new) }
        ensures bytes { ReadConsumes (remaining self.old) (remaining self.new) result buffer.new }
        ensures flag { Flags (failed self.old) (failed self.new) result }
        ensures end { ReportsEnd (ended self.old) (ended self.new) buffer.new result };

    /// Returns whether a call has failed.
    fn has_failed(&self) -> bool
        ensures { result ≡ failed self.now };
}

/// A source over a reader of `std`. Each error of that reader is a failure, an interrupted call too.
#[derive(Drop)]
pub struct SourceOf<R> {
    /// The reader.
    inner: R,
    /// Whether a call has failed.
    failed: bool,
    /// Whether a call has reported the end.
    ended: bool,
}

impl<R: io::Read> SourceOf<R> {
    /// Returns a source that has neither failed nor reported its end.
    pub fn new(inner: R) -> SourceOf<R>
        ensures remaining { ⟦<SourceOf<R> as Source>⟧.remaining result ≡ R.remaining inner }
        ensures failed { ⟦<SourceOf<R> as Source>⟧.failed result ≡ false }
        ensures ended { ⟦<SourceOf<R> as Source>⟧.ended result ≡ false }
    {
        SourceOf {
            inner,
            failed: false,
            ended: false,
        }
    }

    /// Returns the reader, with the bytes that are still to come.
    pub fn into_inner(self) -> R
        ensures { R.remaining result ≡ ⟦<SourceOf<R> as Source>⟧.remaining self }
    {
        let SourceOf {
            inner,
            failed: _,
            ended: _,
        } = self;
        inner
    }
}

impl<R: io::Read> Source for SourceOf<R> {
    ghost remaining = { λ s. R.remaining s.inner };

    ghost failed = { λ s. s.failed };

    ghost ended = { λ s. s.ended };

    #[inline(always)]
    fn read(&mut self, buffer: &mut [u8]) -> Result<usize, Broken> {
        match self.inner.read(buffer) {
            Ok(n) => {
                if n == 0 && !buffer.is_empty() {
                    self.ended = true;
                }
                Ok(n)
            }
            Err(_) => {
                self.failed = true;
                Err(Broken)
            }
        }
    }

    fn has_failed(&self) -> bool {
        self.failed
    }
}

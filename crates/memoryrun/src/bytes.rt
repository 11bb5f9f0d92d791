//! A reader over memory.
ghost use Rattle.std.specs.Prelude.{◌≡◌, Some, false};

use feed::{Broken, Source};

/// A reader over bytes in memory, which never fails.
#[derive(Drop)]
pub struct Bytes<'a> {
    /// The bytes still to come.
    rest: &'a [u8],
    /// Whether it reported its end.
    ended: bool,
}

impl<'a> Bytes<'a> {
    /// Returns a reader that gives these bytes, and has not reported their end.
    pub fn new(bytes: &'a [u8]) -> Bytes<'a>
        ensures remaining { ⟦<Bytes<'a> as Source>⟧.remaining result ≡ Some bytes.entry.now }
        ensures ended { ⟦<Bytes<'a> as Source>⟧.ended result ≡ false }
    {
        Bytes {
            rest: bytes,
            ended: false,
        }
    }
}

impl Source for Bytes<'_> {
    ghost remaining = { λ b. Some b.rest.now };

    ghost failed = { λ _. false };

    ghost ended = { λ b. b.ended };

    fn read(&mut self, buffer: &mut [u8]) -> Result<usize, Broken> {
        let n = buffer.len().min(self.rest.len());
        buffer[..n].copy_from_slice(&self.rest[..n]);
        self.rest = &self.rest[n..];
        if n == 0 && !buffer.is_empty() {
            self.ended = true;
        }
        Ok(n)
    }

    fn has_failed(&self) -> bool {
        false
    }
}

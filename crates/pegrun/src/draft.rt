//! The text of a unit, kept until it is known to be within a budget.
ghost use Rattle.std.specs.Prelude.{◌≡◌, [], false};

use ruletable::{Sink, WriteFault};
use std::alloc::Global;

/// A sink that keeps what it takes, and takes at most so many bytes. It fails where one more is written, or where an
/// allocation fails.
#[derive(Drop)]
pub(crate) struct Draft {
    /// The bytes that it took.
    pub(crate) text: Vec<u8>,
    /// How many bytes it takes.
    most: usize,
    /// Whether a call has failed.
    failed: bool,
}

impl Draft {
    /// Returns a sink that took nothing and has not failed. It takes no memory.
    pub(crate) fn new(alloc: Global, most: usize) -> Draft
        ensures text { result.text.items ≡ [] }
        ensures failed { ⟦<Draft as Sink>⟧.failed result ≡ false }
    {
        Draft {
            text: Vec::new(alloc),
            most,
            failed: false,
        }
    }
}

impl Sink for Draft {
    ghost use Rattle.std.specs.Prelude.{Some};

    ghost contents = { λ d. Some d.text.items };

    ghost failed = { λ d. d.failed };

    fn write(&mut self, bytes: &[u8]) -> Result<usize, WriteFault> {
        let room = self.most.saturating_sub(self.text.len());
        let count = bytes.len().min(room);
        if count == 0 && !bytes.is_empty() {
            self.failed = true;
            return Err(WriteFault);
        }
        match self.text.extend_from_slice(&bytes[..count]) {
            Ok(()) => Ok(count),
            Err(_) => {
                self.failed = true;
                Err(WriteFault)
            }
        }
    }

    fn flush(&mut self) -> Result<(), WriteFault> {
        Ok(())
    }

    fn has_failed(&self) -> bool {
        self.failed
    }
}

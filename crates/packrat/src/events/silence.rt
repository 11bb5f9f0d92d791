//! A writer that takes no byte.

use ruletable::{Sink, WriteFault};

/// A sink that fails where a byte is written.
#[derive(Drop)]
pub(crate) struct Silence {
    /// Whether a byte was written.
    pub(crate) failed: bool,
}

impl Sink for Silence {
    ghost use Rattle.std.specs.Prelude.{Some, []};

    ghost contents = { λ s. Some [] };

    ghost failed = { λ s. s.failed };

    fn write(&mut self, bytes: &[u8]) -> Result<usize, WriteFault> {
        if bytes.is_empty() {
            return Ok(0);
        }
        self.failed = true;
        Err(WriteFault)
    }

    fn flush(&mut self) -> Result<(), WriteFault> {
        Ok(())
    }

    fn has_failed(&self) -> bool {
        self.failed
    }
}

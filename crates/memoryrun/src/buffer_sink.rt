//! A writer into a buffer.
ghost use Rattle.std.specs.Prelude.{◌≡◌, false};
ghost use Rattle.memoryrun.specs.BufferContents.{buffer_contents, buffer_holds};

use crate::buffer::{lay, lay_after};
use crate::ghost_bytes::{GhostBytes, Piece};
use ruletable::{Sink, WriteFault};

/// A sink over a buffer. It writes what fits, and counts the rest without keeping it. It fails where the count does not
/// fit into a `usize`.
#[derive(Drop)]
pub struct BufferSink<'a> {
    /// The buffer.
    pub room: &'a mut [u8],
    /// How many bytes it took.
    pub len: usize,
    /// Whether a call has failed.
    pub failed: bool,
    /// The bytes of the buffer before.
    pub before: GhostBytes,
    /// The bytes that it took.
    pub taken: GhostBytes,
}

impl<'a> BufferSink<'a> {
    /// Returns a sink over a buffer that has taken this text.
    pub fn new(room: &'a mut [u8], text: &[u8]) -> BufferSink<'a>
        ensures same { result.room.ghost_name ≡ room.entry.ghost_name }
        ensures contents { ⟦<BufferSink<'a> as Sink>⟧.contents result ≡
            buffer_holds room.entry.ghost_name room.old text.now }
        ensures failed { ⟦<BufferSink<'a> as Sink>⟧.failed result ≡ false }
    {
        let before = GhostBytes::none().then(&Piece { bytes: &*room });
        let len = lay(text, room);
        let taken = GhostBytes::none().then(&Piece { bytes: text });
        BufferSink {
            room,
            len,
            failed: false,
            before,
            taken,
        }
    }

    /// Takes bytes again after a failure.
    pub fn resume(&mut self)
        ensures contents { ⟦<BufferSink<'a> as Sink>⟧.contents self.new ≡ ⟦<BufferSink<'a> as Sink>⟧.contents self.old }
        ensures failed { ⟦<BufferSink<'a> as Sink>⟧.failed self.new ≡ false }
    {
        self.failed = false;
    }
}

impl Sink for BufferSink<'_> {
    ghost contents = { λ s. buffer_contents s.room.ghost_name s.room.now s.len s.before.bytes s.taken.bytes };

    ghost failed = { λ s. s.failed };

    fn write(&mut self, bytes: &[u8]) -> Result<usize, WriteFault> {
        let Some(len) = self.len.checked_add(bytes.len()) else {
            self.failed = true;
            return Err(WriteFault);
        };
        lay_after(bytes, self.len, self.room);
        self.taken = self.taken.then(&Piece { bytes });
        self.len = len;
        Ok(bytes.len())
    }

    fn flush(&mut self) -> Result<(), WriteFault> {
        Ok(())
    }

    fn has_failed(&self) -> bool {
        self.failed
    }
}

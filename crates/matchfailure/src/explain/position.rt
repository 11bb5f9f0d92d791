//! Where a byte stands in an input.
ghost use Rattle.std.specs.Prelude.{◌≡◌, ℕ, ◌+◌, ◌^◌, ◌<◌, ◌++◌, [], List, length};
ghost use Rattle.matchfailure.specs.InputPositions.{position_after};

use diagnostics::line_around;
use ruletable::{LineRule, line_of};

/// Where a byte stands in an input, whose lines end with LF.
#[derive(Clone, Copy)]
pub struct TextPosition {
    /// How many bytes stand before it.
    pub byte: usize,
    /// Its line, from 1.
    pub line: usize,
    /// Its column, which counts the bytes of the line from 1.
    pub column: usize,
}

impl TextPosition {
    /// Returns the position of an input's first byte.
    pub fn front() -> TextPosition
        ensures { result ≡ position_after [] }
    {
        TextPosition {
            byte: 0,
            line: 1,
            column: 1,
        }
    }

    /// Returns the position after these bytes, which begin at this one.
    pub fn after(self, bytes: &[u8]) -> TextPosition
        requires { (front : List ℕ) × (self ≡ position_after front) × (length front + length bytes.now < 2 ^ 63) }
        ensures { (front : List ℕ) → self ≡ position_after front → result ≡ position_after (front ++ bytes.now) }
    {
        let lines = line_of(bytes, bytes.len(), LineRule::Lf);
        let before = line_around(bytes, bytes.len(), LineRule::Lf).before;
        TextPosition {
            byte: self.byte + bytes.len(),
            line: self.line + (lines - 1),
            column: if before < bytes.len() {
                before + 1
            } else {
                self.column + before
            },
        }
    }
}

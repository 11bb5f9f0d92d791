//! Numbers in messages.
ghost use Rattle.std.specs.Prelude.{◌≡◌, decimal, false};
ghost use Rattle.ruletable.specs.Writing.{Writes, Flags};

use crate::sink::{Sink, WriteFault, write_whole};
use itoa::Buffer;

/// Writes the number in decimal digits, without leading zeros. `WriteFault` where the writer fails; then a prefix is
/// written.
pub fn write_number<W: Sink>(n: usize, w: &mut W) -> Result<(), WriteFault>
    requires { W.failed w.old ≡ false }
    ensures bytes { Writes (W.contents w.old) (W.contents w.new) (decimal n) result }
    ensures flag { Flags (W.failed w.old) (W.failed w.new) result }
{
    let mut buffer = Buffer::new();
    let digits = buffer.format(n);
    write_whole(w, digits.as_bytes())
}

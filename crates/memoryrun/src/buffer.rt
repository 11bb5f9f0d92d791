//! Texts that are laid over buffers.
ghost use Rattle.std.specs.Prelude.{◌≡◌, ◌++◌, drop, length, take};
ghost use Rattle.memoryrun.specs.Filled.{laid};

/// Lays a text over the front of a buffer, as much of it as there is room for. Returns the length of the text.
pub fn lay(text: &[u8], room: &mut [u8]) -> usize
    ensures room { room.new ≡ laid text.now room.old }
    ensures length { result ≡ length text.now }
{
    let n = text.len().min(room.len());
    room[..n].copy_from_slice(&text[..n]);
    text.len()
}

/// Lays a text over a buffer after so many bytes, as much of it as there is room for.
pub(crate) fn lay_after(text: &[u8], at: usize, room: &mut [u8])
    ensures { room.new ≡ take at room.old ++ laid text.now (drop at room.old) }
{
    if at < room.len() {
        lay(text, &mut room[at..]);
    }
}

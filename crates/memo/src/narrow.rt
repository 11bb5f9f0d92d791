//! Numbers of 32 bits.
ghost use Rattle.std.specs.Prelude.{◌≡◌, ◌<◌, ◌≤◌, ◌^◌, IfOk, OnErr};

use ruletable::Memory;

/// Returns a number in 32 bits.
///
/// # Errors
/// `Memory` if it does not fit.
#[inline(always)]
pub(crate) fn narrow(n: usize) -> Result<u32, Memory>
    ensures same { IfOk result (λ m. (m ≡ n) × (m < 2 ^ 32)) }
    ensures great { OnErr result (2 ^ 32 ≤ n) }
{
    if n <= u32::MAX as usize {
        Ok(n as u32)
    } else {
        Err(Memory)
    }
}

//! What is known of the lines that one of two rules alone derives, for C.
ghost use Rattle.std.specs.Prelude.{◌≡◌, [], IfOk};
ghost use Rattle.capi.specs.CompareCall.{c_alone, first_line_bytes};

use abnfrun::Alphabet;
use rulelines::{Alone, line_bytes};
use ruletable::Memory;
use std::alloc::Global;

/// What is known of the lines that one of two rules alone derives.
#[repr(C)]
#[derive(Clone, Copy)]
pub struct CAlone {
    /// If the first line is known, how many bytes it has. If there is none of at most so many letters, that number.
    /// Else 0.
    pub len: usize,
    /// 0: nothing is known; 1: there is no such line; 2: there is none of at most `len` letters; 3: the first one is
    /// known.
    pub known: u8,
}

/// What is known of such lines, and the first one.
#[derive(Drop)]
pub(crate) struct AloneLine {
    /// What is known.
    pub(crate) known: CAlone,
    /// The bytes of the first line, if it is known.
    pub(crate) bytes: Vec<u8>,
}

/// Returns what is known, without a line.
fn without_line(alloc: Global, len: usize, known: u8) -> AloneLine
    ensures known { result.known ≡ record { len = len; known = known } }
    ensures bytes { result.bytes.items ≡ [] }
{
    AloneLine {
        known: CAlone { len, known },
        bytes: Vec::new(alloc),
    }
}

/// Returns what is known of such lines as C has it, and the bytes of the first one. Returns `Memory` if an allocation
/// fails.
pub(crate) fn line_of(alloc: Global, letters: Alphabet, alone: &Alone) -> Result<AloneLine, Memory>
    ensures known { IfOk result (λ line. line.known ≡ c_alone letters alone.now) }
    ensures bytes { IfOk result (λ line. line.bytes.items ≡ first_line_bytes letters alone.now) }
{
    match alone {
        Alone::First(line) => {
            let bytes = line_bytes(alloc, letters, line.as_slice())?;
            let known = CAlone {
                len: bytes.len(),
                known: 3,
            };
            Ok(AloneLine { known, bytes })
        }
        Alone::Never => Ok(without_line(alloc, 0, 1)),
        Alone::NeverUpTo(most) => Ok(without_line(alloc, *most, 2)),
        Alone::Unknown => Ok(without_line(alloc, 0, 0)),
    }
}

//! The bytes of lines of symbols.
ghost use Rattle.std.specs.Prelude.{◌≡◌, ◌++◌, IfOk, OnOk};
ghost use Rattle.rulelines.specs.LineBytes.{line_bytes as the_bytes, symbol_bytes};

use ruletable::{Alphabet, Memory};
use std::alloc::Global;

// Adds the bytes of a symbol. `Memory` if an allocation fails.
fn push_symbol(alphabet: Alphabet, symbol: u32, out: &mut Vec<u8>) -> Result<(), Memory>
    ensures { OnOk result (out.new.items ≡ out.old.items ++ symbol_bytes alphabet symbol) }
{
    match alphabet {
        Alphabet::Bytes => {
            if let Ok(byte) = u8::try_from(symbol) {
                out.push(byte)?;
            }
        }
        Alphabet::Utf8 => {
            if let Some(point) = char::from_u32(symbol) {
                let mut bytes = [0; 4];
                out.extend_from_slice(point.encode_utf8(&mut bytes).as_bytes())?;
            }
        }
    }
    Ok(())
}

/// Returns the bytes of a line of symbols: each is a byte, or a code point in UTF-8 (RFC 3629, section 3). Other
/// numbers have no bytes.
///
/// # Errors
/// `Memory` if an allocation fails.
pub fn line_bytes(alloc: Global, alphabet: Alphabet, line: &[u32]) -> Result<Vec<u8>, Memory>
    ensures { IfOk result (λ bytes. bytes.items ≡ the_bytes alphabet line.now) }
{
    let mut bytes = Vec::new(alloc);
    for symbol in line {
        push_symbol(alphabet, *symbol, &mut bytes)?;
    }
    Ok(bytes)
}

//! The bytes of literals.
ghost use Rattle.std.specs.Prelude.{IfOk};
ghost use Rattle.pegread.specs.Chars.{Chars, Paired};
ghost use Rattle.pegread.specs.Literals.{IsLiteral, SpellsBytes};

use crate::escape::next_char;
use lexer::inside;
use ruletable::Memory;
use std::alloc::Global;

/// Returns the bytes that a literal's slice spells between its quotes. The slice must be one of a literal token.
///
/// # Errors
/// `Memory` if an allocation fails.
pub fn literal_bytes(alloc: Global, slice: &[u8]) -> Result<Vec<u8>, Memory>
    requires { IsLiteral slice.now }
    ensures { IfOk result (λ bytes. SpellsBytes slice.now bytes.items) }
{
    text_bytes(alloc, inside(slice))
}

// Returns the bytes that a text spells, one after the other.
fn text_bytes(alloc: Global, text: &[u8]) -> Result<Vec<u8>, Memory>
    requires { Paired text.now }
    ensures { IfOk result (λ bytes. Chars text.now bytes.items) }
{
    let mut bytes = Vec::new(alloc);
    let mut rest = text;
    while let Some((byte, after)) = next_char(rest) {
        bytes.push(byte)?;
        rest = after;
    }
    Ok(bytes)
}

//! Lines in quotes, all in ASCII.
ghost use Rattle.std.specs.Prelude.{◌≡◌, ◌<◌, ◌++◌, OnOk};
ghost use Rattle.abnfd.specs.QuotedLines.{quoted_byte, quoted_bytes, quoted_line};
ghost use Rattle.diagnostics.specs.ShownBytes.{hex_digit as the_digit};

use rulelines::line_bytes;
use ruletable::{Alphabet, Memory};
use std::alloc::Global;

// Returns the digit of a number below 16.
fn hex_digit(digit: u8) -> u8
    requires { digit < 16 }
    ensures { result ≡ the_digit digit }
{
    if digit < 10 {
        b'0' + digit
    } else {
        b'A' + (digit - 10)
    }
}

// Adds a byte as it stands in quotes.
fn push_byte(byte: u8, out: &mut Vec<u8>) -> Result<(), Memory>
    ensures { OnOk result (out.new.items ≡ out.old.items ++ quoted_byte byte) }
{
    if byte < 32 || byte > 126 || byte == b'"' || byte == b'\\' {
        out.extend_from_slice(&[b'\\', b'x', hex_digit(byte / 16), hex_digit(byte % 16)])?;
        return Ok(());
    }
    out.push(byte)?;
    Ok(())
}

// Adds bytes as they stand in quotes.
fn push_bytes(bytes: &[u8], out: &mut Vec<u8>) -> Result<(), Memory>
    ensures { OnOk result (out.new.items ≡ out.old.items ++ quoted_bytes bytes.now) }
{
    for byte in bytes {
        push_byte(*byte, out)?;
    }
    Ok(())
}

/// Adds a line of symbols in quotes. A byte stands for itself from %x20 to %x7E, but for `"` and `\`; others are
/// `\xHH`. Code points stand in UTF-8.
///
/// # Errors
/// `Memory` if an allocation fails.
pub(crate) fn push_quoted(
    alloc: Global,
    alphabet: Alphabet,
    line: &[u32],
    out: &mut Vec<u8>,
) -> Result<(), Memory>
    ensures { OnOk result (out.new.items ≡ out.old.items ++ quoted_line alphabet line.now) }
{
    let bytes = line_bytes(alloc, alphabet, line)?;
    out.push(b'"')?;
    push_bytes(bytes.as_slice(), out)?;
    out.push(b'"')?;
    Ok(())
}

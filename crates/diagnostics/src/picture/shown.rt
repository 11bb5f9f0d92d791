//! Bytes as any terminal shows them.
ghost use Rattle.std.specs.Prelude.{◌≡◌, ◌<◌, ◌++◌, decimal, OnOk};
ghost use Rattle.diagnostics.specs.ShownBytes.{hex_digit as the_digit, shown_byte, shown, dots, cut};

use itoa::Buffer;
use ruletable::Memory;

/// How many bytes of a name, an expression or a part are reported.
pub const MAX_CUT: usize = 60;

fn hex_digit(d: u8) -> u8
    requires { d < 16 }
    ensures { result ≡ the_digit d }
{
    if d < 10 { b'0' + d } else { b'A' + (d - 10) }
}

// Adds a byte as it is shown.
fn push_shown_byte(out: &mut Vec<u8>, b: u8) -> Result<(), Memory>
    ensures { OnOk result (out.new.items ≡ out.old.items ++ shown_byte b) }
{
    if b == b'\t' {
        out.push(b' ')?;
        return Ok(());
    }
    if b < 32 || b > 126 {
        out.extend_from_slice(&[b'\\', b'x', hex_digit(b / 16), hex_digit(b % 16)])?;
        return Ok(());
    }
    out.push(b)?;
    Ok(())
}

/// Adds the bytes as they are shown, all in ASCII: a tab as a space, and a byte that is not printable as `\xHH`.
///
/// # Errors
/// `Memory` if an allocation fails.
pub fn push_shown(out: &mut Vec<u8>, bytes: &[u8]) -> Result<(), Memory>
    ensures { OnOk result (out.new.items ≡ out.old.items ++ shown bytes.now) }
{
    for b in bytes {
        push_shown_byte(out, *b)?;
    }
    Ok(())
}

// Adds dots where bytes are left out.
pub(crate) fn push_dots(out: &mut Vec<u8>, are_left_out: bool) -> Result<(), Memory>
    ensures { OnOk result (out.new.items ≡ out.old.items ++ dots are_left_out) }
{
    if are_left_out {
        out.extend_from_slice(b"..")?;
    }
    Ok(())
}

/// Adds the number in decimal digits.
///
/// # Errors
/// `Memory` if an allocation fails.
pub fn push_number(out: &mut Vec<u8>, n: usize) -> Result<(), Memory>
    ensures { OnOk result (out.new.items ≡ out.old.items ++ decimal n) }
{
    let mut buffer = Buffer::new();
    let digits = buffer.format(n);
    out.extend_from_slice(digits.as_bytes())?;
    Ok(())
}

/// Adds the first 60 bytes as they are shown, and `..` where there are more.
///
/// # Errors
/// `Memory` if an allocation fails.
pub fn push_cut(out: &mut Vec<u8>, bytes: &[u8]) -> Result<(), Memory>
    ensures { OnOk result (out.new.items ≡ out.old.items ++ cut bytes.now) }
{
    let end = bytes.len().min(MAX_CUT);
    push_shown(out, &bytes[..end])?;
    push_dots(out, bytes.len() > MAX_CUT)?;
    Ok(())
}

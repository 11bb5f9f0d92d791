//! Lines with a caret below a byte.
ghost use Rattle.std.specs.Prelude.{◌≡◌, ◌≤◌, ◌++◌, length, replicate, OnOk};
ghost use Rattle.diagnostics.specs.Pictures.{window_start, left_part, right_part, picture, position_reported};

use crate::picture::around::{LineAround, line_around};
use crate::picture::shown::{push_dots, push_number, push_shown};
use ruletable::{LineRule, Memory};

/// How many bytes of a line a picture shows.
pub const MAX_SHOWN: usize = 72;

// Adds so many spaces.
fn push_blanks(out: &mut Vec<u8>, count: usize) -> Result<(), Memory>
    ensures { OnOk result (out.new.items ≡ out.old.items ++ replicate count 32) }
{
    for _i in 0..count {
        out.push(b' ')?;
    }
    Ok(())
}

// The first byte of the line that is shown.
fn first_shown(size: usize, position: usize) -> usize
    ensures { result ≡ window_start size position }
{
    position
        .saturating_sub(MAX_SHOWN / 2)
        .min(size.saturating_sub(MAX_SHOWN))
}

// Adds what is shown before the position.
fn push_left(out: &mut Vec<u8>, position: LineAround<'_>) -> Result<(), Memory>
    requires { position.before ≤ length position.line.now }
    ensures { OnOk result (out.new.items ≡ out.old.items ++ left_part position.entry.line.now position.entry.before) }
{
    let line = position.line;
    let start = first_shown(line.len(), position.before);
    push_dots(out, start > 0)?;
    push_shown(out, &line[start..position.before])
}

// Adds what is shown from the position on.
fn push_right(out: &mut Vec<u8>, position: LineAround<'_>) -> Result<(), Memory>
    requires { position.before ≤ length position.line.now }
    ensures { OnOk result (out.new.items ≡ out.old.items ++ right_part position.entry.line.now position.entry.before) }
{
    let line = position.line;
    let limit = first_shown(line.len(), position.before) + MAX_SHOWN;
    let end = line.len().min(limit);
    push_shown(out, &line[position.before..end])?;
    push_dots(out, limit < line.len())
}

/// Adds a picture of a position: its line, and below it a caret under the byte there, both after two spaces. Of a long
/// line 72 bytes are shown, with `..` where others are left out.
///
/// # Errors
/// `Memory` if an allocation fails.
pub fn push_picture(out: &mut Vec<u8>, position: LineAround<'_>) -> Result<(), Memory>
    requires { position.before ≤ length position.line.now }
    ensures { OnOk result (out.new.items ≡ out.old.items ++ picture position.entry.line.now position.entry.before) }
{
    out.extend_from_slice(b"  ")?;
    let margin = out.len();
    push_left(out, position)?;
    let width = out.len() - margin;
    push_right(out, position)?;
    out.extend_from_slice(b"\n  ")?;
    push_blanks(out, width)?;
    out.extend_from_slice(b"^\n")?;
    Ok(())
}

/// Adds a picture of the position at an offset of a text, and `column C: ` for what is reported of it, where C counts
/// the bytes of the line from 1.
///
/// # Errors
/// `Memory` if an allocation fails.
pub fn push_position(
    out: &mut Vec<u8>,
    text: &[u8],
    offset: usize,
    rule: LineRule,
) -> Result<(), Memory>
    requires { offset ≤ length text.now }
    ensures { OnOk result (out.new.items ≡ out.old.items ++ position_reported rule text.now offset) }
{
    let position = line_around(text, offset, rule);
    push_picture(out, position)?;
    out.extend_from_slice(b"  column ")?;
    push_number(out, position.before + 1)?;
    out.extend_from_slice(b": ")?;
    Ok(())
}

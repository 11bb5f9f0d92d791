//! Rows of calls: a line names a call and its fields, and has the text that the call must print.

use crate::fields::{Fields, Text};
use std::alloc::Global;

/// The calls of a program that runs rows.
pub trait Calls {
    /// Runs a call on its fields, and adds what it prints. `None` where the call fails, or where there is no such call.
    fn run(&self, alloc: Global, call: &str, fields: &Fields, out: &mut Text) -> Option<()>;
}

/// A row as it is written.
#[derive(Drop)]
struct RowLines {
    /// The number of its first line.
    number: usize,
    /// Its lines, joined.
    text: Vec<u8>,
}

/// The bytes that begin a line that continues a row.
const INDENT: &[u8] = b"    ";

// Joins the lines of each row. Empty lines and comments are no rows.
fn lines_of(alloc: Global, text: &[u8]) -> Option<Vec<RowLines>> {
    let mut lines: Vec<RowLines> = Vec::new(alloc);
    for (at, line) in text.split(|byte| *byte == b'\n').enumerate() {
        if let Some(more) = line.strip_prefix(INDENT) {
            lines.last_mut()?.text.extend_from_slice(more).ok()?;
        } else if !line.is_empty() && line.first() != Some(&b'#') {
            let text = Vec::from_slice(alloc, line).ok()?;
            let number = at.saturating_add(1);
            lines.push(RowLines { number, text }).ok()?;
        }
    }
    Some(lines)
}

// Cuts a text at the first offset at which these bytes stand, which are left out.
fn cut<'a>(text: &'a [u8], mark: &[u8]) -> Option<(&'a [u8], &'a [u8])> {
    for at in 0..text.len() {
        if let Some(rest) = text[at..].strip_prefix(mark) {
            return Some((&text[..at], rest));
        }
    }
    None
}

// The value of a hexadecimal digit.
fn hex_value(digit: u8) -> Option<u8> {
    match digit {
        b'0'..=b'9' => Some(digit - b'0'),
        b'A'..=b'F' => Some(digit - b'A' + 10),
        _ => None,
    }
}

// Takes a byte that is written as `HH`.
fn take_hex<'a>(text: &'a [u8], out: &mut Vec<u8>) -> Option<&'a [u8]> {
    let high = hex_value(*text.first()?)?;
    let low = hex_value(*text.get(1)?)?;
    out.push(high.wrapping_mul(16).wrapping_add(low)).ok()?;
    text.get(2..)
}

// Takes a byte, or an escape of one byte.
fn take_byte<'a>(text: &'a [u8], out: &mut Vec<u8>) -> Option<&'a [u8]> {
    let (first, rest) = text.split_first()?;
    if *first != b'\\' {
        out.push(*first).ok()?;
        return Some(rest);
    }
    let (letter, rest) = rest.split_first()?;
    let byte = match *letter {
        b'e' => return Some(rest),
        b'x' => return take_hex(rest, out),
        b'n' => b'\n',
        b'r' => b'\r',
        b't' => b'\t',
        b'\\' => b'\\',
        _ => return None,
    };
    out.push(byte).ok()?;
    Some(rest)
}

// Takes bytes and escapes of one byte.
fn take_bytes(text: &[u8], out: &mut Vec<u8>) -> Option<()> {
    let mut rest = text;
    for _ in 0..text.len() {
        if rest.is_empty() {
            break;
        }
        rest = take_byte(rest, out)?;
    }
    Some(())
}

// Takes `N:TEXT}`, the text N times over.
fn take_repeated<'a>(alloc: Global, text: &'a [u8], out: &mut Vec<u8>) -> Option<&'a [u8]> {
    let (head, rest) = cut(text, b"}")?;
    let (count, repeated) = cut(head, b":")?;
    let mut part = Vec::new(alloc);
    take_bytes(repeated, &mut part)?;
    let count = str::from_utf8(count).ok()?.parse::<usize>().ok()?;
    for _ in 0..count {
        out.extend_from_slice(&part).ok()?;
    }
    Some(rest)
}

// Returns the bytes that a field spells.
fn spelled(alloc: Global, text: &[u8]) -> Option<Vec<u8>> {
    let mut out = Vec::new(alloc);
    let mut rest = text;
    for _ in 0..text.len() {
        if rest.is_empty() {
            break;
        }
        rest = match rest.strip_prefix(b"\\{".as_slice()) {
            Some(repeated) => take_repeated(alloc, repeated, &mut out)?,
            None => take_byte(rest, &mut out)?,
        };
    }
    Some(out)
}

// Returns the fields that a text has, with ` | ` between them.
fn fields_of(alloc: Global, text: &[u8]) -> Option<Fields> {
    let mut texts = Vec::new(alloc);
    let mut rest = text;
    for _ in 0..text.len() {
        match cut(rest, b" | ") {
            Some((field, after)) => {
                texts.push(spelled(alloc, field)?).ok()?;
                rest = after;
            }
            None => break,
        }
    }
    texts.push(spelled(alloc, rest)?).ok()?;
    Some(Fields { texts })
}

// Adds bytes as a field spells them.
fn add_spelled(bytes: &[u8], out: &mut Text) {
    for byte in bytes {
        match *byte {
            b'\n' => out.add(b"\\n"),
            b'\r' => out.add(b"\\r"),
            b'\t' => out.add(b"\\t"),
            b'\\' => out.add(b"\\\\"),
            b' '..=b'~' => out.add(&[*byte]),
            other => add_hex(other, out),
        }
    }
}

// Adds a byte as `\xHH`.
fn add_hex(byte: u8, out: &mut Text) {
    let digits = b"0123456789ABCDEF";
    out.add(b"\\x");
    out.add(&[
        digits[usize::from(byte / 16)],
        digits[usize::from(byte % 16)],
    ]);
}

// Runs a row. Adds what it prints if that is not what the row asks for. `None` if it is no row or the call fails.
fn run_row<C: Calls>(alloc: Global, calls: &C, line: &[u8], out: &mut Text) -> Option<bool> {
    let (row, wanted) = cut(line, b" => ")?;
    let (call, rest) = cut(row, b" ").unwrap_or((row, b""));
    let fields = fields_of(alloc, rest)?;
    let wanted = spelled(alloc, wanted)?;
    let mut found = Text::new(alloc);
    let name = str::from_utf8(call).ok()?;
    calls.run(alloc, name, &fields, &mut found)?;
    let printed = found.whole()?;
    if printed == wanted.as_slice() {
        return Some(true);
    }
    out.add(call);
    out.add(b" prints ");
    add_spelled(printed, out);
    Some(false)
}

// Runs a row, and adds a line on it if it is not right. Returns whether it is.
fn check_row<C: Calls>(alloc: Global, calls: &C, line: &RowLines, out: &mut Text) -> bool {
    let mut why = Text::new(alloc);
    let is_right = run_row(alloc, calls, &line.text, &mut why);
    if is_right == Some(true) {
        return true;
    }
    out.add(b"line ");
    out.add_number(line.number as u128);
    out.add(b": ");
    match is_right {
        None => out.add(b"no row, no such call, or the call fails"),
        Some(_) => out.add(why.whole().unwrap_or(b"out of memory")),
    }
    out.add(b"\n");
    false
}

/// Runs the rows of a text. Returns a line on each row whose call prints something else than the row asks for, and then
/// how many rows there are and how many of them are right. `None` if an allocation fails, or if the first line is
/// indented.
///
/// A row is `CALL FIELD | FIELD => WANTED`. A line that begins with four spaces goes on with the row before it. A line
/// that is empty, or begins with `#`, is no row. `\n`, `\r`, `\t`, `\\` and `\xHH` are bytes, `\e` is nothing, and
/// `\{N:TEXT}` is a text N times over.
pub(crate) fn run_rows<C: Calls>(alloc: Global, calls: &C, text: &[u8]) -> Option<Text> {
    let lines = lines_of(alloc, text)?;
    let mut out = Text::new(alloc);
    let mut right = 0usize;
    for line in &lines {
        if check_row(alloc, calls, line, &mut out) {
            right = right.saturating_add(1);
        }
    }
    out.add_number(lines.len() as u128);
    out.add(b" rows, ");
    out.add_number(right as u128);
    out.add(b" right\n");
    Some(out)
}

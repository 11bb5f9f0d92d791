//! The lines of a text, and positions in it.
ghost use Rattle.std.specs.Prelude.{◌≡◌, IfOk, map};
ghost use Rattle.ruletable.specs.Lines.{begins_with_lf as lf_begins, ends_line};
ghost use Rattle.findings.specs.NameColumns.{line_numbered, lines_in, name_location};

use crate::finding::Location;
use crate::words::name_column;
use ruletable::{LineRule, Memory, NameCase};
use std::alloc::Global;

// Returns whether the first byte is LF.
fn begins_with_lf(bytes: &[u8]) -> bool
    ensures { result ≡ lf_begins bytes.now }
{
    match bytes.first() {
        Some(b) => *b == b'\n',
        None => false,
    }
}

// Returns whether a line ends with a byte before those bytes.
fn is_line_end(b: u8, after: &[u8], rule: LineRule) -> bool
    ensures { result ≡ ends_line rule b after.now }
{
    match rule {
        LineRule::Lf => b == b'\n',
        LineRule::Any => b == b'\n' || (b == b'\r' && !begins_with_lf(after)),
    }
}

/// Returns the lines of a text.
pub(crate) fn text_lines<'a>(
    alloc: Global,
    text: &'a [u8],
    rule: LineRule,
) -> Result<Vec<&'a [u8]>, Memory>
    ensures { IfOk result (λ lines. map (λ l. l.now) lines.items ≡ lines_in rule text.entry.now) }
{
    let mut lines = Vec::new(alloc);
    let mut line = text;
    let mut size = 0;
    let mut rest = text;
    while let Some((first, tail)) = rest.split_first() {
        if is_line_end(*first, tail, rule) {
            lines.push(&line[..size])?;
            line = tail;
            size = 0;
        } else {
            size += 1;
        }
        rest = tail;
    }
    lines.push(line)?;
    Ok(lines)
}

/// Returns the line of that number, from 1; no bytes if there is none.
pub(crate) fn numbered_line<'a>(lines: &[&'a [u8]], number: usize) -> &'a [u8]
    ensures { result.now ≡ line_numbered (map (λ l. l.now) lines.now) number }
{
    match lines.get(number.saturating_sub(1)) {
        Some(line) => line,
        None => &[],
    }
}

/// Returns the position of a name in the line of that number.
pub(crate) fn location_of(names: NameCase, lines: &[&[u8]], number: usize, name: &[u8]) -> Location
    ensures { result ≡ name_location names (map (λ l. l.now) lines.now) number name.now }
{
    Location {
        line: number,
        column: name_column(names, numbered_line(lines, number), name),
    }
}

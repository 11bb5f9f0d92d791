//! The lines that are no furniture.
ghost use Rattle.std.specs.Prelude.{◌≡◌, ◌+◌, ◌<◌, [], ◌∷◌, map, IfOk, OnOk, length};
ghost use Rattle.std.specs.List.{suffix_len};
ghost use Rattle.abnfblocks.specs.Furniture.{KeepsLines};
ghost use Rattle.abnfblocks.specs.KeptSteps.{is_blank_kind, cut_blanks, after_line};
ghost use Rattle.abnfblocks.specs.TextLines.{after_mark, numbered, text_lines, line_parts};

use crate::rfctext::before::Before;
use crate::rfctext::text_line::{TextLine, before_cr, part_size};
use ruletable::Memory;
use std::alloc::Global;

/// Returns how many lines stand before the blank lines that end the list.
pub(crate) fn bare_len(lines: &[TextLine<'_>]) -> usize
    ensures { result + suffix_len (λ line. is_blank_kind line.kind) (map numbered lines.now) ≡ length lines.now }
{
    let mut size = lines.len();
    while size > 0 && lines[size - 1].kind.is_blank() {
        size -= 1;
    }
    size
}

// Drops the blank lines that end the list.
fn drop_blanks(kept: &mut Vec<TextLine<'_>>)
    ensures { map numbered kept.new.items ≡ cut_blanks (map numbered kept.old.items) }
{
    let size = bare_len(kept);
    kept.truncate(size);
}

// Takes the next line of a text.
fn take_line<'a>(
    kept: &mut Vec<TextLine<'a>>,
    before: Before,
    line: TextLine<'a>,
) -> Result<(), Memory>
    ensures { OnOk result (map numbered kept.new.items
        ≡ after_line before (map numbered kept.old.items) (numbered line.entry)) }
{
    if line.kind.is_mark() {
        drop_blanks(kept);
        return Ok(());
    }
    if !before.takes(line.kind) {
        kept.push(line)?;
    }
    Ok(())
}

/// A text, cut at the end of its first line.
#[derive(Clone, Copy)]
pub(crate) struct Parts<'a> {
    /// The bytes before that end.
    pub(crate) first: &'a [u8],
    /// The bytes after it.
    pub(crate) rest: &'a [u8],
}

/// Cuts the text at the end of its first line: LF, or CR LF.
pub(crate) fn cut_part(text: &[u8]) -> Parts<'_>
    requires { 0 < length text.now }
    ensures parts { line_parts text.now ≡ result.first.now ∷ line_parts result.rest.now }
    ensures less { length result.rest.now < length text.now }
{
    let size = part_size(text);
    let (first, after) = text.split_at(size);
    match after.split_first() {
        Some((_, rest)) => Parts {
            first: before_cr(first),
            rest,
        },
        None => Parts { first, rest: after },
    }
}

/// Returns the text without the byte order mark (EF BB BF) that begins it, if one does.
pub fn without_mark(text: &[u8]) -> &[u8]
    ensures { result.now ≡ after_mark text.now }
{
    match text.strip_prefix(b"\xEF\xBB\xBF") {
        Some(rest) => rest,
        None => text,
    }
}

// Returns the lines of a text without page furniture, in order.
pub(crate) fn kept_lines(alloc: Global, text: &[u8]) -> Result<Vec<TextLine<'_>>, Memory>
    ensures { IfOk result (λ kept. KeepsLines [] (text_lines text.now) (map numbered kept.items)) }
{
    let mut kept = Vec::new(alloc);
    let mut before = Before::Text;
    let mut rest = text;
    let mut number = 1;
    while !rest.is_empty() {
        let parts = cut_part(rest);
        let line = TextLine::new(number, parts.first);
        take_line(&mut kept, before, line)?;
        before = before.after(line.kind);
        rest = parts.rest;
        number += 1;
    }
    Ok(kept)
}

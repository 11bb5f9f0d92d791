//! Tags that one line opens and a later one closes.
ghost use Rattle.std.specs.Prelude.{◌≡◌, ◌+◌, ◌<◌, ◌^◌, ◌&&◌, nat_lt, map, if◌then◌else◌, IfOk};
ghost use Rattle.abnfblocks.specs.MaskSteps.{each_tag};
ghost use Rattle.abnfblocks.specs.OpenTags.{begins_tag as tag_begins, goes_on_tag as tag_goes_on, has_end};
ghost use Rattle.abnfblocks.specs.OpenTags.{opens_tag as tag_opens};
ghost use Rattle.abnfblocks.specs.TextLines.{numbered};

use crate::rfctext::fence::has_byte;
use crate::rfctext::text_line::TextLine;
use crate::rule_line::{after_margin, begins_by, begins_letter};
use ruletable::Memory;
use std::alloc::Global;

// Returns whether `<` and a letter or `?` begin the text.
fn begins_tag(text: &[u8]) -> bool
    ensures { result ≡ tag_begins text.now }
{
    match text.split_first() {
        Some((b'<', rest)) => begins_letter(rest) || begins_by(rest, b'?'),
        _ => false,
    }
}

// Returns whether a tag begins the line after its margin, and does not end on it.
fn opens_tag(line: &[u8]) -> bool
    ensures { result ≡ tag_opens line.now }
{
    begins_tag(after_margin(line)) && !has_byte(line, b'>')
}

// Returns whether a tag goes on over the line.
fn goes_on_tag(line: &TextLine<'_>) -> bool
    ensures { result ≡ tag_goes_on (numbered line.now) }
{
    !(has_byte(line.bytes, b'>') || line.kind.is_blank() || line.bytes == b"<".as_slice())
}

// Returns how many lines a tag takes that goes on with the line, where it takes so many after it, or 0.
fn more_left(line: &TextLine<'_>, left: usize) -> usize
    requires { left + 1 < 2 ^ 64 }
    ensures { result ≡ (if has_end line.now.bytes.now then 1
        else if nat_lt 0 left && tag_goes_on (numbered line.now) then left + 1 else 0) }
{
    if has_byte(line.bytes, b'>') {
        return 1;
    }
    if left > 0 && goes_on_tag(line) {
        return left + 1;
    }
    0
}

// Returns of each line how many lines the tag has that it opens and a later one closes, or 0.
pub(crate) fn tag_sizes(alloc: Global, lines: &[TextLine<'_>]) -> Result<Vec<usize>, Memory>
    ensures { IfOk result (λ sizes. sizes.items ≡ each_tag (map numbered lines.now)) }
{
    let mut sizes = Vec::new(alloc);
    let mut left = 0;
    let mut first = lines.len();
    while first > 0 {
        first -= 1;
        let line = &lines[first];
        let size = if left > 0 && opens_tag(line.bytes) {
            left + 1
        } else {
            0
        };
        sizes.push(size)?;
        left = more_left(line, left);
    }
    sizes.reverse();
    Ok(sizes)
}

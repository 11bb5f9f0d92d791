//! The line of a position.
ghost use Rattle.std.specs.Prelude.{◌≡◌, ◌≤◌, length, take};
ghost use Rattle.diagnostics.specs.LinesAround.{breaks, begins_lf, line_size, bytes_before, line_text};

use ruletable::LineRule;

/// The line of a position in a text.
#[derive(Clone, Copy)]
pub struct LineAround<'a> {
    /// The bytes of the line, without its end.
    pub line: &'a [u8],
    /// How many bytes of the line stand before the position.
    pub before: usize,
}

fn is_break(b: u8, rule: LineRule) -> bool
    ensures { result ≡ breaks rule b }
{
    match rule {
        LineRule::Lf => b == b'\n',
        LineRule::Any => b == b'\n' || b == b'\r',
    }
}

fn begins_with_lf(bytes: &[u8]) -> bool
    ensures { result ≡ begins_lf bytes.now }
{
    match bytes.first() {
        Some(b) => *b == b'\n',
        None => false,
    }
}

// How many bytes at the end of the text hold no line break.
fn count_before(text: &[u8], rule: LineRule) -> usize
    ensures before { result ≡ bytes_before rule text.now }
    ensures within { result ≤ length text.now }
{
    let mut size = 0;
    let mut rest = text;
    while let Some((last, front)) = rest.split_last() {
        if is_break(*last, rule) {
            break;
        }
        rest = front;
        size += 1;
    }
    size
}

// How many bytes stand before the first line end, or in all.
fn count_after(text: &[u8], rule: LineRule) -> usize
    ensures after { result ≡ line_size rule text.now }
    ensures within { result ≤ length text.now }
{
    let mut size = 0;
    let mut rest = text;
    while let Some((first, tail)) = rest.split_first() {
        if is_break(*first, rule) || (*first == b'\r' && begins_with_lf(tail)) {
            break;
        }
        rest = tail;
        size += 1;
    }
    size
}

/// Returns the line of the position at an offset. Lines end with LF or CR LF, and under `Any` also with CR.
pub fn line_around(text: &[u8], offset: usize, rule: LineRule) -> LineAround<'_>
    requires { offset ≤ length text.now }
    ensures line { result.line.now ≡ line_text rule text.now offset }
    ensures before { result.before ≡ bytes_before rule (take offset text.now) }
    ensures within { result.before ≤ length result.line.now }
{
    let before = count_before(&text[..offset], rule);
    let after = count_after(&text[offset..], rule);
    LineAround {
        line: &text[offset - before..offset + after],
        before,
    }
}

//! Tests of the bytes of a line.
ghost use Rattle.std.specs.Prelude.{◌≡◌, ◌-◌, ◌≤◌, ◌==◌, Some, None, length, take, MatchOption, codes};
ghost use Rattle.std.specs.List.{list_all, prefix_len, suffix_len};
ghost use Rattle.std.specs.Char.{is_ascii_digit};
ghost use Rattle.abnfblocks.specs.LineKinds.{is_blank as blank, is_feed as feed, is_blank_line as blank_line};
ghost use Rattle.abnfblocks.specs.LineKinds.{is_foot as foot, is_dated as dated, bare_end, before_page, strip_end};
ghost use Rattle.abnfblocks.specs.LineKinds.{begins_blank as begins, is_page_foot};

/// Returns whether the byte is a space, a tab or a form feed.
pub fn is_blank(b: u8) -> bool
    ensures { result ≡ blank b }
{
    b == b' ' || b == b'\t' || b == 12
}

// Whether nothing but blanks stands there.
pub(crate) fn is_blank_line(line: &[u8]) -> bool
    ensures { result ≡ blank_line line.now }
{
    line.iter().all(|b| is_blank(*b))
}

// How many form feeds begin the line.
pub(crate) fn count_feeds(line: &[u8]) -> usize
    ensures count { result ≡ prefix_len feed line.now }
    ensures within { result ≤ length line.now }
{
    let mut size = 0;
    let mut rest = line;
    while let Some((first, tail)) = rest.split_first() {
        if *first != 12 {
            break;
        }
        rest = tail;
        size += 1;
    }
    size
}

// How many blanks end the line.
fn count_blanks(line: &[u8]) -> usize
    ensures count { result ≡ suffix_len blank line.now }
    ensures within { result ≤ length line.now }
{
    let mut size = 0;
    let mut rest = line;
    while let Some((last, front)) = rest.split_last() {
        if !is_blank(*last) {
            break;
        }
        rest = front;
        size += 1;
    }
    size
}

// How many digits end the line.
fn count_digits(line: &[u8]) -> usize
    ensures count { result ≡ suffix_len is_ascii_digit line.now }
    ensures within { result ≤ length line.now }
{
    let mut size = 0;
    let mut rest = line;
    while let Some((last, front)) = rest.split_last() {
        if !last.is_ascii_digit() {
            break;
        }
        rest = front;
        size += 1;
    }
    size
}

// The line without the blanks that end it.
pub(crate) fn without_blanks(line: &[u8]) -> &[u8]
    ensures { result.now ≡ bare_end line.now }
{
    &line[..line.len() - count_blanks(line)]
}

// The text before that end, if the text has it.
fn before_end<'a>(text: &'a [u8], end: &[u8]) -> Option<&'a [u8]>
    ensures { MatchOption result (strip_end text.now end.now ≡ None)
        (λ front. strip_end text.now end.now ≡ Some front.now) }
{
    text.strip_suffix(end)
}

// The text before `[Page N]`, if the line ends with that.
fn before_page_number(line: &[u8]) -> Option<&[u8]>
    ensures { MatchOption result (before_page line.now ≡ None) (λ front. before_page line.now ≡ Some front.now) }
{
    match before_end(without_blanks(line), b"]") {
        Some(inner) => {
            let digits = count_digits(inner);
            if digits == 0 {
                return None;
            }
            before_end(&inner[..inner.len() - digits], b"[Page ")
        }
        None => None,
    }
}

// Whether the line is indented.
fn begins_blank(line: &[u8]) -> bool
    ensures { result ≡ begins line.now }
{
    match line.first() {
        Some(b) => is_blank(*b),
        None => false,
    }
}

// Whether the line is the foot of a page.
pub(crate) fn is_foot(line: &[u8]) -> bool
    ensures { result ≡ foot line.now }
{
    match before_page_number(line) {
        Some(front) => !begins_blank(line) || is_blank_line(front),
        None => false,
    }
}

// Whether the line looks like the head of a page.
pub(crate) fn is_dated(line: &[u8]) -> bool
    ensures { result ≡ dated line.now }
{
    if begins_blank(line) {
        return false;
    }
    let bare = without_blanks(line);
    let digits = count_digits(bare);
    if digits != 4 {
        return false;
    }
    count_blanks(&bare[..bare.len() - digits]) != 0
}

//! Fenced blocks of code in Markdown.
ghost use Rattle.std.specs.Prelude.{◌≡◌, ◌≤◌, ◌==◌, length};
ghost use Rattle.std.specs.List.{list_all, list_any};
ghost use Rattle.abnfblocks.specs.Fences.{after_fence as rest_after, after_spaces as spaces_after, class_of};
ghost use Rattle.abnfblocks.specs.Fences.{closing_length as length_closing, fence_length as length_of};
ghost use Rattle.abnfblocks.specs.Fences.{hides_block as block_hides, information_of};
ghost use Rattle.abnfblocks.specs.Fences.{is_read_language as language_reads, is_title_fence as title_fence};
ghost use Rattle.abnfblocks.specs.Fences.{language_of, opening_length as length_opening};
ghost use Rattle.abnfblocks.specs.Fences.{byte_run, first_word_of};
ghost use Rattle.abnfblocks.specs.RuleLines.{is_margin};
ghost use Rattle.abnfblocks.specs.TextLines.{numbered};

use crate::rfctext::line_tests::without_blanks;
use crate::rfctext::text_line::TextLine;
use crate::rule_line::{after_margin, begins_by, is_space};

// Returns how many times that byte begins the text.
fn run_length(text: &[u8], byte: u8) -> usize
    ensures count { result ≡ byte_run byte text.now }
    ensures within { result ≤ length text.now }
{
    let mut size = 0;
    let mut rest = text;
    while let Some((first, tail)) = rest.split_first() {
        if *first != byte {
            break;
        }
        rest = tail;
        size += 1;
    }
    size
}

// Returns the line without the spaces that begin it.
fn after_spaces(line: &[u8]) -> &[u8]
    ensures { result.now ≡ spaces_after line.now }
{
    &line[run_length(line, b' ')..]
}

// Returns the line after the fence of that character.
fn after_fence(line: &[u8], mark: u8) -> &[u8]
    ensures { result.now ≡ rest_after mark line.now }
{
    let text = after_spaces(line);
    &text[run_length(text, mark)..]
}

// Returns the length of the fence of that character that begins the line, or 0.
fn fence_length(line: &[u8], mark: u8) -> usize
    ensures { result ≡ length_of mark line.now }
{
    let size = run_length(after_spaces(line), mark);
    if run_length(line, b' ') < 4 && size > 2 {
        size
    } else {
        0
    }
}

// Returns whether the text has the byte.
pub(crate) fn has_byte(text: &[u8], byte: u8) -> bool
    ensures { result ≡ list_any (λ b. b == byte) text.now }
{
    text.iter().any(|b| *b == byte)
}

// Returns whether the text has nothing but spaces and tabs.
fn is_bare(text: &[u8]) -> bool
    ensures { result ≡ list_all is_margin text.now }
{
    text.iter().all(|b| is_space(*b))
}

// Returns the length of the fence of that character that opens a block, or 0.
pub(crate) fn opening_length(line: &[u8], mark: u8) -> usize
    ensures { result ≡ length_opening mark line.now }
{
    if mark == b'`' && has_byte(after_fence(line, mark), b'`') {
        return 0;
    }
    fence_length(line, mark)
}

// Returns the length of the fence of that character that closes a block, or 0.
pub(crate) fn closing_length(line: &[u8], mark: u8) -> usize
    ensures { result ≡ length_closing mark line.now }
{
    if is_bare(after_fence(line, mark)) {
        return fence_length(line, mark);
    }
    0
}

// Returns the first word of the text, up to a blank or that byte.
fn first_word(text: &[u8], end: u8) -> &[u8]
    ensures { result.now ≡ first_word_of end text.now }
{
    let mut size = 0;
    let mut rest = text;
    while let Some((first, tail)) = rest.split_first() {
        if is_space(*first) || *first == end {
            break;
        }
        rest = tail;
        size += 1;
    }
    &text[..size]
}

// Returns the first word in braces that begins with `.`, without that. The text follows the first brace.
fn first_class(text: &[u8]) -> &[u8]
    ensures { result.now ≡ class_of 32 text.now }
{
    let mut before = b' ';
    let mut rest = text;
    while let Some((first, tail)) = rest.split_first() {
        if is_space(before) && *first == b'.' {
            return first_word(tail, b'}');
        }
        if *first == b'}' {
            return &[];
        }
        before = *first;
        rest = tail;
    }
    &[]
}

// Returns the line after its fence.
fn information(line: &[u8]) -> &[u8]
    ensures { result.now ≡ information_of line.now }
{
    if fence_length(line, b'`') > 0 {
        after_fence(line, b'`')
    } else {
        after_fence(line, b'~')
    }
}

// Returns the language of a block, by the information of its first fence.
fn language(information: &[u8]) -> &[u8]
    ensures { result.now ≡ language_of information.now }
{
    let text = after_margin(information);
    match text.split_first() {
        Some((b'{', rest)) => first_class(rest),
        _ => first_word(text, b'{'),
    }
}

// Returns whether ABNF is looked for in blocks of the language.
fn is_read_language(language: &[u8]) -> bool
    ensures { result ≡ language_reads language.now }
{
    language.is_empty()
        || language.eq_ignore_ascii_case(b"abnf")
        || language.eq_ignore_ascii_case(b"bnf")
        || language.eq_ignore_ascii_case(b"text")
        || language.eq_ignore_ascii_case(b"txt")
}

// Returns whether the block that the line opens is in another language.
pub(crate) fn hides_block(line: &TextLine<'_>) -> bool
    ensures { result ≡ block_hides (numbered line.now) }
{
    !is_read_language(language(information(line.bytes)))
}

// Returns whether the line holds `%%%`, and perhaps blanks after it.
pub(crate) fn is_title_fence(line: &[u8]) -> bool
    ensures { result ≡ title_fence line.now }
{
    without_blanks(line) == b"%%%".as_slice()
}

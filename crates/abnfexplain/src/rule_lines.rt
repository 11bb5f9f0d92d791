//! Lines that begin a rule by their form: blanks, a word, blanks, at most two `:`, and `=`.
ghost use Rattle.std.specs.Prelude.{◌≡◌, ◌+◌, ◌≤◌, length};
ghost use Rattle.diagnostics.specs.LaterFaults.{IsFirstAt};
ghost use Rattle.abnfexplain.specs.AbnfRuleLines.{blanks_at, goes_next, past_colon, past_word};
ghost use Rattle.abnfexplain.specs.AbnfRuleLines.{begins_body as starts_body, begins_word as starts_word};
ghost use Rattle.abnfexplain.specs.AbnfRuleLines.{begins_line as starts_line, has_form as in_form};
ghost use Rattle.abnfexplain.specs.AbnfRuleLines.{is_mark as mark, is_rule_line as rule_line};
ghost use Rattle.abnfexplain.specs.AbnfRuleLines.{is_in_word as in_word};

use crate::abnf_mistakes::bytes_after_blanks;
use lexer::after_byte;

// Returns whether a byte is a mark of ABNF that ends a word.
fn is_mark(b: u8) -> bool
    ensures { result ≡ mark b }
{
    matches!(
        b,
        b';' | b'"' | b'<' | b'>' | b'=' | b'/' | b'(' | b')' | b'[' | b']' | b':'
    )
}

// Returns whether a byte may stand in a word.
fn is_in_word(b: u8) -> bool
    ensures { result ≡ in_word b }
{
    !(matches!(b, b' ' | b'\t' | b'\r' | b'\n') || is_mark(b))
}

// Returns a text without the word before it.
fn after_word(text: &[u8]) -> &[u8]
    ensures { result.now ≡ past_word text.entry.now }
{
    let mut rest = text;
    while let Some((first, tail)) = rest.split_first() {
        if !is_in_word(*first) {
            break;
        }
        rest = tail;
    }
    rest
}

// Returns a text without the colon before it, if there is one.
fn after_colon(text: &[u8]) -> &[u8]
    ensures { result.now ≡ past_colon text.entry.now }
{
    after_byte(text, b':').unwrap_or(text)
}

fn begins_word(text: &[u8]) -> bool
    ensures { result ≡ starts_word text.now }
{
    match text.first() {
        Some(b) => is_in_word(*b),
        None => false,
    }
}

fn begins_body(text: &[u8]) -> bool
    ensures { result ≡ starts_body text.now }
{
    match text.first() {
        Some(b) => *b == b'=',
        None => false,
    }
}

// Returns whether a text begins with a word, blanks, at most two colons and `=`.
fn has_form(text: &[u8]) -> bool
    ensures { result ≡ in_form text.now }
{
    begins_word(text) && begins_body(after_colon(after_colon(bytes_after_blanks(after_word(text)))))
}

// Returns whether a line begins at a position of a text.
fn begins_line(text: &[u8], at: usize) -> bool
    requires { at ≤ length text.now }
    ensures { result ≡ starts_line text.now at }
{
    at == 0 || text[at - 1] == b'\n'
}

// Returns whether a line begins at a position of a text, and begins a rule by its form.
fn is_rule_line(text: &[u8], at: usize) -> bool
    requires { at ≤ length text.now }
    ensures { result ≡ rule_line text.now at }
{
    begins_line(text, at) && has_form(bytes_after_blanks(&text[at..]))
}

// Returns how many blanks stand at a position of a text.
fn indent(text: &[u8], at: usize) -> usize
    requires { at ≤ length text.now }
    ensures same { result ≡ blanks_at text.now at }
    ensures within { at + result ≤ length text.now }
{
    let line = &text[at..];
    line.len() - bytes_after_blanks(line).len()
}

// Returns whether a line at a position begins a rule by its form, with that many blanks, and with its word so many
// bytes after another position, or further on.
fn is_next(text: &[u8], margin: usize, start: usize, ahead: usize, at: usize) -> bool
    requires order { start ≤ at }
    requires within { at ≤ length text.now }
    ensures { result ≡ goes_next text.now margin start ahead at }
{
    if !is_rule_line(text, at) {
        return false;
    }
    let blanks = indent(text, at);
    blanks == margin && ahead <= at - start + blanks
}

/// Returns where the first such line begins after that other position.
pub(crate) fn next_rule_line(
    text: &[u8],
    margin: usize,
    start: usize,
    ahead: usize,
) -> Option<usize>
    requires { start ≤ length text.now }
    ensures { IsFirstAt (goes_next text.now margin start ahead) (start + 1) (length text.now) result }
{
    for at in start + 1..text.len() {
        if is_next(text, margin, start, ahead, at) {
            return Some(at);
        }
    }
    None
}

//! The pieces of templates with escapes.
ghost use Rattle.std.specs.Prelude.{◌≡◌, ◌+◌, ◌≤◌, [], length, reverse, IfSome, MatchOption};
ghost use Rattle.std.specs.List.{prefix_len};
ghost use Rattle.pegnodes.specs.Templates.{cut_front, is_blank, is_word, trimmed};
ghost use Rattle.pegmatch.specs.FirstPieces.{IsFirstPiece, piece_of};
ghost use Rattle.pegmatch.specs.TemplateEscapes.{byte_or_escape, escape as escape_of, hex_escape as escape_of_hex};
ghost use Rattle.pegmatch.specs.TemplateEscapes.{hex_value, letter_escape as escape_of_letter};

/// The first piece of a template with escapes.
#[derive(Clone, Copy)]
pub(crate) enum FrontPiece<'a> {
    /// A run of word bytes.
    Word(&'a [u8]),
    /// The byte of an escape, or a byte that is no word byte.
    Other(u8),
}

fn is_word_byte(b: u8) -> bool
    ensures { result ≡ is_word b }
{
    matches!(b, b'a'..=b'z' | b'A'..=b'Z' | b'0'..=b'9' | b'_')
}

fn is_blank_byte(b: u8) -> bool
    ensures { result ≡ is_blank b }
{
    matches!(b, b' ' | b'\t' | b'\r' | b'\n')
}

// Returns a text without the blanks at its front.
fn without_front(text: &[u8]) -> &[u8]
    ensures { result.now ≡ cut_front text.now }
{
    let mut rest = text;
    while let Some((first, tail)) = rest.split_first() {
        if !is_blank_byte(*first) {
            break;
        }
        rest = tail;
    }
    rest
}

// Returns a text without the blanks at its end.
#[tactic(auto, using(crate::proofs::FirstPieceLemmas::end_blank, crate::proofs::FirstPieceLemmas::end_other))]
fn without_end(text: &[u8]) -> &[u8]
    ensures { reverse result.now ≡ cut_front (reverse text.now) }
{
    let mut rest = text;
    while let Some((last, front)) = rest.split_last() {
        if !is_blank_byte(*last) {
            break;
        }
        rest = front;
    }
    rest
}

/// Returns a text without the blanks at both its ends.
pub(crate) fn trimmed_text(text: &[u8]) -> &[u8]
    ensures { result.now ≡ trimmed text.now }
{
    without_end(without_front(text))
}

// Returns how many word bytes stand at the front of a text.
fn word_size(text: &[u8]) -> usize
    ensures size { result ≡ prefix_len is_word text.now }
    ensures within { result ≤ length text.now }
{
    let mut size = 0;
    let mut rest = text;
    while let Some((first, tail)) = rest.split_first() {
        if !is_word_byte(*first) {
            break;
        }
        rest = tail;
        size += 1;
    }
    size
}

// Returns the value of a hexadecimal digit.
fn hex_digit(b: u8) -> Option<u8>
    ensures value { result ≡ hex_value b }
    ensures within { IfSome result (λ n. n ≤ 15) }
{
    match b {
        b'0'..=b'9' => Some(b - b'0'),
        b'A'..=b'F' => Some(b - b'A' + 10),
        b'a'..=b'f' => Some(b - b'a' + 10),
        _ => None,
    }
}

// Returns the byte of the escape that a backslash and a letter make, and how many bytes follow the backslash.
fn letter_escape(b: u8) -> Option<(u8, usize)>
    ensures value { result ≡ escape_of_letter b }
    ensures within { IfSome result (λ x. x.1 ≤ 1) }
{
    match b {
        b'n' => Some((b'\n', 1)),
        b't' => Some((b'\t', 1)),
        b'r' => Some((b'\r', 1)),
        b'\\' => Some((b'\\', 1)),
        _ => None,
    }
}

// Returns the same for `\x` before a text.
fn hex_escape(text: &[u8]) -> Option<(u8, usize)>
    ensures value { result ≡ escape_of_hex text.now }
    ensures within { IfSome result (λ x. x.1 ≤ length text.now + 1) }
{
    let (first, tail) = text.split_first()?;
    let (second, _) = tail.split_first()?;
    let high = hex_digit(*first)?;
    let low = hex_digit(*second)?;
    Some((high * 16 + low, 3))
}

// Returns the same for a backslash before a text.
fn escape(text: &[u8]) -> Option<(u8, usize)>
    ensures value { result ≡ escape_of text.now }
    ensures within { IfSome result (λ x. x.1 ≤ length text.now) }
{
    let (first, tail) = text.split_first()?;
    if *first == b'x' {
        return hex_escape(tail);
    }
    letter_escape(*first)
}

// Returns the byte that a byte before a text stands for, or the escape that it begins, and how many bytes of the text
// belong to that.
fn front_byte(first: u8, tail: &[u8]) -> (u8, usize)
    ensures value { result ≡ byte_or_escape first tail.now }
    ensures within { result.1 ≤ length tail.now }
{
    if first != b'\\' {
        return (first, 0);
    }
    match escape(tail) {
        Some(found) => found,
        None => (first, 0),
    }
}

/// Returns the first piece of a text, and what follows it. `None` for the empty text.
pub(crate) fn first_piece(text: &[u8]) -> Option<(FrontPiece<'_>, &[u8])>
    ensures { MatchOption result (text.now ≡ []) (λ x. IsFirstPiece text.now (piece_of x.0) x.1.now) }
{
    let size = word_size(text);
    if size > 0 {
        let (word, rest) = text.split_at(size);
        return Some((FrontPiece::Word(word), rest));
    }
    let (first, tail) = text.split_first()?;
    let (byte, more) = front_byte(*first, tail);
    Some((FrontPiece::Other(byte), &tail[more..]))
}

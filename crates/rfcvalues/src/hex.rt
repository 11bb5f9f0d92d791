//! Words in hexadecimal digits.
ghost use Rattle.std.specs.Prelude.{◌≡◌, ◌≤◌, length};
ghost use Rattle.std.specs.List.{list_all, list_any};
ghost use Rattle.std.specs.Char.{is_ascii_digit, is_ascii_hexdigit};
ghost use Rattle.rfcvalues.specs.HexWords.{ends_word as word_ends, has_hex_word as has_hex, is_hex_word as is_hex};
ghost use Rattle.rfcvalues.specs.HexWords.{word_bytes as size_of_word};

use rfcforms::{items_after, items_before};

// Whether the byte stands between words.
fn ends_word(b: u8) -> bool
    ensures { result ≡ word_ends b }
{
    b == b' ' || b == b'\t' || b == b'\n' || b == b';' || b == b','
}

// How many bytes of a word begin the text.
fn word_size(text: &[u8]) -> usize
    ensures size { result ≡ size_of_word text.now }
    ensures within { result ≤ length text.now }
{
    let mut size = 0;
    let mut rest = text;
    while let Some((first, tail)) = rest.split_first() {
        if ends_word(*first) {
            break;
        }
        rest = tail;
        size += 1;
    }
    size
}

fn are_hexadecimal(word: &[u8]) -> bool
    ensures { result ≡ list_all is_ascii_hexdigit word.now }
{
    word.iter().all(|b| b.is_ascii_hexdigit())
}

fn has_digit(word: &[u8]) -> bool
    ensures { result ≡ list_any is_ascii_digit word.now }
{
    word.iter().any(|b| b.is_ascii_digit())
}

// Whether the word is `0x` and hexadecimal digits, or an even number of these, at least 8, one of them decimal.
fn is_hex_word(word: &[u8]) -> bool
    ensures { result ≡ is_hex word.now }
{
    if items_before(word, 2) == b"0x".as_slice() && word.len() > 2 {
        return are_hexadecimal(items_after(word, 2));
    }
    word.len() >= 8 && word.len() % 2 == 0 && are_hexadecimal(word) && has_digit(word)
}

/// Returns whether a word of the text is `0x` and hexadecimal digits, or an even number of these, at least 8, one of
/// them decimal. Blanks, ends of lines, `;` and `,` stand between words.
pub(crate) fn has_hex_word(text: &[u8]) -> bool
    ensures { result ≡ has_hex text.now }
{
    let mut rest = text;
    let mut size = word_size(rest);
    while size < rest.len() {
        if is_hex_word(items_before(rest, size)) {
            return true;
        }
        rest = items_after(rest, size + 1);
        size = word_size(rest);
    }
    is_hex_word(rest)
}

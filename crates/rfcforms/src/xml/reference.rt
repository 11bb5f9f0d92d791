//! References of XML to characters.
ghost use Rattle.std.specs.Prelude.{◌≡◌, ◌≤◌};
ghost use Rattle.rfcforms.specs.XmlReferences.{digit_value as value_of_digit, is_digit_of as digit_of, number_from};
ghost use Rattle.rfcforms.specs.XmlReferences.{printed_byte as byte_printed, referred_byte as byte_referred};
ghost use Rattle.rfcforms.specs.XmlReferences.{referred_number as number_referred};

use crate::parts::items_after;

// Whether the byte is a digit of numbers of that base.
fn is_digit_of(base: usize, b: u8) -> bool
    ensures { result ≡ digit_of base b }
{
    if base == 16 {
        b.is_ascii_hexdigit()
    } else {
        b.is_ascii_digit()
    }
}

// Returns the value of a digit.
fn digit_value(b: u8) -> u8
    ensures { result ≡ value_of_digit b }
{
    if b.is_ascii_digit() {
        return b.saturating_sub(48);
    }
    if b < b'a' {
        b.saturating_sub(55)
    } else {
        b.saturating_sub(87)
    }
}

// Returns the number that digits before `;` spell, or 0.
fn number_in(base: usize, text: &[u8]) -> usize
    requires { base ≤ 16 }
    ensures { result ≡ number_from base 0 text.now }
{
    let mut value = 0;
    let mut rest = text;
    while let Some((first, tail)) = rest.split_first() {
        if *first == b';' {
            return value;
        }
        if value > 126 || !is_digit_of(base, *first) {
            return 0;
        }
        value = value * base + digit_value(*first) as usize;
        rest = tail;
    }
    0
}

// Returns the number of the reference that begins the text, or 0.
fn referred_number(text: &[u8]) -> usize
    ensures { result ≡ number_referred text.now }
{
    if text.starts_with(b"&#x") {
        return number_in(16, items_after(text, 3));
    }
    if text.starts_with(b"&#") {
        return number_in(10, items_after(text, 2));
    }
    0
}

// Returns the byte of that number, if it is %x20-7E, or 0.
fn printed_byte(number: usize) -> u8
    ensures { result ≡ byte_printed number }
{
    if number < 32 || number > 126 {
        return 0;
    }
    number as u8
}

// Returns the byte of the reference that begins the text, or 0.
pub(crate) fn referred_byte(text: &[u8]) -> u8
    ensures { result ≡ byte_referred text.now }
{
    if text.starts_with(b"&lt;") {
        return b'<';
    }
    if text.starts_with(b"&gt;") {
        return b'>';
    }
    if text.starts_with(b"&amp;") {
        return b'&';
    }
    if text.starts_with(b"&quot;") {
        return b'"';
    }
    if text.starts_with(b"&apos;") {
        return b'\'';
    }
    printed_byte(referred_number(text))
}

//! Where tokens and white space end.
ghost use Rattle.std.specs.Prelude.{◌≡◌, ◌≢◌, ℕ, ◌<◌, ◌≤◌, ◌==◌, ◌||◌, true, false, List, ◌∷◌, length, MatchOption};
ghost use Rattle.std.specs.Char.{is_ascii_alphabetic, digit_value};
ghost use Rattle.abnfread.specs.ByteClasses.{test_of};
ghost use Rattle.abnfread.specs.BaseDigits.{is_digit as is_digit_in, NamesBase};
ghost use Rattle.abnfread.specs.AbnfSlices.{is_blank, is_case as is_case_letter, Run, Stops, Digits, Dotted};
ghost use Rattle.abnfread.specs.AbnfSlices.{Numbers, Count, Piece, White, Stands, First};
ghost use Rattle.lexer.specs.SliceEnds.{NoPiece, NoToken, Longest};

use crate::kind::AbnfKind;
use lexer::after_byte;

/// Bytes that stand together.
#[derive(Clone, Copy)]
pub(crate) enum Class {
    /// Bytes that continue a name.
    Inner,
    /// Bytes that may stand in quotes.
    Quotable,
    /// Bytes that may stand in angle brackets.
    Prose,
    /// Bytes of a comment.
    Inside,
    /// Digits of that base.
    Digit(u8),
}

// The number that a byte says as a digit.
pub(crate) fn digit(b: u8) -> u8
    ensures { result ≡ digit_value b }
{
    if b.is_ascii_digit() {
        b - b'0'
    } else if b.is_ascii_uppercase() {
        b - 55
    } else if b.is_ascii_lowercase() {
        b - 87
    } else {
        36
    }
}

pub(crate) fn is_in(class: Class, b: u8) -> bool
    ensures { result ≡ test_of class b }
{
    match class {
        Class::Inner => b.is_ascii_alphanumeric() || b == b'-',
        Class::Quotable => 32 <= b && b <= 126 && b != b'"',
        Class::Prose => 32 <= b && b <= 126 && b != b'>',
        Class::Inside => b != b'\n',
        Class::Digit(base) => digit(b) < base,
    }
}

// Returns the text after the bytes of a class.
pub(crate) fn after_run(class: Class, text: &[u8]) -> &[u8]
    ensures run { Run (test_of class) text.now result.now }
    ensures all { Stops (test_of class) result.now }
{
    let mut rest = text;
    while let Some((first, tail)) = rest.split_first() {
        if !is_in(class, *first) {
            break;
        }
        rest = tail;
    }
    rest
}

// Returns the text after bytes of a class and a mark of another.
fn after_closed(class: Class, mark: u8, text: &[u8]) -> Option<&[u8]>
    requires { test_of class mark ≡ false }
    ensures { MatchOption result ((r : List ℕ) → Run (test_of class) text.now (mark ∷ r) → ⊥)
        (λ rest. Run (test_of class) text.now (mark ∷ rest.now)) }
{
    let end = after_run(class, text);
    match after_byte(end, mark) {
        Some(rest) => Some(rest),
        None => None,
    }
}

// Returns the text after the digits.
fn after_digits(base: u8, text: &[u8]) -> Option<&[u8]>
    ensures { MatchOption result ((r : List ℕ) → Digits base text.now r → ⊥)
        (λ rest. Digits base text.now rest.now × Stops (is_digit_in base) rest.now) }
{
    let (first, tail) = text.split_first()?;
    if is_in(Class::Digit(base), *first) {
        Some(after_run(Class::Digit(base), tail))
    } else {
        None
    }
}

// Returns the text after dots and digits.
fn after_dotted(base: u8, text: &[u8]) -> &[u8]
    requires { base ≤ 36 }
    ensures dotted { Dotted base text.now result.now }
    ensures longest { (s : List ℕ) → Dotted base text.now s → length result.now ≤ length s }
{
    let mut rest = text;
    while let Some(tail) = after_byte(rest, b'.') {
        match after_digits(base, tail) {
            Some(more) => rest = more,
            None => break,
        }
    }
    rest
}

// Returns the text after numbers of a base.
fn after_numbers(base: u8, text: &[u8]) -> Option<&[u8]>
    requires { base ≤ 36 }
    ensures { MatchOption result ((r : List ℕ) → Numbers base text.now r → ⊥)
        (λ rest. Numbers base text.now rest.now × ((s : List ℕ) → Numbers base text.now s
        → length rest.now ≤ length s)) }
{
    let rest = after_digits(base, text)?;
    match after_byte(rest, b'-') {
        Some(tail) => match after_digits(base, tail) {
            Some(end) => Some(end),
            None => Some(rest),
        },
        None => Some(after_dotted(base, rest)),
    }
}

// Returns the text after the rest of a number, and of a star and a number.
fn after_count(text: &[u8]) -> &[u8]
    ensures count { Count text.now result.now }
    ensures longest { (s : List ℕ) → Count text.now s → length result.now ≤ length s }
{
    let rest = after_run(Class::Digit(10), text);
    match after_byte(rest, b'*') {
        Some(tail) => after_run(Class::Digit(10), tail),
        None => rest,
    }
}

fn is_white(b: u8) -> bool
    ensures { result ≡ is_blank b }
{
    b == b' ' || b == b'\t' || b == b'\n'
}

// Returns the text after one piece of white space.
fn after_piece(text: &[u8]) -> Option<&[u8]>
    ensures { MatchOption result (NoPiece Piece text.now)
        (λ rest. Piece text.now rest.now × (length rest.now < length text.now)) }
{
    let (first, tail) = text.split_first()?;
    if is_white(*first) {
        Some(tail)
    } else if *first == b'\r' {
        match after_byte(tail, b'\n') {
            Some(rest) => Some(rest),
            None => None,
        }
    } else if *first == b';' {
        Some(after_run(Class::Inside, tail))
    } else {
        None
    }
}

// Returns the text after the white space.
pub(crate) fn after_blanks(text: &[u8]) -> &[u8]
    ensures white { White text.now result.now }
    ensures all { NoPiece Piece result.now }
{
    let mut rest = text;
    while let Some(more) = after_piece(rest) {
        rest = more;
    }
    rest
}

// Returns the base that a letter names.
pub(crate) fn base_of(c: u8) -> Option<u8>
    ensures { MatchOption result ((base : ℕ) → NamesBase c base → ⊥)
        (λ base. NamesBase c base × (2 ≤ base) × (base ≤ 36)) }
{
    match c {
        b'b' | b'B' => Some(2),
        b'd' | b'D' => Some(10),
        b'x' | b'X' => Some(16),
        _ => None,
    }
}

fn is_case(c: u8) -> bool
    ensures { result ≡ is_case_letter c }
{
    c == b's' || c == b'S' || c == b'i' || c == b'I'
}

// Returns the token that a `=` begins: its kind, and what follows it.
fn equals_token(tail: &[u8]) -> (AbnfKind, &[u8])
    ensures { Longest Stands result.0 (61 ∷ tail.now) result.1.now }
{
    match after_byte(tail, b'/') {
        Some(rest) => (AbnfKind::Adds, rest),
        None => (AbnfKind::Is, tail),
    }
}

/// Scans a text with a case mark (RFC 7405). `tail` follows `%s` or `%i`; either mark gives the same kind, so the mark
/// is no parameter. Returns the kind and what follows the text. `None` if no text in quotes begins the tail.
fn cased_token(tail: &[u8]) -> Option<(AbnfKind, &[u8])>
    ensures { (c : ℕ) → is_case_letter c ≡ true → MatchOption result (NoToken Stands (37 ∷ c ∷ tail.now))
        (λ token. Longest Stands token.0 (37 ∷ c ∷ tail.now) token.1.now) }
{
    let quoted = after_byte(tail, b'"')?;
    let rest = after_closed(Class::Quotable, b'"', quoted)?;
    Some((AbnfKind::Text, rest))
}

// Returns the token of numbers after `%` and a letter.
fn based_token(c: u8, tail: &[u8]) -> Option<(AbnfKind, &[u8])>
    requires { is_case_letter c ≡ false }
    ensures { MatchOption result (NoToken Stands (37 ∷ c ∷ tail.now))
        (λ token. Longest Stands token.0 (37 ∷ c ∷ tail.now) token.1.now) }
{
    let base = base_of(c)?;
    let rest = after_numbers(base, tail)?;
    Some((AbnfKind::Num, rest))
}

// The token that a `%` begins.
fn percent_token(tail: &[u8]) -> Option<(AbnfKind, &[u8])>
    ensures { MatchOption result (NoToken Stands (37 ∷ tail.now))
        (λ token. Longest Stands token.0 (37 ∷ tail.now) token.1.now) }
{
    let (c, after) = tail.split_first()?;
    if is_case(*c) {
        cased_token(after)
    } else {
        based_token(*c, after)
    }
}

// The token that a mark begins.
fn marked_token(first: u8, tail: &[u8]) -> Option<(AbnfKind, &[u8])>
    requires letter { is_ascii_alphabetic first ≡ false }
    requires digit { is_digit_in 10 first ≡ false }
    ensures { MatchOption result (NoToken Stands (first ∷ tail.now))
        (λ token. Longest Stands token.0 (first ∷ tail.now) token.1.now) }
{
    match first {
        b'=' => Some(equals_token(tail)),
        b'*' => Some((AbnfKind::Repeat, after_run(Class::Digit(10), tail))),
        b'"' => Some((AbnfKind::Text, after_closed(Class::Quotable, b'"', tail)?)),
        b'<' => Some((AbnfKind::Prose, after_closed(Class::Prose, b'>', tail)?)),
        b'%' => percent_token(tail),
        b'/' => Some((AbnfKind::Slash, tail)),
        b'(' => Some((AbnfKind::LParen, tail)),
        b')' => Some((AbnfKind::RParen, tail)),
        b'[' => Some((AbnfKind::LBrack, tail)),
        b']' => Some((AbnfKind::RBrack, tail)),
        _ => None,
    }
}

// The longest token that begins a text.
fn token_at(first: u8, tail: &[u8]) -> Option<(AbnfKind, &[u8])>
    ensures { MatchOption result (NoToken Stands (first ∷ tail.now))
        (λ token. Longest Stands token.0 (first ∷ tail.now) token.1.now) }
{
    if first.is_ascii_alphabetic() {
        Some((AbnfKind::Name, after_run(Class::Inner, tail)))
    } else if is_in(Class::Digit(10), first) {
        Some((AbnfKind::Repeat, after_count(tail)))
    } else {
        marked_token(first, tail)
    }
}

// Returns the first token of a text that no white space begins: its kind, and what follows it.
pub(crate) fn first_of(text: &[u8]) -> (AbnfKind, &[u8])
    requires { NoPiece Piece text.now }
    ensures { First result.0 text.now result.1.now }
{
    let Some((first, tail)) = text.split_first() else {
        return (AbnfKind::End, text);
    };
    match token_at(*first, tail) {
        Some(token) => token,
        None => (AbnfKind::Bad, &text[text.len()..]),
    }
}

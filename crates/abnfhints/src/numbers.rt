//! The numbers of ranges and repetitions.
ghost use Rattle.std.specs.Prelude.{◌≡◌, ◌↔◌, ℕ, ◌<◌, ◌≤◌, ◌∷◌, ◌++◌, [], List, length, false, IsTrue, MatchOption};
ghost use Rattle.std.specs.Char.{digit_value};
ghost use Rattle.std.specs.Str.Parse.{AllDigits, digits_value};
ghost use Rattle.abnfhints.specs.AbnfHints.{IsReversed, IsReversedRepeat};
ghost use Rattle.abnfread.specs.AbnfSlices.{Run, Stops, Digits};
ghost use Rattle.abnfread.specs.BaseDigits.{is_digit as is_digit_in, NamesBase};
ghost use Rattle.lexer.specs.SliceEnds.{Lacks};

use lexer::after_byte;

// Returns the number that a byte says as a digit.
fn digit(b: u8) -> u8
    ensures { result ≡ digit_value b }
{
    if b.is_ascii_digit() {
        b - b'0'
    } else if b.is_ascii_uppercase() {
        b - 55
    } else if b.is_ascii_lowercase() {
        b - 87
    } else {
        36
    }
}

// Returns the base that a letter gives.
fn base_of(letter: u8) -> Option<u8>
    ensures { MatchOption result ((base : ℕ) → NamesBase letter base → ⊥)
        (λ base. NamesBase letter base × (2 ≤ base) × (base ≤ 36)) }
{
    match letter {
        b'b' | b'B' => Some(2),
        b'd' | b'D' => Some(10),
        b'x' | b'X' => Some(16),
        _ => None,
    }
}

// Returns the base of a number, and what stands after the letter that gives it.
fn after_base(text: &[u8]) -> Option<(u8, &[u8])>
    ensures { MatchOption result ((base c : ℕ) (t : List ℕ) → text.now ≡ 37 ∷ c ∷ t → NamesBase c base → ⊥)
        (λ r. (c : ℕ) × (text.now ≡ 37 ∷ c ∷ r.1.now) × NamesBase c r.0 × (2 ≤ r.0) × (r.0 ≤ 36)) }
{
    let after = after_byte(text, b'%')?;
    let (letter, digits) = after.split_first()?;
    let base = base_of(*letter)?;
    Some((base, digits))
}

// Returns the text after the digits that begin it.
fn after_digits(base: u8, text: &[u8]) -> &[u8]
    ensures run { Run (is_digit_in base) text.now result.now }
    ensures all { Stops (is_digit_in base) result.now }
{
    let mut rest = text;
    while let Some((first, tail)) = rest.split_first() {
        if digit(*first) >= base {
            break;
        }
        rest = tail;
    }
    rest
}

// Returns whether a text is made of digits.
fn are_digits(base: u8, text: &[u8]) -> bool
    ensures { IsTrue result ↔ Digits base text.now [] }
{
    !text.is_empty() && after_digits(base, text).is_empty()
}

// Returns the digits before a mark and those after it.
fn ends_of(base: u8, mark: u8, digits: &[u8]) -> Option<(&[u8], &[u8])>
    requires { is_digit_in base mark ≡ false }
    ensures { MatchOption result ((ds es : List ℕ) → digits.now ≡ ds ++ mark ∷ es → Digits base ds []
        → Digits base es [] → ⊥)
        (λ r. (digits.now ≡ r.0.now ++ mark ∷ r.1.now) × Digits base r.0.now [] × Digits base r.1.now []) }
{
    let rest = after_digits(base, digits);
    let Some(high) = after_byte(rest, mark) else {
        return None;
    };
    let low = &digits[..digits.len() - rest.len()];
    if are_digits(base, low) && are_digits(base, high) {
        Some((low, high))
    } else {
        None
    }
}

// Returns the digits from the first one that is not `0`.
fn without_zeros(digits: &[u8]) -> &[u8]
    ensures value { (base : ℕ) → digits_value base result.now ≡ digits_value base digits.now }
    ensures digits { (base : ℕ) → AllDigits base digits.now → AllDigits base result.now }
    ensures first { Lacks 48 result.now }
{
    let mut rest = digits;
    while let Some(tail) = after_byte(rest, b'0') {
        rest = tail;
    }
    rest
}

// Returns whether the first of two numbers is the greater, given as many digits of each.
fn is_above_by_digits(low: &[u8], high: &[u8]) -> bool
    requires { length low.now ≡ length high.now }
    ensures { (base : ℕ) → AllDigits base low.now → AllDigits base high.now
        → (IsTrue result ↔ (digits_value base high.now < digits_value base low.now)) }
{
    for (i, first) in low.iter().enumerate() {
        let low = digit(*first);
        let high = digit(high[i]);
        if low != high {
            return high < low;
        }
    }
    false
}

// Returns whether the first of two numbers is the greater, given their digits.
fn is_above(low: &[u8], high: &[u8]) -> bool
    ensures { (base : ℕ) → 1 ≤ base → AllDigits base low.now → AllDigits base high.now
        → (IsTrue result ↔ (digits_value base high.now < digits_value base low.now)) }
{
    let low = without_zeros(low);
    let high = without_zeros(high);
    if low.len() == high.len() {
        is_above_by_digits(low, high)
    } else {
        high.len() < low.len()
    }
}

/// Returns whether the token of a repetition gives a number and a smaller one after it.
pub(crate) fn is_reversed_repeat(text: &[u8]) -> bool
    ensures { IsTrue result ↔ IsReversedRepeat text.now }
{
    match ends_of(10, b'*', text) {
        Some((least, most)) => is_above(least, most),
        None => false,
    }
}

/// Returns whether the token of a number gives a reversed range.
pub(crate) fn is_reversed(text: &[u8]) -> bool
    ensures { IsTrue result ↔ IsReversed text.now }
{
    let Some((base, digits)) = after_base(text) else {
        return false;
    };
    match ends_of(base, b'-', digits) {
        Some((low, high)) => is_above(low, high),
        None => false,
    }
}

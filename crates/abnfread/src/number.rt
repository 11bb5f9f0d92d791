//! Values of digits.
ghost use Rattle.std.specs.Prelude.{◌≡◌, ℕ, ◌<◌, ◌≤◌, ◌++◌, ◌∷◌, [], Option, List, All, MatchOption, MatchResult};
ghost use Rattle.std.specs.Str.Parse.{digits_value};
ghost use Rattle.abnfread.specs.BaseDigits.{is_digit as is_digit_in};
ghost use Rattle.abnfread.specs.Numerals.{SaysRepeat, IsWithin, Listed};
ghost use Rattle.abnfread.specs.AbnfSlices.{Run, Stops};

use crate::scan::{Class, after_run, digit};
use lexer::after_byte;
use std::alloc::{AllocError, AllocFailed, Global};

/// The largest number of a repetition.
pub const MAX_REPEAT: u32 = 4294967295;

/// The largest value of a terminal.
pub const MAX_VALUE: u32 = 4294967295;

/// Why no number is given.
#[derive(Clone, Copy)]
pub(crate) enum NumberFault {
    /// One is over the limit.
    TooLarge,
    /// An allocation failed.
    Memory,
}

impl From<AllocError> for NumberFault {
    ghost use Rattle.abnfread.specs.declared.number.NumberFault.TheVariants.{Memory};

    ghost from_gives = { λ _ e. e ≡ Memory };

    fn from(_: AllocError) -> Self {
        NumberFault::Memory
    }
}

impl<T: Drop> From<AllocFailed<T>> for NumberFault {
    ghost use Rattle.abnfread.specs.declared.number.NumberFault.TheVariants.{Memory};

    ghost from_gives = { λ _ e. e ≡ Memory };

    fn from(_: AllocFailed<T>) -> Self {
        NumberFault::Memory
    }
}

// The number that the digits say, if it is at most the limit.
pub(crate) fn number_in(base: u8, limit: u32, digits: &[u8]) -> Option<u32>
    requires least { 2 ≤ base }
    requires most { base ≤ 36 }
    ensures { MatchOption result (limit < digits_value base digits.now)
        (λ n. (n ≡ digits_value base digits.now) × (n ≤ limit)) }
{
    let mut number: u64 = 0;
    let mut rest = digits;
    while let Some((first, tail)) = rest.split_first() {
        number = number * u64::from(base) + u64::from(digit(*first));
        if number > u64::from(limit) {
            return None;
        }
        rest = tail;
    }
    Some(number as u32)
}

// Returns the digits that begin a text, and what follows them.
pub(crate) fn split_digits(base: u8, text: &[u8]) -> (&[u8], &[u8])
    ensures cut { text.now ≡ result.0.now ++ result.1.now }
    ensures digits { Run (is_digit_in base) result.0.now [] }
    ensures all { Stops (is_digit_in base) result.1.now }
{
    let rest = after_run(Class::Digit(base), text);
    (&text[..text.len() - rest.len()], rest)
}

// The least and the most that a repeat says.
pub(crate) fn read_repeat(limit: u32, slice: &[u8]) -> Result<(u32, Option<u32>), NumberFault>
    ensures { (a : ℕ) (b : Option ℕ) → SaysRepeat slice.now a b
        → MatchResult result (λ r. (r.0 ≡ a) × (r.1 ≡ b) × IsWithin limit a b)
        (λ f. (f ≡ NumberFault.TooLarge) × (IsWithin limit a b → ⊥)) }
{
    let (front, rest) = split_digits(10, slice);
    let Some(least) = number_in(10, limit, front) else {
        return Err(NumberFault::TooLarge);
    };
    let Some(after) = after_byte(rest, b'*') else {
        return Ok((least, Some(least)));
    };
    if after.is_empty() {
        return Ok((least, None));
    }
    match number_in(10, limit, after) {
        Some(most) => Ok((least, Some(most))),
        None => Err(NumberFault::TooLarge),
    }
}

// The numbers between dots.
pub(crate) fn read_values(
    alloc: Global,
    base: u8,
    limit: u32,
    text: &[u8],
) -> Result<Vec<u32>, NumberFault>
    requires least { 2 ≤ base }
    requires most { base ≤ 36 }
    ensures { (vs : List ℕ) → Listed base text.now vs
        → MatchResult result (λ r. (r.items ≡ vs) × All (λ v. v ≤ limit) vs)
        (λ f. f ≡ NumberFault.TooLarge → All (λ v. v ≤ limit) vs → ⊥) }
{
    let mut values = Vec::new(alloc);
    let mut left = Some(text);
    while let Some(text) = left {
        let (front, rest) = split_digits(base, text);
        match number_in(base, limit, front) {
            Some(value) => values.push(value)?,
            None => return Err(NumberFault::TooLarge),
        }
        left = after_byte(rest, b'.');
    }
    Ok(values)
}

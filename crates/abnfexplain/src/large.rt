//! Numbers over their limit.
ghost use Rattle.std.specs.Prelude.{◌≡◌, ◌≤◌, MatchBool};
ghost use Rattle.std.specs.Char.{digit_value};
ghost use Rattle.abnfread.specs.AbnfSays.{SaysKind, IsSmall};
ghost use Rattle.abnfread.specs.AbnfWords.{Said};
ghost use Rattle.abnfexplain.specs.LargeRuns.{runs_over, base_reported, over_after};

use abnfread::{AbnfKind, MAX_VALUE};
use lexer::{Token, after_byte};

fn digit(b: u8) -> u8
    ensures { result ≡ digit_value b }
{
    if b.is_ascii_digit() {
        b - b'0'
    } else if b.is_ascii_uppercase() {
        b - 55
    } else if b.is_ascii_lowercase() {
        b - 87
    } else {
        36
    }
}

// The base that the letter gives.
fn base_of(letter: u8) -> u8
    ensures { result ≡ base_reported letter }
{
    match letter {
        b'b' | b'B' => 2,
        b'd' | b'D' => 10,
        _ => 16,
    }
}

// Whether a run of digits is a number over the limit.
fn has_large_run(base: u8, text: &[u8]) -> bool
    requires { base ≤ 36 }
    ensures { result ≡ runs_over base 0 text.now }
{
    let mut number: u64 = 0;
    for b in text {
        let value = digit(*b);
        if value < base {
            number = number * u64::from(base) + u64::from(value);
            if number > u64::from(MAX_VALUE) {
                return true;
            }
        } else {
            number = 0;
        }
    }
    false
}

// Whether a number after `%` is over the limit.
fn has_large_value(slice: &[u8]) -> bool
    ensures { result ≡ over_after slice.now }
{
    let Some(after) = after_byte(slice, b'%') else {
        return false;
    };
    match after.split_first() {
        Some((letter, digits)) => has_large_run(base_of(*letter), digits),
        None => false,
    }
}

/// Returns whether a number of the token is over its limit.
pub(crate) fn is_large(token: Token<'_, AbnfKind>) -> bool
    ensures { (s : Said) → SaysKind token.entry.kind token.entry.slice.now token.entry.span s
        → MatchBool result (IsSmall s → ⊥) (IsSmall s) }
{
    match token.kind {
        AbnfKind::Repeat => has_large_run(10, token.slice),
        AbnfKind::Num => has_large_value(token.slice),
        _ => false,
    }
}

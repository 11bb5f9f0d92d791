//! The words that tokens stand for.
ghost use Rattle.std.specs.Prelude.{◌≡◌, ◌≢◌, ℕ, ◌≤◌, ◌||◌, ◌==◌, Bool, true, List, ◌∷◌, ◌++◌, [], None, Ok};
ghost use Rattle.std.specs.Prelude.{MatchResult};
ghost use Rattle.abnfread.specs.declared.kind.AbnfKind.TheVariants.{Bad};
ghost use Rattle.abnfread.specs.AbnfReader.{said_of, Gives};
ghost use Rattle.abnfread.specs.AbnfSays.{SaysKind, IsSmall};
ghost use Rattle.abnfread.specs.AbnfSlices.{is_case};
ghost use Rattle.abnfread.specs.AbnfWords as words;
ghost use Rattle.abnfread.specs.BaseDigits.{NamesBase};
ghost use Rattle.abnfread.specs.Numerals.{SaysNum};

use crate::kind::AbnfKind;
use crate::number::{
    MAX_REPEAT, MAX_VALUE, NumberFault, number_in, read_repeat, read_values, split_digits,
};
use crate::scan::base_of;
use lexer::{Token, after_byte, inside};
use ruletable::Span;
use std::alloc::Global;

/// A token as far as a grammar goes: its kind, with a name and where it stands, or with numbers or texts.
#[derive(Drop)]
pub(crate) enum Said<'a> {
    Name(&'a [u8], Span),
    Is,
    Adds,
    Slash,
    LParen,
    RParen,
    LBrack,
    RBrack,
    Repeat(u32, Option<u32>),
    Text { folds: bool, text: &'a [u8] },
    Values(Vec<u32>),
    Range(u32, u32),
    Prose(&'a [u8]),
    End,
}

/// Reads the word that a token stands for; `None` for `Bad`, which stands for none.
///
/// # Errors
/// - `TooLarge` for a number over its limit.
/// - `Memory` if an allocation fails.
pub(crate) fn said_in<'a>(
    alloc: Global,
    token: Token<'a, AbnfKind>,
) -> Result<Option<Said<'a>>, NumberFault>
    ensures says { (s : words.Said) → SaysKind token.entry.kind token.entry.slice.now token.entry.span s
        → Gives s result }
    ensures bad { token.entry.kind ≡ Bad → result ≡ Ok None }
{
    match token.kind {
        AbnfKind::Name => Ok(Some(Said::Name(token.slice, token.span))),
        AbnfKind::Is => Ok(Some(Said::Is)),
        AbnfKind::Adds => Ok(Some(Said::Adds)),
        AbnfKind::Slash => Ok(Some(Said::Slash)),
        AbnfKind::LParen => Ok(Some(Said::LParen)),
        AbnfKind::RParen => Ok(Some(Said::RParen)),
        AbnfKind::LBrack => Ok(Some(Said::LBrack)),
        AbnfKind::RBrack => Ok(Some(Said::RBrack)),
        AbnfKind::Repeat => {
            let (least, most) = read_repeat(MAX_REPEAT, token.slice)?;
            Ok(Some(Said::Repeat(least, most)))
        }
        AbnfKind::Text => {
            let (folds, text) = quoted(token.slice);
            Ok(Some(Said::Text { folds, text }))
        }
        AbnfKind::Num => Ok(Some(said_number(alloc, token.slice)?)),
        AbnfKind::Prose => Ok(Some(Said::Prose(inside(token.slice)))),
        AbnfKind::Bad => Ok(None),
        AbnfKind::End => Ok(Some(Said::End)),
    }
}

// Whether the letters of a text stand for either case, and what stands in its quotes.
fn quoted(slice: &[u8]) -> (bool, &[u8])
    ensures plain { (text : List ℕ) → slice.now ≡ 34 ∷ (text ++ 34 ∷ []) → (result.0 ≡ true) × (result.1.now ≡ text) }
    ensures cased { (c : ℕ) (text : List ℕ) → slice.now ≡ 37 ∷ c ∷ 34 ∷ (text ++ 34 ∷ [])
        → (result.0 ≡ ((c == 105) || (c == 73))) × (result.1.now ≡ text) }
{
    let Some(after) = after_byte(slice, b'%') else {
        return (true, inside(slice));
    };
    match after.split_first() {
        Some((c, text)) => (*c == b'i' || *c == b'I', inside(text)),
        None => (true, after),
    }
}

// Returns the base of a number, and what follows the letter that names it.
fn split_base(slice: &[u8]) -> (u8, &[u8])
    ensures reported { (base c : ℕ) (text : List ℕ) → slice.now ≡ 37 ∷ c ∷ text → NamesBase c base → (result.0 ≡ base)
        × (result.1.now ≡ text) }
    ensures least { 2 ≤ result.0 }
    ensures most { result.0 ≤ 36 }
{
    let Some(after) = after_byte(slice, b'%') else {
        return (10, slice);
    };
    let Some((c, text)) = after.split_first() else {
        return (10, slice);
    };
    match base_of(*c) {
        Some(base) => (base, text),
        None => (10, slice),
    }
}

// The values of a number, or its range.
fn said_number(alloc: Global, slice: &[u8]) -> Result<Said<'_>, NumberFault>
    ensures { (s : words.Said) → SaysNum slice.now s → MatchResult result (λ w. (said_of w ≡ s) × IsSmall s)
        (λ f. f ≡ NumberFault.TooLarge → IsSmall s → ⊥) }
{
    let (base, digits) = split_base(slice);
    let (front, rest) = split_digits(base, digits);
    let Some(after) = after_byte(rest, b'-') else {
        return match read_values(alloc, base, MAX_VALUE, digits) {
            Ok(values) => Ok(Said::Values(values)),
            Err(fault) => Err(fault),
        };
    };
    let Some(low) = number_in(base, MAX_VALUE, front) else {
        return Err(NumberFault::TooLarge);
    };
    match number_in(base, MAX_VALUE, after) {
        Some(high) => Ok(Said::Range(low, high)),
        None => Err(NumberFault::TooLarge),
    }
}

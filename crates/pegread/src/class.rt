//! The sets of classes.
ghost use Rattle.std.specs.Prelude.{◌≡◌, ◌≢◌, ℕ, false, [], ◌∷◌, length, get_or, MatchOption};
ghost use Rattle.pegread.specs.Chars.{Paired};
ghost use Rattle.pegread.specs.Classes.{IsClass, Item, SpellsItems, SpellsSet};

use crate::escape::next_char;
use lexer::{after_byte, inside};
use ruletable::ByteSet;

/// Returns the set of bytes that a class's slice spells: that of its items, or after a `^` that directly follows the
/// bracket, of all other bytes. The slice must be one of a class token.
pub fn class_set(slice: &[u8]) -> ByteSet
    requires { IsClass slice.now }
    ensures { SpellsSet slice.now (λ b. get_or result b false) }
{
    let text = inside(slice);
    match after_byte(text, b'^') {
        Some(items) => items_set(items).complement(),
        None => items_set(text),
    }
}

// Returns the set of the items that a text spells, one after the other.
fn items_set(text: &[u8]) -> ByteSet
    requires { Paired text.now }
    ensures items { SpellsItems text.now (λ b. get_or result b false) }
    ensures count { length result ≡ 256 }
{
    let mut set = ByteSet::new();
    let mut rest = text;
    while let Some(item) = next_item(rest) {
        set.add_range(item.first, item.last);
        rest = item.after;
    }
    set
}

/// An item of a class: a byte or a range.
#[derive(Clone, Copy)]
struct ClassItem<'a> {
    /// The first byte of the range.
    first: u8,
    /// The last byte of the range.
    last: u8,
    /// The rest of the class after the item.
    after: &'a [u8],
}

// The item at the front of a text.
fn next_item(text: &[u8]) -> Option<ClassItem<'_>>
    requires { Paired text.now }
    ensures { MatchOption result (text.now ≡ []) (λ x. Item text.now x.after.now x.first x.last) }
{
    let (first, rest) = next_char(text)?;
    match after_byte(rest, b'-') {
        // a `-` that ends the class is a character
        Some(end) if !end.is_empty() => {
            let (last, after) = next_char(end)?;
            Some(ClassItem { first, last, after })
        }
        _ => Some(ClassItem {
            first,
            last: first,
            after: rest,
        }),
    }
}

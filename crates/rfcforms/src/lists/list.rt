//! A list in a text.
ghost use Rattle.std.specs.Prelude.{◌≡◌, option_map};
ghost use Rattle.rfcforms.specs.Lists.{counts_fit as fits, begins_sign, list_at as list_there, list_found};
ghost use Rattle.rfcforms.specs.Lists.{from_element as element_from};

use crate::lists::element::ElementSearch;
use crate::lists::number::{are_digits, count_in, digit_count};
use crate::parts::{items_after, items_before};

/// A list.
#[derive(Clone, Copy)]
pub(crate) struct ListPart<'a> {
    /// The least count of its elements.
    pub(crate) least: usize,
    /// The greatest count, if there is one.
    pub(crate) most: Option<usize>,
    /// The element.
    pub(crate) element: &'a [u8],
    /// What follows the list.
    pub(crate) rest: &'a [u8],
}

// Whether a list can have these counts.
fn counts_fit(least: usize, most: Option<usize>) -> bool
    ensures { result ≡ fits least most }
{
    match most {
        Some(most) => most > 0 && least <= most,
        None => true,
    }
}

// Whether the text begins with `#`.
fn is_sign(text: &[u8]) -> bool
    ensures { result ≡ begins_sign text.now }
{
    match text.first() {
        Some(b) => *b == b'#',
        None => false,
    }
}

/// Returns a text from the element on of the list whose `#` stands at that position.
pub(crate) fn from_element(text: &[u8], position: usize) -> &[u8]
    ensures { result.now ≡ element_from text.now position }
{
    let after = items_after(items_after(text, position), 1);
    items_after(after, digit_count(after))
}

/// Returns the list whose `#` stands at that position of a text; its least count stands from `count` on. The search is
/// that for the element after the greatest count.
pub(crate) fn list_at(
    text: &[u8],
    count: usize,
    position: usize,
    search: ElementSearch,
) -> Option<ListPart<'_>>
    ensures { option_map list_found result ≡ list_there text.now count position search }
{
    let ElementSearch::Ends(size) = search else {
        return None;
    };
    let sign = items_after(text, position);
    let counted = items_after(items_before(text, position), count);
    let after = items_after(sign, 1);
    let digits = digit_count(after);
    let least = count_in(counted).unwrap_or(0);
    let most = count_in(items_before(after, digits));
    let rest = from_element(text, position);
    if !is_sign(sign) || !are_digits(counted) || !counts_fit(least, most) {
        return None;
    }
    Some(ListPart {
        least,
        most,
        element: items_before(rest, size),
        rest: items_after(rest, size),
    })
}

//! Elements that are the same but for case.
ghost use Rattle.std.specs.Prelude.{◌≡◌};
ghost use Rattle.abnfread.specs.AbnfViews.{element_of, elements_of};
ghost use Rattle.abnfread.specs.Element as element;
ghost use Rattle.abnftexts.specs.SameElements.{same_as, all_same};

use crate::join::leaves::{has_values, is_name, is_prose, is_range, is_same_bound, is_text};
use abnfread::Elem;

/// Returns whether two elements are the same: names but for the case of letters, texts that fold likewise, and all else
/// as it is. If `named` is true, a name in the second is the same as a prose of that name in the first. It takes no
/// memory, and recurses no deeper than the elements.
#[cycle(comparing)]
pub fn is_same_element(named: bool, a: &Elem, b: &Elem) -> bool
    ensures { result ≡ same_as named (element_of a.now) (element_of b.now) }
{
    match a {
        Elem::Text { folds, text } => is_text(*folds, text, b),
        Elem::Values(values) => has_values(values, b),
        Elem::Range { low, high } => is_range(*low, *high, b),
        Elem::Concat(members) => is_concat(named, members, b),
        Elem::Alt(alternatives) => is_alt(named, alternatives, b),
        Elem::Rep {
            least,
            most,
            operand,
        } => is_rep(named, *least, *most, operand, b),
        Elem::Opt(operand) => is_opt(named, operand, b),
        Elem::Name(name) => is_name(name, b),
        Elem::Prose(text) => is_prose(named, text, b),
    }
}

// Whether an element is the concatenation of these.
#[cycle(comparing)]
fn is_concat(named: bool, members: &[Elem], e: &Elem) -> bool
    ensures { result ≡ same_as named (element.Concat (elements_of members.now)) (element_of e.now) }
{
    match e {
        Elem::Concat(others) => are_same(named, members, others),
        _ => false,
    }
}

// Whether an element is the alternation of these.
#[cycle(comparing)]
fn is_alt(named: bool, alternatives: &[Elem], e: &Elem) -> bool
    ensures { result ≡ same_as named (element.Alt (elements_of alternatives.now)) (element_of e.now) }
{
    match e {
        Elem::Alt(others) => are_same(named, alternatives, others),
        _ => false,
    }
}

// Whether an element is that repetition.
#[cycle(comparing)]
fn is_rep(named: bool, least: u32, most: Option<u32>, operand: &Elem, e: &Elem) -> bool
    ensures { result ≡ same_as named (element.Rep least most (element_of operand.now)) (element_of e.now) }
{
    match e {
        Elem::Rep {
            least: other_least,
            most: other_most,
            operand: other,
        } => {
            least == *other_least
                && is_same_bound(most, *other_most)
                && is_same_element(named, operand, other)
        }
        _ => false,
    }
}

// Whether an element is the option of that one.
#[cycle(comparing)]
fn is_opt(named: bool, operand: &Elem, e: &Elem) -> bool
    ensures { result ≡ same_as named (element.Opt (element_of operand.now)) (element_of e.now) }
{
    match e {
        Elem::Opt(other) => is_same_element(named, operand, other),
        _ => false,
    }
}

// Whether these are the same elements in the same order.
#[cycle(comparing)]
fn are_same(named: bool, a: &[Elem], b: &[Elem]) -> bool
    ensures { result ≡ all_same named (elements_of a.now) (elements_of b.now) }
{
    if a.len() != b.len() {
        return false;
    }
    for (i, e) in a.iter().enumerate() {
        if !is_same_element(named, e, &b[i]) {
            return false;
        }
    }
    true
}

//! Elements without operands.
ghost use Rattle.std.specs.Prelude.{◌≡◌, ◌||◌, ◌&&◌, ◌==◌, bytes_eq, Bool};
ghost use Rattle.ruletable.specs.Rules.{same_name};
ghost use Rattle.ruletable.specs.declared.table.NameCase.TheVariants.{Fold};
ghost use Rattle.abnfread.specs.AbnfViews.{element_of};
ghost use Rattle.abnfread.specs.Element as element;
ghost use Rattle.abnftexts.specs.SameElements.{same_as, same_bound, same_flag};

use abnfread::Elem;

// Whether two texts are the same but for the case of letters.
pub(crate) fn is_same_folded(a: &[u8], b: &[u8]) -> bool
    ensures { result ≡ same_name Fold a.now b.now }
{
    a.eq_ignore_ascii_case(b)
}

/// Returns whether two flags of rules are both true, or both false.
pub(crate) fn is_same_flag(a: bool, b: bool) -> bool
    ensures { result ≡ same_flag a b }
{
    a == b
}

// Whether both are no bound, or the same one.
pub(crate) fn is_same_bound(a: Option<u32>, b: Option<u32>) -> bool
    ensures { result ≡ same_bound a b }
{
    match (a, b) {
        (None, None) => true,
        (Some(n), Some(m)) => n == m,
        (None, Some(_)) | (Some(_), None) => false,
    }
}

// Whether an element is such a text.
pub(crate) fn is_text(folds: bool, text: &[u8], e: &Elem) -> bool
    ensures { (named : Bool) → result ≡ same_as named (element.Text folds text.now) (element_of e.now) }
{
    match e {
        Elem::Text {
            folds: other_folds,
            text: other,
        } => {
            folds == *other_folds
                && if folds {
                    is_same_folded(text, other)
                } else {
                    text == other.as_slice()
                }
        },
        _ => false,
    }
}

// Whether an element has these values.
pub(crate) fn has_values(values: &[u32], e: &Elem) -> bool
    ensures { (named : Bool) → result ≡ same_as named (element.Values values.now) (element_of e.now) }
{
    match e {
        Elem::Values(others) => values == others.as_slice(),
        _ => false,
    }
}

// Whether an element is that range.
pub(crate) fn is_range(low: u32, high: u32, e: &Elem) -> bool
    ensures { (named : Bool) → result ≡ same_as named (element.Range low high) (element_of e.now) }
{
    match e {
        Elem::Range {
            low: other_low,
            high: other_high,
        } => low == *other_low && high == *other_high,
        _ => false,
    }
}

// Whether an element is that name.
pub(crate) fn is_name(name: &[u8], e: &Elem) -> bool
    ensures { (named : Bool) → result ≡ same_as named (element.Name name.now) (element_of e.now) }
{
    match e {
        Elem::Name(other) => is_same_folded(name, other),
        _ => false,
    }
}

// Whether an element is that prose, or if `named` is true, the name that it says.
pub(crate) fn is_prose(named: bool, text: &[u8], e: &Elem) -> bool
    ensures { result ≡ same_as named (element.Prose text.now) (element_of e.now) }
{
    match e {
        Elem::Prose(other) => text == other.as_slice(),
        Elem::Name(name) => named && is_same_folded(text, name),
        _ => false,
    }
}

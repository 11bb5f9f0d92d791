//! Where an element needs parentheses.
ghost use Rattle.std.specs.Prelude.{◌≡◌};
ghost use Rattle.abnfread.specs.AbnfViews.{element_of};
ghost use Rattle.abnfprint.specs.CanonicalAbnf as canon;

use abnfread::Elem;

/// Where an element stands within another.
#[derive(Clone, Copy)]
pub(crate) enum Context {
    Alternative,
    Member,
    Repeated,
}

// How tightly an element holds together.
fn rank(e: &Elem) -> u8
    ensures { result ≡ canon.rank (element_of e.now) }
{
    match e {
        Elem::Alt(_) => 0,
        Elem::Concat(_) => 1,
        Elem::Rep { .. } => 2,
        _ => 3,
    }
}

// How tightly it must hold together to stand there without parentheses.
fn least(position: Context) -> u8
    ensures { result ≡ canon.least position }
{
    match position {
        Context::Alternative => 1,
        Context::Member => 2,
        Context::Repeated => 3,
    }
}

/// Returns whether parentheses stand round the element there.
pub(crate) fn is_wrapped(e: &Elem, position: Context) -> bool
    ensures { result ≡ canon.wraps position (element_of e.now) }
{
    rank(e) < least(position)
}

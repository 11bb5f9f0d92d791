//! Where an expression needs parentheses.
ghost use Rattle.std.specs.Prelude.{◌≡◌};
ghost use Rattle.pegprint.specs.Brackets as brackets;
ghost use Rattle.pegread.specs.PegViews.{pattern_of};

use pegread::Expr;

/// Where an expression stands within another.
#[derive(Clone, Copy)]
pub(crate) enum Context {
    Alternative,
    Member,
    OfPrefix,
    OfAmp,
    OfSuffix,
}

// How tightly an expression holds together.
fn rank(e: &Expr) -> u8
    ensures { result ≡ brackets.rank (pattern_of e.now) }
{
    match e {
        Expr::Choice(_) => 0,
        Expr::Seq(_) => 1,
        Expr::And(_) | Expr::Not(_) => 2,
        Expr::Star(_) | Expr::Plus(_) | Expr::Opt(_) => 3,
        _ => 4,
    }
}

// How tightly it must hold together to stand there without parentheses.
fn least(position: Context) -> u8
    ensures { result ≡ brackets.least position }
{
    match position {
        Context::Alternative => 1,
        Context::Member => 2,
        Context::OfPrefix | Context::OfAmp => 3,
        Context::OfSuffix => 4,
    }
}

fn is_act(e: &Expr) -> bool
    ensures { result ≡ brackets.is_act (pattern_of e.now) }
{
    matches!(e, Expr::Act(_))
}

// An action, or a repetition or option of one.
fn leads_with_act(e: &Expr) -> bool
    ensures { result ≡ brackets.leads_with_act (pattern_of e.now) }
{
    match e {
        Expr::Star(operand) | Expr::Plus(operand) | Expr::Opt(operand) => is_act(operand),
        _ => is_act(e),
    }
}

// Whether parentheses stand round the expression there.
pub(crate) fn is_wrapped(e: &Expr, position: Context) -> bool
    ensures { result ≡ brackets.wraps position (pattern_of e.now) }
{
    match position {
        Context::OfAmp => rank(e) < least(position) || leads_with_act(e),
        _ => rank(e) < least(position),
    }
}

//! What hints depend on.
ghost use Rattle.std.specs.Prelude.{◌≡◌, option_map, IfOk};
ghost use Rattle.pegread.specs.PegViews.{pattern_of};
ghost use Rattle.pegexplain.specs.CodeHints.{literal_at, known_literal, null_in, sure_in};
ghost use Rattle.pegexplain.specs.HiddenAlternatives.{literal_bytes as bytes_of, literal_of as literal_that_is};

use crate::nulls::is_nullable;
use crate::sure::is_sure;
use pegread::Expr;
use ruletable::{Memory, RuleTable};

/// Rules, and marks on them.
#[derive(Clone, Copy)]
pub(crate) struct KnownRules<'a> {
    /// The rules.
    pub(crate) rules: &'a RuleTable<Expr>,
    /// Of each rule whether its body may take nothing.
    pub(crate) nulls: &'a [bool],
    /// Of each rule whether its body fails nowhere.
    pub(crate) sure: &'a [bool],
}

// The bytes of an expression that is a literal.
fn literal_bytes(e: &Expr) -> Option<&[u8]>
    ensures { option_map (λ b. b.now) result ≡ bytes_of (pattern_of e.now) }
{
    match e {
        Expr::Bytes(bytes) => Some(bytes),
        _ => None,
    }
}

/// Returns the bytes of the literal that is the rule of a name, if it is one.
///
/// `Memory` if an allocation fails.
pub(crate) fn named_literal<'a>(
    rules: &'a RuleTable<Expr>,
    name: &[u8],
) -> Result<Option<&'a [u8]>, Memory>
    ensures { IfOk result (λ found. option_map (λ b. b.now) found ≡ literal_at rules.now name.now) }
{
    match rules.find(name)? {
        Some(id) => Ok(literal_bytes(rules.body(id))),
        None => Ok(None),
    }
}

/// Returns the bytes of an expression that is a literal, or the name of a rule that is one.
///
/// `Memory` if an allocation fails.
pub(crate) fn literal_of<'a>(
    known: &KnownRules<'a>,
    e: &'a Expr,
) -> Result<Option<&'a [u8]>, Memory>
    ensures { IfOk result (λ found. option_map (λ b. b.now) found ≡ literal_that_is (known_literal known.now)
        (sure_in known.now) (null_in known.now) (pattern_of e.now)) }
{
    match e {
        Expr::Name(name) => named_literal(known.rules, name),
        _ => Ok(literal_bytes(e)),
    }
}

/// Returns whether an expression fails nowhere.
///
/// `Memory` if an allocation fails.
pub(crate) fn fails_nowhere(known: &KnownRules<'_>, e: &Expr) -> Result<bool, Memory>
    ensures { IfOk result (λ sure. sure ≡ sure_in known.now (pattern_of e.now)) }
{
    is_sure(known.rules, known.sure, e)
}

/// Returns whether an expression may take nothing.
///
/// `Memory` if an allocation fails.
pub(crate) fn may_take_nothing(known: &KnownRules<'_>, e: &Expr) -> Result<bool, Memory>
    ensures { IfOk result (λ may. may ≡ null_in known.now (pattern_of e.now)) }
{
    is_nullable(known.rules, known.nulls, e)
}

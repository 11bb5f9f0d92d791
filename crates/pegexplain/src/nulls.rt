//! Which expressions may take nothing.
ghost use Rattle.std.specs.Prelude.{◌≡◌, IfOk, slice_index_or, false};
ghost use Rattle.pegread.specs.PegViews.{pattern_of, patterns_of};
ghost use Rattle.pegexplain.specs.NullTests.{all_nullable_by, loops_by, null_mark_of, mark_with, nullable_by};
ghost use Rattle.pegexplain.specs.NullTests.{some_nullable_by};

use pegread::Expr;
use ruletable::{Memory, RuleTable};

/// Returns the mark of the rule with an id; none is not marked.
pub(crate) fn mark_at(marks: &[bool], id: Option<usize>) -> bool
    ensures { result ≡ mark_with marks.now id }
{
    match id {
        Some(id) => marks.get(id).copied().unwrap_or(false),
        None => false,
    }
}

/// Returns whether an expression may take nothing, where marks of the rules say which of their bodies may.
///
/// `Memory` if an allocation fails.
#[cycle(nulls)]
pub(crate) fn is_nullable(rules: &RuleTable<Expr>, marks: &[bool], e: &Expr) -> Result<bool, Memory>
    ensures { IfOk result (λ may. may ≡ nullable_by (null_mark_of rules.now marks.now) (pattern_of e.now)) }
{
    match e {
        Expr::Any | Expr::Set(_) => Ok(false),
        Expr::Bytes(bytes) => Ok(bytes.is_empty()),
        Expr::Name(name) => Ok(mark_at(marks, rules.find(name)?)),
        Expr::Seq(members) => are_nullable(rules, marks, members),
        Expr::Choice(alternatives) => is_some_nullable(rules, marks, alternatives),
        Expr::Plus(operand) => is_nullable(rules, marks, operand),
        Expr::Star(_)
        | Expr::Opt(_)
        | Expr::And(_)
        | Expr::Not(_)
        | Expr::Act(_)
        | Expr::Open
        | Expr::Close => Ok(true),
    }
}

// Whether all of them may.
#[cycle(nulls)]
fn are_nullable(rules: &RuleTable<Expr>, marks: &[bool], members: &[Expr]) -> Result<bool, Memory>
    ensures { IfOk result (λ may. may ≡ all_nullable_by (null_mark_of rules.now marks.now) (patterns_of members.now)) }
{
    for member in members {
        if !is_nullable(rules, marks, member)? {
            return Ok(false);
        }
    }
    Ok(true)
}

// Whether one of them may.
#[cycle(nulls)]
fn is_some_nullable(
    rules: &RuleTable<Expr>,
    marks: &[bool],
    alternatives: &[Expr],
) -> Result<bool, Memory>
    ensures { IfOk result (λ may. may
        ≡ some_nullable_by (null_mark_of rules.now marks.now) (patterns_of alternatives.now)) }
{
    for alternative in alternatives {
        if is_nullable(rules, marks, alternative)? {
            return Ok(true);
        }
    }
    Ok(false)
}

/// Returns whether an expression repeats what may take nothing.
///
/// `Memory` if an allocation fails.
pub(crate) fn is_loop(rules: &RuleTable<Expr>, marks: &[bool], e: &Expr) -> Result<bool, Memory>
    ensures { IfOk result (λ loops. loops ≡ loops_by (null_mark_of rules.now marks.now) (pattern_of e.now)) }
{
    match e {
        Expr::Star(operand) | Expr::Plus(operand) => is_nullable(rules, marks, operand),
        _ => Ok(false),
    }
}

//! The members before a name to which left steps lead.
ghost use Rattle.std.specs.Prelude.{◌≡◌, map, option_map, IfOk, OnOk, ◌++◌, MatchOption};
ghost use Rattle.pegread.specs.PegViews.{pattern_of, patterns_of};
ghost use Rattle.pegexplain.specs.LeftUses.{alternatives_skipped, members_skipped, skipped_in};
ghost use Rattle.pegexplain.specs.NullTests.{null_mark_of, nullable_by};

use crate::nulls::is_nullable;
use pegread::Expr;
use ruletable::{Memory, RuleTable};
use std::alloc::Global;

/// Returns the members before the first use of a name to which left steps lead from an expression, in each sequence on
/// the way, outermost first; none if they lead to no use of it. Marks of the rules say which of their bodies may take
/// nothing.
///
/// `Memory` if an allocation fails.
#[cycle(skipping)]
pub(crate) fn skipped_before<'a>(
    alloc: Global,
    rules: &RuleTable<Expr>,
    marks: &[bool],
    name: &[u8],
    e: &'a Expr,
) -> Result<Option<Vec<&'a Expr>>, Memory>
    ensures { IfOk result (λ skipped. option_map (λ v. map (λ x. pattern_of x.now) v.items) skipped
        ≡ skipped_in (nullable_by (null_mark_of rules.now marks.now)) name.now (pattern_of e.now)) }
{
    match e {
        Expr::Name(own) => {
            if own.as_slice() == name {
                return Ok(Some(Vec::new(alloc)));
            }
            Ok(None)
        }
        Expr::Seq(members) => skipped_members(alloc, rules, marks, name, members),
        Expr::Choice(alternatives) => skipped_in_one(alloc, rules, marks, name, alternatives),
        Expr::Star(operand)
        | Expr::Plus(operand)
        | Expr::Opt(operand)
        | Expr::And(operand)
        | Expr::Not(operand) => skipped_before(alloc, rules, marks, name, operand),
        Expr::Any | Expr::Bytes(_) | Expr::Set(_) | Expr::Act(_) | Expr::Open | Expr::Close => Ok(
            None,
        ),
    }
}

// Those of a sequence, and before it in it.
#[cycle(skipping)]
fn skipped_members<'a>(
    alloc: Global,
    rules: &RuleTable<Expr>,
    marks: &[bool],
    name: &[u8],
    members: &'a [Expr],
) -> Result<Option<Vec<&'a Expr>>, Memory>
    ensures { IfOk result (λ skipped. option_map (λ v. map (λ x. pattern_of x.now) v.items) skipped
        ≡ members_skipped (nullable_by (null_mark_of rules.now marks.now)) name.now (patterns_of members.now)) }
{
    let mut before: Vec<&'a Expr> = Vec::new(alloc);
    for member in members {
        if let Some(inner) = skipped_before(alloc, rules, marks, name, member)? {
            before.extend_from_slice(&inner)?;
            return Ok(Some(before));
        }
        if !is_nullable(rules, marks, member)? {
            return Ok(None);
        }
        before.push(member)?;
    }
    Ok(None)
}

// Those of the first alternative that leads to a use.
#[cycle(skipping)]
fn skipped_in_one<'a>(
    alloc: Global,
    rules: &RuleTable<Expr>,
    marks: &[bool],
    name: &[u8],
    alternatives: &'a [Expr],
) -> Result<Option<Vec<&'a Expr>>, Memory>
    ensures { IfOk result (λ skipped. option_map (λ v. map (λ x. pattern_of x.now) v.items) skipped
        ≡ alternatives_skipped (nullable_by (null_mark_of rules.now marks.now)) name.now
        (patterns_of alternatives.now)) }
{
    for alternative in alternatives {
        if let Some(skipped) = skipped_before(alloc, rules, marks, name, alternative)? {
            return Ok(Some(skipped));
        }
    }
    Ok(None)
}

//! To which rules left steps lead from each rule.
ghost use Rattle.std.specs.Prelude.{◌≡◌, ◌++◌, ◌&&◌, true, map, IfOk, OnOk};
ghost use Rattle.fixpoint.specs.StepRows.{rows_of};
ghost use Rattle.gramcheck.specs.GrammarNotes.{AreMarks};
ghost use Rattle.gramcheck.specs.Left.{Nullable};
ghost use Rattle.pegread.specs.PegViews.{pattern_of, patterns_of, rules_of};
ghost use Rattle.ruletable.specs.Rules.{find_in};
ghost use Rattle.pegexplain.specs.FoundUses.{use_found};
ghost use Rattle.pegexplain.specs.LeftNotes.{LeadBack};
ghost use Rattle.pegexplain.specs.LeftUses.{alternative_uses, left_row, member_uses, use_ids, uses_in};
ghost use Rattle.pegexplain.specs.NullTests.{null_mark_of, nullable_by};

use crate::nulls::is_nullable;
use pegread::Expr;
use ruletable::{Memory, NameCase, RuleTable};
use std::alloc::Global;

/// A name that an expression uses.
#[derive(Clone, Copy)]
pub(crate) struct Use<'a> {
    /// The name.
    pub(crate) name: &'a [u8],
    /// Whether left steps lead to it.
    pub(crate) is_left: bool,
}

/// Adds the names in an expression, to which left steps lead or not.
///
/// `Memory` if an allocation fails.
#[cycle(using)]
pub(crate) fn add_uses<'a>(
    rules: &RuleTable<Expr>,
    marks: &[bool],
    e: &'a Expr,
    is_left: bool,
    found: &mut Vec<Use<'a>>,
) -> Result<(), Memory>
    ensures { OnOk result (map use_found found.new.items ≡ map use_found found.old.items
        ++ uses_in (nullable_by (null_mark_of rules.now marks.now)) is_left (pattern_of e.now)) }
{
    match e {
        Expr::Name(name) => {
            found.push(Use { name, is_left })?;
            Ok(())
        }
        Expr::Seq(members) => add_member_uses(rules, marks, members, is_left, found),
        Expr::Choice(alternatives) => {
            add_alternative_uses(rules, marks, alternatives, is_left, found)
        }
        Expr::Star(operand)
        | Expr::Plus(operand)
        | Expr::Opt(operand)
        | Expr::And(operand)
        | Expr::Not(operand) => add_uses(rules, marks, operand, is_left, found),
        Expr::Any | Expr::Bytes(_) | Expr::Set(_) | Expr::Act(_) | Expr::Open | Expr::Close => Ok(
            (),
        ),
    }
}

// Whether left steps lead after a member, if they lead to it or not.
fn leads_on(
    rules: &RuleTable<Expr>,
    marks: &[bool],
    member: &Expr,
    is_left: bool,
) -> Result<bool, Memory>
    ensures { IfOk result (λ on. on
        ≡ (is_left && nullable_by (null_mark_of rules.now marks.now) (pattern_of member.now))) }
{
    if !is_left {
        return Ok(false);
    }
    is_nullable(rules, marks, member)
}

// Adds the names in the members of a sequence.
#[cycle(using)]
fn add_member_uses<'a>(
    rules: &RuleTable<Expr>,
    marks: &[bool],
    members: &'a [Expr],
    is_left: bool,
    found: &mut Vec<Use<'a>>,
) -> Result<(), Memory>
    ensures { OnOk result (map use_found found.new.items ≡ map use_found found.old.items
        ++ member_uses (nullable_by (null_mark_of rules.now marks.now)) is_left (patterns_of members.now)) }
{
    let mut left = is_left;
    for member in members {
        add_uses(rules, marks, member, left, found)?;
        left = leads_on(rules, marks, member, left)?;
    }
    Ok(())
}

// Adds the names in alternatives.
#[cycle(using)]
fn add_alternative_uses<'a>(
    rules: &RuleTable<Expr>,
    marks: &[bool],
    alternatives: &'a [Expr],
    is_left: bool,
    found: &mut Vec<Use<'a>>,
) -> Result<(), Memory>
    ensures { OnOk result (map use_found found.new.items ≡ map use_found found.old.items
        ++ alternative_uses (nullable_by (null_mark_of rules.now marks.now)) is_left (patterns_of alternatives.now)) }
{
    for alternative in alternatives {
        add_uses(rules, marks, alternative, is_left, found)?;
    }
    Ok(())
}

// Adds the id of the rule to whose name left steps lead, if they lead to it and there is one.
fn add_id(rules: &RuleTable<Expr>, found: Use<'_>, row: &mut Vec<usize>) -> Result<(), Memory>
    ensures { OnOk result (row.new.items ≡ row.old.items ++ use_ids (find_in rules.now) (use_found found.entry)) }
{
    if !found.is_left {
        return Ok(());
    }
    if let Some(id) = rules.find(found.name)? {
        row.push(id)?;
    }
    Ok(())
}

// The ids of the rules to which left steps lead from a body.
fn row_of(
    alloc: Global,
    rules: &RuleTable<Expr>,
    marks: &[bool],
    body: &Expr,
) -> Result<Vec<usize>, Memory>
    ensures { IfOk result (λ row. row.items ≡ left_row (find_in rules.now)
        (nullable_by (null_mark_of rules.now marks.now)) (pattern_of body.now)) }
{
    let mut uses = Vec::new(alloc);
    add_uses(rules, marks, body, true, &mut uses)?;
    let mut row = Vec::new(alloc);
    for found in uses.iter() {
        add_id(rules, *found, &mut row)?;
    }
    Ok(row)
}

/// Returns of each rule the ids of the rules to which left steps lead from its body, where marks of the rules say
/// which of their bodies may take nothing. By these rows a rule leads back to itself exactly if it is left-recursive.
///
/// # Errors
/// `Memory` if an allocation fails.
pub fn left_rows(
    alloc: Global,
    rules: &RuleTable<Expr>,
    marks: &[bool],
) -> Result<Vec<Vec<usize>>, Memory>
    ensures rows { IfOk result (λ rows. rows_of rows.items ≡ map (λ rule. left_row (find_in rules.now)
        (nullable_by (null_mark_of rules.now marks.now)) (pattern_of rule.body)) rules.now.rules) }
    ensures back { IfOk result (λ rows. rules.now.names ≡ NameCase.Exact
        → AreMarks (λ rule. Nullable (rules_of rules.now) rule.body) (rules_of rules.now) marks.now
        → LeadBack (rules_of rules.now) (rows_of rows.items)) }
{
    let mut rows = Vec::new(alloc);
    for id in 0..rules.len() {
        rows.push(row_of(alloc, rules, marks, rules.body(id))?)?;
    }
    Ok(rows)
}

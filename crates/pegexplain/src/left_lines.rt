//! The lines after a note on a left-recursive rule.
ghost use Rattle.std.specs.Prelude.{◌≡◌, ◌++◌, ◌∷◌, map, IfOk, OnOk, option_map, slice_get, slice_index_or, true};
ghost use Rattle.pegprint.specs.CanonMembers.{member_text as member, members_text as all_members};
ghost use Rattle.pegread.specs.PegViews.{pattern_of, patterns, rules_of};
ghost use Rattle.diagnostics.specs.MentionLines.{mention_lines_by};
ghost use Rattle.pegexplain.specs.FoundUses.{use_found};
ghost use Rattle.pegexplain.specs.LeftLines.{is_left_use, line_of_first, skipped_if, skipped_reported, step_between};
ghost use Rattle.pegexplain.specs.LeftLines.{step_line, steps_reported};
ghost use Rattle.pegexplain.specs.LeftUses.{uses_in};
ghost use Rattle.pegexplain.specs.NullTests.{null_mark_of, nullable_by};

use crate::left_uses::{Use, add_uses};
use crate::positions::PegPositions;
use crate::skipped::skipped_before;
use diagnostics::{MentionKind, mention_lines, push_cut, push_more, push_number};
use pegprint::print_member;
use pegread::Expr;
use ruletable::{Memory, SinkOf};
use std::alloc::Global;

/// How many steps are reported.
pub const MAX_STEPS: usize = 8;

// Whether a use is one of the name to which left steps lead.
fn is_left_to(name: &[u8], found: Use<'_>) -> bool
    ensures { result ≡ is_left_use name.now (use_found found.entry) }
{
    found.is_left && found.name == name
}

// Of lines, one for each use, that of the first use of the name to which left steps lead.
fn first_left(uses: &[Use<'_>], lines: &[usize], name: &[u8]) -> Option<usize>
    ensures { result ≡ line_of_first (is_left_use name.now) (map use_found uses.now) lines.now }
{
    let mut left = lines;
    for found in uses {
        let Some((line, rest)) = left.split_first() else {
            return None;
        };
        if is_left_to(name, *found) {
            return Some(*line);
        }
        left = rest;
    }
    None
}

// The line of the first use of a name to which left steps lead from the body of a rule.
fn left_line(
    alloc: Global,
    positions: &PegPositions,
    rule: &[u8],
    body: &Expr,
    name: &[u8],
) -> Result<Option<usize>, Memory>
    ensures { IfOk result (λ line. line ≡ line_of_first (is_left_use name.now)
        (uses_in (nullable_by (null_mark_of positions.now.rules positions.now.nulls.items)) true (pattern_of body.now))
        (mention_lines_by positions.now.positions MentionKind.Use rule.now)) }
{
    let lines = mention_lines(alloc, &positions.positions, MentionKind::Use, rule)?;
    let mut uses = Vec::new(alloc);
    add_uses(&positions.rules, &positions.nulls, body, true, &mut uses)?;
    Ok(first_left(&uses, &lines, name))
}

// The canonical text of a member.
fn member_text(alloc: Global, e: &Expr) -> Result<Vec<u8>, Memory>
    ensures { IfOk result (λ text. text.items
        ≡ member (pattern_of e.now)) }
{
    let mut text = SinkOf::new(Vec::new(alloc));
    match print_member(e, &mut text) {
        Ok(()) => Ok(text.into_inner()),
        Err(_) => Err(Memory),
    }
}

// The canonical text of a sequence of these members.
fn members_text(alloc: Global, first: &Expr, rest: &[&Expr]) -> Result<Vec<u8>, Memory>
    ensures { IfOk result (λ text. text.items ≡ all_members
        (patterns (pattern_of first.now ∷ map (λ x. pattern_of x.now) rest.now))) }
{
    let mut text = member_text(alloc, first)?;
    for member in rest {
        text.extend_from_slice(b" ")?;
        let piece = member_text(alloc, member)?;
        text.extend_from_slice(&piece)?;
    }
    Ok(text)
}

// Adds the text on the members that a step skips.
fn push_skipped(alloc: Global, out: &mut Vec<u8>, skipped: &[&Expr]) -> Result<(), Memory>
    ensures { OnOk result (out.new.items ≡ out.old.items
        ++ skipped_reported (map (λ x. pattern_of x.now) skipped.now)) }
{
    match skipped.split_first() {
        Some((first, rest)) => {
            let text = members_text(alloc, first, rest)?;
            out.extend_from_slice(b" behind ")?;
            push_cut(out, text.as_slice())?;
            Ok(())
        }
        None => Ok(()),
    }
}

// The text on the members that a step skips, if it leads anywhere.
fn skipped_text(alloc: Global, skipped: Option<Vec<&Expr>>) -> Result<Vec<u8>, Memory>
    ensures { IfOk result (λ text. text.items
        ≡ skipped_if (option_map (λ v. map (λ x. pattern_of x.now) v.items) skipped.entry)) }
{
    let mut text = Vec::new(alloc);
    if let Some(skipped) = skipped {
        push_skipped(alloc, &mut text, &skipped)?;
    }
    Ok(text)
}

// Adds the line of a step.
fn push_step(
    out: &mut Vec<u8>,
    line: Option<usize>,
    from: &[u8],
    to: &[u8],
    after: &[u8],
) -> Result<(), Memory>
    ensures { OnOk result (out.new.items ≡ out.old.items ++ step_line line from.now to.now after.now) }
{
    let Some(line) = line else {
        return Ok(());
    };
    out.extend_from_slice(b"  line ")?;
    push_number(out, line)?;
    out.extend_from_slice(b": '")?;
    push_cut(out, from)?;
    out.extend_from_slice(b"' begins with '")?;
    push_cut(out, to)?;
    out.extend_from_slice(b"'")?;
    out.extend_from_slice(after)?;
    out.extend_from_slice(b"\n")?;
    Ok(())
}

// Adds the line of the step from one rule to another.
fn push_step_between(
    alloc: Global,
    out: &mut Vec<u8>,
    positions: &PegPositions,
    from: usize,
    to: usize,
) -> Result<(), Memory>
    ensures { OnOk result (out.new.items ≡ out.old.items ++ step_between
        (nullable_by (null_mark_of positions.now.rules positions.now.nulls.items))
        (mention_lines_by positions.now.positions MentionKind.Use)
        (slice_get (rules_of positions.now.rules) from) (slice_get (rules_of positions.now.rules) to)) }
{
    let count = positions.rules.len();
    if from >= count || to >= count {
        return Ok(());
    }
    let rule = positions.rules.name(from);
    let body = positions.rules.body(from);
    let name = positions.rules.name(to);
    let line = left_line(alloc, positions, rule, body, name)?;
    let skipped = skipped_before(alloc, &positions.rules, &positions.nulls, name, body)?;
    let after = skipped_text(alloc, skipped)?;
    push_step(out, line, rule, name, after.as_slice())?;
    Ok(())
}

// The first of the others, or the first one of all.
fn next_of(rest: &[usize], first: usize) -> usize
    ensures { result ≡ slice_index_or rest.now 0 first }
{
    match rest.get(0) {
        Some(next) => *next,
        None => first,
    }
}

/// Adds the lines of the first `budget` steps from each rule of a chain to the next, and from the last to the first one
/// of all, and how many more there are.
///
/// # Errors
/// `Memory` if an allocation fails.
#[cycle(reporting)]
pub fn push_steps(
    alloc: Global,
    out: &mut Vec<u8>,
    positions: &PegPositions,
    first: usize,
    budget: usize,
    ids: &[usize],
) -> Result<(), Memory>
    ensures { OnOk result (out.new.items ≡ out.old.items ++ steps_reported (rules_of positions.now.rules)
        (nullable_by (null_mark_of positions.now.rules positions.now.nulls.items))
        (mention_lines_by positions.now.positions MentionKind.Use) first budget ids.now) }
{
    let Some((id, rest)) = ids.split_first() else {
        return Ok(());
    };
    if budget == 0 {
        push_more(out, ids.len())?;
        return Ok(());
    }
    let next = next_of(rest, first);
    push_step_between(alloc, out, positions, *id, next)?;
    push_steps(alloc, out, positions, first, budget - 1, rest)?;
    Ok(())
}

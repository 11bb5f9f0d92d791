//! Ends of captures that begin nowhere.
ghost use Rattle.std.specs.Prelude.{◌≡◌, ◌++◌, map, IfOk, OnOk};
ghost use Rattle.std.specs.List.{flat_map};
ghost use Rattle.diagnostics.specs.MentionLines.{mention_lines_by};
ghost use Rattle.pegread.specs.PegViews.{pattern_of, rules_of};
ghost use Rattle.pegexplain.specs.BodyLeaves.{is_close as is_an_end, is_lone_end as begins_nowhere};
ghost use Rattle.pegexplain.specs.BodyLeaves.{ends_among, lone_end_if, lone_ends as ends_of, lone_ends_in};
ghost use Rattle.pegexplain.specs.CodeLeaves.{rule_leaf_found, leaf_found};
ghost use Rattle.pegexplain.specs.PegHints.{end_line, end_reported, ends_reported};

use crate::PegPositions;
use crate::hints::leaves::{Leaf, RuleLeaf, add_leaves};
use crate::hints::lines::{MAX_HINTS, line_of};
use diagnostics::{push_cut, push_more, push_number};
use pegread::Expr;
use ruletable::{Memory, RuleTable};
use std::alloc::Global;

fn is_close(e: &Expr) -> bool
    ensures { result ≡ is_an_end (pattern_of e.now) }
{
    match e {
        Expr::Close => true,
        _ => false,
    }
}

// Whether a leaf is the end of a capture before which no `<` stands, outside alternatives beside its own.
fn is_lone_end(leaf: Leaf<'_>) -> bool
    ensures { result ≡ begins_nowhere (leaf_found leaf.entry) }
{
    is_close(leaf.e) && !leaf.begun
}

// Adds a leaf of a rule that is such an end.
fn add_end<'a>(
    rule_leaf: RuleLeaf<'a>,
    leaf: Leaf<'a>,
    found: &mut Vec<RuleLeaf<'a>>,
) -> Result<(), Memory>
    ensures { OnOk result (map rule_leaf_found found.new.items ≡ map rule_leaf_found found.old.items
        ++ lone_end_if (rule_leaf_found rule_leaf.entry) (leaf_found leaf.entry)) }
{
    if is_lone_end(leaf) {
        found.push(rule_leaf)?;
    }
    Ok(())
}

// Adds those among the leaves of a rule's body.
fn add_ends_among<'a>(
    rule: &'a [u8],
    body: &'a Expr,
    leaves: &[Leaf<'a>],
    found: &mut Vec<RuleLeaf<'a>>,
) -> Result<(), Memory>
    ensures { OnOk result (map rule_leaf_found found.new.items ≡ map rule_leaf_found found.old.items
        ++ ends_among rule.now (pattern_of body.now) 0 (map leaf_found leaves.now)) }
{
    let mut position = 0;
    for leaf in leaves {
        let rule_leaf = RuleLeaf {
            rule,
            body,
            position,
        };
        add_end(rule_leaf, *leaf, found)?;
        position += 1;
    }
    Ok(())
}

// Adds those of a rule.
fn add_lone_ends<'a>(
    alloc: Global,
    rule: &'a [u8],
    body: &'a Expr,
    found: &mut Vec<RuleLeaf<'a>>,
) -> Result<(), Memory>
    ensures { OnOk result (map rule_leaf_found found.new.items ≡ map rule_leaf_found found.old.items
        ++ lone_ends_in rule.now (pattern_of body.now)) }
{
    let mut leaves = Vec::new(alloc);
    add_leaves(body, false, &mut leaves)?;
    add_ends_among(rule, body, &leaves, found)?;
    Ok(())
}

// Returns those of the rules, in order.
fn lone_ends<'a>(alloc: Global, rules: &'a RuleTable<Expr>) -> Result<Vec<RuleLeaf<'a>>, Memory>
    ensures { IfOk result (λ v. map rule_leaf_found v.items ≡ ends_of (rules_of rules.now)) }
{
    let mut found = Vec::new(alloc);
    for id in 0..rules.len() {
        add_lone_ends(alloc, rules.name(id), rules.body(id), &mut found)?;
    }
    Ok(found)
}

// Adds the line of an end, if it is known.
fn push_line(out: &mut Vec<u8>, line: Option<usize>) -> Result<(), Memory>
    ensures { OnOk result (out.new.items ≡ out.old.items ++ end_line line) }
{
    let Some(line) = line else {
        return Ok(());
    };
    out.extend_from_slice(b"  line ")?;
    push_number(out, line)?;
    out.extend_from_slice(b": no \"<\" stands before it in its alternative\n")?;
    Ok(())
}

// Adds the hint on an end.
fn push_end(
    alloc: Global,
    out: &mut Vec<u8>,
    positions: &PegPositions,
    end: RuleLeaf<'_>,
) -> Result<(), Memory>
    ensures { OnOk result (out.new.items ≡ out.old.items
        ++ end_reported (mention_lines_by positions.now.positions) (rule_leaf_found end.entry)) }
{
    let line = line_of(alloc, positions, end.rule, end.body, end.position)?;
    out.extend_from_slice(b"\">\" without \"<\" in rule '")?;
    push_cut(out, end.rule)?;
    out.extend_from_slice(b"'\n")?;
    push_line(out, line)
}

// Adds those on ends.
fn push_ends(
    alloc: Global,
    out: &mut Vec<u8>,
    positions: &PegPositions,
    ends: &[RuleLeaf<'_>],
) -> Result<(), Memory>
    ensures { OnOk result (out.new.items ≡ out.old.items
        ++ flat_map (end_reported (mention_lines_by positions.now.positions)) (map rule_leaf_found ends.now)) }
{
    for end in ends {
        push_end(alloc, out, positions, *end)?;
    }
    Ok(())
}

// Adds those on the first of some ends, and how many more there are.
fn push_first_ends(
    alloc: Global,
    out: &mut Vec<u8>,
    positions: &PegPositions,
    ends: &[RuleLeaf<'_>],
) -> Result<(), Memory>
    ensures { OnOk result (out.new.items ≡ out.old.items
        ++ ends_reported (mention_lines_by positions.now.positions) (map rule_leaf_found ends.now)) }
{
    let shown = ends.len().min(MAX_HINTS);
    push_ends(alloc, out, positions, &ends[..shown])?;
    push_more(out, ends.len() - shown)?;
    Ok(())
}

/// Adds the hints on the first ends of captures that begin nowhere, and how many more there are.
///
/// `Memory` if an allocation fails.
pub(crate) fn push_lone_ends(
    alloc: Global,
    out: &mut Vec<u8>,
    positions: &PegPositions,
) -> Result<(), Memory>
    ensures { OnOk result (out.new.items ≡ out.old.items ++ ends_reported (mention_lines_by positions.now.positions)
        (ends_of (rules_of positions.now.rules))) }
{
    let ends = lone_ends(alloc, &positions.rules)?;
    push_first_ends(alloc, out, positions, &ends)?;
    Ok(())
}

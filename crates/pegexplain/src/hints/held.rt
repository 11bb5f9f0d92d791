//! Definitions in actions.
ghost use Rattle.std.specs.Prelude.{◌≡◌, ◌≤◌, ◌+◌, ◌++◌, length, map, option_map, IfOk, OnOk};
ghost use Rattle.std.specs.List.{flat_map};
ghost use Rattle.diagnostics.specs.MentionLines.{mention_lines_by};
ghost use Rattle.pegread.specs.PegViews.{pattern_of, rules_of};
ghost use Rattle.ruletable.specs.Lines.{line_ends};
ghost use Rattle.ruletable.specs.declared.lines.LineRule.TheVariants.{Any};
ghost use Rattle.pegexplain.specs.CodeLeaves.{held_found, leaf_found, rule_leaf_found};
ghost use Rattle.pegexplain.specs.HeldDefinitions.{held_among, held_before, held_if, held_in};
ghost use Rattle.pegexplain.specs.HeldDefinitions.{held_definitions as held_by, held_in_rule, name_held as held_name};
ghost use Rattle.pegexplain.specs.PegHints.{held_line, held_reported, helds_reported};

use crate::PegPositions;
use crate::hints::leaves::{Leaf, RuleLeaf, add_leaves};
use crate::hints::lines::{MAX_HINTS, line_of};
use diagnostics::{push_cut, push_more, push_number};
use pegprint::name_defined;
use pegread::Expr;
use ruletable::{LineRule, Memory, RuleTable};
use std::alloc::Global;

/// A line of an action that begins a rule by its form.
#[derive(Clone, Copy)]
pub(crate) struct HeldDefinition<'a> {
    /// The action.
    pub(crate) action: RuleLeaf<'a>,
    /// The text of the action.
    pub(crate) template: &'a [u8],
    /// Where the line begins there.
    pub(crate) at: usize,
    /// The name of the rule.
    pub(crate) name: &'a [u8],
}

// Returns the name that a line of a text after the first one defines.
fn name_held(template: &[u8], at: usize) -> Option<&[u8]>
    requires { at ≤ length template.now }
    ensures { option_map (λ n. n.now) result ≡ held_name template.now at }
{
    if at == 0 {
        return None;
    }
    name_defined(template, at)
}

// Adds the definition on the line of an action at a position, if there is one.
fn add_held<'a>(
    action: RuleLeaf<'a>,
    template: &'a [u8],
    at: usize,
    found: &mut Vec<HeldDefinition<'a>>,
) -> Result<(), Memory>
    requires { at ≤ length template.now }
    ensures { OnOk result (map held_found found.new.items ≡ map held_found found.old.items
        ++ held_if (rule_leaf_found action.entry) template.now at (held_name template.now at)) }
{
    let Some(name) = name_held(template, at) else {
        return Ok(());
    };
    found.push(HeldDefinition {
        action,
        template,
        at,
        name,
    })?;
    Ok(())
}

// Adds the definitions in an action.
fn add_all_held<'a>(
    action: RuleLeaf<'a>,
    template: &'a [u8],
    found: &mut Vec<HeldDefinition<'a>>,
) -> Result<(), Memory>
    ensures { OnOk result (map held_found found.new.items ≡ map held_found found.old.items
        ++ held_before (rule_leaf_found action.entry) template.now (length template.now)) }
{
    for at in 0..template.len() {
        add_held(action, template, at, found)?;
    }
    Ok(())
}

// Adds those in a leaf.
fn add_held_in<'a>(
    action: RuleLeaf<'a>,
    e: &'a Expr,
    found: &mut Vec<HeldDefinition<'a>>,
) -> Result<(), Memory>
    ensures { OnOk result (map held_found found.new.items ≡ map held_found found.old.items
        ++ held_in (rule_leaf_found action.entry) (pattern_of e.now)) }
{
    match e {
        Expr::Act(template) => add_all_held(action, template, found),
        _ => Ok(()),
    }
}

// Adds those among the leaves of a rule's body.
fn add_held_among<'a>(
    rule: &'a [u8],
    body: &'a Expr,
    leaves: &[Leaf<'a>],
    found: &mut Vec<HeldDefinition<'a>>,
) -> Result<(), Memory>
    ensures { OnOk result (map held_found found.new.items ≡ map held_found found.old.items
        ++ held_among rule.now (pattern_of body.now) 0 (map leaf_found leaves.now)) }
{
    let mut position = 0;
    for leaf in leaves {
        let action = RuleLeaf {
            rule,
            body,
            position,
        };
        add_held_in(action, leaf.e, found)?;
        position += 1;
    }
    Ok(())
}

// Adds those in a rule.
fn add_held_in_rule<'a>(
    alloc: Global,
    rule: &'a [u8],
    body: &'a Expr,
    found: &mut Vec<HeldDefinition<'a>>,
) -> Result<(), Memory>
    ensures { OnOk result (map held_found found.new.items ≡ map held_found found.old.items
        ++ held_in_rule rule.now (pattern_of body.now)) }
{
    let mut leaves = Vec::new(alloc);
    add_leaves(body, false, &mut leaves)?;
    add_held_among(rule, body, &leaves, found)?;
    Ok(())
}

// Returns those in the rules, in order.
fn held_definitions<'a>(
    alloc: Global,
    rules: &'a RuleTable<Expr>,
) -> Result<Vec<HeldDefinition<'a>>, Memory>
    ensures { IfOk result (λ v. map held_found v.items ≡ held_by (rules_of rules.now)) }
{
    let mut found = Vec::new(alloc);
    for id in 0..rules.len() {
        add_held_in_rule(alloc, rules.name(id), rules.body(id), &mut found)?;
    }
    Ok(found)
}

// Returns the line of a definition, given that of its action.
fn own_line(held: HeldDefinition<'_>, line: usize) -> Result<usize, Memory>
    ensures { IfOk result (λ own. own ≡ line + line_ends Any held.entry.template.now held.entry.at) }
{
    let ahead = ruletable::line_of(held.template, held.at, LineRule::Any) - 1;
    line.checked_add(ahead).ok_or(Memory)
}

// Adds the line of a definition, if the line of its action is known.
fn push_line(out: &mut Vec<u8>, line: Option<usize>, held: HeldDefinition<'_>) -> Result<(), Memory>
    ensures { OnOk result (out.new.items ≡ out.old.items ++ held_line line (held_found held.entry)) }
{
    let Some(line) = line else {
        return Ok(());
    };
    let own = own_line(held, line)?;
    out.extend_from_slice(b"  line ")?;
    push_number(out, own)?;
    out.extend_from_slice(b": '")?;
    push_cut(out, held.name)?;
    out.extend_from_slice(b"' in the action of line ")?;
    push_number(out, line)?;
    out.extend_from_slice(b"\n")?;
    Ok(())
}

// Adds the hint on a definition.
fn push_held(
    alloc: Global,
    out: &mut Vec<u8>,
    positions: &PegPositions,
    held: HeldDefinition<'_>,
) -> Result<(), Memory>
    ensures { OnOk result (out.new.items ≡ out.old.items
        ++ held_reported (mention_lines_by positions.now.positions) (held_found held.entry)) }
{
    let action = held.action;
    let line = line_of(alloc, positions, action.rule, action.body, action.position)?;
    out.extend_from_slice(b"action holds a definition in rule '")?;
    push_cut(out, action.rule)?;
    out.extend_from_slice(b"'\n")?;
    push_line(out, line, held)
}

// Adds those on definitions.
fn push_helds(
    alloc: Global,
    out: &mut Vec<u8>,
    positions: &PegPositions,
    helds: &[HeldDefinition<'_>],
) -> Result<(), Memory>
    ensures { OnOk result (out.new.items ≡ out.old.items
        ++ flat_map (held_reported (mention_lines_by positions.now.positions)) (map held_found helds.now)) }
{
    for held in helds {
        push_held(alloc, out, positions, *held)?;
    }
    Ok(())
}

// Adds those on the first of some definitions, and how many more there are.
fn push_first_helds(
    alloc: Global,
    out: &mut Vec<u8>,
    positions: &PegPositions,
    helds: &[HeldDefinition<'_>],
) -> Result<(), Memory>
    ensures { OnOk result (out.new.items ≡ out.old.items
        ++ helds_reported (mention_lines_by positions.now.positions) (map held_found helds.now)) }
{
    let shown = helds.len().min(MAX_HINTS);
    push_helds(alloc, out, positions, &helds[..shown])?;
    push_more(out, helds.len() - shown)?;
    Ok(())
}

/// Adds the hints on the first definitions in actions, and how many more there are.
///
/// `Memory` if an allocation fails.
pub(crate) fn push_held_definitions(
    alloc: Global,
    out: &mut Vec<u8>,
    positions: &PegPositions,
) -> Result<(), Memory>
    ensures { OnOk result (out.new.items ≡ out.old.items ++ helds_reported (mention_lines_by positions.now.positions)
        (held_by (rules_of positions.now.rules))) }
{
    let helds = held_definitions(alloc, &positions.rules)?;
    push_first_helds(alloc, out, positions, &helds)?;
    Ok(())
}

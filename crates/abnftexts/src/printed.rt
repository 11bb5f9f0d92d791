//! The grammar as it is printed, and the reports on it.
ghost use Rattle.std.specs.Prelude.{◌≡◌, ◌++◌, None, Some, map, option_map, replicate, IfOk, OnOk};
ghost use Rattle.std.specs.List.{flat_map};
ghost use Rattle.abnftexts.specs.GivenRules.{text_rule};
ghost use Rattle.abnftexts.specs.JoinedGrammar.{clash_reported, comment_before, first_number as first_in, gap_before};
ghost use Rattle.abnftexts.specs.JoinedGrammar.{goes_after_it};
ghost use Rattle.abnftexts.specs.JoinedGrammar.{last_number as last_in, none_reported, numbered_name};
ghost use Rattle.abnftexts.specs.JoinedGrammar.{numbered_position};
ghost use Rattle.abnftexts.specs.JoinedGrammar.{ordered_rules, printed_after, rule_printed};
ghost use Rattle.abnftexts.specs.RulesGathered.{lines_placed};

use crate::gathered::RulePosition;
use crate::join::{Clash, GivenRule};
use crate::reported::{number_at, push_position};
use ruletable::Memory;
use std::alloc::Global;

// The number of a rule's first line.
fn first_number(position: &RulePosition<'_>) -> usize
    ensures { result ≡ first_in (lines_placed position.now) }
{
    number_at(&position.lines, 1)
}

// The number of a rule's last line.
fn last_number(position: &RulePosition<'_>) -> usize
    ensures { result ≡ last_in (lines_placed position.now) }
{
    number_at(&position.lines, position.lines.len())
}

// Returns whether only blank lines stand between a rule and the one before it in its text.
fn goes_after(before: &RulePosition<'_>, position: &RulePosition<'_>) -> bool
    ensures { result ≡ goes_after_it (lines_placed before.now) (lines_placed position.now) }
{
    let last = last_number(before);
    let first = first_number(position);
    before.name == position.name && last < first && first - last - 1 == before.blanks
}

// Adds a comment that names the position of a rule.
fn push_comment(out: &mut Vec<u8>, position: &RulePosition<'_>) -> Result<(), Memory>
    ensures { OnOk result (out.new.items ≡ out.old.items ++ comment_before (lines_placed position.now)) }
{
    out.extend_from_slice(b"; ")?;
    push_position(out, position.name, first_number(position))?;
    out.extend_from_slice(b"\n")?;
    Ok(())
}

// Adds so many empty lines.
fn push_empty(out: &mut Vec<u8>, count: usize) -> Result<(), Memory>
    ensures { OnOk result (out.new.items ≡ out.old.items ++ replicate count 10) }
{
    let mut left = count;
    while left > 0 {
        out.push(b'\n')?;
        left -= 1;
    }
    Ok(())
}

// Adds what stands before a rule: empty lines, or a comment.
fn push_start(
    out: &mut Vec<u8>,
    before: Option<&RulePosition<'_>>,
    position: &RulePosition<'_>,
) -> Result<(), Memory>
    ensures { OnOk result (out.new.items ≡ out.old.items
        ++ gap_before (option_map (λ p. lines_placed p.now) before.entry) (lines_placed position.now)) }
{
    if let Some(before) = before {
        if goes_after(before, position) {
            return push_empty(out, before.blanks);
        }
    }
    push_comment(out, position)
}

// Adds a rule as it is printed.
fn push_printed(
    out: &mut Vec<u8>,
    before: Option<&RulePosition<'_>>,
    position: &RulePosition<'_>,
) -> Result<(), Memory>
    ensures { OnOk result (out.new.items ≡ out.old.items
        ++ rule_printed (option_map (λ p. lines_placed p.now) before.entry) (lines_placed position.now)) }
{
    push_start(out, before, position)?;
    out.extend_from_slice(&position.comments)?;
    out.extend_from_slice(&position.text)?;
    Ok(())
}

/// Returns the rules with these numbers as they are printed.
///
/// # Errors
/// `Memory` if an allocation fails.
pub(crate) fn printed_text(
    alloc: Global,
    positions: &[RulePosition<'_>],
    order: &[usize],
) -> Result<Vec<u8>, Memory>
    ensures { IfOk result (λ text. text.items
        ≡ printed_after None (ordered_rules (map lines_placed positions.now) order.now)) }
{
    let mut out = Vec::new(alloc);
    let mut before: Option<&RulePosition<'_>> = None;
    for number in order {
        if let Some(position) = positions.get(*number) {
            push_printed(&mut out, before, position)?;
            before = Some(position);
        }
    }
    Ok(out)
}

/// Adds the position of the rule with that number.
pub(crate) fn push_rule_position(
    out: &mut Vec<u8>,
    positions: &[RulePosition<'_>],
    number: usize,
) -> Result<(), Memory>
    ensures { OnOk result (out.new.items ≡ out.old.items ++ numbered_position (map lines_placed positions.now) number) }
{
    match positions.get(number) {
        Some(position) => push_position(out, position.name, first_number(position)),
        None => Ok(()),
    }
}

/// Adds its name.
pub(crate) fn push_rule_name(
    out: &mut Vec<u8>,
    rules: &[GivenRule],
    number: usize,
) -> Result<(), Memory>
    ensures { OnOk result (out.new.items ≡ out.old.items ++ numbered_name (map text_rule rules.now) number) }
{
    match rules.get(number) {
        Some(rule) => Ok(out.extend_from_slice(&rule.name)?),
        None => Ok(()),
    }
}

// Adds the report of two definitions of one name.
fn push_clash(
    out: &mut Vec<u8>,
    positions: &[RulePosition<'_>],
    rules: &[GivenRule],
    clash: Clash,
) -> Result<(), Memory>
    ensures { OnOk result (out.new.items ≡ out.old.items
        ++ clash_reported (map lines_placed positions.now) (map text_rule rules.now) clash) }
{
    push_rule_position(out, positions, clash.second)?;
    out.extend_from_slice(b": '")?;
    push_rule_name(out, rules, clash.second)?;
    out.extend_from_slice(b"' is defined otherwise at ")?;
    push_rule_position(out, positions, clash.first)?;
    out.extend_from_slice(b"\n")?;
    Ok(())
}

/// Adds the reports of definitions of one name.
pub(crate) fn push_clashes(
    out: &mut Vec<u8>,
    positions: &[RulePosition<'_>],
    rules: &[GivenRule],
    clashes: &[Clash],
) -> Result<(), Memory>
    ensures { OnOk result (out.new.items ≡ out.old.items
        ++ flat_map (clash_reported (map lines_placed positions.now) (map text_rule rules.now)) clashes.now) }
{
    for clash in clashes {
        push_clash(out, positions, rules, *clash)?;
    }
    Ok(())
}

/// Adds the report where there is no rule.
pub(crate) fn push_none(out: &mut Vec<u8>, rules: &[GivenRule]) -> Result<(), Memory>
    ensures { OnOk result (out.new.items ≡ out.old.items ++ none_reported (map text_rule rules.now)) }
{
    if rules.is_empty() {
        out.extend_from_slice(b"no rules found\n")?;
    }
    Ok(())
}

//! The list of the rules that texts give.
ghost use Rattle.std.specs.Prelude.{◌≡◌, ◌++◌, ◌∷◌, List, drop, map, IfOk, OnOk};
ghost use Rattle.abnftexts.specs.GivenRules.{text_rule};
ghost use Rattle.abnftexts.specs.JoinedGrammar.{fate_reported, listed_from, rule_listed, rules_listed};
ghost use Rattle.abnftexts.specs.RulesGathered.{ListEntry, entry_listed, lines_placed};

use crate::gathered::{ListLine, RulePosition};
use crate::join::{Fate, GivenRule};
use crate::printed::{push_rule_name, push_rule_position};
use ruletable::Memory;
use std::alloc::Global;

// Adds what becomes of a rule.
fn push_fate(out: &mut Vec<u8>, positions: &[RulePosition<'_>], fate: Fate) -> Result<(), Memory>
    ensures { OnOk result (out.new.items ≡ out.old.items ++ fate_reported (map lines_placed positions.now) fate) }
{
    match fate {
        Fate::Stands => Ok(out.extend_from_slice(b"stands")?),
        Fate::Again(number) => {
            out.extend_from_slice(b"is given at ")?;
            push_rule_position(out, positions, number)
        }
        Fate::Yields(number) => {
            out.extend_from_slice(b"yields to ")?;
            push_rule_position(out, positions, number)
        }
    }
}

// Adds the line of the rule with that number.
fn push_listed(
    out: &mut Vec<u8>,
    positions: &[RulePosition<'_>],
    rules: &[GivenRule],
    number: usize,
    fate: Fate,
) -> Result<(), Memory>
    ensures { OnOk result (out.new.items ≡ out.old.items
        ++ rule_listed (map lines_placed positions.now) (map text_rule rules.now) number fate) }
{
    push_rule_position(out, positions, number)?;
    out.extend_from_slice(b": '")?;
    push_rule_name(out, rules, number)?;
    out.extend_from_slice(b"' ")?;
    push_fate(out, positions, fate)?;
    out.extend_from_slice(b"\n")?;
    Ok(())
}

// Adds an entry of the list, where the next rule has that number, and returns the number of the rule after it.
fn push_entry(
    out: &mut Vec<u8>,
    positions: &[RulePosition<'_>],
    rules: &[GivenRule],
    fates: &[Fate],
    number: usize,
    line: &ListLine,
) -> Result<usize, Memory>
    ensures { IfOk result (λ next. (list : List ListEntry) → out.new.items
        ++ listed_from (map lines_placed positions.now) (map text_rule rules.now) next (drop next fates.now) list
        ≡ out.old.items ++ listed_from (map lines_placed positions.now) (map text_rule rules.now) number
        (drop number fates.now) (entry_listed line.now ∷ list)) }
{
    match line {
        ListLine::Value(text) => {
            out.extend_from_slice(text)?;
            Ok(number)
        }
        ListLine::Rule => match fates.get(number) {
            Some(fate) => {
                push_listed(out, positions, rules, number, *fate)?;
                Ok(number + 1)
            }
            None => Ok(number),
        },
    }
}

/// Returns the lines of the list, where these are the fates of the rules.
///
/// # Errors
/// `Memory` if an allocation fails.
pub(crate) fn listed_text(
    alloc: Global,
    positions: &[RulePosition<'_>],
    rules: &[GivenRule],
    fates: &[Fate],
    list: &[ListLine],
) -> Result<Vec<u8>, Memory>
    ensures { IfOk result (λ text. text.items ≡ rules_listed (map lines_placed positions.now)
        (map text_rule rules.now) fates.now (map entry_listed list.now)) }
{
    let mut out = Vec::new(alloc);
    let mut number = 0;
    for line in list {
        number = push_entry(&mut out, positions, rules, fates, number, line)?;
    }
    Ok(out)
}

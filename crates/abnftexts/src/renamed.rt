//! Rules with names in angle brackets.
ghost use Rattle.std.specs.Prelude.{map, IfOk};
ghost use Rattle.abnfread.specs.AbnfTable.{IsCoreTable};
ghost use Rattle.abnftexts.specs.CodeUses.{is_defined as knows};
ghost use Rattle.abnftexts.specs.GivenRules.{text_rule};
ghost use Rattle.abnftexts.specs.NamedRules.{AreRenamed, ArePositionsNamed, AreRulesNamed, IsPositionNamed};
ghost use Rattle.abnftexts.specs.NamedRules.{IsRuleNamed};
ghost use Rattle.abnftexts.specs.RulesGathered.{lines_placed, rules_gathered};
ghost use Rattle.abnftexts.specs.TakenRules.{IsNamedOutcome};

use crate::gathered::{Gathered, RulePosition};
use crate::join::{GivenRule, Listed, numbers_by_name};
use crate::named::named_lines;
use crate::own::read_rule;
use abnfread::{Elem, core_rules};
use ruletable::{Memory, RuleTable};
use std::alloc::Global;

// Whether the text is not indented and spells the rule, but that names may stand for prose.
fn spells_named(alloc: Global, rule: &GivenRule, text: &[u8]) -> Result<bool, Memory>
    ensures { IfOk result (λ spells. IsNamedOutcome (text_rule rule.now) text.now spells) }
{
    match text.first() {
        Some(b) if b.is_ascii_alphabetic() => {}
        _ => return Ok(false),
    }
    match read_rule(alloc, text)? {
        Some(given) => Ok(rule.is_same(true, &given)),
        None => Ok(false),
    }
}

// Where a rule stands with its names.
fn named_position<'a>(
    alloc: Global,
    core: &RuleTable<Elem>,
    names: &RuleTable<Vec<usize>>,
    rule: &GivenRule,
    position: RulePosition<'a>,
) -> Result<RulePosition<'a>, Memory>
    requires { IsCoreTable core.now }
    ensures { IfOk result (λ named. IsPositionNamed (knows names.now) (text_rule rule.now) (lines_placed position.entry)
        (lines_placed named)) }
{
    let lines = named_lines(alloc, core, names, &rule.name, &position)?;
    if lines.comments.is_empty() {
        return Ok(position);
    }
    let is_rule = spells_named(alloc, rule, &lines.text)?;
    if !is_rule {
        return Ok(position);
    }
    Ok(RulePosition {
        name: position.name,
        margin: position.margin,
        sources: position.sources,
        lines: position.lines,
        blanks: position.blanks,
        comments: lines.comments,
        text: lines.text,
    })
}

// Where rules stand with their names.
fn named_positions<'a>(
    alloc: Global,
    core: &RuleTable<Elem>,
    names: &RuleTable<Vec<usize>>,
    rules: &[GivenRule],
    positions: Vec<RulePosition<'a>>,
) -> Result<Vec<RulePosition<'a>>, Memory>
    requires { IsCoreTable core.now }
    ensures { IfOk result (λ named. ArePositionsNamed (knows names.now) (map text_rule rules.now)
        (map lines_placed positions.entry.items) (map lines_placed named.items)) }
{
    let mut named = Vec::new(alloc);
    let mut left = rules;
    for position in positions {
        let Some((rule, after)) = left.split_first() else {
            break;
        };
        left = after;
        let it = named_position(alloc, core, names, rule, position)?;
        named.push(it)?;
    }
    Ok(named)
}

// A rule with its names.
fn named_rule(
    alloc: Global,
    position: &RulePosition<'_>,
    rule: GivenRule,
) -> Result<GivenRule, Memory>
    ensures { IfOk result (λ named. IsRuleNamed (lines_placed position.now) (text_rule rule) (text_rule named)) }
{
    if position.comments.is_empty() {
        return Ok(rule);
    }
    // A text with comments spells a rule.
    match read_rule(alloc, &position.text)? {
        Some(given) => Ok(GivenRule {
            adds: given.adds,
            name: given.name,
            body: given.body,
            is_prose: rule.is_prose,
        }),
        None => Err(Memory),
    }
}

// Rules with their names.
fn named_rules(
    alloc: Global,
    positions: &[RulePosition<'_>],
    rules: Vec<GivenRule>,
) -> Result<Vec<GivenRule>, Memory>
    ensures { IfOk result (λ named. AreRulesNamed (map lines_placed positions.now) (map text_rule rules.items)
        (map text_rule named.items)) }
{
    let mut named = Vec::new(alloc);
    let mut number = 0;
    for rule in rules {
        let Some(position) = positions.get(number) else {
            break;
        };
        let it = named_rule(alloc, position, rule)?;
        named.push(it)?;
        number += 1;
    }
    Ok(named)
}

/// Takes the angle brackets from names of these rules and of core rules, but where they stand in a rule of the name.
///
/// # Errors
/// `Memory` if an allocation fails.
pub(crate) fn name_rules<'a>(alloc: Global, gathered: Gathered<'a>) -> Result<Gathered<'a>, Memory>
    ensures { IfOk result (λ named. AreRenamed (rules_gathered gathered.entry) (rules_gathered named)) }
{
    let Gathered {
        positions,
        rules,
        reported,
        list,
    } = gathered;
    let core = core_rules(alloc)?;
    let names = numbers_by_name(alloc, Listed::Rules, &rules)?;
    let positions = named_positions(alloc, &core, &names, &rules, positions)?;
    let rules = named_rules(alloc, &positions, rules)?;
    Ok(Gathered {
        positions,
        rules,
        reported,
        list,
    })
}

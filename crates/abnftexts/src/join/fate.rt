//! Fates of rules.
ghost use Rattle.std.specs.Prelude.{◌≡◌, ◌<◌, ◌≤◌, length, map, take, IfOk};
ghost use Rattle.abnftexts.specs.GivenRules.{text_rule, first_wanted, first_same, fate_of, fates_of};
ghost use Rattle.abnftexts.specs.ListedRules.{ListKeys, ListNames};
ghost use Rattle.abnftexts.specs.RuleKeys.{rule_key as key_of_rule};

use crate::join::by_name::{Listed, first_number, numbers_by_name};
use crate::join::given::GivenRule;
use crate::join::key::rule_key;
use diagnostics::add_number;
use ruletable::{Memory, NameCase, RuleTable};
use std::alloc::Global;

/// The fate of a rule. Rules count from 0, in the order in which the texts give them.
#[derive(Clone, Copy)]
pub enum Fate {
    /// It stands.
    Stands,
    /// The rule with that number is the same, and is given before it.
    Again(usize),
    /// It is prose alone, and the rule with that number has elements.
    Yields(usize),
}

// The number of the first of these rules to which the rule yields, or how many there are. Their definitions that have
// elements are listed by name.
fn find_wanted(
    names: &RuleTable<Vec<usize>>,
    rules: &[GivenRule],
    rule: &GivenRule,
) -> Result<usize, Memory>
    requires { ListNames Listed.Elements rules.now names.now }
    ensures { IfOk result (λ first. first ≡ first_wanted (text_rule rule.now) (map text_rule rules.now)) }
{
    if !rule.is_prose {
        return Ok(rules.len());
    }
    first_number(names, &rule.name, rules.len())
}

// The number of the first of these rules that is the same as the rule with that key, or how many there are. They are
// listed by key. Two rules of one key are the same, so that one comparison is enough.
fn find_same(
    keys: &RuleTable<Vec<usize>>,
    key: &[u8],
    rules: &[GivenRule],
    rule: &GivenRule,
) -> Result<usize, Memory>
    requires listed { ListKeys rules.now keys.now }
    requires key { key.now ≡ key_of_rule (text_rule rule.now) }
    ensures { IfOk result (λ first. first ≡ first_same (text_rule rule.now) (map text_rule rules.now)) }
{
    let mut position = first_number(keys, key, rules.len())?;
    while position < rules.len() && !rule.is_same(false, &rules[position]) {
        position += 1;
    }
    Ok(position)
}

// The fate of the rule with that number and key. All definitions that have elements are listed by name, and the
// rules before this one by key.
fn fate_at(
    names: &RuleTable<Vec<usize>>,
    keys: &RuleTable<Vec<usize>>,
    key: &[u8],
    rules: &[GivenRule],
    number: usize,
    rule: &GivenRule,
) -> Result<Fate, Memory>
    requires number { number ≤ length rules.now }
    requires names { ListNames Listed.Elements rules.now names.now }
    requires keys { ListKeys (take number rules.now) keys.now }
    requires key { key.now ≡ key_of_rule (text_rule rule.now) }
    ensures { IfOk result (λ fate. fate
        ≡ fate_of (map text_rule rules.now) (take number (map text_rule rules.now)) (text_rule rule.now)) }
{
    let wanted = find_wanted(names, rules, rule)?;
    if wanted < rules.len() {
        return Ok(Fate::Yields(wanted));
    }
    let same = find_same(keys, key, &rules[..number], rule)?;
    if same < number {
        return Ok(Fate::Again(same));
    }
    Ok(Fate::Stands)
}

/// Returns the fate of each rule, in order. Each is looked up by its name and by its elements.
///
/// # Errors
/// `Memory` if an allocation fails.
pub fn find_fates(alloc: Global, rules: &[GivenRule]) -> Result<Vec<Fate>, Memory>
    ensures { IfOk result (λ fates. fates.items ≡ fates_of (map text_rule rules.now)) }
{
    let names = numbers_by_name(alloc, Listed::Elements, rules)?;
    let mut keys = RuleTable::new(alloc, NameCase::Exact);
    let mut fates = Vec::new(alloc);
    for number in 0..rules.len() {
        let rule = &rules[number];
        let key = rule_key(alloc, rule)?;
        let fate = fate_at(&names, &keys, &key, rules, number, rule)?;
        fates.push(fate)?;
        add_number(alloc, &mut keys, &key, number)?;
    }
    Ok(fates)
}

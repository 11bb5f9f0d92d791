//! Rules that lead to some terminal, as far as their words say.
ghost use Rattle.std.specs.Prelude.{◌≡◌, ◌++◌, IfOk, OnOk, length, map};
ghost use Rattle.std.specs.List.{list_any};
ghost use Rattle.abnfread.specs.AbnfTable.{IsCoreTable};
ghost use Rattle.fixpoint.specs.Demands.{owned_demand_of, owned_demands_of};
ghost use Rattle.ruletable.specs.Rules.{HasUniqueNames};
ghost use Rattle.rfcvalues.specs.AssignedValues.{is_core};
ghost use Rattle.rfcvalues.specs.GroundedNeeds.{AreGroundedMarks, AreNumbersByName, name_demands, rule_demand};
ghost use Rattle.rfcvalues.specs.GroundedNeeds.{word_numbers as numbers_of_words};
ghost use Rattle.rfcvalues.specs.RuleSketches.{rule_sketched};

use crate::sketch::RuleSketch;
use abnfread::{Elem, core_rules};
use diagnostics::add_number;
use fixpoint::{OwnedNeed, borrowed_needs, least};
use ruletable::{Memory, NameCase, RuleTable};
use std::alloc::Global;

// Lists the numbers of rules by their names, in whatever case.
fn numbers_by_name(alloc: Global, rules: &[RuleSketch]) -> Result<RuleTable<Vec<usize>>, Memory>
    ensures { IfOk result (λ lists. AreNumbersByName (map rule_sketched rules.now) lists) }
{
    let mut lists = RuleTable::new(alloc, NameCase::Fold);
    for number in 0..rules.len() {
        add_number(alloc, &mut lists, &rules[number].name, number)?;
    }
    Ok(lists)
}

// The numbers of the names among the words of a rule, from that number on.
fn word_numbers(
    alloc: Global,
    lists: &RuleTable<Vec<usize>>,
    first: usize,
    words: &[Vec<u8>],
) -> Result<Vec<usize>, Memory>
    ensures { IfOk result (λ row. row.items ≡ numbers_of_words lists.now first (map (λ word. word.items) words.now)) }
{
    let mut row = Vec::new(alloc);
    for word in words {
        if let Some(id) = lists.find(word)? {
            // More numbers than memory has bytes have no room.
            let Some(number) = first.checked_add(id) else {
                return Err(Memory);
            };
            row.push(number)?;
        }
    }
    Ok(row)
}

// Whether a core rule is among the words.
fn has_core(core: &RuleTable<Elem>, words: &[Vec<u8>]) -> Result<bool, Memory>
    requires { IsCoreTable core.now }
    ensures { IfOk result (λ found. found ≡ list_any is_core (map (λ word. word.items) words.now)) }
{
    for word in words {
        if core.find(word)?.is_some() {
            return Ok(true);
        }
    }
    Ok(false)
}

// What a rule needs to lead to some terminal: nothing if it has a mark or uses a core rule; else one of its words.
fn rule_need(
    alloc: Global,
    core: &RuleTable<Elem>,
    lists: &RuleTable<Vec<usize>>,
    first: usize,
    rule: &RuleSketch,
) -> Result<OwnedNeed, Memory>
    requires { IsCoreTable core.now }
    ensures { IfOk result (λ need. owned_demand_of need ≡ rule_demand lists.now first (rule_sketched rule.now)) }
{
    if rule.is_marked {
        return Ok(OwnedNeed::All(Vec::new(alloc)));
    }
    if has_core(core, &rule.uses)? {
        return Ok(OwnedNeed::All(Vec::new(alloc)));
    }
    let row = word_numbers(alloc, lists, first, &rule.uses)?;
    Ok(OwnedNeed::One(row))
}

// What each rule needs.
fn rule_needs(
    alloc: Global,
    core: &RuleTable<Elem>,
    lists: &RuleTable<Vec<usize>>,
    rules: &[RuleSketch],
) -> Result<Vec<OwnedNeed>, Memory>
    requires { IsCoreTable core.now }
    ensures { IfOk result (λ needs. owned_demands_of needs.items
        ≡ map (rule_demand lists.now (length rules.now)) (map rule_sketched rules.now)) }
{
    let mut needs = Vec::new(alloc);
    for rule in rules {
        let need = rule_need(alloc, core, lists, rules.len(), rule)?;
        needs.push(need)?;
    }
    Ok(needs)
}

// Adds what each name needs: one of the rules that have it.
fn push_name_needs(
    alloc: Global,
    needs: &mut Vec<OwnedNeed>,
    lists: &RuleTable<Vec<usize>>,
) -> Result<(), Memory>
    ensures needs { OnOk result (owned_demands_of needs.new.items
        ≡ owned_demands_of needs.old.items ++ name_demands lists.now) }
    ensures unique { OnOk result (HasUniqueNames lists.now) }
{
    for id in 0..lists.len() {
        let row = Vec::from_slice(alloc, lists.body(id))?;
        needs.push(OwnedNeed::One(row))?;
    }
    Ok(())
}

/// Returns of each rule whether it is grounded: it has a mark, or uses a core rule or a name that such a rule has.
///
/// # Errors
/// `Memory` if an allocation fails.
pub(crate) fn grounded_rules(alloc: Global, rules: &[RuleSketch]) -> Result<Vec<bool>, Memory>
    ensures { IfOk result (λ marks. AreGroundedMarks (map rule_sketched rules.now) marks.items) }
{
    let core = core_rules(alloc)?;
    let lists = numbers_by_name(alloc, rules)?;
    let mut needs = rule_needs(alloc, &core, &lists, rules)?;
    push_name_needs(alloc, &mut needs, &lists)?;
    let borrowed = borrowed_needs(alloc, &needs)?;
    Ok(least(alloc, &borrowed)?)
}

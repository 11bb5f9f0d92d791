//! The order in which rules are printed, and definitions of one name.
ghost use Rattle.std.specs.Prelude.{◌≡◌, ◌<◌, ◌≤◌, ◌++◌, length, map, take, IfOk, OnOk};
ghost use Rattle.abnftexts.specs.GivenRules.{text_rule};
ghost use Rattle.abnftexts.specs.JoinedRules.{first_definition, printed_at, joined_order, clash_at, clashes_of};
ghost use Rattle.abnftexts.specs.ListedRules.{ListNames};

use crate::join::by_name::{Listed, first_number, list_rule, numbers_by_name};
use crate::join::given::GivenRule;
use diagnostics::numbers_of;
use ruletable::{Memory, NameCase, RuleTable};
use std::alloc::Global;

/// Two definitions of one name. Rules count from 0, in the order in which they stand in the list.
#[derive(Clone, Copy)]
pub struct Clash {
    /// The number of the first definition.
    pub first: usize,
    /// The number of the other one.
    pub second: usize,
}

// The number of the first definition of the rule's name, or how many rules there are. Definitions are listed by name.
fn find_definition(
    names: &RuleTable<Vec<usize>>,
    rules: &[GivenRule],
    rule: &GivenRule,
) -> Result<usize, Memory>
    requires { ListNames Listed.Definitions rules.now names.now }
    ensures { IfOk result (λ first. first ≡ first_definition (text_rule rule.now) (map text_rule rules.now)) }
{
    first_number(names, &rule.name, rules.len())
}

// Adds what is printed at the position of a rule. Definitions are listed by name, and what adds to one and is given
// before the rule.
fn push_printed(
    order: &mut Vec<usize>,
    names: &RuleTable<Vec<usize>>,
    added: &RuleTable<Vec<usize>>,
    rules: &[GivenRule],
    number: usize,
    rule: &GivenRule,
) -> Result<(), Memory>
    requires number { number ≤ length rules.now }
    requires names { ListNames Listed.Definitions rules.now names.now }
    requires added { ListNames Listed.Additions (take number rules.now) added.now }
    ensures { OnOk result (order.new.items
        ≡ order.old.items ++ printed_at (map text_rule rules.now) number (text_rule rule.now)) }
{
    let first = find_definition(names, rules, rule)?;
    if rule.adds {
        if first < number || first == rules.len() {
            order.push(number)?;
        }
        return Ok(());
    }
    order.push(number)?;
    if first == number {
        let numbers = numbers_of(added, &rule.name)?;
        order.extend_from_slice(numbers)?;
    }
    Ok(())
}

/// Returns the numbers of the rules in the order in which they are printed: that of the list, but what adds to a later
/// definition directly follows that definition. All of the rules must stand.
///
/// # Errors
/// `Memory` if an allocation fails.
pub fn find_order(alloc: Global, rules: &[GivenRule]) -> Result<Vec<usize>, Memory>
    ensures { IfOk result (λ order. order.items ≡ joined_order (map text_rule rules.now)) }
{
    let names = numbers_by_name(alloc, Listed::Definitions, rules)?;
    let mut added = RuleTable::new(alloc, NameCase::Fold);
    let mut order = Vec::new(alloc);
    for number in 0..rules.len() {
        let rule = &rules[number];
        push_printed(&mut order, &names, &added, rules, number, rule)?;
        list_rule(alloc, &mut added, Listed::Additions, rule, number)?;
    }
    Ok(order)
}

// Adds a definition and the first one of its name, if that stands before it. Definitions are listed by name.
fn push_clash(
    clashes: &mut Vec<Clash>,
    names: &RuleTable<Vec<usize>>,
    rules: &[GivenRule],
    number: usize,
    rule: &GivenRule,
) -> Result<(), Memory>
    requires { ListNames Listed.Definitions rules.now names.now }
    ensures { OnOk result (clashes.new.items
        ≡ clashes.old.items ++ clash_at (map text_rule rules.now) number (text_rule rule.now)) }
{
    let first = find_definition(names, rules, rule)?;
    if !rule.adds && first < number {
        clashes.push(Clash {
            first,
            second: number,
        })?;
    }
    Ok(())
}

/// Returns the definitions of a name after its first one, in order. All of the rules must stand.
///
/// # Errors
/// `Memory` if an allocation fails.
pub fn find_clashes(alloc: Global, rules: &[GivenRule]) -> Result<Vec<Clash>, Memory>
    ensures { IfOk result (λ clashes. clashes.items ≡ clashes_of (map text_rule rules.now)) }
{
    let names = numbers_by_name(alloc, Listed::Definitions, rules)?;
    let mut clashes = Vec::new(alloc);
    for number in 0..rules.len() {
        push_clash(&mut clashes, &names, rules, number, &rules[number])?;
    }
    Ok(clashes)
}

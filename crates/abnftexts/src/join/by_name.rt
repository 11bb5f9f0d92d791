//! Lists of the numbers of rules, by name.
ghost use Rattle.std.specs.Prelude.{◌≡◌, IfOk, OnOk, slice_get};
ghost use Rattle.std.specs.Option.{unwrap_or};
ghost use Rattle.ruletable.specs.declared.table.NameCase.TheVariants.{Fold};
ghost use Rattle.diagnostics.specs.NumberLists.{numbers_for};
ghost use Rattle.abnftexts.specs.GivenRules.{text_rule};
ghost use Rattle.abnftexts.specs.ListedRules.{ListNames, ListsRule, is_listed as listed_so};

use crate::join::given::GivenRule;
use diagnostics::{add_number, numbers_of};
use ruletable::{Memory, NameCase, RuleTable};
use std::alloc::Global;

/// Which rules are listed.
#[derive(Clone, Copy)]
pub(crate) enum Listed {
    /// All of them.
    Rules,
    /// Definitions.
    Definitions,
    /// Definitions that have elements.
    Elements,
    /// Alternatives that are added to a definition (`=/`).
    Additions,
}

// Whether a rule is listed.
fn is_listed(listed: Listed, rule: &GivenRule) -> bool
    ensures { result ≡ listed_so listed (text_rule rule.now) }
{
    match listed {
        Listed::Rules => true,
        Listed::Definitions => !rule.adds,
        Listed::Elements => !rule.adds && !rule.is_prose,
        Listed::Additions => rule.adds,
    }
}

/// Returns the first number that is listed for a name, or `none` if there is no list.
///
/// `Memory` if an allocation fails.
pub(crate) fn first_number(
    lists: &RuleTable<Vec<usize>>,
    name: &[u8],
    none: usize,
) -> Result<usize, Memory>
    ensures { IfOk result (λ first. first ≡ unwrap_or (slice_get (numbers_for lists.now name.now) 0) none) }
{
    let numbers = numbers_of(lists, name)?;
    Ok(numbers.first().copied().unwrap_or(none))
}

/// Adds the number of a rule to the list of its name, if it is listed.
///
/// `Memory` if an allocation fails.
pub(crate) fn list_rule(
    alloc: Global,
    lists: &mut RuleTable<Vec<usize>>,
    listed: Listed,
    rule: &GivenRule,
    number: usize,
) -> Result<(), Memory>
    requires { lists.old.names ≡ Fold }
    ensures { OnOk result (ListsRule listed (text_rule rule.now) number lists.old lists.new) }
{
    if is_listed(listed, rule) {
        add_number(alloc, lists, &rule.name, number)?;
    }
    Ok(())
}

/// Lists the numbers of rules by their names, in whatever case.
///
/// `Memory` if an allocation fails.
pub(crate) fn numbers_by_name(
    alloc: Global,
    listed: Listed,
    rules: &[GivenRule],
) -> Result<RuleTable<Vec<usize>>, Memory>
    ensures { IfOk result (λ lists. ListNames listed rules.now lists) }
{
    let mut lists = RuleTable::new(alloc, NameCase::Fold);
    for number in 0..rules.len() {
        list_rule(alloc, &mut lists, listed, &rules[number], number)?;
    }
    Ok(lists)
}

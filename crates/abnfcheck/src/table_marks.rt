//! Marks on the rules of any table.
ghost use Rattle.std.specs.Prelude.{◌≡◌, Bool, length, slice_index_or, IfOk};
ghost use Rattle.fixpoint.specs.Demands.{demand_of, demands_of};
ghost use Rattle.fixpoint.specs.StepRows.{rows_of};
ghost use Rattle.fixpoint.specs.IdMarks.{AreMarks};
ghost use Rattle.abnfread.specs.AbnfViews.{rules_of};
ghost use Rattle.abnfcheck.specs.AbnfGrammar.{IsSound};
ghost use Rattle.abnfcheck.specs.AbnfNotes.{AreOthersRefused};
ghost use Rattle.abnfcheck.specs.BrokenNeeds.{AreBrokenNeeds, broken_demand};
ghost use Rattle.abnfcheck.specs.RuleMarks.{AreProductive};

use crate::aim::Aim;
use crate::name_ids::name_ids;
use crate::prose::rules_with_prose;
use crate::rule_marks::rule_marks;
use abnfread::Elem;
use fixpoint::{Need, least, opposites};
use ruletable::{Alphabet, Memory, NameCase, RuleTable};
use std::alloc::Global;

// Returns whether a name has no rule, or its rule holds prose.
fn has_no_body(prose: &[bool], id: usize) -> bool
    ensures { result ≡ slice_index_or prose.now id Bool.true }
{
    match prose.get(id) {
        Some(holds) => *holds,
        None => true,
    }
}

// Returns the need of a name: none if it is broken by itself, else one of the names in the body of its rule.
fn broken_need(is_broken: bool, row: &[usize]) -> Need<'_>
    ensures { demand_of result ≡ broken_demand is_broken row.now }
{
    if is_broken {
        Need::All(&[])
    } else {
        Need::One(row)
    }
}

// Returns the needs by which the names are found that reach one without a rule, or prose.
fn broken_needs<'a>(
    alloc: Global,
    rows: &'a [Vec<usize>],
    prose: &[bool],
) -> Result<Vec<Need<'a>>, Memory>
    ensures { IfOk result (λ needs. AreBrokenNeeds (rows_of rows.now) prose.now (demands_of needs.items)) }
{
    let mut needs = Vec::new(alloc);
    for id in 0..rows.len() {
        needs.push(broken_need(has_no_body(prose, id), &rows[id]))?;
    }
    Ok(needs)
}

/// Returns a mark for each rule of a table, by id: whether lines could be judged by it. Then no name without a rule can
/// be reached from it, and no prose; from each other rule one can. The time is linear in the rules and their elements.
///
/// # Errors
/// `Memory` if an allocation fails.
pub fn sound_rules(alloc: Global, rules: &RuleTable<Elem>) -> Result<Vec<bool>, Memory>
    requires { rules.now.names ≡ NameCase.Fold }
    ensures sound { IfOk result (λ marks. AreMarks (IsSound (rules_of rules.now)) (length (rules_of rules.now))
        marks.items) }
    ensures others { IfOk result (λ marks. AreOthersRefused (rules_of rules.now) marks.items) }
{
    let ids = name_ids(alloc, rules, None)?;
    let prose = rules_with_prose(alloc, rules)?;
    let needs = broken_needs(alloc, &ids.rows, &prose)?;
    let broken = least(alloc, &needs)?;
    opposites(alloc, &broken[..rules.len()])
}

/// Returns a mark for each rule of a table, by id: whether it derives some line over the alphabet, as
/// `productive` does of a sound grammar.
///
/// # Errors
/// `Memory` if an allocation fails.
pub fn productive_rules(
    alloc: Global,
    rules: &RuleTable<Elem>,
    alphabet: Alphabet,
) -> Result<Vec<bool>, Memory>
    requires { rules.now.names ≡ NameCase.Fold }
    ensures { IfOk result (λ marks. AreProductive alphabet (rules_of rules.now) marks.items) }
{
    let mut marks = rule_marks(alloc, Aim::Letters(alphabet), rules)?;
    marks.truncate(rules.len());
    Ok(marks)
}

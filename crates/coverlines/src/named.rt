//! The rules to which names lead from the judged one.
ghost use Rattle.std.specs.Prelude.{◌≡◌, ◌<◌, ◌↔◌, ℕ, IfOk, length};
ghost use Rattle.fixpoint.specs.NumberMarks.{IsMarked};
ghost use Rattle.fixpoint.specs.StepRows.{rows_of};
ghost use Rattle.abnfread.specs.AbnfViews.{element_of, elements_of, rules_of};
ghost use Rattle.abnfread.specs.Element.{id_of};
ghost use Rattle.abnfcheck.specs.AbnfGrammar.{Reachable};
ghost use Rattle.coverlines.specs.NamedIds.{AddsNamed, AreNamedRows, HasNameOf, SomeHasNameOf};

use abnfread::Elem;
use fixpoint::{reached, slices};
use ruletable::{Memory, NameCase, RuleTable};
use std::alloc::Global;

// Adds the ids of the rules that an element names.
#[cycle(named)]
fn add_named(rules: &RuleTable<Elem>, e: &Elem, row: &mut Vec<usize>) -> Result<(), Memory>
    requires { rules.now.names ≡ NameCase.Fold }
    ensures { IfOk result (λ _. AddsNamed (HasNameOf (rules_of rules.now) (element_of e.now)) row.old.items
        row.new.items) }
{
    match e {
        Elem::Name(name) => add_id(rules, name, row),
        Elem::Concat(members) => add_all_named(rules, members, row),
        Elem::Alt(alternatives) => add_all_named(rules, alternatives, row),
        Elem::Rep { operand, .. } => add_named(rules, operand, row),
        Elem::Opt(operand) => add_named(rules, operand, row),
        Elem::Text { .. } | Elem::Values(_) | Elem::Range { .. } | Elem::Prose(_) => Ok(()),
    }
}

// Adds the ids of the rules that some elements name.
#[cycle(named)]
fn add_all_named(
    rules: &RuleTable<Elem>,
    members: &[Elem],
    row: &mut Vec<usize>,
) -> Result<(), Memory>
    requires { rules.now.names ≡ NameCase.Fold }
    ensures { IfOk result (λ _. AddsNamed (SomeHasNameOf (rules_of rules.now) (elements_of members.now)) row.old.items
        row.new.items) }
{
    for member in members {
        add_named(rules, member, row)?;
    }
    Ok(())
}

// Adds the id of the rule with that name, if there is one.
fn add_id(rules: &RuleTable<Elem>, name: &[u8], row: &mut Vec<usize>) -> Result<(), Memory>
    requires { rules.now.names ≡ NameCase.Fold }
    ensures { IfOk result (λ _. AddsNamed (λ id. (id ≡ id_of (rules_of rules.now) name.now)
        × (id < length (rules_of rules.now))) row.old.items row.new.items) }
{
    let Some(id) = rules.find(name)? else {
        return Ok(());
    };
    row.push(id)?;
    Ok(())
}

// Returns of each rule the ids of the rules that its body names.
fn named_rows(alloc: Global, rules: &RuleTable<Elem>) -> Result<Vec<Vec<usize>>, Memory>
    requires { rules.now.names ≡ NameCase.Fold }
    ensures { IfOk result (λ rows. AreNamedRows (rules_of rules.now) (rows_of rows.items)) }
{
    let mut rows = Vec::new(alloc);
    for id in 0..rules.len() {
        let mut row = Vec::new(alloc);
        add_named(rules, rules.body(id), &mut row)?;
        rows.push(row)?;
    }
    Ok(rows)
}

/// Returns one mark for each rule, set for the judged one and for those to which names lead from it.
pub(crate) fn named_rules(
    alloc: Global,
    rules: &RuleTable<Elem>,
    judged: usize,
) -> Result<Vec<bool>, Memory>
    requires names { rules.now.names ≡ NameCase.Fold }
    requires judged { judged < length rules.now.rules }
    ensures count { IfOk result (λ marks. length marks.items ≡ length rules.now.rules) }
    ensures marks { IfOk result (λ marks. (id : ℕ) → id < length rules.now.rules
        → (IsMarked marks.items id ↔ Reachable (rules_of rules.now) judged id)) }
{
    let rows = named_rows(alloc, rules)?;
    let steps = slices(alloc, &rows)?;
    Ok(reached(alloc, &steps, &[judged])?)
}

//! Which rules derive more than the empty list.
ghost use Rattle.std.specs.Prelude.{◌≡◌, ◌++◌, ◌∷◌, [], if◌then◌else◌, length, IfOk};
ghost use Rattle.fixpoint.specs.Demands.{owned_demands_of};
ghost use Rattle.abnfread.specs.AbnfViews.{element_of, elements_of, rules_of};
ghost use Rattle.lowering.specs.MoreMarks.{AreMoreMarks, all_sources, may_iterate, source_demands, sources};

use abnfread::Elem;
use fixpoint::{OwnedNeed, borrowed_needs, least};
use ruletable::{Memory, NameCase, RuleTable};
use std::alloc::Global;

// Returns whether a repetition may have an iteration.
fn may_iterate(most: Option<u32>) -> bool
    ensures { result ≡ may_iterate most }
{
    match most {
        Some(most) => most > 0,
        None => true,
    }
}

// Adds a number, unless a fact holds.
fn push_unless(row: &mut Vec<usize>, holds: bool, number: usize) -> Result<(), Memory>
    ensures { IfOk result (λ done. row.new.items ≡ row.old.items ++ (if holds then [] else number ∷ [])) }
{
    if !holds {
        row.push(number)?;
    }
    Ok(())
}

// Adds the sources of an element: of each terminal of a symbol or more the number of rules, and of each name the id of
// its rule. An operand that is never iterated has none.
#[cycle(sourcing)]
fn add_sources(rules: &RuleTable<Elem>, e: &Elem, row: &mut Vec<usize>) -> Result<(), Memory>
    requires { rules.now.names ≡ NameCase.Fold }
    ensures { IfOk result (λ done. row.new.items ≡ row.old.items ++ sources (rules_of rules.now) (element_of e.now)) }
{
    match e {
        Elem::Text { text, .. } => push_unless(row, text.is_empty(), rules.len()),
        Elem::Values(values) => push_unless(row, values.is_empty(), rules.len()),
        Elem::Range { .. } => push_unless(row, false, rules.len()),
        Elem::Concat(members) => add_all_sources(rules, members, row),
        Elem::Alt(alternatives) => add_all_sources(rules, alternatives, row),
        Elem::Rep { most, operand, .. } => {
            if may_iterate(*most) {
                add_sources(rules, operand, row)
            } else {
                Ok(())
            }
        }
        Elem::Opt(operand) => add_sources(rules, operand, row),
        Elem::Name(name) => {
            let found = rules.find(name)?;
            push_unless(row, false, found.unwrap_or(rules.len()))
        }
        Elem::Prose(_) => Ok(()),
    }
}

// Adds the sources of each of them in turn.
#[cycle(sourcing)]
fn add_all_sources(
    rules: &RuleTable<Elem>,
    members: &[Elem],
    row: &mut Vec<usize>,
) -> Result<(), Memory>
    requires { rules.now.names ≡ NameCase.Fold }
    ensures { IfOk result (λ done. row.new.items
        ≡ row.old.items ++ all_sources (rules_of rules.now) (elements_of members.now)) }
{
    for member in members {
        add_sources(rules, member, row)?;
    }
    Ok(())
}

// Returns the sources of a rule's body.
fn body_sources(alloc: Global, rules: &RuleTable<Elem>, body: &Elem) -> Result<Vec<usize>, Memory>
    requires { rules.now.names ≡ NameCase.Fold }
    ensures { IfOk result (λ row. row.items ≡ sources (rules_of rules.now) (element_of body.now)) }
{
    let mut row = Vec::new(alloc);
    add_sources(rules, body, &mut row)?;
    Ok(row)
}

// Returns the needs of the rules: each needs one of its sources. After them stands that of the terminals, which is met.
fn source_needs(alloc: Global, rules: &RuleTable<Elem>) -> Result<Vec<OwnedNeed>, Memory>
    requires { rules.now.names ≡ NameCase.Fold }
    ensures { IfOk result (λ needs. owned_demands_of needs.items ≡ source_demands (rules_of rules.now)) }
{
    let mut needs = Vec::new(alloc);
    for id in 0..rules.len() {
        let row = body_sources(alloc, rules, rules.body(id))?;
        needs.push(OwnedNeed::One(row))?;
    }
    needs.push(OwnedNeed::All(Vec::new(alloc)))?;
    Ok(needs)
}

/// Returns a mark for each rule of a table, by id: whether the rule derives a list of symbols that is not empty. The
/// rules must be without the parts that derive nothing. The time is linear in the rules and their elements. `Memory` if
/// an allocation fails.
pub fn more_marks(alloc: Global, rules: &RuleTable<Elem>) -> Result<Vec<bool>, Memory>
    requires { rules.now.names ≡ NameCase.Fold }
    ensures count { IfOk result (λ marks. length marks.items ≡ length (rules_of rules.now)) }
    ensures marks { IfOk result (λ marks. AreMoreMarks (rules_of rules.now) marks.items) }
{
    let needs = source_needs(alloc, rules)?;
    let borrowed = borrowed_needs(alloc, &needs)?;
    let mut marks = least(alloc, &borrowed)?;
    marks.truncate(rules.len());
    Ok(marks)
}

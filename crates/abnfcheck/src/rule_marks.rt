//! Which rules derive the empty string, or some line.
ghost use Rattle.std.specs.Prelude.{◌≡◌, ◌↔◌, ◌≤◌, ℕ, Bool, IsTrue, List, [], ◌∷◌, ◌++◌, length, replicate, IfOk};
ghost use Rattle.fixpoint.specs.Demands.{All, One, AreNeedsWithin, owned_demand_of, owned_demands_of};
ghost use Rattle.abnfread.specs.Element.{Rule, Text, Values, Range, id_of};
ghost use Rattle.abnfread.specs.AbnfViews.{element_of, elements_of, rules_of};
ghost use Rattle.abnfcheck.specs.Derivable.{AreLetters};
ghost use Rattle.ruletable.specs.Letters.{has};
ghost use Rattle.abnfcheck.specs.RuleMarks.{AreMarksFor, AreNumbered, HaveBodyNeeds, IsNumbered};
ghost use Rattle.abnfcheck.specs.RuleMarks.{IsTestOf, Yields, need_if, need_of_id, need_of_repeat};

use crate::aim::Aim;
use abnfread::Elem;
use fixpoint::{OwnedNeed, borrowed_needs, least};
use ruletable::{Alphabet, Memory, NameCase, RuleTable};
use std::alloc::Global;

// Returns the need of all these numbers.
fn all(alloc: Global, numbers: &[usize]) -> Result<OwnedNeed, Memory>
    ensures { IfOk result (λ need. owned_demand_of need ≡ All numbers.now) }
{
    let row = Vec::from_slice(alloc, numbers)?;
    Ok(OwnedNeed::All(row))
}

// Returns a need that is never met.
fn never(alloc: Global) -> Result<OwnedNeed, Memory>
    ensures { IfOk result (λ need. owned_demand_of need ≡ One []) }
{
    Ok(OwnedNeed::One(Vec::new(alloc)))
}

// Returns a need that is met at once, or never.
fn need_of(alloc: Global, met: bool) -> Result<OwnedNeed, Memory>
    ensures { IfOk result (λ need. owned_demand_of need ≡ need_if met) }
{
    if met { all(alloc, &[]) } else { never(alloc) }
}

// Returns whether an alphabet has each of the values.
fn has_all(alphabet: Alphabet, values: &[u32]) -> bool
    ensures { IsTrue result ↔ AreLetters (has alphabet) values.now }
{
    for value in values {
        if !alphabet.has(*value) {
            return false;
        }
    }
    true
}

// Returns whether a text has a spelling that is asked for.
fn text_yields(aim: Aim, text: &[u8]) -> bool
    ensures { (test : ℕ → Bool) (rules : List Rule) (folds : Bool) → IsTestOf aim test
        → (IsTrue result ↔ Yields test rules aim (Text folds text.now)) }
{
    match aim {
        Aim::Empty => text.is_empty(),
        Aim::Letters(_) => true,
    }
}

// Returns whether a list of values is asked for.
fn values_yield(aim: Aim, values: &[u32]) -> bool
    ensures { (test : ℕ → Bool) (rules : List Rule) → IsTestOf aim test
        → (IsTrue result ↔ Yields test rules aim (Values values.now)) }
{
    match aim {
        Aim::Empty => values.is_empty(),
        Aim::Letters(alphabet) => has_all(alphabet, values),
    }
}

// Returns whether a range has a value that is asked for.
fn range_yields(aim: Aim, low: u32, high: u32) -> bool
    ensures { (test : ℕ → Bool) (rules : List Rule) → IsTestOf aim test
        → (IsTrue result ↔ Yields test rules aim (Range low high)) }
{
    match aim {
        Aim::Empty => false,
        Aim::Letters(alphabet) => alphabet.has_between(low, high),
    }
}

// Returns the need of a repetition: none if it may have no iteration, else its operand. Reversed bounds are never met.
fn repeat_need(
    alloc: Global,
    least: u32,
    most: Option<u32>,
    operand: usize,
) -> Result<OwnedNeed, Memory>
    ensures { IfOk result (λ need. owned_demand_of need ≡ need_of_repeat least most operand) }
{
    if least == 0 {
        return all(alloc, &[]);
    }
    match most {
        Some(most) if most < least => never(alloc),
        _ => all(alloc, &[operand]),
    }
}

// Returns the id of the rule of that name, or the number of rules.
fn rule_id(rules: &RuleTable<Elem>, name: &[u8]) -> Result<usize, Memory>
    requires { rules.now.names ≡ NameCase.Fold }
    ensures { IfOk result (λ id. id ≡ id_of (rules_of rules.now) name.now) }
{
    let found = rules.find(name)?;
    Ok(found.unwrap_or(rules.len()))
}

// Returns the need of a name by its id: its rule, if there is one.
fn name_need(alloc: Global, count: usize, id: usize) -> Result<OwnedNeed, Memory>
    ensures { IfOk result (λ need. owned_demand_of need ≡ need_of_id count id) }
{
    if id < count {
        all(alloc, &[id])
    } else {
        never(alloc)
    }
}

// Adds a need, and returns its number.
fn push_need(needs: &mut Vec<OwnedNeed>, need: OwnedNeed) -> Result<usize, Memory>
    ensures number { IfOk result (λ n. n ≡ length needs.old.items) }
    ensures needs { IfOk result (λ _. needs.new.items ≡ needs.old.items ++ need ∷ []) }
{
    let number = needs.len();
    needs.push(need)?;
    Ok(number)
}

// Adds the needs of an element, and returns its number. The first numbers are those of the rules.
#[cycle(needing)]
fn add_needs(
    alloc: Global,
    aim: Aim,
    rules: &RuleTable<Elem>,
    e: &Elem,
    needs: &mut Vec<OwnedNeed>,
) -> Result<usize, Memory>
    requires { rules.now.names ≡ NameCase.Fold }
    ensures { IfOk result (λ n. (test : ℕ → Bool) → IsTestOf aim test →
        IsNumbered test (rules_of rules.now) aim (owned_demands_of needs.old.items) (owned_demands_of needs.new.items) n
        (element_of e.now)) }
{
    let need = match e {
        Elem::Text { text, .. } => need_of(alloc, text_yields(aim, text))?,
        Elem::Values(values) => need_of(alloc, values_yield(aim, values))?,
        Elem::Range { low, high } => need_of(alloc, range_yields(aim, *low, *high))?,
        Elem::Concat(members) => OwnedNeed::All(add_all_needs(alloc, aim, rules, members, needs)?),
        Elem::Alt(alternatives) => OwnedNeed::One(add_all_needs(
            alloc,
            aim,
            rules,
            alternatives,
            needs,
        )?),
        Elem::Rep {
            least,
            most,
            operand,
        } => {
            let operand = add_needs(alloc, aim, rules, operand, needs)?;
            repeat_need(alloc, *least, *most, operand)?
        }
        Elem::Opt(_) => all(alloc, &[])?,
        Elem::Name(name) => name_need(alloc, rules.len(), rule_id(rules, name)?)?,
        Elem::Prose(_) => never(alloc)?,
    };
    push_need(needs, need)
}

// Adds the needs of each of them in turn, and returns their numbers.
#[cycle(needing)]
fn add_all_needs(
    alloc: Global,
    aim: Aim,
    rules: &RuleTable<Elem>,
    members: &[Elem],
    needs: &mut Vec<OwnedNeed>,
) -> Result<Vec<usize>, Memory>
    requires { rules.now.names ≡ NameCase.Fold }
    ensures { IfOk result (λ ns. (test : ℕ → Bool) → IsTestOf aim test →
        AreNumbered test (rules_of rules.now) aim (owned_demands_of needs.old.items) (owned_demands_of needs.new.items)
        ns.items (elements_of members.now)) }
{
    let mut numbers = Vec::new(alloc);
    for member in members {
        let n = add_needs(alloc, aim, rules, member, needs)?;
        numbers.push(n)?;
    }
    Ok(numbers)
}

// Returns so many needs that are never met.
fn unmet(alloc: Global, count: usize) -> Result<Vec<OwnedNeed>, Memory>
    ensures { IfOk result (λ needs. owned_demands_of needs.items ≡ replicate count (One [])) }
{
    let mut needs = Vec::new(alloc);
    for _ in 0..count {
        needs.push(never(alloc)?)?;
    }
    Ok(needs)
}

// Returns the needs of the rules, and then those of the elements in their bodies.
fn rule_needs(alloc: Global, aim: Aim, rules: &RuleTable<Elem>) -> Result<Vec<OwnedNeed>, Memory>
    requires { rules.now.names ≡ NameCase.Fold }
    ensures fits { IfOk result (λ needs. length (rules_of rules.now) ≤ length (owned_demands_of needs.items)) }
    ensures within { IfOk result (λ needs. AreNeedsWithin (owned_demands_of needs.items)) }
    ensures bodies { IfOk result (λ needs. (test : ℕ → Bool) → IsTestOf aim test →
        HaveBodyNeeds test (rules_of rules.now) aim (owned_demands_of needs.items) (length (rules_of rules.now))) }
{
    let mut needs = unmet(alloc, rules.len())?;
    for id in 0..rules.len() {
        let n = add_needs(alloc, aim, rules, rules.body(id), &mut needs)?;
        needs[id] = all(alloc, &[n])?;
    }
    Ok(needs)
}

/// Marks the rules that derive what is asked for, by id. Marks after those of the rules mean nothing. The time is
/// linear in the rules and their elements.
///
/// `Memory` if an allocation fails.
pub(crate) fn rule_marks(
    alloc: Global,
    aim: Aim,
    rules: &RuleTable<Elem>,
) -> Result<Vec<bool>, Memory>
    requires { rules.now.names ≡ NameCase.Fold }
    ensures marks { IfOk result (λ marks. AreMarksFor aim (rules_of rules.now) marks.items) }
    ensures count { IfOk result (λ marks. length (rules_of rules.now) ≤ length marks.items) }
{
    let needs = rule_needs(alloc, aim, rules)?;
    let borrowed = borrowed_needs(alloc, &needs)?;
    Ok(least(alloc, &borrowed)?)
}

//! Copies elements and rules without what holds a symbol.
ghost use Rattle.std.specs.Prelude.{◌≡◌, ◌↔◌, ◌<◌, ◌≤◌, ◌+◌, IsTrue, Contains, IfOk};
ghost use Rattle.abnfread.specs.Element as e;
ghost use Rattle.abnfread.specs.AbnfViews.{element_of, elements_of, rules_of};
ghost use Rattle.abnfhints.specs.WithoutLetter.{IsWithout, AreWithout, AreRulesWithout};

use abnfread::Elem;
use ruletable::{Memory, NameCase, RuleTable};
use std::alloc::Global;

// Returns an element that derives nothing.
fn nothing(alloc: Global) -> Elem
    ensures { element_of result ≡ e.Alt e.none }
{
    Elem::Alt(Vec::new(alloc))
}

// Returns the rest of a text.
fn text_without(alloc: Global, letter: u8, folds: bool, text: &[u8]) -> Result<Elem, Memory>
    ensures { IfOk result (λ left. IsWithout letter (e.Text folds text.now) (element_of left)) }
{
    if text.contains(&letter) {
        return Ok(nothing(alloc));
    }
    let text = Vec::from_slice(alloc, text)?;
    Ok(Elem::Text { folds, text })
}

// Returns the rest of a list of values.
fn values_without(alloc: Global, letter: u8, values: &[u32]) -> Result<Elem, Memory>
    ensures { IfOk result (λ left. IsWithout letter (e.Values values.now) (element_of left)) }
{
    if values.contains(&u32::from(letter)) {
        return Ok(nothing(alloc));
    }
    let values = Vec::from_slice(alloc, values)?;
    Ok(Elem::Values(values))
}

// Returns the rest of a range: the parts before the symbol and after it.
fn range_without(alloc: Global, letter: u8, low: u32, high: u32) -> Result<Elem, Memory>
    ensures { IfOk result (λ left. IsWithout letter (e.Range low high) (element_of left)) }
{
    let letter = u32::from(letter);
    if letter < low || high < letter {
        return Ok(Elem::Range { low, high });
    }
    let after = Elem::Range {
        low: letter + 1,
        high,
    };
    if low == letter {
        return Ok(after);
    }
    let mut parts = Vec::new(alloc);
    parts.push(Elem::Range {
        low,
        high: letter - 1,
    })?;
    parts.push(after)?;
    Ok(Elem::Alt(parts))
}

// Returns the rest of an element.
#[cycle(leaving)]
fn without(alloc: Global, letter: u8, e: &Elem) -> Result<Elem, Memory>
    ensures { IfOk result (λ left. IsWithout letter (element_of e.now) (element_of left)) }
{
    match e {
        Elem::Text { folds, text } => text_without(alloc, letter, *folds, text),
        Elem::Values(values) => values_without(alloc, letter, values),
        Elem::Range { low, high } => range_without(alloc, letter, *low, *high),
        Elem::Concat(members) => {
            let members = all_without(alloc, letter, members)?;
            Ok(Elem::Concat(members))
        }
        Elem::Alt(alternatives) => {
            let alternatives = all_without(alloc, letter, alternatives)?;
            Ok(Elem::Alt(alternatives))
        }
        Elem::Rep {
            least,
            most,
            operand,
        } => {
            let left = without(alloc, letter, operand)?;
            let operand = Box::new(alloc, left)?;
            Ok(Elem::Rep {
                least: *least,
                most: *most,
                operand,
            })
        }
        Elem::Opt(operand) => {
            let left = without(alloc, letter, operand)?;
            let operand = Box::new(alloc, left)?;
            Ok(Elem::Opt(operand))
        }
        Elem::Name(name) => Ok(Elem::Name(Vec::from_slice(alloc, name)?)),
        Elem::Prose(_) => Ok(Elem::Prose(Vec::new(alloc))),
    }
}

// Returns the rest of each of them, in order.
#[cycle(leaving)]
fn all_without(alloc: Global, letter: u8, members: &[Elem]) -> Result<Vec<Elem>, Memory>
    ensures { IfOk result (λ left. AreWithout letter (elements_of members.now) (elements_of left.items)) }
{
    let mut left = Vec::new(alloc);
    for member in members {
        left.push(without(alloc, letter, member)?)?;
    }
    Ok(left)
}

/// Returns the rules with what is left of their bodies: they derive those lists in which the symbol does not stand.
///
/// `Memory` if an allocation fails.
pub(crate) fn rules_without(
    alloc: Global,
    letter: u8,
    rules: &RuleTable<Elem>,
) -> Result<RuleTable<Elem>, Memory>
    requires { rules.now.names ≡ NameCase.Fold }
    ensures folds { IfOk result (λ left. left.names ≡ NameCase.Fold) }
    ensures left { IfOk result (λ left. AreRulesWithout letter (rules_of rules.now) (rules_of left)) }
{
    let mut left = RuleTable::new(alloc, NameCase::Fold);
    for id in 0..rules.len() {
        let body = without(alloc, letter, rules.body(id))?;
        left.define(rules.name(id), body, rules.span(id))?;
    }
    Ok(left)
}

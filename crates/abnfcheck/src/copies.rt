//! Copies of rules, since a grammar owns its rules, and grammars of copies.
ghost use Rattle.std.specs.Prelude.{◌≡◌, IfOk};
ghost use Rattle.abnfread.specs.AbnfViews.{element_of, elements_of, rules_of};

use abnfread::Elem;
use ruletable::{Memory, NameCase, RuleTable};
use std::alloc::Global;

mod reach;
mod unrolled;

pub use reach::reached_grammar;
pub use unrolled::unrolled_grammar;

/// Returns a copy of an element. `Memory` if an allocation fails.
#[cycle(copying)]
pub(crate) fn copied(alloc: Global, e: &Elem) -> Result<Elem, Memory>
    ensures { IfOk result (λ copy. element_of copy ≡ element_of e.now) }
{
    match e {
        Elem::Text { folds, text } => {
            let text = Vec::from_slice(alloc, text)?;
            Ok(Elem::Text {
                folds: *folds,
                text,
            })
        }
        Elem::Values(values) => Ok(Elem::Values(Vec::from_slice(alloc, values)?)),
        Elem::Range { low, high } => Ok(Elem::Range {
            low: *low,
            high: *high,
        }),
        Elem::Concat(members) => Ok(Elem::Concat(all_copied(alloc, members)?)),
        Elem::Alt(alternatives) => Ok(Elem::Alt(all_copied(alloc, alternatives)?)),
        Elem::Rep {
            least,
            most,
            operand,
        } => {
            let operand = Box::new(alloc, copied(alloc, operand)?)?;
            Ok(Elem::Rep {
                least: *least,
                most: *most,
                operand,
            })
        }
        Elem::Opt(operand) => Ok(Elem::Opt(Box::new(alloc, copied(alloc, operand)?)?)),
        Elem::Name(name) => Ok(Elem::Name(Vec::from_slice(alloc, name)?)),
        Elem::Prose(text) => Ok(Elem::Prose(Vec::from_slice(alloc, text)?)),
    }
}

/// Returns a copy of each of them, in order. `Memory` if an allocation fails.
#[cycle(copying)]
pub(crate) fn all_copied(alloc: Global, members: &[Elem]) -> Result<Vec<Elem>, Memory>
    ensures { IfOk result (λ copies. elements_of copies.items ≡ elements_of members.now) }
{
    let mut copies = Vec::new(alloc);
    for member in members {
        copies.push(copied(alloc, member)?)?;
    }
    Ok(copies)
}

/// Returns a copy of a table of rules. `Memory` if an allocation fails.
pub fn copied_rules(alloc: Global, rules: &RuleTable<Elem>) -> Result<RuleTable<Elem>, Memory>
    requires { rules.now.names ≡ NameCase.Fold }
    ensures names { IfOk result (λ copy. copy.names ≡ NameCase.Fold) }
    ensures rules { IfOk result (λ copy. rules_of copy ≡ rules_of rules.now) }
{
    let mut copy = RuleTable::new(alloc, NameCase::Fold);
    for id in 0..rules.len() {
        let body = copied(alloc, rules.body(id))?;
        copy.define(rules.name(id), body, rules.span(id))?;
    }
    Ok(copy)
}

//! Which rules hold prose.
ghost use Rattle.std.specs.Prelude.{◌≡◌, IfOk};
ghost use Rattle.abnfread.specs.AbnfViews.{element_of, elements_of, rules_of};
ghost use Rattle.abnfcheck.specs.ProseIn.{prose_in, prose_in_one, prose_marks};

use abnfread::Elem;
use ruletable::{Memory, RuleTable};
use std::alloc::Global;

// Returns whether prose stands in an element.
#[cycle(looking)]
fn has_prose(e: &Elem) -> bool
    ensures { result ≡ prose_in (element_of e.now) }
{
    match e {
        Elem::Prose(_) => true,
        Elem::Concat(members) => one_has_prose(members),
        Elem::Alt(alternatives) => one_has_prose(alternatives),
        Elem::Rep { operand, .. } => has_prose(operand),
        Elem::Opt(operand) => has_prose(operand),
        Elem::Text { .. } => false,
        Elem::Values(_) => false,
        Elem::Range { .. } => false,
        Elem::Name(_) => false,
    }
}

// Returns whether prose stands in one of them.
#[cycle(looking)]
fn one_has_prose(members: &[Elem]) -> bool
    ensures { result ≡ prose_in_one (elements_of members.now) }
{
    for member in members {
        if has_prose(member) {
            return true;
        }
    }
    false
}

/// Returns one mark for each rule, set where prose stands in its body.
///
/// `Memory` if an allocation fails.
pub(crate) fn rules_with_prose(alloc: Global, rules: &RuleTable<Elem>) -> Result<Vec<bool>, Memory>
    ensures { IfOk result (λ marks. marks.items ≡ prose_marks (rules_of rules.now)) }
{
    let mut marks = Vec::new(alloc);
    for id in 0..rules.len() {
        marks.push(has_prose(rules.body(id)))?;
    }
    Ok(marks)
}

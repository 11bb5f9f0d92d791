//! Repeat counts within a limit.
ghost use Rattle.std.specs.Prelude.{IsTrue};
ghost use Rattle.abnfread.specs.AbnfViews.{element_of, elements_of, rules_of};
ghost use Rattle.abnfcheck.specs.CountsWithin.{AllCountsWithin, CountsWithin, MostWithin, RuleCountsWithin};

use abnfread::Elem;
use ruletable::RuleTable;

// Returns whether the upper count, if there is one, is within a limit.
fn is_most_within(most: Option<u32>, limit: usize) -> bool
    ensures { IsTrue result → MostWithin limit most }
{
    match most {
        Some(most) => most as usize <= limit,
        None => true,
    }
}

// Returns whether no repeat count in an element is greater than a limit.
#[cycle(counting)]
fn is_within(e: &Elem, limit: usize) -> bool
    ensures { IsTrue result → CountsWithin limit (element_of e.now) }
{
    match e {
        Elem::Concat(members) => are_within(members, limit),
        Elem::Alt(alternatives) => are_within(alternatives, limit),
        Elem::Rep {
            least,
            most,
            operand,
        } => *least as usize <= limit && is_most_within(*most, limit) && is_within(operand, limit),
        Elem::Opt(operand) => is_within(operand, limit),
        Elem::Text { .. } => true,
        Elem::Values(_) => true,
        Elem::Range { .. } => true,
        Elem::Name(_) => true,
        Elem::Prose(_) => true,
    }
}

// Returns whether no repeat count in elements is greater than a limit.
#[cycle(counting)]
fn are_within(members: &[Elem], limit: usize) -> bool
    ensures { IsTrue result → AllCountsWithin limit (elements_of members.now) }
{
    for member in members {
        if !is_within(member, limit) {
            return false;
        }
    }
    true
}

/// Returns whether no repeat count in a body of rules is greater than a limit.
pub fn are_rules_within(rules: &RuleTable<Elem>, limit: usize) -> bool
    ensures { IsTrue result → RuleCountsWithin limit (rules_of rules.now) }
{
    for id in 0..rules.len() {
        if !is_within(rules.body(id), limit) {
            return false;
        }
    }
    true
}

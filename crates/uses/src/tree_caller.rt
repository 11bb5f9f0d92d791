//! Callers of `pegread`: they walk the tree of a grammar that was read.
ghost use Rattle.std.specs.Prelude.{◌≡◌, List, [], length, IfOk, IfErr};
ghost use Rattle.uses.specs.Choices.{is_choice, some_choice};
ghost use Rattle.pegread.specs.Definitions.{firsts};
ghost use Rattle.pegread.specs.Pattern.{Rule};
ghost use Rattle.pegread.specs.Reading.{IsFaultOf, Reads};
ghost use Rattle.pegread.specs.PegViews.{pattern_of, rules_of};

use pegread::{Expr, Peg, read_peg};
use ruletable::ReadFault;
use std::alloc::Global;

/// Returns how many rules a grammar's text defines, where each name counts once.
pub fn count_rules(alloc: Global, text: &[u8]) -> Result<usize, ReadFault>
    ensures count { IfOk result (λ n. (definitions : List Rule) × Reads text.now definitions
        × (n ≡ length (firsts [] definitions))) }
    ensures fault { IfErr result (λ f. IsFaultOf text.now f) }
{
    let peg = read_peg(alloc, text)?;
    Ok(peg.rules.len())
}

/// Returns whether an expression is a choice.
pub fn is_choice(e: &Expr) -> bool
    ensures { result ≡ is_choice (pattern_of e.now) }
{
    matches!(e, Expr::Choice(_))
}

/// Returns whether the body of some rule is a choice.
pub fn some_choice(peg: &Peg) -> bool
    ensures { result ≡ some_choice (rules_of peg.now.rules) }
{
    for id in 0..peg.rules.len() {
        if is_choice(peg.rules.body(id)) {
            return true;
        }
    }
    false
}

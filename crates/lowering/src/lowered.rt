//! From a sound grammar to a flat one.
ghost use Rattle.std.specs.Prelude.{◌≡◌, ◌↔◌, ℕ, ◌+◌, ◌≤◌, List, ◌∷◌, [], Bool, length, IfOk};
ghost use Rattle.abnfcheck.specs.Derivable.{AreLetters, RuleDerives};
ghost use Rattle.abnfread.specs.Element.{bodies};
ghost use Rattle.abnfread.specs.AbnfViews.{rules_of};
ghost use Rattle.flatgrammar.specs.FlatVerdicts.{DerivesLine};
ghost use Rattle.lowering.specs.Lowered.{IsLowered};
ghost use Rattle.lowering.specs.NullElements.{AreNullAlike};
ghost use Rattle.flatgrammar.specs.Positions.{positions};
ghost use Rattle.lowering.specs.Sizes.{sizes};

use crate::lower_elem::{Numbered, add, number_bodies};
use abnfcheck::{SoundAbnf, nullable_rules};
use abnfread::Elem;
use flatgrammar::{Flat, Node};
use ruletable::{Memory, NameCase, RuleTable};
use std::alloc::Global;

// The one number.
fn alone(alloc: Global, n: usize) -> Result<Vec<usize>, Memory>
    ensures { IfOk result (λ ns. ns.items ≡ n ∷ []) }
{
    let mut numbers = Vec::new(alloc);
    numbers.push(n)?;
    Ok(numbers)
}

/// Lowers rules to numbered nodes, for lines of at most `limit` symbols. There must be as many as the grammar has, and
/// the same must derive the empty list. The rule that the grammar judges is judged. `Memory` if an allocation fails.
pub fn lower_rules(
    alloc: Global,
    grammar: &SoundAbnf,
    rules: &RuleTable<Elem>,
    limit: usize,
) -> Result<Flat, Memory>
    requires folds { rules.now.names ≡ NameCase.Fold }
    requires alike { AreNullAlike (rules_of grammar.now.rules) (rules_of rules.now) }
    ensures limit { IfOk result (λ flat. flat.limit ≡ limit) }
    ensures lowered { IfOk result (IsLowered (rules_of rules.now) grammar.now.judged) }
    ensures positions { IfOk result (λ flat. positions flat.nodes ≤ sizes limit (bodies (rules_of rules.now)) + 2) }
{
    let judged = grammar.judged();
    let marks = nullable_rules(alloc, grammar)?;
    let mut numbered = Numbered::new(alloc);
    let bodies = number_bodies(alloc, rules, &marks, limit, &mut numbered)?;
    let members = alone(alloc, bodies[judged])?;
    let whole = add(&mut numbered, Node::Concat(members), marks[judged])?;
    Flat::new(alloc, numbered.nodes, numbered.nulls, bodies, whole, limit)
}

/// Lowers a grammar to numbered nodes, for lines of at most `limit` symbols. The flat grammar derives such a line
/// exactly if the judged rule does. `Memory` if an allocation fails.
pub fn lower(alloc: Global, grammar: &SoundAbnf, limit: usize) -> Result<Flat, Memory>
    ensures limit { IfOk result (λ flat. flat.limit ≡ limit) }
    ensures lowered { IfOk result (IsLowered (rules_of grammar.now.rules) grammar.now.judged) }
    ensures derives { IfOk result (λ flat. (has : ℕ → Bool) (x : List ℕ) → length x ≤ limit → AreLetters has x →
        DerivesLine flat x ↔ RuleDerives has (rules_of grammar.now.rules) grammar.now.judged x) }
    ensures positions { IfOk result
        (λ flat. positions flat.nodes ≤ sizes limit (bodies (rules_of grammar.now.rules)) + 2) }
{
    lower_rules(alloc, grammar, grammar.rules(), limit)
}

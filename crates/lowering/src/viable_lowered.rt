//! From a sound grammar to a flat one of its productive parts.
ghost use Rattle.std.specs.Prelude.{◌≡◌, ◌+◌, ◌≤◌, IfOk};
ghost use Rattle.abnfread.specs.Element.{bodies};
ghost use Rattle.abnfread.specs.AbnfViews.{rules_of};
ghost use Rattle.flatgrammar.specs.Positions.{positions};
ghost use Rattle.lowering.specs.Sizes.{sizes};
ghost use Rattle.lowering.specs.GivenPrefixes.{GivesPrefixes};
ghost use Rattle.ruletable.specs.Letters.{has};
ghost use Rattle.lowering.specs.NullElements.{AreNullAlike};
ghost use Rattle.lowering.specs.Pruned.{ArePruned, SpellsProductive};

use crate::lowered::lower_rules;
use crate::pruned::prune_rules;
use abnfcheck::{SoundAbnf, productive};
use abnfread::Elem;
use flatgrammar::Flat;
use ruletable::{Alphabet, Memory, NameCase, RuleTable};
use std::alloc::Global;

/// Returns the rules of a grammar without the parts that derive no line over the alphabet, in the same order. A rule
/// that derives no line gets empty prose in place of its body. `Memory` if an allocation fails.
pub fn productive_rules(
    alloc: Global,
    grammar: &SoundAbnf,
    alphabet: Alphabet,
) -> Result<RuleTable<Elem>, Memory>
    ensures folds { IfOk result (λ rules. rules.names ≡ NameCase.Fold) }
    ensures pruned { IfOk result (λ rules. ArePruned (has alphabet) (rules_of grammar.now.rules) (rules_of rules)) }
    ensures alike { IfOk result (λ rules. AreNullAlike (rules_of grammar.now.rules) (rules_of rules)) }
{
    let marks = productive(alloc, grammar, alphabet)?;
    prune_rules(alloc, alphabet, grammar.rules(), &marks)
}

/// Lowers the productive parts of a grammar to numbered nodes, for lines of at most `limit` symbols: those that derive
/// some line over the alphabet. The flat grammar derives such a line exactly if the judged rule does. The set
/// after the first symbols of such a line, one or more, has an item exactly if they are a viable prefix. The nodes
/// spell the productive parts alone, with at most as many dotted rules as these have on such lines, and two.
///
/// `Memory` if an allocation fails.
pub fn lower_viable(
    alloc: Global,
    grammar: &SoundAbnf,
    alphabet: Alphabet,
    limit: usize,
) -> Result<Flat, Memory>
    ensures limit { IfOk result (λ flat. flat.limit ≡ limit) }
    ensures prefixes { IfOk result (λ flat. GivesPrefixes (has alphabet) (rules_of grammar.now.rules) grammar.now.judged
        flat) }
    ensures parts { IfOk result (SpellsProductive (has alphabet) (rules_of grammar.now.rules) grammar.now.judged) }
    ensures positions { IfOk result
        (λ flat. positions flat.nodes ≤ sizes limit (bodies (rules_of grammar.now.rules)) + 2) }
{
    let rules = productive_rules(alloc, grammar, alphabet)?;
    lower_rules(alloc, grammar, &rules, limit)
}

//! The productive parts of a grammar, by which rejected lines are explained.
ghost use Rattle.std.specs.Prelude.{◌≡◌, IfOk};
ghost use Rattle.abnfread.specs.AbnfViews.{rules_of};
ghost use Rattle.refusedlines.specs.PrunedGrammars.{IsPrunedOf};

use abnfcheck::SoundAbnf;
use abnfread::Elem;
use flatgrammar::Flat;
use lowering::{lower_rules, more_marks, productive_rules};
use ruletable::{Alphabet, Memory, RuleTable};
use std::alloc::Global;

/// The productive parts of a grammar: those that derive some line over an alphabet.
#[derive(Drop)]
pub struct PrunedGrammar {
    /// The rules without all other parts.
    pub rules: RuleTable<Elem>,
    /// Of each rule whether it derives a line that is not empty.
    pub more: Vec<bool>,
    /// The flat grammar of the rules.
    pub flat: Flat,
}

impl PrunedGrammar {
    /// Returns the productive parts of a grammar over that alphabet, with a flat grammar for lines of at most `limit`
    /// symbols.
    ///
    /// # Errors
    /// `Memory` if an allocation fails.
    pub fn new(
        alloc: Global,
        grammar: &SoundAbnf,
        alphabet: Alphabet,
        limit: usize,
    ) -> Result<PrunedGrammar, Memory>
        ensures limit { IfOk result (λ pruned. pruned.flat.limit ≡ limit) }
        ensures parts { IfOk result (IsPrunedOf alphabet (rules_of grammar.now.rules) grammar.now.judged) }
    {
        let rules = productive_rules(alloc, grammar, alphabet)?;
        let more = more_marks(alloc, &rules)?;
        let flat = lower_rules(alloc, grammar, &rules, limit)?;
        Ok(PrunedGrammar { rules, more, flat })
    }
}

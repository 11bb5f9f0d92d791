//! Sound grammars.
ghost use Rattle.std.specs.Prelude.{◌≡◌};
ghost use Rattle.abnfcheck.specs.AbnfGrammar.{IsSoundGrammar};

use abnfread::Elem;
use ruletable::{NameCase, RuleTable};
use std::marker::Model;

/// A grammar by which lines can be judged. From the judged rule neither prose nor a name without a rule is reached, so
/// the rules alone decide which lines it derives. Other rules may have such faults.
#[derive(Drop)]
pub struct SoundAbnf {
    /// The file's rules, then the core rules that it leaves alone (RFC 5234, appendix B.1).
    rules: RuleTable<Elem>,
    /// The id of the judged rule.
    judged: usize,
}

impl Model for SoundAbnf {
    ghost use Rattle.abnfcheck.specs.AbnfGrammar.{Grammar, IsSoundGrammar};
    ghost use Rattle.abnfread.specs.contracts.elem.Elem as e;
    ghost use Rattle.std.specs.Coded.{codes};

    ghost Value = { Grammar };

    ghost coded = { Prim.hlevel (codes, e.the_row.coded) };

    ghost view = { λ g. record { rules = g.rules; judged = g.judged } };

    ghost invariant = { λ g. IsSoundGrammar (record { rules = g.rules; judged = g.judged }) };
}

impl SoundAbnf {
    /// Returns the grammar of these rules and that judged one.
    pub fn new(rules: RuleTable<Elem>, judged: usize) -> SoundAbnf
        requires { IsSoundGrammar (record { rules = rules; judged = judged }) }
        ensures rules { result.rules ≡ rules }
        ensures judged { result.judged ≡ judged }
    {
        SoundAbnf { rules, judged }
    }

    /// Returns the file's rules, and then the core rules that the file does not define. Their names compare without
    /// case (RFC 5234, section 2.1).
    pub fn rules(&self) -> &RuleTable<Elem>
        ensures rules { result.now ≡ self.now.rules }
        ensures folds { result.now.names ≡ NameCase.Fold }
    {
        &self.rules
    }

    /// Returns the id of the judged rule. The clause `sound` says what a grammar by which lines can be judged is.
    pub fn judged(&self) -> usize
        ensures id { result ≡ self.now.judged }
        ensures sound { IsSoundGrammar self.now }
    {
        self.judged
    }
}

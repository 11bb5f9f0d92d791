//! A caller of `flatgrammar`, `lowering` and `earley`.
ghost use Rattle.std.specs.Prelude.{◌↔◌, IfOk, IsTrue};
ghost use Rattle.abnfcheck.specs.Derivable.{RuleDerives};
ghost use Rattle.abnfread.specs.AbnfViews.{rules_of};
ghost use Rattle.ruletable.specs.Letters.{has};

use abnfcheck::SoundAbnf;
use earley::{Chart, judge};
use lowering::{lower, values_are_letters};
use ruletable::{Alphabet, Memory};
use std::alloc::Global;

/// Returns whether the judged rule of a grammar derives a line of bytes.
pub fn derives(alloc: Global, grammar: &SoundAbnf, line: &[u8]) -> Result<bool, Memory>
    ensures { IfOk result (λ yes. IsTrue yes ↔ RuleDerives (has Alphabet.Bytes) (rules_of grammar.now.rules)
        grammar.now.judged line.now) }
{
    let flat = lower(alloc, grammar, line.len())?;
    let mut chart = Chart::new(alloc);
    values_are_letters(line);
    judge(&mut chart, &flat, line)
}

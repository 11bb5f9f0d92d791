//! Which rules derive something.
ghost use Rattle.std.specs.Prelude.{◌≡◌, IfOk};
ghost use Rattle.abnfread.specs.AbnfViews.{rules_of};
ghost use Rattle.abnfcheck.specs.RuleMarks.{AreProductive};

use crate::aim::Aim;
use crate::rule_marks::rule_marks;
use crate::sound_abnf::SoundAbnf;
use ruletable::{Alphabet, Memory};
use std::alloc::Global;

/// Returns a mark for each rule of a grammar, by id: whether the rule derives some line over the alphabet. The
/// time is linear in the rules and their elements.
///
/// `Memory` if an allocation fails.
pub fn productive(
    alloc: Global,
    grammar: &SoundAbnf,
    alphabet: Alphabet,
) -> Result<Vec<bool>, Memory>
    ensures { IfOk result (λ marks. AreProductive alphabet (rules_of grammar.now.rules) marks.items) }
{
    let mut marks = rule_marks(alloc, Aim::Letters(alphabet), grammar.rules())?;
    marks.truncate(grammar.rules().len());
    Ok(marks)
}

//! Which rules derive the empty string.
ghost use Rattle.std.specs.Prelude.{◌≡◌, length, IfOk};
ghost use Rattle.abnfread.specs.AbnfViews.{rules_of};
ghost use Rattle.abnfcheck.specs.RuleMarks.{AreNullMarks};

use crate::aim::Aim;
use crate::rule_marks::rule_marks;
use crate::sound_abnf::SoundAbnf;
use ruletable::Memory;
use std::alloc::Global;

/// Returns a mark for each rule of a grammar, by id: whether the rule derives the empty string, whatever the symbols
/// are. The time is linear in the rules and their elements.
///
/// # Errors
/// `Memory` if an allocation fails.
pub fn nullable_rules(alloc: Global, grammar: &SoundAbnf) -> Result<Vec<bool>, Memory>
    ensures count { IfOk result (λ marks. length marks.items ≡ length (rules_of grammar.now.rules)) }
    ensures marks { IfOk result (λ marks. AreNullMarks (rules_of grammar.now.rules) marks.items) }
{
    let mut marks = rule_marks(alloc, Aim::Empty, grammar.rules())?;
    marks.truncate(grammar.rules().len());
    Ok(marks)
}

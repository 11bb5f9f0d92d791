//! Marks on the rules of a grammar.
ghost use Rattle.std.specs.Prelude.{◌≡◌, ◌↔◌, length, IsTrue, IfOk};
ghost use Rattle.abnfcheck.specs.AbnfGrammar.{IsSound};
ghost use Rattle.abnfcheck.specs.RuleMarks.{AreProductive};
ghost use Rattle.abnfread.specs.AbnfViews.{rules_of};
ghost use Rattle.fixpoint.specs.NumberMarks.{IsMarked};
ghost use Rattle.fixpoint.specs.IdMarks.{AreMarks};

use crate::hinted::Hinted;
use abnfcheck::{productive_rules, sound_rules};
use ruletable::{Memory, NameCase};
use std::alloc::Global;

/// Marks on rules, one for each of them.
#[derive(Drop)]
pub(crate) struct Marks {
    /// They reach no name without a rule, and no prose.
    pub(crate) sound: Vec<bool>,
    /// They derive some line.
    pub(crate) productive: Vec<bool>,
}

/// Returns the marks on the rules of a grammar.
///
/// `Memory` if an allocation fails.
pub(crate) fn marks_of(alloc: Global, hinted: &Hinted<'_>) -> Result<Marks, Memory>
    requires { hinted.now.rules.now.names ≡ NameCase.Fold }
    ensures sound { IfOk result (λ marks. AreMarks (IsSound (rules_of hinted.now.rules.now))
        (length (rules_of hinted.now.rules.now)) marks.sound.items) }
    ensures productive { IfOk result (λ marks. AreProductive hinted.now.letters (rules_of hinted.now.rules.now)
        marks.productive.items) }
{
    let sound = sound_rules(alloc, hinted.rules)?;
    let productive = productive_rules(alloc, hinted.rules, hinted.letters)?;
    Ok(Marks { sound, productive })
}

/// Returns whether that id is marked.
pub(crate) fn is_marked(marks: &[bool], id: usize) -> bool
    ensures { IsTrue result ↔ IsMarked marks.now id }
{
    match marks.get(id) {
        Some(marked) => *marked,
        None => false,
    }
}

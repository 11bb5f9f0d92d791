//! Which rules the judged one reaches, and the grammar of these.
ghost use Rattle.std.specs.Prelude.{◌≡◌, IfOk, length};
ghost use Rattle.fixpoint.specs.IdMarks.{AreMarks};
ghost use Rattle.abnfread.specs.AbnfViews.{element_of, rules_of};
ghost use Rattle.abnfcheck.specs.AbnfGrammar.{Reachable};
ghost use Rattle.abnfcheck.specs.ReachedGrammar.{IsReachedGrammar, kept_element, rules_kept};

use crate::copies::copied;
use crate::name_ids::name_ids;
use crate::sound_abnf::SoundAbnf;
use abnfread::Elem;
use fixpoint::{reached, slices};
use ruletable::{Memory, NameCase, RuleTable};
use std::alloc::Global;

// Returns a mark for each rule of a grammar, by id: whether the names in bodies lead to it from the judged rule. The
// time is linear in the rules and their elements. `Memory` if an allocation fails.
fn reached_rules(alloc: Global, grammar: &SoundAbnf) -> Result<Vec<bool>, Memory>
    ensures { IfOk result (λ marks. AreMarks (Reachable (rules_of grammar.now.rules) grammar.now.judged)
        (length (rules_of grammar.now.rules)) marks.items) }
{
    let ids = name_ids(alloc, grammar.rules(), None)?;
    let steps = slices(alloc, &ids.rows)?;
    let mut marks = reached(alloc, &steps, &[grammar.judged()])?;
    marks.truncate(grammar.rules().len());
    Ok(marks)
}

// Returns a copy of a body that is kept, or else an empty one. `Memory` if an allocation fails.
fn kept_body(alloc: Global, is_kept: bool, body: &Elem) -> Result<Elem, Memory>
    ensures { IfOk result (λ kept. element_of kept ≡ kept_element is_kept (element_of body.now)) }
{
    if is_kept {
        copied(alloc, body)
    } else {
        Ok(Elem::Concat(Vec::new(alloc)))
    }
}

// Returns a copy of a table of rules, with empty bodies for those that are not marked. `Memory` if an allocation fails.
fn kept_rules(
    alloc: Global,
    rules: &RuleTable<Elem>,
    marks: &[bool],
) -> Result<RuleTable<Elem>, Memory>
    requires names { rules.now.names ≡ NameCase.Fold }
    requires marks { length marks.now ≡ length (rules_of rules.now) }
    ensures names { IfOk result (λ kept. kept.names ≡ NameCase.Fold) }
    ensures rules { IfOk result (λ kept. rules_of kept ≡ rules_kept marks.now (rules_of rules.now)) }
{
    let mut kept = RuleTable::new(alloc, NameCase::Fold);
    for id in 0..rules.len() {
        let body = kept_body(alloc, marks[id], rules.body(id))?;
        kept.define(rules.name(id), body, rules.span(id))?;
    }
    Ok(kept)
}

/// Returns a grammar of the rules that the judged rule reaches, which derives the same lines. Other rules keep their
/// names, and have empty bodies.
///
/// # Errors
/// `Memory` if an allocation fails.
pub fn reached_grammar(alloc: Global, grammar: &SoundAbnf) -> Result<SoundAbnf, Memory>
    ensures { IfOk result (IsReachedGrammar grammar.now) }
{
    let marks = reached_rules(alloc, grammar)?;
    let rules = kept_rules(alloc, grammar.rules(), &marks)?;
    Ok(SoundAbnf::new(rules, grammar.judged()))
}

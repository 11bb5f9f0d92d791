//! Grammars with loops in place of left recursion.
ghost use Rattle.std.specs.Prelude.{◌≡◌, IfOk, ℕ, List, option_map};
ghost use Rattle.abnfread.specs.AbnfViews.{element_of, elements_of, rules_of};
ghost use Rattle.abnfread.specs.Element.{append, more, none};
ghost use Rattle.abnfcheck.specs.UnrolledRules.{IsUnrolledGrammar, alternatives_in, firsts, loop, name_in};
ghost use Rattle.abnfcheck.specs.UnrolledRules.{split_name as the_split, steps, tail_of as the_tail, unrolled_body};
ghost use Rattle.abnfcheck.specs.UnrolledRules.{unrolled_from};

use crate::copies::{all_copied, copied};
use crate::sound_abnf::SoundAbnf;
use abnfread::Elem;
use ruletable::{Memory, NameCase, RuleTable};
use std::alloc::Global;

/// The alternatives of a rule, by whether they begin with its name.
#[derive(Drop)]
struct LoopParts {
    /// Those that do not.
    firsts: Vec<Elem>,
    /// What follows the name in the others.
    steps: Vec<Elem>,
}

// Returns the name that an element consists of.
fn name_of(e: &Elem) -> Option<&[u8]>
    ensures { option_map (λ n. n.now) result ≡ name_in (element_of e.now) }
{
    match e {
        Elem::Name(name) => Some(name),
        _ => None,
    }
}

// Returns the name with which an element begins, and what follows it.
fn split_name(e: &Elem) -> Option<(&[u8], &[Elem])>
    ensures { option_map (λ split. (split.0.now, elements_of split.1.now)) result ≡ the_split (element_of e.now) }
{
    match e {
        Elem::Name(name) => Some((name, &[])),
        Elem::Concat(members) => {
            let (first, rest) = members.split_first()?;
            Some((name_of(first)?, rest))
        }
        _ => None,
    }
}

// Returns what follows the name of a rule in an element that begins with it. `Memory` if an allocation fails.
fn tail_of<'a>(
    rules: &RuleTable<Elem>,
    id: usize,
    e: &'a Elem,
) -> Result<Option<&'a [Elem]>, Memory>
    requires folds { rules.now.names ≡ NameCase.Fold }
    ensures { IfOk result (λ tail. option_map (λ es. elements_of es.now) tail
        ≡ the_tail (rules_of rules.now) id (element_of e.now)) }
{
    let Some((name, rest)) = split_name(e) else {
        return Ok(None);
    };
    let found = rules.find(name)?.unwrap_or(rules.len());
    Ok(if found == id { Some(rest) } else { None })
}

impl LoopParts {
    // Adds an alternative of a rule. `Memory` if an allocation fails.
    fn add(
        &mut self,
        alloc: Global,
        rules: &RuleTable<Elem>,
        id: usize,
        alternative: &Elem,
    ) -> Result<(), Memory>
        requires folds { rules.now.names ≡ NameCase.Fold }
        ensures firsts { IfOk result (λ done. elements_of self.new.firsts.items
            ≡ append (elements_of self.old.firsts.items) (firsts (rules_of rules.now) id
            (more (element_of alternative.now) none))) }
        ensures steps { IfOk result (λ done. elements_of self.new.steps.items
            ≡ append (elements_of self.old.steps.items) (steps (rules_of rules.now) id
            (more (element_of alternative.now) none))) }
    {
        match tail_of(rules, id, alternative)? {
            Some(tail) => {
                let tail = all_copied(alloc, tail)?;
                self.steps.push(Elem::Concat(tail))?;
            }
            None => self.firsts.push(copied(alloc, alternative)?)?,
        }
        Ok(())
    }
}

// Returns the alternatives of a rule, by whether they begin with its name. `Memory` if an allocation fails.
fn parts_of(
    alloc: Global,
    rules: &RuleTable<Elem>,
    id: usize,
    alternatives: &[Elem],
) -> Result<LoopParts, Memory>
    requires folds { rules.now.names ≡ NameCase.Fold }
    ensures { IfOk result (λ parts.
        (elements_of parts.firsts.items ≡ firsts (rules_of rules.now) id (elements_of alternatives.now)) ×
        (elements_of parts.steps.items ≡ steps (rules_of rules.now) id (elements_of alternatives.now))) }
{
    let mut parts = LoopParts {
        firsts: Vec::new(alloc),
        steps: Vec::new(alloc),
    };
    for alternative in alternatives {
        parts.add(alloc, rules, id, alternative)?;
    }
    Ok(parts)
}

// Returns a loop of these parts: one of the first, and then any number of steps. `Memory` if an allocation fails.
fn loop_of(alloc: Global, parts: LoopParts) -> Result<Elem, Memory>
    ensures { IfOk result (λ made. element_of made ≡ loop (elements_of parts.firsts.items)
        (elements_of parts.steps.items)) }
{
    let operand = Box::new(alloc, Elem::Alt(parts.steps))?;
    let mut members = Vec::new(alloc);
    members.push(Elem::Alt(parts.firsts))?;
    members.push(Elem::Rep {
        least: 0,
        most: None,
        operand,
    })?;
    Ok(Elem::Concat(members))
}

// Returns the alternatives of an alternation; none of another element.
fn alternatives_of(e: &Elem) -> &[Elem]
    ensures { elements_of result.now ≡ alternatives_in (element_of e.now) }
{
    match e {
        Elem::Alt(alternatives) => alternatives,
        _ => &[],
    }
}

// Returns the body of a rule, with a loop in place of alternatives that begin with its name. `Memory` if an allocation
// fails.
fn body_of(alloc: Global, rules: &RuleTable<Elem>, id: usize, body: &Elem) -> Result<Elem, Memory>
    requires folds { rules.now.names ≡ NameCase.Fold }
    ensures { IfOk result (λ made. element_of made ≡ unrolled_body (rules_of rules.now) id (element_of body.now)) }
{
    let parts = parts_of(alloc, rules, id, alternatives_of(body))?;
    if parts.steps.is_empty() {
        copied(alloc, body)
    } else {
        loop_of(alloc, parts)
    }
}

// Returns a copy of a table of rules, with such bodies. `Memory` if an allocation fails.
fn unrolled_rules(alloc: Global, rules: &RuleTable<Elem>) -> Result<RuleTable<Elem>, Memory>
    requires names { rules.now.names ≡ NameCase.Fold }
    ensures names { IfOk result (λ made. made.names ≡ NameCase.Fold) }
    ensures rules { IfOk result (λ made. rules_of made ≡ unrolled_from (rules_of rules.now) 0 (rules_of rules.now)) }
{
    let mut made = RuleTable::new(alloc, NameCase::Fold);
    for id in 0..rules.len() {
        let body = body_of(alloc, rules, id, rules.body(id))?;
        made.define(rules.name(id), body, rules.span(id))?;
    }
    Ok(made)
}

/// Returns a grammar that derives the same lines. A rule of which some alternatives begin with its own name has a loop:
/// one of its other alternatives, and then any number of what follows the name.
///
/// # Errors
/// `Memory` if an allocation fails.
pub fn unrolled_grammar(alloc: Global, grammar: &SoundAbnf) -> Result<SoundAbnf, Memory>
    ensures { IfOk result (IsUnrolledGrammar grammar.now) }
{
    let rules = unrolled_rules(alloc, grammar.rules())?;
    Ok(SoundAbnf::new(rules, grammar.judged()))
}

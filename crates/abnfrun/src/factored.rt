//! The grammar that an automaton judges by: with loops, and with large choices of texts factored.
ghost use Rattle.std.specs.Prelude.{◌≡◌, ◌↔◌, ◌<◌, ◌≤◌, ℕ, All, List, IfOk, IfSome, IfNone, length, slice_range, take};
ghost use Rattle.abnfread.specs.Element.{Alt, Concat, Text, more, none};
ghost use Rattle.abnfread.specs.AbnfViews.{element_of, elements_of, rules_of};
ghost use Rattle.abnfcheck.specs.Derivable.{Spelled};
ghost use Rattle.abnfrun.specs.FactoredChoices.{AreFactored, AreFactoredRules, DerivesThese, IsFactored, IsShared};
ghost use Rattle.abnfrun.specs.FactoredChoices.{IsSpelling, IsTextOf, SpellsSome};
ghost use Rattle.abnfrun.specs.JudgedAlike.{DeriveAlike};

use crate::loops::loop_grammar;
use abnfcheck::SoundAbnf;
use abnfread::Elem;
use ruletable::{Memory, NameCase, RuleTable};
use std::alloc::Global;

/// The fewest texts of a choice that is factored.
const MANY: usize = 256;

/// The fewest texts whose common beginning is factored out.
const FEW: usize = 64;

/// How deep factored choices nest at most.
const DEPTH: usize = 64;

/// Texts that stand side by side and share a part.
#[derive(Clone, Copy)]
struct Run {
    /// The number of texts.
    count: usize,
    /// Where the shared part ends.
    end: usize,
}

/// An element that derives the first of some texts.
#[derive(Drop)]
struct Branch {
    /// The element.
    elem: Elem,
    /// The number of texts.
    count: usize,
}

// Returns where the symbols end that two texts share from a position on.
fn shared_end(a: &[u8], b: &[u8], from: usize) -> usize
    requires first { from ≤ length a.now }
    requires second { from ≤ length b.now }
    ensures from { from ≤ result }
    ensures within { result ≤ length a.now }
    ensures shared { IsShared a.now from result b.now }
{
    let mut end = from;
    while end < a.len() && end < b.len() && a[end] == b[end] {
        end += 1;
    }
    end
}

// Returns the run of texts that share symbols with the first one from a position on. It is empty if no choice may nest.
fn run_of(first: &[u8], texts: &[Vec<u8>], from: usize, depth: usize) -> Run
    requires first { from ≤ length first.now }
    requires texts { All (λ text. from ≤ length text.items) texts.now }
    ensures count { result.count ≤ length texts.now }
    ensures deep { 0 < result.count → 0 < depth }
    ensures from { from ≤ result.end }
    ensures within { result.end ≤ length first.now }
    ensures shared { All (λ text. IsShared first.now from result.end text.items) (take result.count texts.now) }
{
    let mut run = Run {
        count: 0,
        end: first.len(),
    };
    if depth == 0 {
        return run;
    }
    for text in texts {
        let end = shared_end(first, text, from);
        if end == from {
            return run;
        }
        run = Run {
            count: run.count + 1,
            end: run.end.min(end),
        };
    }
    run
}

// Returns the element of a text. `Memory` if an allocation fails.
fn text_of(alloc: Global, folds: bool, text: &[u8]) -> Result<Elem, Memory>
    ensures { IfOk result (λ made. element_of made ≡ Text folds text.now) }
{
    let text = Vec::from_slice(alloc, text)?;
    Ok(Elem::Text { folds, text })
}

// Returns the element of a text and then another element. `Memory` if an allocation fails.
fn headed(alloc: Global, folds: bool, head: &[u8], rest: Elem) -> Result<Elem, Memory>
    ensures { IfOk result (λ made. element_of made
        ≡ Concat (more (Text folds head.now) (more (element_of rest) none))) }
{
    let head = text_of(alloc, folds, head)?;
    let mut members = Vec::new(alloc);
    members.push(head)?;
    members.push(rest)?;
    Ok(Elem::Concat(members))
}

// Returns a branch for texts, of which all up to a position is left out. `Memory` if an allocation fails.
#[cycle(branching)]
fn next_branch(
    alloc: Global,
    folds: bool,
    texts: &[Vec<u8>],
    from: usize,
    depth: usize,
) -> Result<Branch, Memory>
    requires some { 0 < length texts.now }
    requires within { All (λ text. from ≤ length text.items) texts.now }
    ensures some { IfOk result (λ made. 0 < made.count) }
    ensures count { IfOk result (λ made. made.count ≤ length texts.now) }
    ensures derives { IfOk result (λ made. DerivesThese (IsSpelling folds from (take made.count texts.now))
        (element_of made.elem)) }
{
    let first = texts[0].as_slice();
    let run = run_of(first, texts, from, depth);
    if run.count < FEW {
        let elem = text_of(alloc, folds, &first[from..])?;
        return Ok(Branch { elem, count: 1 });
    }
    let rest = branches(alloc, folds, &texts[..run.count], run.end, depth - 1)?;
    let elem = headed(alloc, folds, &first[from..run.end], rest)?;
    Ok(Branch {
        elem,
        count: run.count,
    })
}

// Returns a choice of texts, of which all up to a position is left out. Runs of `FEW` or more that begin alike have one
// branch. `Memory` if an allocation fails.
#[cycle(branching)]
fn branches(
    alloc: Global,
    folds: bool,
    texts: &[Vec<u8>],
    from: usize,
    depth: usize,
) -> Result<Elem, Memory>
    requires within { All (λ text. from ≤ length text.items) texts.now }
    ensures derives { IfOk result (λ made. DerivesThese (IsSpelling folds from texts.now) (element_of made)) }
{
    let mut members = Vec::new(alloc);
    let mut at = 0;
    while at < texts.len() {
        let made = next_branch(alloc, folds, &texts[at..], from, depth)?;
        members.push(made.elem)?;
        at += made.count;
    }
    Ok(Elem::Alt(members))
}

// Returns the text that an element is, if it is one of that kind: whether it folds.
fn text_in(e: &Elem, kind: Option<bool>) -> Option<&[u8]>
    ensures found { IfSome result (λ text. IsTextOf kind (element_of e.now) text.now) }
    ensures none { IfNone result ((text : List ℕ) → IsTextOf kind (element_of e.now) text → ⊥) }
{
    let Elem::Text { folds, text } = e else {
        return None;
    };
    match kind {
        Some(kind) if kind == *folds => Some(text),
        _ => None,
    }
}

// Returns a text with the same spellings, in lower case if it folds. `Memory` if an allocation fails.
fn key_of(alloc: Global, folds: bool, text: &[u8]) -> Result<Vec<u8>, Memory>
    ensures { IfOk result (λ key. (w : List ℕ) → Spelled folds key.items w ↔ Spelled folds text.now w) }
{
    if folds {
        Ok(text.to_ascii_lowercase(alloc)?)
    } else {
        Ok(Vec::from_slice(alloc, text)?)
    }
}

// Returns the texts of one kind among alternatives, in ascending order. `Memory` if an allocation fails.
fn texts_of(alloc: Global, folds: bool, alternatives: &[Elem]) -> Result<Vec<Vec<u8>>, Memory>
    ensures { IfOk result (λ texts. (w : List ℕ) → IsSpelling folds 0 texts.items w
        ↔ SpellsSome folds (elements_of alternatives.now) w) }
{
    let mut texts = Vec::new(alloc);
    for alternative in alternatives {
        if let Some(text) = text_in(alternative, Some(folds)) {
            texts.push(key_of(alloc, folds, text)?)?;
        }
    }
    texts.sort_unstable();
    Ok(texts)
}

// Returns the choice of some alternatives, given all that are no texts of one kind. `Memory` if an allocation fails.
fn choice_of(
    alloc: Global,
    kind: Option<bool>,
    alternatives: &[Elem],
    others: Vec<Elem>,
) -> Result<Elem, Memory>
    requires { AreFactored kind (elements_of alternatives.now) (elements_of others.items) }
    ensures { IfOk result (λ made. IsFactored (Alt (elements_of alternatives.now)) (element_of made)) }
{
    let Some(folds) = kind else {
        return Ok(Elem::Alt(others));
    };
    let texts = texts_of(alloc, folds, alternatives)?;
    let mut members = Vec::new(alloc);
    members.push(branches(alloc, folds, &texts, 0, DEPTH)?)?;
    members.push(Elem::Alt(others))?;
    Ok(Elem::Alt(members))
}

// Returns the kind of which alternatives have at least `MANY` texts: whether these fold. No contract relies on it.
fn large_kind(alternatives: &[Elem]) -> Option<bool> {
    let mut folding = 0usize;
    let mut cased = 0usize;
    for alternative in alternatives {
        if let Elem::Text { folds, .. } = alternative {
            if *folds {
                folding = folding.saturating_add(1);
            } else {
                cased = cased.saturating_add(1);
            }
        }
    }
    if folding >= MANY {
        Some(true)
    } else if cased >= MANY {
        Some(false)
    } else {
        None
    }
}

// Returns how many of some sorted texts begin the next one. No contract relies on it.
fn prefix_count(texts: &[Vec<u8>]) -> usize {
    let mut count = 0usize;
    for i in 1..texts.len() {
        if texts[i].starts_with(&texts[i - 1]) {
            count = count.saturating_add(1);
        }
    }
    count
}

// Returns whether a choice with that many texts overlaps: an alternative may end where a text goes on. At least `FEW`
// texts begin others, or there are other alternatives. No contract relies on it. `Memory` if an allocation fails.
fn overlaps(alloc: Global, alternatives: &[Elem]) -> Result<bool, Memory> {
    let Some(folds) = large_kind(alternatives) else {
        return Ok(false);
    };
    let texts = texts_of(alloc, folds, alternatives)?;
    Ok(texts.len() < alternatives.len() || prefix_count(&texts) >= FEW)
}

// Returns whether such a choice stands in an element. No contract relies on it. `Memory` if an allocation fails.
#[cycle(looking)]
fn has_overlaps(alloc: Global, e: &Elem) -> Result<bool, Memory> {
    match e {
        Elem::Concat(members) => have_overlaps(alloc, members),
        Elem::Alt(alternatives) => {
            Ok(overlaps(alloc, alternatives)? || have_overlaps(alloc, alternatives)?)
        }
        Elem::Rep { operand, .. } => has_overlaps(alloc, operand),
        Elem::Opt(operand) => has_overlaps(alloc, operand),
        _ => Ok(false),
    }
}

#[cycle(looking)]
fn have_overlaps(alloc: Global, members: &[Elem]) -> Result<bool, Memory> {
    for member in members {
        if has_overlaps(alloc, member)? {
            return Ok(true);
        }
    }
    Ok(false)
}

// Returns whether such a choice stands in a rule. No contract relies on it. `Memory` if an allocation fails.
fn rules_have_overlaps(alloc: Global, rules: &RuleTable<Elem>) -> Result<bool, Memory> {
    for id in 0..rules.len() {
        if has_overlaps(alloc, rules.body(id))? {
            return Ok(true);
        }
    }
    Ok(false)
}

// Returns a copy of an element, with its large choices factored. `Memory` if an allocation fails.
#[cycle(factoring)]
fn factored(alloc: Global, e: &Elem) -> Result<Elem, Memory>
    ensures { IfOk result (λ made. IsFactored (element_of e.now) (element_of made)) }
{
    match e {
        Elem::Text { folds, text } => text_of(alloc, *folds, text),
        Elem::Values(values) => Ok(Elem::Values(Vec::from_slice(alloc, values)?)),
        Elem::Range { low, high } => Ok(Elem::Range {
            low: *low,
            high: *high,
        }),
        Elem::Concat(members) => Ok(Elem::Concat(all_factored(alloc, None, members)?)),
        Elem::Alt(alternatives) => {
            let kind = large_kind(alternatives);
            let others = all_factored(alloc, kind, alternatives)?;
            choice_of(alloc, kind, alternatives, others)
        }
        Elem::Rep {
            least,
            most,
            operand,
        } => {
            let operand = Box::new(alloc, factored(alloc, operand)?)?;
            Ok(Elem::Rep {
                least: *least,
                most: *most,
                operand,
            })
        }
        Elem::Opt(operand) => Ok(Elem::Opt(Box::new(alloc, factored(alloc, operand)?)?)),
        Elem::Name(name) => Ok(Elem::Name(Vec::from_slice(alloc, name)?)),
        Elem::Prose(text) => Ok(Elem::Prose(Vec::from_slice(alloc, text)?)),
    }
}

// Returns such copies of elements, in order, but of no texts of one kind. `Memory` if an allocation fails.
#[cycle(factoring)]
fn all_factored(alloc: Global, kind: Option<bool>, members: &[Elem]) -> Result<Vec<Elem>, Memory>
    ensures { IfOk result (λ made. AreFactored kind (elements_of members.now) (elements_of made.items)) }
{
    let mut made = Vec::new(alloc);
    for member in members {
        if text_in(member, kind).is_none() {
            made.push(factored(alloc, member)?)?;
        }
    }
    Ok(made)
}

// Returns a copy of a table of rules, with such bodies. `Memory` if an allocation fails.
fn factored_rules(alloc: Global, rules: &RuleTable<Elem>) -> Result<RuleTable<Elem>, Memory>
    requires names { rules.now.names ≡ NameCase.Fold }
    ensures names { IfOk result (λ made. made.names ≡ NameCase.Fold) }
    ensures rules { IfOk result (λ made. AreFactoredRules (rules_of rules.now) (rules_of made)) }
{
    let mut made = RuleTable::new(alloc, NameCase::Fold);
    for id in 0..rules.len() {
        let body = factored(alloc, rules.body(id))?;
        made.define(rules.name(id), body, rules.span(id))?;
    }
    Ok(made)
}

// Returns a grammar that derives the same lines, with its large choices of texts factored: texts that begin alike share
// one branch. `None` if no choice overlaps. `Memory` if an allocation fails.
fn factored_grammar(alloc: Global, grammar: &SoundAbnf) -> Result<Option<SoundAbnf>, Memory>
    ensures { IfOk result (λ made. IfSome made (DeriveAlike grammar.now)) }
{
    if !rules_have_overlaps(alloc, grammar.rules())? {
        return Ok(None);
    }
    let rules = factored_rules(alloc, grammar.rules())?;
    Ok(Some(SoundAbnf::new(rules, grammar.judged())))
}

/// Returns a grammar that derives the same lines, and whose states have fewer dotted rules: with loops in place of left
/// recursion, and with large choices of texts factored. `None` if it has neither. `Memory` if an allocation fails.
pub(crate) fn automaton_grammar(
    alloc: Global,
    grammar: &SoundAbnf,
) -> Result<Option<SoundAbnf>, Memory>
    ensures { IfOk result (λ made. IfSome made (DeriveAlike grammar.now)) }
{
    let Some(loops) = loop_grammar(alloc, grammar)? else {
        return factored_grammar(alloc, grammar);
    };
    match factored_grammar(alloc, &loops)? {
        Some(made) => Ok(Some(made)),
        None => Ok(Some(loops)),
    }
}

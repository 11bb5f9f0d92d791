//! The texts of the parts that can come next where a line is rejected.
ghost use Rattle.std.specs.Prelude.{◌≡◌, ◌==◌, ℕ, List, [], map, option_map, IfOk};
ghost use Rattle.abnfprint.specs.CanonicalAbnf.{text_of};
ghost use Rattle.abnfread.specs.AbnfViews.{element_of, rules_of};
ghost use Rattle.diagnostics.specs.ShownBytes.{cut};
ghost use Rattle.flatgrammar.specs.FlatViews.{set_of};
ghost use Rattle.lowering.specs.Lowered.{letter_set};
ghost use Rattle.refusedlines.specs.PartTexts.{
  ArePartTexts,
  IsElementText,
  IsLeafText,
  IsPartText,
  IsSetText,
};
ghost use Rattle.refusedlines.specs.PartTexts.{leaf_set as the_leaf_set, leaf_size as the_leaf_size};
ghost use Rattle.refusedlines.specs.PartTexts.{element_name, texts_once};
ghost use Rattle.refusedlines.specs.RuleNames.{name_at};
ghost use Rattle.refusedlines.specs.ShownParts.{awaited_part};
ghost use Rattle.ruletable.specs.Rules.{names_of};

use crate::letterruns::symbols_text;
use crate::parts::AwaitedPart;
use crate::read_letters::set_letters;
use abnfprint::print_elem;
use abnfread::Elem;
use diagnostics::push_cut;
use flatgrammar::Set;
use ruletable::{Alphabet, Memory, NameCase, RuleTable, SinkOf, Span};
use std::alloc::Global;

/// Texts, each once, in the order in which they came first.
pub(crate) type TextSet = RuleTable<()>;

// The texts stand in no text of a grammar.
const NOWHERE: Span = Span { start: 0, end: 0 };

/// Returns the canonical text of an element.
///
/// # Errors
/// `Memory` if an allocation fails.
pub fn elem_text(alloc: Global, e: &Elem) -> Result<Vec<u8>, Memory>
    ensures { IfOk result (λ text. text.items ≡ text_of (element_of e.now)) }
{
    let mut text = SinkOf::new(Vec::new(alloc));
    match print_elem(e, &mut text) {
        Ok(()) => Ok(text.into_inner()),
        Err(_) => Err(Memory),
    }
}

/// Returns the name of the rule of an id; none if there is no such rule.
pub fn rule_name(rules: &RuleTable<Elem>, id: usize) -> &[u8]
    ensures { result.now ≡ name_at (rules_of rules.now) id }
{
    if id < rules.len() {
        rules.name(id)
    } else {
        b""
    }
}

// Returns the name that an element is.
fn element_name(e: &Elem) -> Option<&[u8]>
    ensures { option_map (λ name. name.now) result ≡ element_name (element_of e.now) }
{
    match e {
        Elem::Name(name) => Some(name.as_slice()),
        _ => None,
    }
}

// Returns how many symbols a terminal has.
fn leaf_size(e: &Elem) -> usize
    ensures { result ≡ the_leaf_size (element_of e.now) }
{
    match e {
        Elem::Text { folds: _, text } => text.len(),
        Elem::Values(values) => values.len(),
        _ => 1,
    }
}

// Returns what may stand for a symbol of a text.
fn letter_set(folds: bool, letter: u8) -> Set
    ensures { set_of result ≡ letter_set folds letter }
{
    if folds {
        Set::EitherCase(letter.into())
    } else {
        Set::Exactly(letter.into())
    }
}

// Returns what may stand for the symbol of that number of a terminal.
fn leaf_set(e: &Elem, read: usize) -> Option<Set>
    ensures { option_map set_of result ≡ the_leaf_set (element_of e.now) read }
{
    match e {
        Elem::Text { folds, text } => Some(letter_set(*folds, *text.get(read)?)),
        Elem::Values(values) => Some(Set::Exactly(*values.get(read)?)),
        Elem::Range { low, high } => Some(Set::Between {
            low: *low,
            high: *high,
        }),
        _ => None,
    }
}

// Returns the text of the symbols of an alphabet in a set; no text without a set.
fn set_text(alloc: Global, alphabet: Alphabet, set: Option<Set>) -> Result<Vec<u8>, Memory>
    ensures { IfOk result (λ text. IsSetText alphabet (option_map set_of set) text.items) }
{
    let runs = set_letters(alloc, alphabet, set)?;
    symbols_text(alloc, alphabet, &runs)
}

// Returns the canonical text of a terminal, cut.
fn cut_text(alloc: Global, e: &Elem) -> Result<Vec<u8>, Memory>
    ensures { IfOk result (λ text. text.items ≡ cut (text_of (element_of e.now))) }
{
    let whole = elem_text(alloc, e)?;
    let mut text = Vec::new(alloc);
    push_cut(&mut text, &whole)?;
    Ok(text)
}

// Returns the text of a terminal, of which so many symbols are read: the set of its only symbol, or the terminal, cut,
// and the set of the next symbol before it.
fn leaf_text(alloc: Global, alphabet: Alphabet, e: &Elem, read: usize) -> Result<Vec<u8>, Memory>
    ensures { IfOk result (λ text. IsLeafText (the_leaf_size (element_of e.now) == 1) alphabet (element_of e.now) read
        text.items) }
{
    if leaf_size(e) == 1 {
        return set_text(alloc, alphabet, leaf_set(e, read));
    }
    let leaf = cut_text(alloc, e)?;
    if read == 0 {
        return Ok(leaf);
    }
    let mut text = set_text(alloc, alphabet, leaf_set(e, read))?;
    text.extend_from_slice(b" of ")?;
    text.extend_from_slice(&leaf)?;
    Ok(text)
}

// Returns the text of a name, by the rule that it names, or of a terminal, of which so many symbols are read.
fn element_text(
    alloc: Global,
    alphabet: Alphabet,
    rules: &RuleTable<Elem>,
    e: &Elem,
    read: usize,
) -> Result<Vec<u8>, Memory>
    requires { rules.now.names ≡ NameCase.Fold }
    ensures { IfOk result (λ text. IsElementText alphabet (rules_of rules.now) (element_of e.now) read text.items) }
{
    let Some(name) = element_name(e) else {
        return leaf_text(alloc, alphabet, e, read);
    };
    let found = rules.find(name)?;
    let id = found.unwrap_or(rules.len());
    let mut text = Vec::new(alloc);
    push_cut(&mut text, rule_name(rules, id))?;
    Ok(text)
}

// Returns the text of a part: its element in its rule.
fn part_text(
    alloc: Global,
    alphabet: Alphabet,
    rules: &RuleTable<Elem>,
    part: &AwaitedPart<'_>,
) -> Result<Vec<u8>, Memory>
    requires { rules.now.names ≡ NameCase.Fold }
    ensures { IfOk result (λ text. IsPartText alphabet (rules_of rules.now) (awaited_part part.now) text.items) }
{
    let mut text = element_text(alloc, alphabet, rules, part.element, part.read)?;
    text.extend_from_slice(b" in ")?;
    push_cut(&mut text, rule_name(rules, part.rule))?;
    Ok(text)
}

/// Returns the texts of parts, each once. Names compare without case.
///
/// # Errors
/// `Memory` if an allocation fails.
pub(crate) fn part_texts(
    alloc: Global,
    alphabet: Alphabet,
    rules: &RuleTable<Elem>,
    parts: &[AwaitedPart<'_>],
) -> Result<TextSet, Memory>
    requires { rules.now.names ≡ NameCase.Fold }
    ensures { IfOk result (λ once. (texts : List (List ℕ))
        × ArePartTexts alphabet (rules_of rules.now) (map awaited_part parts.now) texts
        × (names_of once ≡ texts_once [] texts)) }
{
    let mut once = RuleTable::new(alloc, NameCase::Exact);
    for part in parts {
        let text = part_text(alloc, alphabet, rules, part)?;
        once.define(&text, (), NOWHERE)?;
    }
    Ok(once)
}

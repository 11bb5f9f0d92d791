//! Symbols that no set in the bodies of rules distinguishes.
ghost use Rattle.std.specs.Prelude.{◌≡◌, ◌↔◌, IsTrue, IfOk, false, length};
ghost use Rattle.abnfcheck.specs.Derivable.{AtMost, StandsFor};
ghost use Rattle.abnfread.specs.AbnfViews.{element_of, elements_of, rules_of};
ghost use Rattle.abnfread.specs.Element as e;
ghost use Rattle.ruletable.specs.Letters.{small as in_lower_case};
ghost use Rattle.abnfcheck.specs.AlikeSymbols.{AreAlikeIn, AreAlikeInAll, AreAlikeInRules};
ghost use Rattle.abnfcheck.specs.NewSymbols.{AreNewTo, HasAlike};

use abnfread::Elem;
use ruletable::{Memory, RuleTable};
use std::alloc::Global;

/// Two symbols.
#[derive(Clone, Copy)]
struct SymbolPair {
    first: u32,
    second: u32,
}

// Returns a letter from A to Z in lower case, or else the symbol itself.
fn small(symbol: u32) -> u32
    ensures { result ≡ in_lower_case symbol }
{
    if 64 < symbol && symbol < 91 {
        symbol + 32
    } else {
        symbol
    }
}

// Returns whether a symbol may stand for one of a text.
fn stands_for(folds: bool, letter: u8, symbol: u32) -> bool
    ensures { IsTrue result ↔ StandsFor folds letter symbol }
{
    if folds {
        small(symbol) == small(u32::from(letter))
    } else {
        symbol == u32::from(letter)
    }
}

// Returns whether both symbols may stand for one of a text, or neither.
fn is_letter_alike(folds: bool, letter: u8, pair: SymbolPair) -> bool
    ensures { IsTrue result ↔ (StandsFor folds letter pair.first ↔ StandsFor folds letter pair.second) }
{
    stands_for(folds, letter, pair.first) == stands_for(folds, letter, pair.second)
}

// Returns whether no symbol of a text distinguishes two symbols.
fn is_text_alike(folds: bool, text: &[u8], pair: SymbolPair) -> bool
    ensures { IsTrue result ↔ AreAlikeIn pair.first pair.second (e.Text folds text.now) }
{
    for letter in text {
        if !is_letter_alike(folds, *letter, pair) {
            return false;
        }
    }
    true
}

// Returns whether both symbols are a value, or neither.
fn is_value_alike(value: u32, pair: SymbolPair) -> bool
    ensures { IsTrue result ↔ ((pair.first ≡ value) ↔ (pair.second ≡ value)) }
{
    (pair.first == value) == (pair.second == value)
}

// Returns whether no value distinguishes two symbols.
fn are_values_alike(values: &[u32], pair: SymbolPair) -> bool
    ensures { IsTrue result ↔ AreAlikeIn pair.first pair.second (e.Values values.now) }
{
    for value in values {
        if !is_value_alike(*value, pair) {
            return false;
        }
    }
    true
}

// Returns whether a range has both symbols, or neither.
fn is_range_alike(low: u32, high: u32, pair: SymbolPair) -> bool
    ensures { IsTrue result ↔ AreAlikeIn pair.first pair.second (e.Range low high) }
{
    (low <= pair.first && pair.first <= high) == (low <= pair.second && pair.second <= high)
}

// Returns whether the bounds of a repetition are reversed.
fn are_reversed(least: u32, most: Option<u32>) -> bool
    ensures { result ≡ false ↔ AtMost least most }
{
    match most {
        Some(most) => most < least,
        None => false,
    }
}

// Returns whether no set in an element distinguishes two symbols.
#[cycle(sets)]
fn is_alike(e: &Elem, pair: SymbolPair) -> bool
    ensures { IsTrue result ↔ AreAlikeIn pair.first pair.second (element_of e.now) }
{
    match e {
        Elem::Text { folds, text } => is_text_alike(*folds, text, pair),
        Elem::Values(values) => are_values_alike(values, pair),
        Elem::Range { low, high } => is_range_alike(*low, *high, pair),
        Elem::Concat(members) => are_alike(members, pair),
        Elem::Alt(alternatives) => are_alike(alternatives, pair),
        Elem::Rep {
            least,
            most,
            operand,
        } => are_reversed(*least, *most) || is_alike(operand, pair),
        Elem::Opt(operand) => is_alike(operand, pair),
        Elem::Name(_) => true,
        Elem::Prose(_) => true,
    }
}

// Returns whether no set in elements distinguishes two symbols.
#[cycle(sets)]
fn are_alike(members: &[Elem], pair: SymbolPair) -> bool
    ensures { IsTrue result ↔ AreAlikeInAll pair.first pair.second (elements_of members.now) }
{
    for member in members {
        if !is_alike(member, pair) {
            return false;
        }
    }
    true
}

// Returns whether no set in the bodies of rules distinguishes two symbols.
fn are_rules_alike(rules: &RuleTable<Elem>, pair: SymbolPair) -> bool
    ensures { IsTrue result ↔ AreAlikeInRules (rules_of rules.now) pair.first pair.second }
{
    for id in 0..rules.len() {
        if !is_alike(rules.body(id), pair) {
            return false;
        }
    }
    true
}

// Returns whether no set in the bodies of rules distinguishes one of some symbols from another one.
fn has_alike(rules: &RuleTable<Elem>, symbols: &[u32], other: u32) -> bool
    ensures { IsTrue result ↔ HasAlike (AreAlikeInRules (rules_of rules.now)) symbols.now other }
{
    for symbol in symbols {
        let pair = SymbolPair {
            first: *symbol,
            second: other,
        };
        if are_rules_alike(rules, pair) {
            return true;
        }
    }
    false
}

/// Returns those of some symbols that a set in the bodies of rules distinguishes from each earlier one.
///
/// # Errors
/// `Memory` if an allocation fails.
pub fn new_symbols(
    alloc: Global,
    rules: &RuleTable<Elem>,
    symbols: &[u32],
) -> Result<Vec<u32>, Memory>
    ensures { IfOk result (λ news. AreNewTo (AreAlikeInRules (rules_of rules.now)) symbols.now (length symbols.now)
        news.items) }
{
    let mut news = Vec::new(alloc);
    for index in 0..symbols.len() {
        if !has_alike(rules, &symbols[..index], symbols[index]) {
            news.push(symbols[index])?;
        }
    }
    Ok(news)
}

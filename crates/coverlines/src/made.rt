//! What elements derive in the ways that are goals.
ghost use Rattle.std.specs.Prelude.{◌≡◌, ◌+◌, ◌++◌, List, IfOk, MatchOption};
ghost use Rattle.abnfread.specs.AbnfViews.{element_of, elements_of};
ghost use Rattle.abnfread.specs.Element.{Alt, Opt, Range, Rep, Rule, Text, Values};
ghost use Rattle.coverlines.specs.Goals.{IsRoundGoal};
ghost use Rattle.coverlines.specs.KnownWords.{AreKnownOf, AreWords};
ghost use Rattle.coverlines.specs.MadeWords.{AreMade, MakesSo, made_of};
ghost use Rattle.coverlines.specs.Shortest.{IsShortest};

use crate::bounds::LineBounds;
use crate::short::{admitted, repeated};
use crate::symbols::{other_symbols, text_symbols};
use crate::way::GoalWay;
use crate::words::{Words, allows, one_symbol, shortest};
use abnfread::Elem;
use ruletable::Memory;
use std::alloc::Global;

/// A list that an element derives in some way.
#[derive(Drop)]
pub(crate) struct MadeWord {
    pub(crate) way: GoalWay,
    pub(crate) word: Vec<u32>,
}

// Adds a list, if it is there.
fn push_made(found: &mut Vec<MadeWord>, way: GoalWay, word: Option<Vec<u32>>) -> Result<(), Memory>
    ensures { IfOk result (λ _. found.new.items ≡ found.old.items ++ made_of way word) }
{
    match word {
        Some(word) => {
            found.push(MadeWord { way, word })?;
            Ok(())
        }
        None => Ok(()),
    }
}

// Returns a text in the other case, if it folds and a line may have it.
fn other_word(
    alloc: Global,
    bounds: LineBounds,
    folds: bool,
    text: &[u8],
) -> Result<Option<Vec<u32>>, Memory>
    ensures { IfOk result (λ w. (rules : List Rule)
        → IsShortest (MakesSo bounds rules (Text folds text.now) GoalWay.OtherCase) bounds.limit w) }
{
    if !folds {
        return Ok(None);
    }
    let word = other_symbols(alloc, text)?;
    Ok(admitted(bounds, word))
}

// Returns what a text derives in each way.
fn text_made(
    alloc: Global,
    bounds: LineBounds,
    folds: bool,
    text: &[u8],
) -> Result<Vec<MadeWord>, Memory>
    ensures { IfOk result (λ found. (rules : List Rule) → AreMade bounds rules (Text folds text.now) found.items) }
{
    let mut found = Vec::new(alloc);
    let same = text_symbols(alloc, text)?;
    push_made(&mut found, GoalWay::Same, admitted(bounds, same))?;
    let other = other_word(alloc, bounds, folds, text)?;
    push_made(&mut found, GoalWay::OtherCase, other)?;
    Ok(found)
}

// Returns what a list of values derives.
fn values_made(alloc: Global, bounds: LineBounds, values: &[u32]) -> Result<Vec<MadeWord>, Memory>
    ensures { IfOk result (λ found. (rules : List Rule) → AreMade bounds rules (Values values.now) found.items) }
{
    let mut found = Vec::new(alloc);
    let word = Vec::from_slice(alloc, values)?;
    push_made(&mut found, GoalWay::Same, admitted(bounds, word))?;
    Ok(found)
}

// Returns what a range derives in each way.
fn range_made(
    alloc: Global,
    bounds: LineBounds,
    low: u32,
    high: u32,
) -> Result<Vec<MadeWord>, Memory>
    ensures { IfOk result (λ found. (rules : List Rule) → AreMade bounds rules (Range low high) found.items) }
{
    let mut found = Vec::new(alloc);
    let first = one_symbol(alloc, bounds, bounds.first_between(low, high))?;
    push_made(&mut found, GoalWay::First, first)?;
    let last = one_symbol(alloc, bounds, bounds.last_between(low, high))?;
    push_made(&mut found, GoalWay::Last, last)?;
    Ok(found)
}

// Returns what each alternative derives.
fn alt_made(
    alloc: Global,
    words: &Words<'_>,
    alternatives: &[Elem],
) -> Result<Vec<MadeWord>, Memory>
    requires { AreWords words.now }
    ensures { IfOk result (λ found. (rules : List Rule) → AreKnownOf words.now rules
        → AreMade words.now.bounds rules (Alt (elements_of alternatives.now)) found.items) }
{
    let mut found = Vec::new(alloc);
    for (i, alternative) in alternatives.iter().enumerate() {
        let word = shortest(alloc, words, alternative)?;
        push_made(&mut found, GoalWay::Chosen(i), word)?;
    }
    Ok(found)
}

// Returns the greater bound of a repetition, or one more than the lesser where there is none.
fn last_round(least: u32, most: Option<u32>) -> u64
    ensures { MatchOption most (result ≡ least + 1) (λ m. result ≡ m) }
{
    match most {
        Some(most) => u64::from(most),
        None => u64::from(least) + 1,
    }
}

// Returns 1, or the lesser bound of a repetition where there is no greater one.
fn single_round(least: u32, most: Option<u32>) -> u64
    ensures { MatchOption most (result ≡ least) (λ m. result ≡ 1) }
{
    match most {
        Some(_) => 1,
        None => u64::from(least),
    }
}

// Returns what so many rounds of an operand derive, if the bounds allow them.
fn rounds_word(
    alloc: Global,
    words: &Words<'_>,
    least: u32,
    most: Option<u32>,
    operand: &Elem,
    count: u64,
) -> Result<Option<Vec<u32>>, Memory>
    requires { AreWords words.now }
    ensures { IfOk result (λ w. (rules : List Rule) → AreKnownOf words.now rules → IsRoundGoal least most count
        → IsShortest (MakesSo words.now.bounds rules (Rep least most (element_of operand.now)) (GoalWay.Rounds count))
        words.now.bounds.limit w) }
{
    if !allows(least, most, count) {
        return Ok(None);
    }
    let round = shortest(alloc, words, operand)?;
    repeated(alloc, words.bounds.limit, round, count)
}

// Returns what a repetition derives in each way.
fn rep_made(
    alloc: Global,
    words: &Words<'_>,
    least: u32,
    most: Option<u32>,
    operand: &Elem,
) -> Result<Vec<MadeWord>, Memory>
    requires { AreWords words.now }
    ensures { IfOk result (λ found. (rules : List Rule) → AreKnownOf words.now rules
        → AreMade words.now.bounds rules (Rep least most (element_of operand.now)) found.items) }
{
    let mut found = Vec::new(alloc);
    let fewest = rounds_word(alloc, words, least, most, operand, u64::from(least))?;
    push_made(&mut found, GoalWay::Rounds(u64::from(least)), fewest)?;
    let last = last_round(least, most);
    let many = rounds_word(alloc, words, least, most, operand, last)?;
    push_made(&mut found, GoalWay::Rounds(last), many)?;
    let single = single_round(least, most);
    let one = rounds_word(alloc, words, least, most, operand, single)?;
    push_made(&mut found, GoalWay::Rounds(single), one)?;
    Ok(found)
}

// Returns what an option derives in each way.
fn opt_made(alloc: Global, words: &Words<'_>, operand: &Elem) -> Result<Vec<MadeWord>, Memory>
    requires { AreWords words.now }
    ensures { IfOk result (λ found. (rules : List Rule) → AreKnownOf words.now rules
        → AreMade words.now.bounds rules (Opt (element_of operand.now)) found.items) }
{
    let mut found = Vec::new(alloc);
    let word = shortest(alloc, words, operand)?;
    push_made(&mut found, GoalWay::Taken, word)?;
    push_made(&mut found, GoalWay::LeftOut, Some(Vec::new(alloc)))?;
    Ok(found)
}

/// Returns a shortest list of each way in which an element derives some.
pub(crate) fn made_words(
    alloc: Global,
    words: &Words<'_>,
    e: &Elem,
) -> Result<Vec<MadeWord>, Memory>
    requires { AreWords words.now }
    ensures { IfOk result (λ found. (rules : List Rule) → AreKnownOf words.now rules
        → AreMade words.now.bounds rules (element_of e.now) found.items) }
{
    match e {
        Elem::Text { folds, text } => text_made(alloc, words.bounds, *folds, text),
        Elem::Values(values) => values_made(alloc, words.bounds, values),
        Elem::Range { low, high } => range_made(alloc, words.bounds, *low, *high),
        Elem::Alt(alternatives) => alt_made(alloc, words, alternatives),
        Elem::Rep {
            least,
            most,
            operand,
        } => rep_made(alloc, words, *least, *most, operand),
        Elem::Opt(operand) => opt_made(alloc, words, operand),
        Elem::Concat(_) | Elem::Name(_) | Elem::Prose(_) => Ok(Vec::new(alloc)),
    }
}

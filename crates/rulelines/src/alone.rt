//! The first line that the old one of two grammars alone derives.
ghost use Rattle.std.specs.Prelude.{◌≡◌, ℕ, Bool, List, IsTrue, IfOk, IfSome};
ghost use Rattle.abnfread.specs.Element.{Rule};
ghost use Rattle.flatgrammar.specs.Flat.{Flat};
ghost use Rattle.ruletable.specs.Letters.{has};
ghost use Rattle.lazydfa.specs.StateSets.{StateSets};
ghost use Rattle.rulelines.specs.Alone.{DerivesAsRule, IsBegun, IsKnownOf, IsSearchOf};
ghost use Rattle.rulelines.specs.FirstLines.{HasNoLine, IsOfOldAlone};
ghost use Rattle.rulelines.specs.FoundPairs.{IsWordOf};
ghost use Rattle.rulelines.specs.Samples.{AreInLineOrder};
ghost use Rattle.rulelines.specs.Search.{found_pairs};
ghost use Rattle.rulelines.specs.StatePairs.{AreSamples};

use crate::cuts::search_by_cuts;
use crate::pairs::{SearchedPair, add_pair, no_pairs};
use crate::samples::common_samples;
use crate::search::{PairSearch, SearchEnd, search_all};
use flatgrammar::Flat;
use lazydfa::States;
use ruletable::{Alphabet, Memory};
use std::alloc::Global;

/// How many pairs are searched before pairs are cut.
const FIRST_PAIRS: usize = 1_024;

/// How many pairs are searched that are cut.
const CUT_PAIRS: usize = 8_192;

/// A result on the lines that the old grammar alone derives. `First`: the first of them, shorter lines first, and
/// else by the first symbol that differs: %x21-7E, then the space, then others by number. `Never`: there is none.
/// `NeverUpTo`: there is none of at most so many symbols. `Unknown`: nothing is known.
#[derive(Drop)]
pub enum Alone {
    First(Vec<u32>),
    Never,
    NeverUpTo(usize),
    Unknown,
}

/// Returns the symbols that lead to the pair of an index; `None` if there is none, or a parent does not come earlier.
/// `Memory` if an allocation fails.
pub(crate) fn word_of(
    alloc: Global,
    pairs: &[SearchedPair],
    index: usize,
) -> Result<Option<Vec<u32>>, Memory>
    ensures { IfOk result (λ reported. IfSome reported (λ word. (olds news : StateSets)
        → IsWordOf (found_pairs olds news
        pairs.now) index word.items)) }
{
    let mut word = Vec::new(alloc);
    let mut at = index;
    for _ in 0..pairs.len() {
        if at == 0 {
            word.reverse();
            return Ok(Some(word));
        }
        let Some(pair) = pairs.get(at) else {
            return Ok(None);
        };
        if pair.parent >= at {
            return Ok(None);
        }
        word.push(pair.symbol)?;
        at = pair.parent;
    }
    Ok(None)
}

// Returns a search whose first pair are the start states of two grammars, with so much room for the states of each.
// `None` if a grammar counts how often something nullable is repeated, or there is no room. `Memory` if an allocation
// fails.
fn begin_search(
    alloc: Global,
    old: &Flat,
    new: &Flat,
    room: usize,
) -> Result<Option<PairSearch>, Memory>
    ensures { IfOk result (λ reported. IfSome reported (IsBegun old.now new.now)) }
{
    let Some(mut olds) = States::new(alloc, old, room)? else {
        return Ok(None);
    };
    let Some(mut news) = States::new(alloc, new, room)? else {
        return Ok(None);
    };
    let Some(first) = olds.start()? else {
        return Ok(None);
    };
    let Some(second) = news.start()? else {
        return Ok(None);
    };
    let mut pairs = no_pairs(alloc);
    let pair = SearchedPair {
        old: first,
        new: second,
        parent: 0,
        symbol: 0,
    };
    add_pair(&mut pairs, pair)?;
    Ok(Some(PairSearch { olds, news, pairs }))
}

// Returns the result that a search shows on the lines that the old grammar alone derives. `Memory` if an allocation
// fails.
fn conclude(alloc: Global, search: &PairSearch, outcome: SearchEnd) -> Result<Alone, Memory>
    ensures { IfOk result (λ alone. (old new : Flat) (has : ℕ → Bool) (samples : List ℕ)
        (old_rules new_rules : List Rule) (old_rule new_rule : ℕ) → IsSearchOf old new has samples outcome search.now →
        DerivesAsRule has old_rules old_rule old → DerivesAsRule has new_rules new_rule new → IsKnownOf (IsOfOldAlone
        has old_rules old_rule new_rules new_rule) alone) }
{
    match outcome {
        SearchEnd::First(n) => match word_of(alloc, &search.pairs.items, n)? {
            Some(word) => Ok(Alone::First(word)),
            None => Ok(Alone::Unknown),
        },
        SearchEnd::Nothing => Ok(Alone::Never),
        SearchEnd::Over(n) => match word_of(alloc, &search.pairs.items, n)? {
            Some(word) => match word.len().checked_sub(1) {
                Some(most) => Ok(Alone::NeverUpTo(most)),
                None => Ok(Alone::Unknown),
            },
            None => Ok(Alone::Unknown),
        },
    }
}

// Returns whether a result says which line is the first, or that there is none.
fn is_decided(alone: &Alone) -> bool {
    match alone {
        Alone::First(_) | Alone::Never => true,
        Alone::NeverUpTo(_) | Alone::Unknown => false,
    }
}

// Searches at most `most` pairs for a line that the old one of two flat grammars alone derives, by samples of all
// symbols. `Memory` if an allocation fails.
fn search_lines(
    alloc: Global,
    old: &Flat,
    new: &Flat,
    samples: &[u32],
    room: usize,
    most: usize,
) -> Result<Alone, Memory>
    ensures { IfOk result (λ alone. (has : ℕ → Bool) (old_rules new_rules : List Rule) (old_rule new_rule : ℕ) →
        AreInLineOrder has samples.now → AreSamples old.now new.now has samples.now →
        DerivesAsRule has old_rules old_rule old.now → DerivesAsRule has new_rules new_rule new.now → IsKnownOf
        (IsOfOldAlone has old_rules old_rule new_rules new_rule) alone) }
{
    let Some(mut search) = begin_search(alloc, old, new, room)? else {
        return Ok(Alone::Unknown);
    };
    let outcome = search_all(&mut search, samples, most)?;
    conclude(alloc, &search, outcome)
}

// Returns whether a search of pairs that are cut, or have a strict cut, shows that the new one of two flat grammars
// derives each line that the old one derives. `Memory` if an allocation fails.
fn is_included(
    alloc: Global,
    old: &Flat,
    new: &Flat,
    samples: &[u32],
    room: usize,
    is_strict: bool,
) -> Result<bool, Memory>
    ensures { IfOk result (λ included. (has : ℕ → Bool) (old_rules new_rules : List Rule) (old_rule new_rule : ℕ) →
        IsTrue included → AreSamples old.now new.now has samples.now → DerivesAsRule has old_rules old_rule old.now →
        DerivesAsRule has new_rules new_rule new.now → HasNoLine (IsOfOldAlone has old_rules old_rule new_rules
        new_rule)) }
{
    let Some(mut search) = begin_search(alloc, old, new, room)? else {
        return Ok(false);
    };
    let included = search_by_cuts(&mut search, samples, room.min(CUT_PAIRS), is_strict)?;
    Ok(included)
}

/// Searches for a line over an alphabet that the old one of two flat grammars alone derives. The search
/// goes over at most `room` pairs, with room for `room` entries of each grammar's states. Where it finds none in its
/// first pairs, it looks for a proof by cut pairs that there is none. `Unknown` also if a grammar counts how often
/// something nullable is repeated. `Memory` if an allocation fails.
pub(crate) fn old_alone(
    alloc: Global,
    alphabet: Alphabet,
    old: &Flat,
    new: &Flat,
    room: usize,
) -> Result<Alone, Memory>
    ensures { IfOk result (λ alone. (old_rules new_rules : List Rule) (old_rule new_rule : ℕ) → DerivesAsRule
        (has alphabet) old_rules old_rule old.now → DerivesAsRule (has alphabet) new_rules new_rule new.now → IsKnownOf
        (IsOfOldAlone (has alphabet) old_rules old_rule new_rules new_rule) alone) }
{
    let samples = common_samples(alloc, alphabet, old, new)?;
    let first = search_lines(alloc, old, new, &samples, room, room.min(FIRST_PAIRS))?;
    if is_decided(&first) {
        return Ok(first);
    }
    if is_included(alloc, old, new, &samples, room, false)? {
        return Ok(Alone::Never);
    }
    if is_included(alloc, old, new, &samples, room, true)? {
        return Ok(Alone::Never);
    }
    search_lines(alloc, old, new, &samples, room, room)
}

//! Shortest lists that elements derive, by those of the rules.
ghost use Rattle.std.specs.Prelude.{◌≡◌, ◌∷◌, ◌<◌, ◌≤◌, ◌↔◌, ℕ, List, [], IfOk, IsTrue, MatchOption, None, length};
ghost use Rattle.abnfread.specs.AbnfViews.{element_of, elements_of};
ghost use Rattle.abnfread.specs.Element.{Name, Rule};
ghost use Rattle.abnfcheck.specs.Derivable.{AtMost};
ghost use Rattle.coverlines.specs.KnownWords.{AreKnownOf, AreWords, IsCopy, known_at};
ghost use Rattle.coverlines.specs.Shortest.{Admitted, IsShortest, Spells, SpellsAll, SpellsSome};

use crate::bounds::LineBounds;
use crate::short::{admitted, joined, repeated, shorter};
use crate::symbols::spelling;
use abnfread::Elem;
use ruletable::{Memory, RuleTable};
use std::alloc::Global;

/// The rules, with a list that each one derives, where one is known.
#[derive(Drop)]
pub(crate) struct Words<'a> {
    pub(crate) rules: &'a RuleTable<Elem>,
    pub(crate) known: &'a [Option<Vec<u32>>],
    pub(crate) bounds: LineBounds,
}

// Returns a copy of the list that is known of a rule.
fn copy_known(
    alloc: Global,
    known: &[Option<Vec<u32>>],
    id: usize,
) -> Result<Option<Vec<u32>>, Memory>
    requires { id < length known.now }
    ensures { IfOk result (IsCopy (known_at known.now id)) }
{
    match &known[id] {
        Some(word) => Ok(Some(Vec::from_slice(alloc, word)?)),
        None => Ok(None),
    }
}

// Returns the list that is known of the rule with that name.
fn known_word(alloc: Global, words: &Words<'_>, name: &[u8]) -> Result<Option<Vec<u32>>, Memory>
    requires { AreWords words.now }
    ensures { IfOk result (λ w. (rules : List Rule) → AreKnownOf words.now rules
        → IsShortest (Spells words.now.bounds rules (Name name.now)) words.now.bounds.limit w) }
{
    match words.rules.find(name)? {
        Some(id) => copy_known(alloc, words.known, id),
        None => Ok(None),
    }
}

/// Returns whether a repetition may take its operand so many times.
pub(crate) fn allows(least: u32, most: Option<u32>, count: u64) -> bool
    ensures { IsTrue result ↔ ((least ≤ count) × AtMost count most) }
{
    u64::from(least) <= count
        && match most {
            Some(most) => count <= u64::from(most),
            None => true,
        }
}

/// Returns one symbol, if there is one.
pub(crate) fn one_symbol(
    alloc: Global,
    bounds: LineBounds,
    symbol: Option<u32>,
) -> Result<Option<Vec<u32>>, Memory>
    ensures { IfOk result (λ w. MatchOption symbol (w ≡ None)
        (λ c. IsShortest (Admitted bounds (λ v. v ≡ c ∷ [])) bounds.limit w)) }
{
    let Some(symbol) = symbol else {
        return Ok(None);
    };
    let mut word = Vec::new(alloc);
    word.push(symbol)?;
    Ok(admitted(bounds, word))
}

/// Returns a shortest list that an element derives and that may stand in a line.
#[cycle(shortest)]
pub(crate) fn shortest(
    alloc: Global,
    words: &Words<'_>,
    e: &Elem,
) -> Result<Option<Vec<u32>>, Memory>
    requires { AreWords words.now }
    ensures { IfOk result (λ w. (rules : List Rule) → AreKnownOf words.now rules
        → IsShortest (Spells words.now.bounds rules (element_of e.now)) words.now.bounds.limit w) }
{
    let bounds = words.bounds;
    match e {
        Elem::Text { folds, text } => {
            let word = spelling(alloc, bounds, *folds, text)?;
            Ok(admitted(bounds, word))
        }
        Elem::Values(values) => {
            let word = Vec::from_slice(alloc, values)?;
            Ok(admitted(bounds, word))
        }
        Elem::Range { low, high } => one_symbol(alloc, bounds, bounds.first_between(*low, *high)),
        Elem::Concat(members) => shortest_all(alloc, words, members),
        Elem::Alt(alternatives) => shortest_some(alloc, words, alternatives),
        Elem::Rep {
            least,
            most,
            operand,
        } => {
            if !allows(*least, *most, u64::from(*least)) {
                return Ok(None);
            }
            let round = shortest(alloc, words, operand)?;
            repeated(alloc, bounds.limit, round, u64::from(*least))
        }
        Elem::Opt(_) => Ok(Some(Vec::new(alloc))),
        Elem::Name(name) => known_word(alloc, words, name),
        Elem::Prose(_) => Ok(None),
    }
}

/// Returns a shortest list of which each part is derived by one of the members, in order.
#[cycle(shortest)]
pub(crate) fn shortest_all(
    alloc: Global,
    words: &Words<'_>,
    members: &[Elem],
) -> Result<Option<Vec<u32>>, Memory>
    requires { AreWords words.now }
    ensures { IfOk result (λ w. (rules : List Rule) → AreKnownOf words.now rules
        → IsShortest (SpellsAll words.now.bounds rules (elements_of members.now)) words.now.bounds.limit w) }
{
    let mut all = Some(Vec::new(alloc));
    for member in members {
        let next = shortest(alloc, words, member)?;
        all = joined(words.bounds.limit, all, next)?;
    }
    Ok(all)
}

// Returns a shortest list that one of the alternatives derives.
#[cycle(shortest)]
fn shortest_some(
    alloc: Global,
    words: &Words<'_>,
    alternatives: &[Elem],
) -> Result<Option<Vec<u32>>, Memory>
    requires { AreWords words.now }
    ensures { IfOk result (λ w. (rules : List Rule) → AreKnownOf words.now rules
        → IsShortest (SpellsSome words.now.bounds rules (elements_of alternatives.now)) words.now.bounds.limit w) }
{
    let mut best = None;
    for alternative in alternatives {
        let next = shortest(alloc, words, alternative)?;
        best = shorter(best, next);
    }
    Ok(best)
}

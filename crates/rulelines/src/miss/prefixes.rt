//! The first prefixes of states, one after another.
ghost use Rattle.std.specs.Prelude.{◌≡◌, ℕ, List, not, IfOk, IfSome};
ghost use Rattle.abnfread.specs.AbnfViews.{rules_of};
ghost use Rattle.abnfread.specs.Element.{Rule};
ghost use Rattle.flatgrammar.specs.Flat.{Flat as the_flat};
ghost use Rattle.lazydfa.specs.StateSets.{StateSet};
ghost use Rattle.rulelines.specs.declared.list.keys.LineSymbols.{LineSymbols as the_symbols};
ghost use Rattle.rulelines.specs.MissSearch.{AreEndsOf, AreKeptWithin, ArePrefixesOf, GivesPrefixesTo, IsFoundAt};
ghost use Rattle.rulelines.specs.MissSearch.{IsPrefixStep, IsSearchBegun, IsSearchFor, IsStepIn, found_states};
ghost use Rattle.rulelines.specs.StateTables.{line_symbols};

use crate::alone::word_of;
use crate::list::keys::LineSymbols;
use crate::miss::search::{StateSearch, expand, next_live};
use crate::miss::symbols::line_samples;
use crate::miss::wrong::wrong_symbols;
use crate::pairs::{SearchedPair, add_pair, no_pairs};
use abnfcheck::SoundAbnf;
use flatgrammar::Flat;
use lazydfa::States;
use lowering::lower_viable;
use ruletable::{Alphabet, Memory};
use std::alloc::Global;
use std::marker::Model;

/// Which lines are reported of those that a rule does not derive.
#[derive(Clone, Copy)]
pub struct MissSet {
    /// The alphabet of lines.
    pub alphabet: Alphabet,
    /// The symbol that ends a line. Lines do not have it.
    pub terminator: u8,
    /// The greatest length of a line.
    pub limit: u32,
    /// Whether each symbol that cannot follow is reported next to one that can, and not the first alone.
    pub edges: bool,
}

/// The first prefix of lines that leads to a state, in the order of lines.
#[derive(Drop)]
pub(crate) struct StatePrefix {
    /// Its symbols.
    pub(crate) prefix: Vec<u32>,
    /// Whether the rule does not derive it.
    pub(crate) is_refused: bool,
    /// The symbols that cannot follow it and are reported, if a line has room for one.
    pub(crate) wrong: Vec<u32>,
}

/// The next prefix. `Done`: there is none.
#[derive(Drop)]
pub(crate) enum NextPrefix {
    Prefix(StatePrefix),
    Done,
}

/// The first prefix of each state that lines of at most `limit` symbols lead to, in the order of lines. They do not
/// have the symbol that ends a line.
#[derive(Drop)]
pub(crate) struct StatePrefixes {
    /// Allocates the states and the prefixes.
    alloc: Global,
    /// The lowered rule.
    flat: Flat,
    /// The greatest length of a line.
    limit: u32,
    /// Whether each symbol that cannot follow is reported next to one that can.
    edges: bool,
    /// The symbols of a line.
    inner: LineSymbols,
    /// Symbols that stand for all of their class, in the order of lines.
    samples: Vec<u32>,
    /// The search; none after there was no room or an allocation failed.
    search: Option<StateSearch>,
}

impl Model for StatePrefixes {
    ghost use Rattle.std.specs.Prelude.{IfSome, option_map};
    ghost use Rattle.rulelines.specs.MissSearch.{AreEndsOf, IsSearchFor, PrefixSearch, found_states};
    ghost use Rattle.rulelines.specs.StateTables.{line_symbols};

    ghost Value = { PrefixSearch };

    ghost view = { λ p. record {
      set = record {
        flat = p.flat;
        alphabet = p.inner.alphabet;
        terminator = p.inner.terminator;
        limit = p.limit;
        edges = p.edges;
      };
      search = option_map found_states p.search;
    } };

    ghost invariant = { λ p. AreEndsOf p.edges p.flat (line_symbols p.inner) p.samples.items
        × IfSome p.search (λ search. IsSearchFor p.flat p.inner p.samples.items (found_states search)) };
}

// Returns a search whose first state is the start state of a flat grammar, with so much room for states. `None` if the
// grammar counts how often something nullable is repeated, or there is no room. `Memory` if an allocation fails.
fn begin_search(alloc: Global, flat: &Flat, room: usize) -> Result<Option<StateSearch>, Memory>
    ensures { IfOk result (λ reported. IfSome reported (λ search. IsSearchBegun flat.now (found_states search))) }
{
    let Some(mut states) = States::new(alloc, flat, room)? else {
        return Ok(None);
    };
    let Some(start) = states.start()? else {
        return Ok(None);
    };
    let mut pairs = no_pairs(alloc);
    let pair = SearchedPair {
        old: start,
        new: start,
        parent: 0,
        symbol: 0,
    };
    add_pair(&mut pairs, pair)?;
    Ok(Some(StateSearch {
        states,
        pairs,
        at: 0,
    }))
}

// Returns the symbols, if a line of at most `limit` symbols has room for one after so many; else none.
fn within(alloc: Global, limit: u32, count: usize, symbols: Vec<u32>) -> Vec<u32>
    ensures { AreKeptWithin limit count symbols.items result.items }
{
    if count < limit as usize {
        symbols
    } else {
        Vec::new(alloc)
    }
}

// Returns whether the whole may not end in the state of an index.
fn is_refused(search: &StateSearch, at: usize) -> bool
    ensures { (s : StateSet) → IsFoundAt (found_states search.now) at s → result ≡ not s.ended }
{
    match search.pairs.items.get(at) {
        Some(found) => !search.states.has_ended(found.old),
        None => true,
    }
}

// Returns the next prefix of at most `limit` symbols, with the symbols that cannot follow it: the first or, with
// `edges`, also each one next to one that can. `None` if there is no room. `Memory` if an allocation fails.
fn next_prefix(
    alloc: Global,
    search: &mut StateSearch,
    samples: &[u32],
    limit: u32,
    edges: bool,
) -> Result<Option<NextPrefix>, Memory>
    ensures kept { IfOk result (λ reported. IfSome reported (λ step. (flat : the_flat) (inner : the_symbols) →
        IsSearchFor flat inner samples.now (found_states search.old) → IsSearchFor flat inner samples.now
        (found_states search.new))) }
    ensures step { IfOk result (λ reported. IfSome reported (λ step. (flat : the_flat) (inner : the_symbols)
        (rules : List Rule) (id : ℕ) → IsSearchFor flat inner samples.now (found_states search.old) →
        AreEndsOf edges flat (line_symbols inner) samples.now → GivesPrefixesTo inner.alphabet limit rules id flat →
        IsStepIn inner limit rules id edges (found_states search.old) (found_states search.new) step)) }
{
    let Some(at) = next_live(search) else {
        return Ok(Some(NextPrefix::Done));
    };
    let Some(prefix) = word_of(alloc, &search.pairs.items, at)? else {
        return Ok(None);
    };
    if prefix.len() > limit as usize {
        return Ok(Some(NextPrefix::Done));
    }
    let Some(live) = expand(alloc, search, at, samples)? else {
        return Ok(None);
    };
    search.at = at + 1;
    let wrong = wrong_symbols(alloc, samples, &live, edges)?;
    let wrong = within(alloc, limit, prefix.len(), wrong);
    Ok(Some(NextPrefix::Prefix(StatePrefix {
        is_refused: is_refused(search, at),
        prefix,
        wrong,
    })))
}

impl StatePrefixes {
    /// Returns the prefixes of the judged rule of a grammar, before the first one. They have room for `room` entries of
    /// states. `None` if the grammar counts how often something nullable is repeated, or there is no room. `Memory` if
    /// an allocation fails.
    pub(crate) fn new(
        alloc: Global,
        grammar: &SoundAbnf,
        set: MissSet,
        room: usize,
    ) -> Result<Option<StatePrefixes>, Memory>
        ensures { IfOk result (λ reported. IfSome reported (ArePrefixesOf set.alphabet set.terminator set.limit
            set.edges (rules_of grammar.now.rules) grammar.now.judged)) }
    {
        let flat = lower_viable(alloc, grammar, set.alphabet, set.limit as usize + 1)?;
        let inner = LineSymbols {
            alphabet: set.alphabet,
            terminator: set.terminator,
        };
        let samples = line_samples(alloc, inner, &flat, set.edges)?;
        let Some(search) = begin_search(alloc, &flat, room)? else {
            return Ok(None);
        };
        Ok(Some(StatePrefixes {
            alloc,
            flat,
            limit: set.limit,
            edges: set.edges,
            inner,
            samples,
            search: Some(search),
        }))
    }

    /// Returns the next prefix, and `Done` if there is none. `None` if there is no room for the states, and from then
    /// on. `Memory` if an allocation fails, and `None` from then on.
    pub(crate) fn next(&mut self) -> Result<Option<NextPrefix>, Memory>
        ensures same { self.new.set ≡ self.old.set }
        ensures next { IfOk result (λ reported. IfSome reported (λ step. (rules : List Rule) (id : ℕ) →
            GivesPrefixesTo self.old.set.alphabet self.old.set.limit rules id self.old.set.flat →
            IsPrefixStep rules id self.old self.new step)) }
    {
        let Some(mut search) = self.search.take() else {
            return Ok(None);
        };
        let Some(step) = next_prefix(
            self.alloc,
            &mut search,
            &self.samples,
            self.limit,
            self.edges,
        )?
        else {
            return Ok(None);
        };
        self.search = Some(search);
        Ok(Some(step))
    }
}

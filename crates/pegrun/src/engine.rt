//! Runs the units of an input, which is read as far as they need it.
ghost use Rattle.std.specs.Prelude.{◌≡◌, ℕ, List, ◌+◌, ◌≤◌, [], length, false, IfSome};
ghost use Rattle.std.specs.Io.KnownBytes.{Consumes};
ghost use Rattle.ruletable.specs.Writing.{Flags};
ghost use Rattle.feed.specs.Feed.{IsTrueOfReader, SameLoan, allowance_of, bytes_of, capacity_of, flow_of, input_limit};
ghost use Rattle.feed.specs.Feed.{reader_of};
ghost use Rattle.gramcheck.specs.Grammar.{IsSoundGrammar};
ghost use Rattle.matchfailure.specs.FailureSearches.{evaluated_by};
ghost use Rattle.pegread.specs.PegViews.{rules_of};
ghost use Rattle.toolrun.specs.Agrees.{Agrees};
ghost use Rattle.toolrun.specs.Input.{Input, input_from};
ghost use Rattle.pegrun.specs.MatchCalls.{HasFewCalls, calls_of};
ghost use Rattle.pegrun.specs.PegReply.{RunStates};
ghost use Rattle.pegrun.specs.PegStopped.{IsCut};
ghost use Rattle.toolrun.specs.Stopped.{Fulfils};
ghost use Rattle.toolrun.specs.Stream.{passed};

use crate::attempt::CountedMatcher;
use crate::options::PegSettings;
use crate::passed::{Passed, pass_known};
use crate::past::{Past, ending_at};
use crate::ready::ReadyPeg;
use crate::unit::{UnitStep, next_unit};
use feed::{Feed, Source};
use gramcheck::SoundPeg;
use matchfailure::FailureSearch;
use pegmatch::Matcher;
use ruletable::{Sink, WriteFault};
use std::alloc::Global;
use toolrun::{Ending, Stop};

/// The two evaluators of a run. Each counts its evaluations.
#[derive(Drop)]
pub struct Counted<M> {
    /// Matches the units.
    pub matcher: CountedMatcher<M>,
    /// Evaluates the last units again to explain where the run stops.
    pub search: FailureSearch,
}

impl<M: Matcher> Counted<M> {
    /// Returns a matcher that was asked for as many matches as before, and a search that evaluated no unit yet.
    pub fn new(alloc: Global, matcher: M) -> Counted<M>
        ensures calls { calls_of M.matches result.matcher ≡ M.matches matcher }
        ensures explained { evaluated_by result.search ≡ 0 }
    {
        Counted {
            matcher: CountedMatcher::new(alloc, matcher),
            search: FailureSearch::new(),
        }
    }
}

/// Runs the units of an input in order, each from the end of the one before, and prints their texts. After each match
/// it prints the units that follow from the table. If the settings ask for that, it explains how the run ends.
fn cut<M: Matcher, R: Source, O: Sink>(
    alloc: Global,
    counted: &mut Counted<M>,
    peg: &SoundPeg,
    settings: &PegSettings<'_>,
    feed: &mut Feed<'_, R>,
    out: &mut O,
) -> Result<Ending, WriteFault>
    requires sound { IsSoundGrammar peg.now }
    requires capacity { capacity_of feed.old ≡ settings.now.limit + 1 }
    requires empty { bytes_of feed.old ≡ [] }
    requires allowance { allowance_of feed.old ≡ input_limit }
    requires reported { IsTrueOfReader R.remaining R.failed R.ended feed.old }
    requires out_is_fresh { O.failed out.old ≡ false }
    ensures loan { SameLoan feed.old feed.new }
    ensures reported { IsTrueOfReader R.remaining R.failed R.ended feed.new }
    ensures units { (seen : List ℕ) × Consumes (R.remaining (reader_of feed.old)) (R.remaining
        (reader_of feed.new)) seen ×
        (allowance_of feed.new + length seen ≡ input_limit) ×
        ((input : Input) → Agrees seen (flow_of feed.new) input → IsCut (rules_of peg.now.rules) peg.now.start
        settings.now input (length seen)
        (O.contents out.old) (O.contents out.new) result × HasFewCalls (rules_of peg.now.rules) peg.now.start
        settings.now input (length seen) (calls_of M.matches counted.old.matcher) (calls_of M.matches
        counted.new.matcher)) }
    ensures flag { Flags (O.failed out.old) (O.failed out.new) result }
    ensures explained { evaluated_by counted.new.search ≤ evaluated_by counted.old.search + 2 }
    ensures unasked { settings.now.explain ≡ false → evaluated_by counted.new.search
        ≡ evaluated_by counted.old.search }
{
    counted.matcher.units.clear();
    let mut start = 0;
    let mut past = Past::new(alloc);
    loop {
        match next_unit(&mut counted.matcher, peg, settings, feed, start, out) {
            Ok(UnitStep::Takes(n)) => {
                past.pass(settings.explain, feed, n);
                feed.skip(n);
                start += n;
                match pass_known(&counted.matcher.units, settings, feed, out) {
                    Ok(Passed::Units(n)) => start += n,
                    Ok(Passed::Broken) => return Ok(Ending::Plain(Stop::Broken)),
                    Err(fault) => return Err(fault),
                }
            }
            Ok(UnitStep::Stops(stop)) => {
                // The search takes as much memory as the match did.
                counted.matcher.forget(settings.explain);
                let search = &mut counted.search;
                return Ok(ending_at(search, peg, settings, &mut past, feed, stop));
            }
            Err(fault) => return Err(fault),
        }
    }
}

/// Runs the units of a grammar on what a reader gives.
pub fn run_units<M: Matcher, R: Source, O: Sink>(
    alloc: Global,
    counted: &mut Counted<M>,
    peg: &ReadyPeg,
    settings: &PegSettings<'_>,
    reader: &mut R,
    out: &mut O,
) -> Result<Ending, WriteFault>
    requires reader_is_fresh { R.failed reader.old ≡ false }
    requires reader_is_open { R.ended reader.old ≡ false }
    requires out_is_fresh { O.failed out.old ≡ false }
    ensures runs { Fulfils (RunStates (rules_of peg.now.rules) peg.now.start settings.now)
        (passed R.remaining R.failed reader.old reader.new) (passed O.contents O.failed out.old out.new) result }
    ensures calls { IfSome (R.remaining reader.old) (λ given. (taken : List ℕ) ×
        Consumes (R.remaining reader.old) (R.remaining reader.new) taken × HasFewCalls (rules_of peg.now.rules)
        peg.now.start settings.now (input_from given taken (R.failed reader.new)) (length taken)
        (calls_of M.matches counted.old.matcher) (calls_of M.matches counted.new.matcher)) }
    ensures explained { evaluated_by counted.new.search ≤ evaluated_by counted.old.search + 2 }
    ensures unasked { settings.now.explain ≡ false → evaluated_by counted.new.search
        ≡ evaluated_by counted.old.search }
{
    let grammar = &peg.grammar;
    let ring = match Feed::<R>::room(alloc, settings.limit) {
        Ok(ring) => ring,
        Err(_) => return Ok(Ending::Plain(Stop::NoMemory)),
    };
    let mut feed = Feed::new(ring, reader);
    let ending = cut(alloc, counted, grammar, settings, &mut feed, out);
    let _reader = feed.into_reader();
    ending
}

//! One unit at the front of what a feed holds.
ghost use Rattle.std.specs.Prelude.{◌≡◌, ℕ, List, ◌≤◌, ◌<◌, ◌+◌, ◌++◌, length, true, false, [], Some, Bool};
ghost use Rattle.ruletable.specs.Writing.{Flags};
ghost use Rattle.feed.specs.Feed.{Grows, IsTrueOfReader, SameFeed, SameLoan, allowance_of, bytes_of, capacity_of};
ghost use Rattle.feed.specs.Feed.{IsHeld, flow_of, input_limit};
ghost use Rattle.gramcheck.specs.Grammar.{Grammar, IsSoundGrammar};
ghost use Rattle.pegread.specs.PegViews.{rules_of};
ghost use Rattle.toolrun.specs.Agrees.{Agrees};
ghost use Rattle.pegrun.specs.Attempts.{FrontFlags, HasTaken, IsAttempt, IsFrontAttempt, IsLimited, IsStep, IsStepOn};
ghost use Rattle.pegrun.specs.Attempts.{StaysWithin, failed_at, step_after, step_held, stop_at};
ghost use Rattle.pegrun.specs.ByteUnits.{AreByteUnits};
ghost use Rattle.pegrun.specs.LineTries.{IsReadForUnit};
ghost use Rattle.pegrun.specs.MatchCalls.{calls_of, matches_for};
ghost use Rattle.toolrun.specs.Input.{Input};
ghost use Rattle.pegrun.specs.Units.{is_after_whole as over_at, runs_at_lines as at_lines};
ghost use Rattle.pegrun.specs.declared.options.PegOptions.{PegOptions as Options};

use crate::attempt::{Attempt, CountedMatcher};
use crate::draft::Draft;
use crate::line_unit::{LineTry, early_unit, unit_at_fault};
use crate::options::{PegOptions, PegSettings};
use feed::{Feed, Held, Source};
use gramcheck::SoundPeg;
use pegmatch::{Matcher, PrintStyle};
use ruletable::{Sink, WriteFault, write_whole};
use toolrun::{Status, Stop};

/// The next step of a run: a unit of so many bytes, or a stop.
#[derive(Clone, Copy)]
pub enum UnitStep {
    Takes(usize),
    Stops(Stop),
}

/// Returns how a run ends where no unit goes on at a position.
fn stop_where(position: usize, len: usize) -> Stop
    ensures { result ≡ stop_at position len }
{
    if position == len {
        Stop::Quiet(Status::Done)
    } else {
        Stop::NoMatch(position)
    }
}

/// Returns how a run ends at a position where the start rule fails.
fn stop_failed(settings: &PegSettings<'_>, position: usize, len: usize) -> Stop
    ensures { result ≡ failed_at settings.now position len }
{
    if settings.options.whole {
        return Stop::NoMatch(position);
    }
    stop_where(position, len)
}

/// Returns the next step at a position, by the result of the start rule.
pub(crate) fn step_of(
    attempted: Result<Attempt, WriteFault>,
    settings: &PegSettings<'_>,
    position: usize,
    len: usize,
) -> Result<UnitStep, WriteFault>
    ensures { result ≡ step_after settings.now position len attempted }
{
    match attempted {
        Ok(Attempt::Printed(0)) => Ok(UnitStep::Stops(stop_where(position, len))),
        Ok(Attempt::Printed(n)) => Ok(UnitStep::Takes(n)),
        Ok(Attempt::Failed) => Ok(UnitStep::Stops(stop_failed(settings, position, len))),
        Ok(Attempt::TooLong) => {
            let limit = settings.limit;
            Ok(UnitStep::Stops(Stop::LongUnit { position, limit }))
        }
        Ok(Attempt::Costly(budget)) => {
            Ok(UnitStep::Stops(Stop::CostlyUnit { position, budget }))
        }
        Ok(Attempt::NoMemory) => Ok(UnitStep::Stops(Stop::NoMemory)),
        Err(fault) => Err(fault),
    }
}

/// Runs the start rule on the first piece of a feed, if that has most of the bytes. Returns none if it does not run the
/// rule, or if the piece is too short for a result.
#[inline(always)]
pub(crate) fn attempt_front<M: Matcher, R: Source, O: Sink>(
    matcher: &mut CountedMatcher<M>,
    peg: &SoundPeg,
    feed: &Feed<'_, R>,
    more: bool,
    style: PrintStyle,
    out: &mut O,
) -> Option<Result<Attempt, WriteFault>>
    requires some { more ≡ true → 0 < length (bytes_of feed.now) }
    requires out_is_fresh { O.failed out.old ≡ false }
    ensures answer { IsFrontAttempt peg.now (bytes_of feed.now) more style (O.contents out.old) (O.contents out.new)
        result }
    ensures flag { FrontFlags (O.failed out.old) (O.failed out.new) result }
    ensures once { calls_of M.matches matcher.new ≤ calls_of M.matches matcher.old + 1 }
    ensures units { matcher.new.units ≡ matcher.old.units }
{
    let front = feed.front();
    let held = feed.len();
    if front.len() == held {
        return Some(matcher.print_unit(peg, front, more, style, out));
    }
    if front.len() <= held / 4 * 3 {
        return None;
    }
    let attempted = matcher.print_unit(peg, front, true, style, out);
    if attempted == Ok(Attempt::TooLong) {
        return None;
    }
    Some(attempted)
}

/// Runs the start rule on all that a feed holds.
#[inline(always)]
fn attempt_all<M: Matcher, R: Source, O: Sink>(
    matcher: &mut CountedMatcher<M>,
    peg: &SoundPeg,
    feed: &mut Feed<'_, R>,
    more: bool,
    style: PrintStyle,
    out: &mut O,
) -> Result<Attempt, WriteFault>
    requires some { more ≡ true → 0 < length (bytes_of feed.old) }
    requires out_is_fresh { O.failed out.old ≡ false }
    ensures same { SameFeed feed.old feed.new }
    ensures answer { IsAttempt peg.now (bytes_of feed.old) more style (O.contents out.old) (O.contents out.new) result }
    ensures flag { Flags (O.failed out.old) (O.failed out.new) result }
    ensures once { calls_of M.matches matcher.new ≤ calls_of M.matches matcher.old + 1 }
    ensures units { matcher.new.units ≡ matcher.old.units }
{
    let window: &[u8] = feed.window();
    matcher.print_unit(peg, window, more, style, out)
}

/// Runs the start rule at the front of what a feed holds, and prints the text of a success. It is put in one piece only
/// where its first piece gives no answer. After a unit of one byte it adds the table entry.
#[inline(always)]
fn attempt_unit<M: Matcher, R: Source, O: Sink>(
    matcher: &mut CountedMatcher<M>,
    peg: &SoundPeg,
    feed: &mut Feed<'_, R>,
    more: bool,
    style: PrintStyle,
    out: &mut O,
) -> Result<Attempt, WriteFault>
    requires some { more ≡ true → 0 < length (bytes_of feed.old) }
    requires out_is_fresh { O.failed out.old ≡ false }
    ensures same { SameFeed feed.old feed.new }
    ensures answer { IsAttempt peg.now (bytes_of feed.old) more style (O.contents out.old) (O.contents out.new) result }
    ensures flag { Flags (O.failed out.old) (O.failed out.new) result }
    ensures twice { calls_of M.matches matcher.new ≤ calls_of M.matches matcher.old + 2 }
    ensures units { AreByteUnits peg.now style matcher.old.units → AreByteUnits peg.now style matcher.new.units }
{
    match attempt_front(matcher, peg, feed, more, style, out) {
        Some(attempted) => {
            if attempted == Ok(Attempt::Printed(1)) {
                matcher.learn(peg, feed.front(), style);
            }
            attempted
        }
        None => attempt_all(matcher, peg, feed, more, style, out),
    }
}

/// Prints the text of an attempt that was kept, unless it has more bytes than the budget. The attempt failed in keeping
/// it where the budget was reached, or else where an allocation failed.
pub(crate) fn print_draft<O: Sink>(
    attempted: Result<Attempt, WriteFault>,
    text: &[u8],
    budget: Option<usize>,
    out: &mut O,
) -> Result<Attempt, WriteFault>
    requires { O.failed out.old ≡ false }
    ensures answer { (g : Grammar) (window : List ℕ) (more : Bool) (options : Options) →
        IsAttempt g window more options.style (Some []) (Some text.now) attempted → options.budget ≡ budget →
        IsLimited g window more options (O.contents out.old) (O.contents out.new) result }
    ensures flag { Flags (O.failed out.old) (O.failed out.new) result }
    ensures long { result ≡ Ok Attempt.TooLong → attempted ≡ Ok Attempt.TooLong }
{
    match attempted {
        Ok(Attempt::Printed(end)) => {
            if let Some(most) = budget {
                if text.len() > most {
                    return Ok(Attempt::Costly(most));
                }
            }
            match write_whole(out, text) {
                Ok(()) => Ok(Attempt::Printed(end)),
                Err(fault) => Err(fault),
            }
        }
        Ok(Attempt::Failed) => Ok(Attempt::Failed),
        Ok(Attempt::TooLong) => Ok(Attempt::TooLong),
        Ok(_) => Ok(Attempt::NoMemory),
        Err(_) => {
            if let Some(most) = budget {
                if most <= text.len() {
                    return Ok(Attempt::Costly(most));
                }
            }
            Ok(Attempt::NoMemory)
        }
    }
}

/// Runs the start rule at the front of what a feed holds, and prints the text of a success that is within the budget of
/// the options. A text is kept until that is known.
#[inline(always)]
fn attempt_within<M: Matcher, R: Source, O: Sink>(
    matcher: &mut CountedMatcher<M>,
    peg: &SoundPeg,
    feed: &mut Feed<'_, R>,
    more: bool,
    options: PegOptions,
    out: &mut O,
) -> Result<Attempt, WriteFault>
    requires some { more ≡ true → 0 < length (bytes_of feed.old) }
    requires out_is_fresh { O.failed out.old ≡ false }
    ensures same { SameFeed feed.old feed.new }
    ensures answer { IsLimited peg.now (bytes_of feed.old) more options (O.contents out.old) (O.contents out.new)
        result }
    ensures flag { Flags (O.failed out.old) (O.failed out.new) result }
    ensures twice { calls_of M.matches matcher.new ≤ calls_of M.matches matcher.old + 2 }
    ensures units { AreByteUnits peg.now options.style matcher.old.units
        → AreByteUnits peg.now options.style matcher.new.units }
{
    match options.budget {
        None => attempt_unit(matcher, peg, feed, more, options.style, out),
        Some(budget) => {
            let mut draft = Draft::new(matcher.units.alloc, budget);
            let attempted = attempt_unit(matcher, peg, feed, more, options.style, &mut draft);
            print_draft(attempted, draft.text.as_slice(), options.budget, out)
        }
    }
}

/// Runs one unit at the front of what a feed holds.
#[inline(always)]
fn unit_at<M: Matcher, R: Source, O: Sink>(
    matcher: &mut CountedMatcher<M>,
    peg: &SoundPeg,
    feed: &mut Feed<'_, R>,
    more: bool,
    settings: &PegSettings<'_>,
    start: usize,
    out: &mut O,
) -> Result<UnitStep, WriteFault>
    requires some { more ≡ true → 0 < length (bytes_of feed.old) }
    requires within { start + length (bytes_of feed.old) ≤ input_limit }
    requires out_is_fresh { O.failed out.old ≡ false }
    ensures same { SameFeed feed.old feed.new }
    ensures follows { IsStepOn peg.now (bytes_of feed.old) more settings.now start (O.contents out.old)
        (O.contents out.new) result }
    ensures flag { Flags (O.failed out.old) (O.failed out.new) result }
    ensures twice { calls_of M.matches matcher.new ≤ calls_of M.matches matcher.old + 2 }
    ensures units { AreByteUnits peg.now settings.now.options.style matcher.old.units
        → AreByteUnits peg.now settings.now.options.style matcher.new.units }
{
    let end = start + feed.len();
    let attempted = attempt_within(matcher, peg, feed, more, settings.options, out);
    step_of(attempted, settings, start, end)
}

/// Returns whether no unit is tried at a position: with `whole` the first unit of some bytes is the only one.
#[inline(always)]
fn is_over(settings: &PegSettings<'_>, start: usize) -> bool
    ensures { result ≡ over_at settings.now start }
{
    settings.options.whole && 0 < start
}

/// Reads until `limit` + 1 bytes are held, the input ends or a read fails, and returns how a run ends there, after its
/// only unit.
fn step_over<R: Source>(feed: &mut Feed<'_, R>, start: usize) -> UnitStep
    requires within { start + length (bytes_of feed.old) + allowance_of feed.old ≡ input_limit }
    requires reported { IsTrueOfReader R.remaining R.failed R.ended feed.old }
    ensures loan { SameLoan feed.old feed.new }
    ensures reported { IsTrueOfReader R.remaining R.failed R.ended feed.new }
    ensures grows { Grows R.remaining feed.old feed.new }
    ensures step { (held : _) × IsHeld feed.new held × (result ≡ step_held held start (start
        + length (bytes_of feed.new))) }
{
    let held = feed.fill();
    let end = start + feed.len();
    match held {
        Held::Full | Held::End => UnitStep::Stops(stop_where(start, end)),
        Held::Fault => UnitStep::Stops(Stop::Broken),
    }
}

/// Runs one unit. Before that it reads until `limit` + 1 bytes are held, the input ends or a read fails. If units are
/// run at line feeds, it reads no further than to a line feed at which the unit looks at no later byte. After a failed
/// read it runs a unit that looks at no later byte. With `whole` none is run after the first.
#[inline(always)]
pub fn next_unit<M: Matcher, R: Source, O: Sink>(
    matcher: &mut CountedMatcher<M>,
    peg: &SoundPeg,
    settings: &PegSettings<'_>,
    feed: &mut Feed<'_, R>,
    start: usize,
    out: &mut O,
) -> Result<UnitStep, WriteFault>
    requires sound { IsSoundGrammar peg.now }
    requires capacity { capacity_of feed.old ≡ settings.now.limit + 1 }
    requires within { start + length (bytes_of feed.old) + allowance_of feed.old ≡ input_limit }
    requires reported { IsTrueOfReader R.remaining R.failed R.ended feed.old }
    requires out_is_fresh { O.failed out.old ≡ false }
    ensures loan { SameLoan feed.old feed.new }
    ensures reported { IsTrueOfReader R.remaining R.failed R.ended feed.new }
    ensures grows { Grows R.remaining feed.old feed.new }
    ensures follows { (before : List ℕ) (input : Input) → length before ≡ start → Agrees (before
        ++ bytes_of feed.new) (flow_of feed.new) input →
        IsStep (rules_of peg.now.rules) peg.now.start settings.now input start (O.contents out.old) (O.contents out.new)
        result × HasTaken settings.now input start (length (before ++ bytes_of feed.new)) result }
    ensures reads { at_lines settings.now ≡ true
        → IsReadForUnit peg.now (bytes_of feed.old) (bytes_of feed.new) result }
    ensures fits { StaysWithin (start + length (bytes_of feed.new)) start result }
    ensures flag { Flags (O.failed out.old) (O.failed out.new) result }
    ensures few { calls_of M.matches matcher.new ≤ calls_of M.matches matcher.old + matches_for settings.now }
    ensures units { AreByteUnits peg.now settings.now.options.style matcher.old.units
        → AreByteUnits peg.now settings.now.options.style matcher.new.units }
{
    if is_over(settings, start) {
        return Ok(step_over(feed, start));
    }
    match early_unit(matcher, peg, settings, feed, start, out) {
        LineTry::Ran(step) => step,
        LineTry::Waits(Held::Full) => unit_at(matcher, peg, feed, true, settings, start, out),
        LineTry::Waits(Held::End) => unit_at(matcher, peg, feed, false, settings, start, out),
        LineTry::Waits(Held::Fault) => unit_at_fault(matcher, peg, settings, feed, start, out),
    }
}

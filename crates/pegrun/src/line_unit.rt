//! One unit at the front of what a feed holds, run as soon as a line feed was read.
ghost use Rattle.std.specs.Prelude.{◌≡◌, ℕ, List, ◌≤◌, ◌<◌, ◌+◌, ◌++◌, [], ◌∷◌, length, true, false, IfNone, IfOk};
ghost use Rattle.std.specs.Prelude.{IfSome};
ghost use Rattle.ruletable.specs.Writing.{Flags};
ghost use Rattle.feed.specs.Feed.{Grows, IsHeld, IsTrueOfReader, SameLoan, allowance_of, bytes_of, capacity_of};
ghost use Rattle.feed.specs.Feed.{flow_of, input_limit};
ghost use Rattle.feed.specs.declared.held.Flow.TheVariants.{Broken};
ghost use Rattle.gramcheck.specs.Grammar.{IsSoundGrammar};
ghost use Rattle.pegread.specs.PegViews.{rules_of};
ghost use Rattle.toolrun.specs.Agrees.{Agrees};
ghost use Rattle.toolrun.specs.Input.{Input};
ghost use Rattle.pegrun.specs.Attempts.{FrontFlags, IsAttempt, IsFrontAttempt, IsSettledStep, IsStep};
ghost use Rattle.pegrun.specs.Attempts.{HasTaken, StaysWithin};
ghost use Rattle.pegrun.specs.ByteUnits.{AreByteUnits};
ghost use Rattle.pegrun.specs.LineReads.{ReadsToLine};
ghost use Rattle.pegrun.specs.LineTries.{HasRun, HasTriedReads, IsReadFor, IsTriedWithin, TriedFlags};
ghost use Rattle.pegrun.specs.MatchCalls.{calls_of, matches_for};
ghost use Rattle.pegrun.specs.Units.{runs_at_lines as at_lines};

use crate::attempt::{Attempt, CountedMatcher};
use crate::draft::Draft;
use crate::options::PegSettings;
use crate::unit::{UnitStep, attempt_front, print_draft, step_of};
use feed::{Feed, Held, Source};
use gramcheck::SoundPeg;
use pegmatch::{Matcher, PrintStyle};
use ruletable::{Memory, Sink, WriteFault};
use std::alloc::Global;
use toolrun::Stop;

/// A unit is tried at each line feed so many times, and then where twice as much is held as at the try before.
const LINE_TRIES: usize = 64;

/// A unit is tried at no more line feeds.
const MOST_TRIES: usize = 89;

/// What came of the line feeds that were read.
#[derive(Clone, Copy)]
pub(crate) enum LineTry {
    /// A unit was run at one of them, and this follows.
    Ran(Result<UnitStep, WriteFault>),
    /// The unit is run where no more is read, for this reason.
    Waits(Held),
}

/// Returns whether units are run at line feeds.
#[inline(always)]
fn runs_at_lines(settings: &PegSettings<'_>) -> bool
    ensures { result ≡ at_lines settings.now }
{
    settings.options.line_buffered && !settings.options.whole
}

/// Reads until a line feed is held at or after a position, and returns none. If the window is full, the input ends or a
/// read fails before that, it returns which.
fn read_line<R: Source>(feed: &mut Feed<'_, R>, limit: usize, from: usize) -> Option<Held>
    requires capacity { capacity_of feed.old ≡ limit + 1 }
    requires reported { IsTrueOfReader R.remaining R.failed R.ended feed.old }
    ensures loan { SameLoan feed.old feed.new }
    ensures grows { Grows R.remaining feed.old feed.new }
    ensures reported { IsTrueOfReader R.remaining R.failed R.ended feed.new }
    ensures held { IfSome result (λ held. IsHeld feed.new held) }
    ensures line { IfNone result ((from < length (bytes_of feed.new)) × (length (bytes_of feed.new) ≤ limit)) }
    ensures reads { (n : ℕ) × ReadsToLine from (bytes_of feed.old) n (bytes_of feed.new) }
{
    loop {
        if limit < feed.len() {
            return Some(Held::Full);
        }
        if let Some(k) = feed.rfind(b'\n') {
            if from <= k {
                return None;
            }
        }
        if let Some(held) = feed.read_more() {
            return Some(held);
        }
    }
}

/// Returns what a feed holds and one byte more, in one piece. `Memory` if an allocation fails.
fn with_byte_after<R: Source>(alloc: Global, feed: &Feed<'_, R>) -> Result<Vec<u8>, Memory>
    ensures { IfOk result (λ window. window.items ≡ bytes_of feed.now ++ 0 ∷ []) }
{
    let mut window = Vec::new(alloc);
    feed.copy_front(feed.len(), &mut window)?;
    window.push(0)?;
    Ok(window)
}

/// Runs the start rule on the first piece of a feed, if that has most of the bytes. Returns none if it does not run the
/// rule, or if the rule looks past the piece. After a unit of one byte it adds the table entry.
fn attempt_piece<M: Matcher, R: Source, O: Sink>(
    matcher: &mut CountedMatcher<M>,
    peg: &SoundPeg,
    feed: &Feed<'_, R>,
    style: PrintStyle,
    out: &mut O,
) -> Option<Result<Attempt, WriteFault>>
    requires some { 0 < length (bytes_of feed.now) }
    requires out_is_fresh { O.failed out.old ≡ false }
    ensures answer { IsFrontAttempt peg.now (bytes_of feed.now ++ 0 ∷ []) true style (O.contents out.old)
        (O.contents out.new) result }
    ensures flag { FrontFlags (O.failed out.old) (O.failed out.new) result }
    ensures twice { calls_of M.matches matcher.new ≤ calls_of M.matches matcher.old + 2 }
    ensures once { IfNone result (calls_of M.matches matcher.new ≤ calls_of M.matches matcher.old + 1) }
    ensures units { AreByteUnits peg.now style matcher.old.units → AreByteUnits peg.now style matcher.new.units }
{
    match attempt_front(matcher, peg, feed, true, style, out) {
        Some(attempted) => {
            if attempted == Ok(Attempt::TooLong) {
                return None;
            }
            if attempted == Ok(Attempt::Printed(1)) {
                matcher.learn(peg, feed.front(), style);
            }
            Some(attempted)
        }
        None => None,
    }
}

/// Runs the start rule on a copy of what a feed holds and one byte more.
fn attempt_copied<M: Matcher, R: Source, O: Sink>(
    matcher: &mut CountedMatcher<M>,
    peg: &SoundPeg,
    feed: &Feed<'_, R>,
    style: PrintStyle,
    out: &mut O,
) -> Result<Attempt, WriteFault>
    requires out_is_fresh { O.failed out.old ≡ false }
    ensures answer { IsAttempt peg.now (bytes_of feed.now ++ 0 ∷ []) true style (O.contents out.old)
        (O.contents out.new) result }
    ensures flag { Flags (O.failed out.old) (O.failed out.new) result }
    ensures once { calls_of M.matches matcher.new ≤ calls_of M.matches matcher.old + 1 }
    ensures units { matcher.new.units ≡ matcher.old.units }
{
    match with_byte_after(matcher.units.alloc, feed) {
        Ok(window) => matcher.print_unit(peg, window.as_slice(), true, style, out),
        Err(Memory) => Ok(Attempt::NoMemory),
    }
}

/// Runs the start rule at the front of what a feed holds, whatever follows that. `TooLong` if the rule looks at a byte
/// that follows.
fn attempt_open<M: Matcher, R: Source, O: Sink>(
    matcher: &mut CountedMatcher<M>,
    peg: &SoundPeg,
    feed: &Feed<'_, R>,
    style: PrintStyle,
    out: &mut O,
) -> Result<Attempt, WriteFault>
    requires some { 0 < length (bytes_of feed.now) }
    requires out_is_fresh { O.failed out.old ≡ false }
    ensures answer { IsAttempt peg.now (bytes_of feed.now ++ 0 ∷ []) true style (O.contents out.old)
        (O.contents out.new) result }
    ensures flag { Flags (O.failed out.old) (O.failed out.new) result }
    ensures twice { calls_of M.matches matcher.new ≤ calls_of M.matches matcher.old + 2 }
    ensures units { AreByteUnits peg.now style matcher.old.units → AreByteUnits peg.now style matcher.new.units }
{
    match attempt_piece(matcher, peg, feed, style, out) {
        Some(attempted) => attempted,
        None => attempt_copied(matcher, peg, feed, style, out),
    }
}

/// Runs one unit at the front of what a feed holds, and writes its text by one call. Returns none, and writes nothing,
/// if the unit looks at a byte that follows.
fn try_unit<M: Matcher, R: Source, O: Sink>(
    matcher: &mut CountedMatcher<M>,
    peg: &SoundPeg,
    settings: &PegSettings<'_>,
    feed: &Feed<'_, R>,
    start: usize,
    out: &mut O,
) -> Option<Result<UnitStep, WriteFault>>
    requires some { 0 < length (bytes_of feed.now) }
    requires within { start + length (bytes_of feed.now) ≤ input_limit }
    requires out_is_fresh { O.failed out.old ≡ false }
    ensures answer { IsSettledStep peg.now (bytes_of feed.now) settings.now start (O.contents out.old)
        (O.contents out.new) result }
    ensures flag { FrontFlags (O.failed out.old) (O.failed out.new) result }
    ensures twice { calls_of M.matches matcher.new ≤ calls_of M.matches matcher.old + 2 }
    ensures units { AreByteUnits peg.now settings.now.options.style matcher.old.units
        → AreByteUnits peg.now settings.now.options.style matcher.new.units }
{
    let options = settings.options;
    let mut draft = Draft::new(matcher.units.alloc, options.budget.unwrap_or(usize::MAX));
    let attempted = attempt_open(matcher, peg, feed, options.style, &mut draft);
    if attempted == Ok(Attempt::TooLong) {
        return None;
    }
    let printed = print_draft(attempted, draft.text.as_slice(), options.budget, out);
    Some(step_of(printed, settings, start, start + feed.len()))
}

/// Reads until the window is full, the input ends or a read fails, if the run stops there.
fn read_for_stop<R: Source>(step: Result<UnitStep, WriteFault>, feed: &mut Feed<'_, R>)
    requires { IsTrueOfReader R.remaining R.failed R.ended feed.old }
    ensures loan { SameLoan feed.old feed.new }
    ensures grows { Grows R.remaining feed.old feed.new }
    ensures reported { IsTrueOfReader R.remaining R.failed R.ended feed.new }
    ensures read { IsReadFor step feed.old feed.new }
{
    if let Ok(UnitStep::Stops(_)) = step {
        feed.fill();
    }
}

/// Returns from where on a line feed must stand before the next try of a unit, after so many tries, the last of them on
/// `len` bytes.
fn next_from(tries: usize, len: usize) -> usize
    ensures ahead { len ≤ result }
    ensures line { tries < 64 → result ≡ len }
{
    if tries < LINE_TRIES {
        len
    } else {
        len.saturating_mul(2)
    }
}

/// Reads from line feed to line feed, and runs a unit at the first at which it looks at no later byte. Before a run
/// stops, it reads on until the window is full, the input ends or a read fails. So it does before it returns `Waits`.
/// If units are not run at line feeds, it runs none.
pub(crate) fn early_unit<M: Matcher, R: Source, O: Sink>(
    matcher: &mut CountedMatcher<M>,
    peg: &SoundPeg,
    settings: &PegSettings<'_>,
    feed: &mut Feed<'_, R>,
    start: usize,
    out: &mut O,
) -> LineTry
    requires sound { IsSoundGrammar peg.now }
    requires capacity { capacity_of feed.old ≡ settings.now.limit + 1 }
    requires within { start + length (bytes_of feed.old) + allowance_of feed.old ≡ input_limit }
    requires reported { IsTrueOfReader R.remaining R.failed R.ended feed.old }
    requires out_is_fresh { O.failed out.old ≡ false }
    ensures loan { SameLoan feed.old feed.new }
    ensures reported { IsTrueOfReader R.remaining R.failed R.ended feed.new }
    ensures grows { Grows R.remaining feed.old feed.new }
    ensures follows { HasRun peg.now settings.now start feed.new (O.contents out.old) (O.contents out.new) result }
    ensures reads { at_lines settings.now ≡ true
        → HasTriedReads peg.now (bytes_of feed.old) (bytes_of feed.new) result }
    ensures fits { IsTriedWithin (start + length (bytes_of feed.new)) start result }
    ensures flag { TriedFlags (O.failed out.old) (O.failed out.new) result }
    ensures few { calls_of M.matches matcher.new + 2 ≤ calls_of M.matches matcher.old + matches_for settings.now }
    ensures units { AreByteUnits peg.now settings.now.options.style matcher.old.units
        → AreByteUnits peg.now settings.now.options.style matcher.new.units }
{
    if !runs_at_lines(settings) {
        return LineTry::Waits(feed.fill());
    }
    let mut tries = 0;
    let mut from = 0;
    while tries < MOST_TRIES {
        if let Some(held) = read_line(feed, settings.limit, from) {
            return LineTry::Waits(held);
        }
        if let Some(step) = try_unit(matcher, peg, settings, feed, start, out) {
            read_for_stop(step, feed);
            return LineTry::Ran(step);
        }
        tries += 1;
        from = next_from(tries, feed.len());
    }
    LineTry::Waits(feed.fill())
}

/// Runs one unit where a read failed before so many bytes were read as a unit may look at. If units are run at line
/// feeds, a unit is run if some bytes are there and it looks at no later one.
pub(crate) fn unit_at_fault<M: Matcher, R: Source, O: Sink>(
    matcher: &mut CountedMatcher<M>,
    peg: &SoundPeg,
    settings: &PegSettings<'_>,
    feed: &Feed<'_, R>,
    start: usize,
    out: &mut O,
) -> Result<UnitStep, WriteFault>
    requires sound { IsSoundGrammar peg.now }
    requires broken { flow_of feed.now ≡ Broken }
    requires short { length (bytes_of feed.now) ≤ settings.now.limit }
    requires within { start + length (bytes_of feed.now) ≤ input_limit }
    requires out_is_fresh { O.failed out.old ≡ false }
    ensures follows { (before : List ℕ) (input : Input) → length before ≡ start → Agrees (before
        ++ bytes_of feed.now) (flow_of feed.now) input →
        IsStep (rules_of peg.now.rules) peg.now.start settings.now input start (O.contents out.old) (O.contents out.new)
        result × HasTaken settings.now input start (length (before ++ bytes_of feed.now)) result }
    ensures fits { StaysWithin (start + length (bytes_of feed.now)) start result }
    ensures flag { Flags (O.failed out.old) (O.failed out.new) result }
    ensures twice { calls_of M.matches matcher.new ≤ calls_of M.matches matcher.old + 2 }
    ensures units { AreByteUnits peg.now settings.now.options.style matcher.old.units
        → AreByteUnits peg.now settings.now.options.style matcher.new.units }
{
    if !runs_at_lines(settings) || feed.len() == 0 {
        return Ok(UnitStep::Stops(Stop::Broken));
    }
    match try_unit(matcher, peg, settings, feed, start, out) {
        Some(step) => step,
        None => Ok(UnitStep::Stops(Stop::Broken)),
    }
}

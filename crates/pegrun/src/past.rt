//! Explains how a run ends, and keeps what that needs of the input.
ghost use Rattle.std.specs.Prelude.{◌≡◌, ℕ, ◌+◌, ◌^◌, ◌<◌, ◌≤◌, ◌++◌, [], List, IfOk, length, take, true, false};
ghost use Rattle.feed.specs.Feed.{SameFeed, bytes_of};
ghost use Rattle.matchfailure.specs.FailureSearches.{evaluated_by};
ghost use Rattle.matchfailure.specs.NoMatches.{IsNoMatchReported, unit_before};
ghost use Rattle.matchfailure.specs.InputPositions.{position_after};
ghost use Rattle.pegread.specs.PegViews.{rules_of};
ghost use Rattle.pegrun.specs.PastUnits.{EndsAfter, Follows, IsEndingWith};

use crate::options::PegSettings;
use feed::{Feed, Source};
use gramcheck::SoundPeg;
use matchfailure::{FailureSearch, TextPosition, explain_long_unit};
use ruletable::Memory;
use std::alloc::Global;
use toolrun::{Ending, ReportedRefusals, Stop};

/// The last unit that was taken, of which the bytes are kept, and where the next one begins.
#[derive(Drop)]
pub struct Past {
    /// Where its bytes, and the lines of an explanation, are allocated.
    pub alloc: Global,
    /// Where it begins; the front of the input if there is none.
    pub at: TextPosition,
    /// Its bytes; none if there is none.
    pub bytes: Vec<u8>,
    /// Whether an allocation failed in keeping them.
    pub lost: bool,
    /// Where the next unit begins.
    pub next: TextPosition,
}

impl Past {
    /// Returns the state at the front of an input: no unit was taken.
    pub fn new(alloc: Global) -> Past
        ensures at { result.at ≡ position_after [] }
        ensures bytes { result.bytes.items ≡ [] }
        ensures lost { result.lost ≡ false }
        ensures next { result.next ≡ position_after [] }
    {
        Past {
            alloc,
            at: TextPosition::front(),
            bytes: Vec::new(alloc),
            lost: false,
            next: TextPosition::front(),
        }
    }

    /// Keeps a unit of these bytes.
    fn keep(&mut self, unit: &[u8])
        requires stands { (front : List ℕ) × (self.old.next ≡ position_after front)
            × (length front + length unit.now < 2 ^ 63) }
        ensures at { self.new.at ≡ self.old.next }
        ensures next { (front : List ℕ) → self.old.next ≡ position_after front
            → self.new.next ≡ position_after (front ++ unit.now) }
        ensures bytes { self.new.lost ≡ false → self.new.bytes.items ≡ unit.now }
        ensures room { length self.new.bytes.items ≤ length unit.now }
    {
        self.at = self.next;
        self.next = self.next.after(unit);
        self.bytes.clear();
        self.lost = self.bytes.extend_from_slice(unit).is_err();
    }

    /// Keeps the unit of the first `n` bytes that are held.
    #[inline(never)]
    fn take<R: Source>(&mut self, feed: &mut Feed<'_, R>, n: usize)
        requires held { n ≤ length (bytes_of feed.old) }
        requires stands { (front : List ℕ) × (self.old.next ≡ position_after front) × (length front + n < 2 ^ 63) }
        ensures same { SameFeed feed.old feed.new }
        ensures at { self.new.at ≡ self.old.next }
        ensures next { (front : List ℕ) → self.old.next ≡ position_after front
            → self.new.next ≡ position_after (front ++ take n (bytes_of feed.old)) }
        ensures bytes { self.new.lost ≡ false → self.new.bytes.items ≡ take n (bytes_of feed.old) }
        ensures room { length self.new.bytes.items ≤ n }
    {
        let front = feed.front();
        if n <= front.len() {
            self.keep(&front[..n]);
            return;
        }
        let window: &[u8] = feed.window();
        self.keep(&window[..n]);
    }

    /// Keeps the unit of the first `n` bytes that are held, if that is asked.
    #[inline(always)]
    pub fn pass<R: Source>(&mut self, is_asked: bool, feed: &mut Feed<'_, R>, n: usize)
        requires held { n ≤ length (bytes_of feed.old) }
        requires stands { is_asked ≡ true → (before : List ℕ) × Follows self.old before × (length before + n < 2 ^ 63) }
        ensures same { SameFeed feed.old feed.new }
        ensures follows { is_asked ≡ true → (before : List ℕ) → Follows self.old before
            → Follows self.new (before ++ take n (bytes_of feed.old)) }
        ensures at { is_asked ≡ true → self.new.at ≡ self.old.next }
        ensures bytes { is_asked ≡ true → self.new.lost ≡ false → self.new.bytes.items ≡ take n (bytes_of feed.old) }
    {
        if is_asked {
            self.take(feed, n);
        }
    }

    /// Returns the lines that explain why no unit goes on where so much is held. `Memory` if an allocation fails, or if
    /// one failed in keeping the unit before.
    fn no_match_lines<R: Source>(
        &mut self,
        search: &mut FailureSearch,
        peg: &SoundPeg,
        feed: &mut Feed<'_, R>,
    ) -> Result<Vec<u8>, Memory>
        requires stands { (before : List ℕ) × Follows self.old before
            × (length before + length (bytes_of feed.old) < 2 ^ 63) }
        ensures same { SameFeed feed.old feed.new }
        ensures reported { IfOk result (λ why. (before : List ℕ) → Follows self.old before → (self.old.lost ≡ false)
            × IsNoMatchReported (rules_of peg.now.rules) peg.now.start (before ++ bytes_of feed.old)
            (unit_before self.old.at.byte (length self.old.bytes.items)) (length before) why.items) }
        ensures twice { evaluated_by search.new ≤ evaluated_by search.old + 2 }
    {
        if self.lost {
            return Err(Memory);
        }
        let last = self.bytes.len();
        if last == 0 {
            let window: &[u8] = feed.window();
            return search.explain_no_match(self.alloc, peg, window, last, self.at);
        }
        self.bytes.extend_from_slice(feed.window())?;
        search.explain_no_match(self.alloc, peg, self.bytes.as_slice(), last, self.at)
    }
}

/// Returns how a run ends that stopped so, where these lines explain it, or an allocation failed.
fn with_lines(alloc: Global, stop: Stop, why: Result<Vec<u8>, Memory>) -> Ending
    ensures { IsEndingWith stop why result }
{
    let reported = ReportedRefusals::none(alloc);
    match why {
        Ok(why) => Ending::Explained {
            reported,
            stop,
            why,
        },
        Err(Memory) => Ending::Unexplained { reported, stop },
    }
}

/// Returns how a run ends that stopped so, with the lines that explain it.
fn explained_stop<R: Source>(
    search: &mut FailureSearch,
    peg: &SoundPeg,
    past: &mut Past,
    feed: &mut Feed<'_, R>,
    stop: Stop,
) -> Ending
    requires stands { (before : List ℕ) × Follows past.old before
        × (length before + length (bytes_of feed.old) < 2 ^ 63) }
    ensures same { SameFeed feed.old feed.new }
    ensures reported { (before : List ℕ) → Follows past.old before → EndsAfter (rules_of peg.now.rules) peg.now.start
        past.old before (bytes_of feed.old) stop result }
    ensures twice { evaluated_by search.new ≤ evaluated_by search.old + 2 }
{
    let alloc = past.alloc;
    match stop {
        Stop::NoMatch(_) => with_lines(alloc, stop, past.no_match_lines(search, peg, feed)),
        Stop::LongUnit { .. } => with_lines(alloc, stop, explain_long_unit(alloc, past.next)),
        _ => Ending::Plain(stop),
    }
}

/// Wraps the stop of a run as its ending. If settings ask for explanations, it adds the lines that explain the stop;
/// for `NoMatch` it evaluates at most two units again.
pub fn ending_at<R: Source>(
    search: &mut FailureSearch,
    peg: &SoundPeg,
    settings: &PegSettings<'_>,
    past: &mut Past,
    feed: &mut Feed<'_, R>,
    stop: Stop,
) -> Ending
    requires stands { settings.now.explain ≡ true → (before : List ℕ) × Follows past.old before
        × (length before + length (bytes_of feed.old) < 2 ^ 63) }
    ensures same { SameFeed feed.old feed.new }
    ensures reported { settings.now.explain ≡ true → (before : List ℕ) → Follows past.old before
        → EndsAfter (rules_of peg.now.rules) peg.now.start past.old before (bytes_of feed.old) stop result }
    ensures plain { settings.now.explain ≡ false → result ≡ Ending.Plain stop }
    ensures twice { evaluated_by search.new ≤ evaluated_by search.old + 2 }
    ensures unasked { settings.now.explain ≡ false → evaluated_by search.new ≡ evaluated_by search.old }
{
    if settings.explain {
        return explained_stop(search, peg, past, feed, stop);
    }
    Ending::Plain(stop)
}

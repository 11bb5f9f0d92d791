//! Matches a unit by a matcher that counts its matches.
ghost use Rattle.std.specs.Prelude.{◌≡◌, ℕ, ◌+◌, ◌<◌, ◌≤◌, IfSome, Some, length, min, slice_get, true, false};
ghost use Rattle.ruletable.specs.Writing.{Flags};
ghost use Rattle.pegrun.specs.Attempts.{IsAttempt};
ghost use Rattle.pegrun.specs.ByteUnits.{AreByteUnits, IsByteUnit, known_text};
ghost use Rattle.pegmatch.specs.Answers.{most_matches};
ghost use Rattle.pegrun.specs.MatchCalls.{calls_of};

use crate::byte_units::{ByteUnit, ByteUnits, MOST_TEXT};
use crate::draft::Draft;
use gramcheck::SoundPeg;
use pegmatch::{Matcher, PrintStyle, ReplayFault, Unit};
use ruletable::{Sink, WriteFault};
use std::alloc::Global;

/// The result of the start rule at the front of a window.
#[derive(Clone, Copy, PartialEq, Eq)]
pub enum Attempt {
    /// It takes this many bytes, and its text is printed.
    Printed(usize),
    /// It fails.
    Failed,
    /// It compares the last byte of a window after which more bytes may come.
    TooLong,
    /// It prints more bytes than this budget.
    Costly(usize),
    /// An allocation failed; nothing is printed.
    NoMemory,
}

/// A matcher, which counts its matches, with the table of units of one byte. A unit that the table has is not matched.
#[derive(Drop)]
pub struct CountedMatcher<M> {
    /// The matcher. Only this crate's functions match by it, so each match is counted.
    matcher: M,
    /// The texts of units of one byte that were matched before.
    pub(crate) units: ByteUnits,
}

impl<M: Matcher> CountedMatcher<M> {
    /// Returns a matcher with an empty table. It was asked for as many matches as before.
    pub fn new(alloc: Global, matcher: M) -> CountedMatcher<M>
        ensures { calls_of M.matches result ≡ M.matches matcher }
    {
        CountedMatcher {
            matcher,
            units: ByteUnits::new(alloc),
        }
    }

    /// Frees the memory of the last match if that is asked. It matches nothing.
    pub(crate) fn forget(&mut self, is_asked: bool)
        ensures calls { calls_of M.matches self.new ≡ calls_of M.matches self.old }
        ensures units { self.new.units ≡ self.old.units }
    {
        if !is_asked {
            return;
        }
        self.matcher.forget();
    }

    /// Matches the start rule once at the front of a window, and prints the text of a success.
    #[inline(always)]
    pub fn print_unit<O: Sink>(
        &mut self,
        peg: &SoundPeg,
        window: &[u8],
        more: bool,
        style: PrintStyle,
        out: &mut O,
    ) -> Result<Attempt, WriteFault>
        requires some { more ≡ true → 0 < length window.now }
        requires out_is_fresh { O.failed out.old ≡ false }
        ensures answer { IsAttempt peg.now window.now more style (O.contents out.old) (O.contents out.new) result }
        ensures flag { Flags (O.failed out.old) (O.failed out.new) result }
        ensures once { calls_of M.matches self.new ≡ min (calls_of M.matches self.old + 1) most_matches }
        ensures units { self.new.units ≡ self.old.units }
    {
        let end = match self.matcher.match_unit(peg, window, more) {
            Ok(Unit::Took { end, .. }) => end,
            Ok(Unit::Failed { .. }) => return Ok(Attempt::Failed),
            Ok(Unit::Need) => return Ok(Attempt::TooLong),
            Err(_) => return Ok(Attempt::NoMemory),
        };
        match self.matcher.replay(peg, window, style, out) {
            Ok(()) => Ok(Attempt::Printed(end)),
            Err(ReplayFault::Memory) => Ok(Attempt::NoMemory),
            Err(ReplayFault::Write) => Err(WriteFault),
        }
    }

    /// Matches the first two bytes of a window, with more bytes to come. Returns the table entry for the first byte:
    /// `Other` if its text is too long to be stored.
    fn ask(&mut self, peg: &SoundPeg, window: &[u8], style: PrintStyle) -> ByteUnit
        requires { 2 ≤ length window.now }
        ensures known { (b : ℕ) → slice_get window.now 0 ≡ Some b
            → IfSome (known_text (Some result)) (IsByteUnit peg.now style b) }
        ensures units { self.new.units ≡ self.old.units }
        ensures once { calls_of M.matches self.new ≤ calls_of M.matches self.old + 1 }
    {
        let mut draft = Draft::new(self.units.alloc, MOST_TEXT);
        match self.print_unit(peg, &window[..2], true, style, &mut draft) {
            Ok(Attempt::Printed(1)) => ByteUnit::Prints(draft.text),
            _ => ByteUnit::Other,
        }
    }

    /// Adds the table entry for the first byte of a window, if the table has none.
    pub(crate) fn learn(&mut self, peg: &SoundPeg, window: &[u8], style: PrintStyle)
        ensures units { AreByteUnits peg.now style self.old.units → AreByteUnits peg.now style self.new.units }
        ensures once { calls_of M.matches self.new ≤ calls_of M.matches self.old + 1 }
    {
        if window.len() < 2 || !self.units.is_open(window[0]) {
            return;
        }
        let known = self.ask(peg, window, style);
        self.units.keep(window[0], known);
    }
}

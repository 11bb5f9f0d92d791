//! The contract of a matcher.
ghost use Rattle.std.specs.Prelude.{◌≡◌, ℕ, ◌+◌, ◌<◌, List, length, min, true, IfOk, false};
ghost use Rattle.gramcheck.specs.Grammar.{Grammar};
ghost use Rattle.gramcheck.specs.Outcome.{Event};
ghost use Rattle.pegmatch.specs.Answers.{IsAnswer, HoldsSuccess, Replays, most_matches};
ghost use Rattle.pegmatch.specs.Text.{text_of};

use crate::style::PrintStyle;
use gramcheck::SoundPeg;
use ruletable::{Memory, Sink};
use thiserror::Error;

/// The result of a match of the start rule at the front of a window.
#[derive(Clone, Copy, PartialEq, Eq)]
pub enum Unit {
    /// It succeeds: how many bytes it takes, and how many evaluations were begun, which is at least 1 and stays at the
    /// greatest number.
    Took { end: usize, begun: u128 },
    /// It fails: how many evaluations were begun.
    Failed { begun: u128 },
    /// It would compare the window's last byte, and more bytes follow the window.
    Need,
}

/// Why a replay stopped.
#[derive(Clone, Copy, Debug, PartialEq, Eq, Error)]
pub enum ReplayFault {
    /// An allocation failed; nothing was written.
    #[error("out of memory")]
    Memory,
    /// The writer failed; a prefix was written.
    #[error("write error")]
    Write,
}

/// A matcher of a grammar's start rule at the front of a window. It counts its matches, so no caller matches uncounted.
pub trait Matcher {
    /// How many matches it was asked for since it was made. The count stops at `most_matches`.
    ghost matches: { Self → ℕ };

    /// The events that it holds of its last success, for a grammar and a window.
    ghost holds: { Self → Grammar → List ℕ → List Event → Type 0 };

    /// Matches the start rule at the front of the window (Ford 2004, section 3.3). It counts one match, with an error
    /// too.
    ///
    /// Without `more` the window is the whole rest of the input, and the answer is never `Need`. With `more` the window
    /// isn't empty, and `Need` says that its last byte was compared; any other answer holds for every rest that begins
    /// with the window.
    ///
    /// # Errors
    /// `Memory` if an allocation fails.
    fn match_unit(&mut self, peg: &SoundPeg, window: &[u8], more: bool) -> Result<Unit, Memory>
        requires { more ≡ true → 0 < length window.now }
        ensures answer { IfOk result (IsAnswer peg.now window.now more (holds self.new peg.now window.now)) }
        ensures once { matches self.new ≡ min (matches self.old + 1) most_matches };

    /// Writes what the actions of its last success print, in order. It must hold a success for this grammar and window.
    /// It matches nothing.
    ///
    /// # Errors
    /// - `Memory` if an allocation fails; nothing was written.
    /// - `Write` if the writer failed; a prefix was written.
    fn replay<W: Sink>(
        &mut self,
        peg: &SoundPeg,
        window: &[u8],
        style: PrintStyle,
        out: &mut W,
    ) -> Result<(), ReplayFault>
        requires success { HoldsSuccess peg.now window.now (holds self.old peg.now window.now) }
        requires out_is_fresh { W.failed out.old ≡ false }
        ensures text { (events : List Event) → holds self.old peg.now window.now events →
            Replays (W.contents out.old) (W.contents out.new) (W.failed out.old) (W.failed out.new)
            (text_of style window.now events) result }
        ensures unmatched { matches self.new ≡ matches self.old };

    /// Frees what it holds of its last match. It matches nothing.
    fn forget(&mut self)
        ensures { matches self.new ≡ matches self.old };
}

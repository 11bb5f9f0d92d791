//! The packrat matcher.
ghost use Rattle.std.specs.Prelude.{◌≡◌, ℕ, ◌+◌, ◌*◌, ◌<◌, ◌≤◌, true, false, List, length, min, IfOk, OnErr, Err};
ghost use Rattle.std.specs.Prelude.{IfSome, IfNone};
ghost use Rattle.memo.specs.KeyLog.{tasks_of};
ghost use Rattle.memo.specs.Parts.{IsIn};
ghost use Rattle.memo.specs.declared.key_log.Given.{Given};
ghost use Rattle.gramcheck.specs.Outcome.{Event, Outcome};
ghost use Rattle.pegmatch.specs.Answers.{StartGives, IsAnswer, HoldsSuccess, Replays, most_matches};
ghost use Rattle.pegmatch.specs.Text.{text_of};
ghost use Rattle.pegmatch.specs.declared.matcher.ReplayFault.{ReplayFault};
ghost use Rattle.packrat.specs.Done.{empty, Holds, IsOutcome, head_of, unit_of_match};

use crate::events::EventLog;
use crate::frames::Frames;
use crate::machine::Machine;
use gramcheck::SoundPeg;
use memo::{Found, Given, KeyLog, MatchTask};
use pegmatch::{Matcher, PrintStyle, ReplayFault, Unit};
use ruletable::{Memory, Sink};
use std::alloc::Global;
use std::marker::Model;

// So many nodes or more, or so many bytes of a window or more, are too many.
const MOST: usize = 4_294_967_295;

/// A packrat matcher (Ford 2002) that memoizes the keys alone, and evaluates each node at each position at most once. A
/// key is a task that can be asked for twice; the outcomes of other tasks follow from keys. `match_unit` returns
/// `Memory` for a window of 4,294,967,295 bytes or more, and for a grammar of as many nodes or more.
///
/// The machine has the state of the last match: its memo table, its events and its stack. The stack is an explicit
/// vector, so that deep nesting takes no call stack. `head` names the events of the last success, for `replay`. A match
/// that fails, or needs more bytes, leaves it 0. An error empties the machine, but keeps the count of matches.
///
/// Contracts see the stored keys and the frames, each with the last one first. They see the number of evaluations
/// begun, the events of the last success, and the number of matches.
#[derive(Drop)]
pub struct Packrat {
    /// Where its memory is allocated.
    alloc: Global,
    /// The state of the last match. Its memory serves the next one.
    machine: Machine,
    /// The head of the events of the last success, or 0.
    head: usize,
    /// How many matches it was asked for since it was made.
    matches: u128,
}

impl Model for Packrat {
    ghost use Rattle.packrat.specs.EventLog.{IsHead, kept_at};
    ghost use Rattle.packrat.specs.Done.{Contents};

    ghost Value = { Contents };

    ghost view = { λ m. record {
      stored = m.machine.log.stored;
      frames = m.machine.frames;
      begun = m.machine.begun;
      kept = kept_at m.machine.events m.head;
      matches = m.matches;
    } };

    ghost invariant = { λ m. IsHead m.machine.events m.head };
}

// Returns the answer for what a match found; `Need` where the window was too short.
fn matched_unit(given: Option<Given>, begun: u64) -> Unit
    ensures { result ≡ unit_of_match given begun }
{
    match given {
        None => Unit::Need,
        Some(given) => match given.found {
            Found::Failed => Unit::Failed {
                begun: u128::from(begun),
            },
            Found::Took(end) => Unit::Took {
                end,
                begun: u128::from(begun),
            },
        },
    }
}

// Returns the head of the events of what a match found.
fn head_given(given: Option<Given>) -> usize
    ensures { result ≡ head_of given }
{
    match given {
        Some(given) => given.events,
        None => 0,
    }
}

impl Packrat {
    /// Returns a matcher that has stored nothing, and that was asked for no match; it takes no memory.
    pub fn new(alloc: Global) -> Packrat
        ensures { result ≡ empty 0 }
    {
        Packrat {
            alloc,
            machine: Machine {
                log: KeyLog::new(alloc),
                events: EventLog::new(alloc),
                frames: Frames::new(alloc),
                begun: 0,
            },
            head: 0,
            matches: 0,
        }
    }

    /// Returns how many keys are stored.
    pub fn stored(&self) -> usize
        ensures { result ≡ length self.now.stored }
    {
        self.machine.log.len()
    }

    /// Returns how many evaluations were begun.
    pub fn begun(&self) -> u128
        ensures { result ≡ self.now.begun }
    {
        u128::from(self.machine.begun)
    }

    /// Looks up the outcome of a key in its last unit, if the key was evaluated.
    ///
    /// # Errors
    /// `Memory` if an allocation fails.
    pub fn found(&mut self, key: MatchTask) -> Result<Option<Found>, Memory>
        ensures some { IfOk result (λ found. IfSome found (λ f. (given : Given) × (given.found ≡ f)
            × IsIn (record { task = key; given = given }) self.old.stored)) }
        ensures none { IfOk result (λ found. IfNone found (IsIn key (tasks_of self.old.stored) → ⊥)) }
        ensures same { self.new ≡ self.old }
    {
        match self.machine.log.get(key)? {
            Some(given) => Ok(Some(given.found)),
            None => Ok(None),
        }
    }

    /// Empties it, and takes no memory. It keeps the count of matches.
    pub fn reset(&mut self)
        ensures { self.new ≡ empty self.old.matches }
    {
        self.machine.log.clear();
        self.machine.events.clear();
        self.machine.frames.clear();
        self.machine.begun = 0;
        self.head = 0;
    }
}

impl Matcher for Packrat {
    ghost matches = { λ d. d.matches };

    ghost holds = { λ d g x events. Holds d g x events };

    /// Matches the start rule at the front of the window (Ford 2004, section 3.3). Unless it returns `Need`, exactly
    /// the keys that are reached are stored, each once and with its outcome. The cells that they imply are exactly the
    /// evaluations that are visited, each once and with its outcome. As many were begun.
    ///
    /// Without `more` the window is the whole rest of the input, and the answer is never `Need`. With `more` the window
    /// is not empty, and `Need` says that its last byte was compared; any other answer holds for every rest that begins
    /// with the window. At `Need` no frame is left, and stored are reached keys with their outcomes. The evaluations
    /// that were begun are visited ones before the window's end, each begun once. A failure and `Need` leave no events.
    ///
    /// However it ends, it has counted one match, and has begun at most as many evaluations as there are nodes at the
    /// positions up to where the start rule looks. With `more` they are also at most as many as there are nodes at the
    /// window's bytes.
    ///
    /// # Errors
    /// `Memory` if an allocation fails, or if a count does not fit in 32 bits; nothing is stored.
    fn match_unit(&mut self, peg: &SoundPeg, window: &[u8], more: bool) -> Result<Unit, Memory>
        requires some { more ≡ true → 0 < length window.now }
        ensures answer { IfOk result (IsAnswer peg.now window.now more (Holds self.new peg.now window.now)) }
        ensures outcome { IfOk result (IsOutcome peg.now window.now more peg.now.keys self.new) }
        ensures bounded { IfOk result (λ unit. ((o : Outcome) (k : ℕ) → StartGives peg.now window.now o k →
            self.new.begun ≤ length peg.now.nodes * (k + 1))
            × (more ≡ true → self.new.begun ≤ length peg.now.nodes * length window.now)) }
        ensures empty { OnErr result (self.new ≡ empty self.new.matches) }
        ensures once { self.new.matches ≡ min (self.old.matches + 1) most_matches }
    {
        self.matches = self.matches.saturating_add(1);
        let root = peg.body_node(peg.start());
        if peg.nodes() >= MOST || window.len() >= MOST {
            self.reset();
            return Err(Memory);
        }
        if self.machine.log.begin_unit(peg.nodes()).is_err() {
            self.reset();
            return Err(Memory);
        }
        self.head = 0;
        let matched = self.machine.evaluate(peg, window, more, root);
        match matched {
            Ok(given) => {
                self.head = head_given(given);
                Ok(matched_unit(given, self.machine.begun))
            }
            Err(fault) => {
                self.reset();
                Err(fault)
            }
        }
    }

    /// Writes what the actions of its last success print, in order. It must hold a success for this grammar and window,
    /// and holds it afterwards, unless it returns `Memory`. It keeps the count of matches.
    ///
    /// # Errors
    /// - `Memory` if an allocation fails; nothing was written, and nothing is stored.
    /// - `Write` if the writer failed; a prefix was written.
    fn replay<W: Sink>(
        &mut self,
        peg: &SoundPeg,
        window: &[u8],
        style: PrintStyle,
        out: &mut W,
    ) -> Result<(), ReplayFault>
        requires success { HoldsSuccess peg.now window.now (Holds self.old peg.now window.now) }
        requires out_is_fresh { W.failed out.old ≡ false }
        ensures text { (events : List Event) → Holds self.old peg.now window.now events →
            Replays (W.contents out.old) (W.contents out.new) (W.failed out.old) (W.failed out.new)
            (text_of style window.now events) result }
        ensures kept { (result ≡ Err ReplayFault.Memory → ⊥) → self.new ≡ self.old }
        ensures empty { result ≡ Err ReplayFault.Memory → self.new ≡ empty self.old.matches }
    {
        let replayed = self
            .machine
            .events
            .replay(peg, window, style, self.head, out);
        if replayed == Err(ReplayFault::Memory) {
            self.reset();
        }
        replayed
    }

    /// Empties it, and frees its memory. It keeps the count of matches.
    fn forget(&mut self)
        ensures { self.new ≡ empty self.old.matches }
    {
        let mut emptied = Packrat::new(self.alloc);
        emptied.matches = self.matches;
        *self = emptied;
    }
}

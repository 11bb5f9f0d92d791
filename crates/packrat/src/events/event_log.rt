//! The log of the events.
ghost use Rattle.std.specs.Prelude.{◌≡◌, List, [], ◌∷◌, ◌++◌, ◌+◌, length, false, IfOk, OnOk, OnErr};
ghost use Rattle.pegnodes.specs.Nodes.{shapes_of};
ghost use Rattle.gramcheck.specs.Outcome.{Event};
ghost use Rattle.gramcheck.specs.Rising.{Rise};
ghost use Rattle.pegmatch.specs.Answers.{Replays};
ghost use Rattle.pegmatch.specs.KeptEvents.{StandFor};
ghost use Rattle.pegmatch.specs.Text.{text_of};
ghost use Rattle.packrat.specs.EventLog.{IsHead, kept_at, AreGrown, IsBefore};

use crate::events::link::{Link, link_of, narrow};
use crate::events::replay::write_waiting;
use crate::events::walk::ReplayWalk;
use gramcheck::SoundPeg;
use pegmatch::{Kept, PrintStyle, ReplayFault};
use ruletable::{Memory, Sink};
use std::alloc::Global;
use std::marker::Model;

/// The events of successes, as links. Contracts see the links, the last one first.
///
/// A head is a number that stands for a list of events: 0 for none, and `i + 1` for link `i`. A link is one event, or
/// joins two heads before it. So lists are joined in constant time, and equal parts are shared. A replay walks the
/// links of a head in order, with a stack of the heads to come.
#[derive(Drop)]
pub struct EventLog {
    /// The links. Each names only heads before it.
    links: Vec<Link>,
    /// The state of a replay.
    walk: ReplayWalk,
}

impl Model for EventLog {
    ghost use Rattle.std.specs.Prelude.{List, reverse};
    ghost use Rattle.packrat.specs.EventLog.{AreOrdered};
    ghost use Rattle.packrat.specs.declared.events.link.Link.{Link};

    ghost Value = { List Link };

    ghost view = { λ log. reverse log.links.items };

    ghost invariant = { λ log. AreOrdered (reverse log.links.items) };
}

impl EventLog {
    /// Returns an empty log; it takes no memory.
    pub fn new(alloc: Global) -> EventLog
        ensures { result ≡ [] }
    {
        EventLog {
            links: Vec::new(alloc),
            walk: ReplayWalk::new(alloc),
        }
    }

    /// Empties it, and keeps its room.
    pub fn clear(&mut self)
        ensures { self.new ≡ [] }
    {
        self.links.clear();
    }

    /// Returns how many links there are, which is the greatest head.
    pub fn len(&self) -> usize
        ensures { result ≡ length self.now }
    {
        self.links.len()
    }

    // Adds a link, and returns its head.
    #[inline(always)]
    fn add(&mut self, link: Link) -> Result<usize, Memory>
        requires { IsBefore (length self.old + 1) link }
        ensures links { OnOk result (self.new ≡ link ∷ self.old) }
        ensures head { IfOk result (λ head. head ≡ length self.old + 1) }
        ensures unchanged { OnErr result (self.new ≡ self.old) }
    {
        self.links.push(link)?;
        Ok(self.links.len())
    }

    /// Adds an event, and returns its head.
    ///
    /// # Errors
    /// `Memory` if an allocation fails, or if the position or node does not fit in 32 bits; the log is unchanged.
    #[inline(always)]
    pub fn mark(&mut self, event: Kept) -> Result<usize, Memory>
        ensures head { IfOk result (λ head. IsHead self.new head) }
        ensures kept { IfOk result (λ head. kept_at self.new head ≡ event ∷ []) }
        ensures grown { AreGrown self.old self.new }
        ensures unchanged { OnErr result (self.new ≡ self.old) }
    {
        let link = link_of(event)?;
        self.add(link)
    }

    // Joins two heads by a link.
    fn join_by_link(&mut self, first: usize, second: usize) -> Result<usize, Memory>
        requires first { IsHead self.old first }
        requires second { IsHead self.old second }
        ensures head { IfOk result (λ head. IsHead self.new head) }
        ensures kept { IfOk result (λ head. kept_at self.new head ≡ kept_at self.old first ++ kept_at self.old second) }
        ensures grown { AreGrown self.old self.new }
        ensures unchanged { OnErr result (self.new ≡ self.old) }
    {
        let link = Link::Join {
            first: narrow(first)?,
            second: narrow(second)?,
        };
        self.add(link)
    }

    /// Returns a head of the events of a head and then of those of another; where one of them has none, the other.
    ///
    /// # Errors
    /// `Memory` if an allocation fails, or if a head does not fit in 32 bits; the log is unchanged.
    #[inline(always)]
    pub fn join(&mut self, first: usize, second: usize) -> Result<usize, Memory>
        requires first { IsHead self.old first }
        requires second { IsHead self.old second }
        ensures head { IfOk result (λ head. IsHead self.new head) }
        ensures kept { IfOk result (λ head. kept_at self.new head ≡ kept_at self.old first ++ kept_at self.old second) }
        ensures grown { AreGrown self.old self.new }
        ensures unchanged { OnErr result (self.new ≡ self.old) }
    {
        if first == 0 {
            return Ok(second);
        }
        if second == 0 {
            return Ok(first);
        }
        self.join_by_link(first, second)
    }

    /// Writes what the events of a head print, in order. It makes room for the heads that wait before anything is
    /// written.
    ///
    /// # Errors
    /// - `Memory` if an allocation fails, or if the head does not fit in 32 bits; nothing was written.
    /// - `Write` if the writer failed; a prefix was written.
    pub fn replay<W: Sink>(
        &mut self,
        peg: &SoundPeg,
        window: &[u8],
        style: PrintStyle,
        head: usize,
        out: &mut W,
    ) -> Result<(), ReplayFault>
        requires head { IsHead self.old head }
        requires success { (events : List Event) × StandFor (shapes_of peg.now.nodes) (kept_at self.old head) events
            × Rise 0 (length window.now) events }
        requires out_is_fresh { W.failed out.old ≡ false }
        ensures text { (events : List Event) → StandFor (shapes_of peg.now.nodes) (kept_at self.old head) events →
            Replays (W.contents out.old) (W.contents out.new) (W.failed out.old) (W.failed out.new)
            (text_of style window.now events) result }
        ensures kept { self.new ≡ self.old }
    {
        if head == 0 {
            return Ok(());
        }
        if self.walk.waiting.begin(head, self.links.len()).is_err() {
            return Err(ReplayFault::Memory);
        }
        match write_waiting(peg, window, style, &self.links, &mut self.walk, out) {
            Ok(()) => Ok(()),
            Err(_) => Err(ReplayFault::Write),
        }
    }
}

//! The state of a replay, with what it knows of joins that print nothing.
ghost use Rattle.std.specs.Prelude.{◌≡◌, ℕ, ◌+◌, ◌<◌, List, [], ◌∷◌, length, IfSome, IfNone, nat_eq, IsTrue, ◌↔◌};
ghost use Rattle.std.specs.HashMap.{get};
ghost use Rattle.pegnodes.specs.Nodes.{Shape};
ghost use Rattle.pegmatch.specs.declared.style.PrintStyle.{PrintStyle};
ghost use Rattle.packrat.specs.declared.events.link.Link.{Link};
ghost use Rattle.packrat.specs.QuietJoins.{Recalls, AddsJoin};

use crate::events::waiting::Waiting;
use pegmatch::{Capture, NO_CAPTURE};
use std::alloc::Global;
use std::collections::HashMap;

/// The captures before and after the events of a join, where these print nothing.
#[derive(Clone, Copy)]
pub(crate) struct Passage {
    pub(crate) before: Capture,
    pub(crate) after: Capture,
}

/// A join of which some events were replayed, and printed nothing.
#[derive(Clone, Copy)]
pub(crate) struct QuietJoin {
    pub(crate) head: u32,
    /// The capture before its events.
    pub(crate) before: Capture,
    /// How many heads waited when it was taken.
    pub(crate) below: usize,
}

/// The state of a replay.
#[derive(Drop)]
pub(crate) struct ReplayWalk {
    /// The heads that wait.
    pub(crate) waiting: Waiting,
    /// The capture after the events so far.
    pub(crate) capture: Capture,
    /// Joins whose events are being replayed, the outermost first.
    pub(crate) joins: Vec<QuietJoin>,
    /// By head of a join, how it was passed last.
    pub(crate) passages: HashMap<u32, Passage>,
}

// Returns whether two captures are the same.
fn is_same(one: Capture, other: Capture) -> bool
    ensures { IsTrue result ↔ (one ≡ other) }
{
    one.start == other.start && one.from == other.from && one.to == other.to
}

impl ReplayWalk {
    /// Returns the state without heads; it takes no memory.
    pub(crate) fn new(alloc: Global) -> ReplayWalk {
        ReplayWalk {
            waiting: Waiting::new(alloc),
            capture: NO_CAPTURE,
            joins: Vec::new(alloc),
            passages: HashMap::new(alloc),
        }
    }

    /// Takes the next head, if there is one. It first remembers the joins whose events were all passed, but not if an
    /// allocation fails.
    pub(crate) fn next_head(&mut self) -> Option<u32>
        ensures some { IfSome result (λ head. self.old.waiting.heads ≡ head ∷ self.new.waiting.heads) }
        ensures none { IfNone result ((self.old.waiting.heads ≡ []) × (self.new.waiting.heads ≡ [])) }
        ensures room { self.new.waiting.room ≡ self.old.waiting.room }
        ensures capture { self.new.capture ≡ self.old.capture }
        ensures recalls { (style : PrintStyle) (nodes : List Shape) (x : List ℕ) (links : List Link) →
            Recalls style nodes x links self.old.waiting.heads (length self.old.waiting.heads) self.old →
            Recalls style nodes x links self.old.waiting.heads (length self.new.waiting.heads) self.new }
    {
        'ended: while let Some(join) = self.joins.pop() {
            if join.below < self.waiting.len() {
                // It has events left. There is room for it, which it had before.
                let _ = self.joins.push(join);
                break;
            }
            let passage = Passage {
                before: join.before,
                after: self.capture,
            };
            let _ = self.passages.insert(join.head, passage);
        }
        self.waiting.take()
    }

    /// Returns the capture after a join, if its events are known to print nothing at this capture.
    pub(crate) fn passed(&self, head: u32) -> Option<Capture>
        ensures { IfSome result (λ after. get nat_eq self.now.passages head
            ≡ Some (record { before = self.now.capture; after = after })) }
    {
        match self.passages.get(&head) {
            Some(passage) if is_same(passage.before, self.capture) => Some(passage.after),
            _ => None,
        }
    }

    /// Begins a join of two heads, which wait from now on. If an allocation fails, it will not be remembered.
    pub(crate) fn begin(&mut self, head: u32, first: u32, second: u32)
        requires { length self.old.waiting.heads + 1 < self.old.waiting.room }
        ensures heads { self.new.waiting.heads ≡ first ∷ second ∷ self.old.waiting.heads }
        ensures room { self.new.waiting.room ≡ self.old.waiting.room }
        ensures joins { AddsJoin (record {
          head = head;
          before = self.old.capture;
          below = length self.old.waiting.heads;
        }) self.old self.new }
    {
        let below = self.waiting.len();
        let _ = self.joins.push(QuietJoin {
            head,
            before: self.capture,
            below,
        });
        self.waiting.push(second);
        self.waiting.push(first);
    }
}

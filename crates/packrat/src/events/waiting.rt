//! Heads that wait until they are written, with room for one more than there are links.
ghost use Rattle.std.specs.Prelude.{◌≡◌, ◌<◌, [], ◌∷◌, length, IfSome, IfNone, OnOk};

use crate::events::link::narrow;
use ruletable::Memory;
use std::alloc::Global;
use std::marker::Model;

/// A stack of heads. Contracts see the list of them, the top first, and for how many there is room.
#[derive(Drop)]
pub(crate) struct Waiting {
    /// The heads, the top last.
    heads: Vec<u32>,
}

impl Model for Waiting {
    ghost use Rattle.std.specs.Prelude.{reverse, vec_capacity};
    ghost use Rattle.packrat.specs.WaitingHeads.{WaitingView};

    ghost Value = { WaitingView };

    ghost view = { λ waiting. record { heads = reverse waiting.heads.items; room = vec_capacity waiting.heads } };
}

impl Waiting {
    /// Returns no heads; it takes no memory.
    pub(crate) fn new(alloc: Global) -> Waiting
        ensures { result.heads ≡ [] }
    {
        Waiting {
            heads: Vec::new(alloc),
        }
    }

    /// Drops the heads, makes room for one more than so many, and adds a first one.
    ///
    /// # Errors
    /// `Memory` if an allocation fails, or if the head does not fit in 32 bits.
    pub(crate) fn begin(&mut self, head: usize, room: usize) -> Result<(), Memory>
        ensures heads { OnOk result (self.new.heads ≡ head ∷ []) }
        ensures room { OnOk result (room < self.new.room) }
    {
        self.heads.clear();
        self.heads.reserve(room.checked_add(1).ok_or(Memory)?)?;
        self.push(narrow(head)?);
        Ok(())
    }

    /// Returns how many heads wait.
    pub(crate) fn len(&self) -> usize
        ensures { result ≡ length self.now.heads }
    {
        self.heads.len()
    }

    /// Adds a head; there must be room for it.
    #[inline(always)]
    pub(crate) fn push(&mut self, head: u32)
        requires { length self.old.heads < self.old.room }
        ensures heads { self.new.heads ≡ head ∷ self.old.heads }
        ensures room { self.new.room ≡ self.old.room }
    {
        self.heads.push_reserved(head);
    }

    /// Takes the last head, if there is one.
    #[inline(always)]
    pub(crate) fn take(&mut self) -> Option<u32>
        ensures some { IfSome result (λ head. self.old.heads ≡ head ∷ self.new.heads) }
        ensures none { IfNone result ((self.old.heads ≡ []) × (self.new.heads ≡ [])) }
        ensures room { self.new.room ≡ self.old.room }
    {
        self.heads.pop()
    }
}

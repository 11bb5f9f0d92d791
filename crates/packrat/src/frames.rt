//! The frames of the tasks under way.
ghost use Rattle.std.specs.Prelude.{◌≡◌, ◌<◌, List, [], ◌∷◌, IfSome, IfNone, OnOk, vec_capacity, vec_len};
ghost use Rattle.packrat.specs.declared.frames.Frame.{Frame};

use memo::MatchTask;
use ruletable::Memory;
use std::alloc::Global;
use std::marker::Model;

/// The child that a frame awaits.
#[derive(Clone, Copy)]
pub enum Wait {
    /// The first child.
    First,
    /// The last child. The frame returns its result, with the events of this head before its events.
    Last(usize),
    /// The frame's own repetition, after one iteration at each position up to this one. The frame returns its result.
    Turned(usize),
}

/// An entry of the parsing stack: a task under way.
#[derive(Clone, Copy)]
pub struct Frame {
    /// The task.
    pub task: MatchTask,
    /// Whether its result is memoized.
    pub key: bool,
    /// The child that it awaits.
    pub wait: Wait,
}

/// The parsing stack. Contracts see its frames, the top first. A task that is not memoized, and that returns the result
/// of its last child unchanged, has no frame.
#[derive(Drop)]
pub(crate) struct Frames {
    /// The frames, the top last.
    frames: Vec<Frame>,
}

impl Model for Frames {
    ghost use Rattle.std.specs.Prelude.{List, reverse};
    ghost use Rattle.packrat.specs.declared.frames.Frame.{Frame};

    ghost Value = { List Frame };

    ghost view = { λ m. reverse m.frames.items };
}

// Makes room for more frames.
#[inline(never)]
fn more_frames(frames: &mut Vec<Frame>) -> Result<(), Memory>
    ensures items { frames.new.items ≡ frames.old.items }
    ensures room { OnOk result (vec_len frames.new < vec_capacity frames.new) }
{
    frames.reserve(1)?;
    Ok(())
}

// Makes room for one more frame.
#[inline(always)]
fn make_room(frames: &mut Vec<Frame>) -> Result<(), Memory>
    ensures items { frames.new.items ≡ frames.old.items }
    ensures room { OnOk result (vec_len frames.new < vec_capacity frames.new) }
{
    if frames.len() < frames.capacity() {
        return Ok(());
    }
    more_frames(frames)
}

impl Frames {
    /// Returns an empty stack; it takes no memory.
    pub(crate) fn new(alloc: Global) -> Frames
        ensures { result ≡ [] }
    {
        Frames {
            frames: Vec::new(alloc),
        }
    }

    /// Takes all frames off.
    pub(crate) fn clear(&mut self)
        ensures { self.new ≡ [] }
    {
        self.frames.clear();
    }

    /// Pushes a frame.
    ///
    /// # Errors
    /// `Memory` if an allocation fails.
    #[inline(always)]
    pub(crate) fn push(&mut self, frame: Frame) -> Result<(), Memory>
        ensures { OnOk result (self.new ≡ frame ∷ self.old) }
    {
        make_room(&mut self.frames)?;
        self.frames.push_reserved(frame);
        Ok(())
    }

    /// Takes the last frame off.
    #[inline(always)]
    pub(crate) fn pop(&mut self) -> Option<Frame>
        ensures some { IfSome result (λ frame. self.old ≡ frame ∷ self.new) }
        ensures none { IfNone result (self.old ≡ []) }
        ensures empty { IfNone result (self.new ≡ []) }
    {
        self.frames.pop()
    }
}

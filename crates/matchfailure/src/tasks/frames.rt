//! The frames of the tasks under way.
ghost use Rattle.std.specs.Prelude.{◌≡◌, [], ◌∷◌, IfSome, IfNone, OnOk};
ghost use Rattle.matchfailure.specs.PackedTaskFrames.{frame_of};
ghost use Rattle.matchfailure.specs.declared.tasks.frames.TaskFrame.{TaskFrame};

use memo::{MatchTask, PackedTask};
use ruletable::Memory;
use std::alloc::Global;
use std::marker::Model;
use std::mem::size_of;

/// An entry of the parsing stack: a task under way.
#[derive(Clone, Copy)]
pub(crate) struct TaskFrame {
    /// The task.
    pub(crate) task: MatchTask,
    /// Whether it stands outside of `!`.
    pub(crate) outside: bool,
    /// Whether it awaits its own result, to store it. Else it awaits that of the node that it asks for.
    pub(crate) stores: bool,
    /// If it awaits its own result: the machine's cost before it.
    pub(crate) cost: u8,
}

/// A frame in numbers of 32 bits.
#[derive(Clone, Copy)]
pub(crate) struct PackedTaskFrame {
    /// The task.
    pub(crate) task: PackedTask,
    /// Whether it stands outside of `!`.
    pub(crate) outside: bool,
    /// Whether it awaits its own result.
    pub(crate) stores: bool,
    /// The machine's cost before it.
    pub(crate) cost: u8,
}

// A frame is to stay small: deep nesting takes the memory of its frames.
const _: () = prove!(size_of::<PackedTaskFrame>() <= 20);

/// The parsing stack. Contracts see its frames, the top first.
#[derive(Drop)]
pub(crate) struct TaskFrames {
    /// The frames, the top last.
    frames: Vec<PackedTaskFrame>,
}

impl Model for TaskFrames {
    ghost use Rattle.std.specs.Prelude.{List, map, reverse};
    ghost use Rattle.matchfailure.specs.PackedTaskFrames.{frame_of};
    ghost use Rattle.matchfailure.specs.declared.tasks.frames.TaskFrame.{TaskFrame};

    ghost Value = { List TaskFrame };

    ghost view = { λ m. map frame_of (reverse m.frames.items) };
}

impl TaskFrames {
    /// Returns an empty stack; it takes no memory.
    pub(crate) fn new(alloc: Global) -> TaskFrames
        ensures { result ≡ [] }
    {
        TaskFrames {
            frames: Vec::new(alloc),
        }
    }

    /// Pushes a frame.
    ///
    /// # Errors
    /// `Memory` if an allocation fails, or if a number does not fit in 32 bits.
    #[inline(always)]
    pub(crate) fn push(&mut self, frame: TaskFrame) -> Result<(), Memory>
        ensures { OnOk result (self.new ≡ frame ∷ self.old) }
    {
        let task = PackedTask::of(frame.task)?;
        self.frames.push(PackedTaskFrame {
            task,
            outside: frame.outside,
            stores: frame.stores,
            cost: frame.cost,
        })?;
        Ok(())
    }

    /// Takes the last frame off.
    #[inline(always)]
    pub(crate) fn pop(&mut self) -> Option<TaskFrame>
        ensures some { IfSome result (λ frame. self.old ≡ frame ∷ self.new) }
        ensures none { IfNone result (self.old ≡ []) }
    {
        match self.frames.pop() {
            Some(packed) => Some(TaskFrame {
                task: packed.task.task(),
                outside: packed.outside,
                stores: packed.stores,
                cost: packed.cost,
            }),
            None => None,
        }
    }

    /// Returns whether the last frame awaits its own result, that of this node.
    #[inline(always)]
    pub(crate) fn awaits_node(&self, node: usize) -> bool {
        match self.frames.last() {
            Some(last) => match last.task {
                PackedTask::Eval {
                    node: own,
                    position: _,
                } => last.stores && own as usize == node,
                PackedTask::Tail {
                    node: _,
                    index: _,
                    position: _,
                } => false,
            },
            None => false,
        }
    }
}

//! Tasks, under which outcomes are stored.
ghost use Rattle.std.specs.Prelude.{◌≡◌, ◌+◌, ◌*◌, ◌<◌, ◌^◌, IfOk, OnErr};
ghost use Rattle.memo.specs.KeyLog.{row_of, position_of, number_of, IsNarrow};
ghost use Rattle.memo.specs.PackedTasks.{task_of};

use crate::narrow::narrow;
use ruletable::Memory;
use std::mem::size_of;

/// A task of an evaluation: a node at a position; or, of a node with members, the tail from one of its members on, at a
/// position.
#[derive(Clone, Copy)]
pub enum MatchTask {
    /// A node and a position.
    Eval {
        node: usize,
        position: usize,
    },
    /// A node, the index of a member, and a position.
    Tail {
        node: usize,
        index: usize,
        position: usize,
    },
}

// What a node adds to the numbers of its keys.
const BY_NODE: usize = 668_265_263;

// What a member adds.
const BY_MEMBER: usize = 374_761_393;

impl MatchTask {
    /// Returns its row, which is its node.
    #[inline(always)]
    pub fn row(self) -> usize
        ensures { result ≡ row_of self }
    {
        match self {
            MatchTask::Eval { node, position: _ } => node,
            MatchTask::Tail {
                node,
                index: _,
                position: _,
            } => node,
        }
    }

    /// Returns its position.
    #[inline(always)]
    pub fn position(self) -> usize
        ensures { result ≡ position_of self }
    {
        match self {
            MatchTask::Eval { node: _, position } => position,
            MatchTask::Tail {
                node: _,
                index: _,
                position,
            } => position,
        }
    }

    /// Returns its number, which is that of the position before and one more.
    ///
    /// # Errors
    /// `Memory` if it does not fit into 32 bits.
    pub(crate) fn number(self) -> Result<usize, Memory>
        ensures same { IfOk result (λ n. n ≡ number_of self) }
        ensures great { OnErr result (IsNarrow self → ⊥) }
    {
        match self {
            MatchTask::Eval { node, position } => Ok(eval_number(narrow(node)?, narrow(position)?)),
            MatchTask::Tail {
                node,
                index,
                position,
            } => { Ok(tail_number(narrow(node)?, narrow(index)?, narrow(position)?)) }
        }
    }
}

/// Returns the number of a node at a position.
#[inline(always)]
pub(crate) fn eval_number(node: u32, position: u32) -> usize
    ensures same { result ≡ node * 668265263 + position }
    ensures small { result < 2 ^ 62 + 2 ^ 32 }
{
    node as usize * BY_NODE + position as usize
}

/// Returns the number of a tail at a position.
#[inline(always)]
pub(crate) fn tail_number(node: u32, index: u32, position: u32) -> usize
    ensures same { result ≡ node * 668265263 + (index + 1) * 374761393 + position }
    ensures small { result < 2 ^ 63 + 2 ^ 32 }
{
    node as usize * BY_NODE + (index as usize + 1) * BY_MEMBER + position as usize
}

/// A task in numbers of 32 bits.
#[derive(Clone, Copy)]
pub enum PackedTask {
    /// A node and a position.
    Eval {
        node: u32,
        position: u32,
    },
    /// A node, the index of a member, and a position.
    Tail {
        node: u32,
        index: u32,
        position: u32,
    },
}

// A task is to stay small: the stack of a deep nesting has several for each level.
const _: () = prove!(size_of::<PackedTask>() <= 16);

impl PackedTask {
    /// Packs a task into numbers of 32 bits.
    ///
    /// # Errors
    /// `Memory` if a number does not fit.
    #[inline(always)]
    pub fn of(task: MatchTask) -> Result<PackedTask, Memory>
        ensures { IfOk result (λ packed. task_of packed ≡ task) }
    {
        match task {
            MatchTask::Eval { node, position } => Ok(PackedTask::Eval {
                node: narrow(node)?,
                position: narrow(position)?,
            }),
            MatchTask::Tail {
                node,
                index,
                position,
            } => Ok(PackedTask::Tail {
                node: narrow(node)?,
                index: narrow(index)?,
                position: narrow(position)?,
            }),
        }
    }

    /// Returns the task.
    #[inline(always)]
    pub fn task(self) -> MatchTask
        ensures { result ≡ task_of self }
    {
        match self {
            PackedTask::Eval { node, position } => MatchTask::Eval {
                node: node as usize,
                position: position as usize,
            },
            PackedTask::Tail {
                node,
                index,
                position,
            } => MatchTask::Tail {
                node: node as usize,
                index: index as usize,
                position: position as usize,
            },
        }
    }
}

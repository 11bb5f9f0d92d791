//! The entries of the log, in numbers of 32 bits.
ghost use Rattle.std.specs.Prelude.{◌≡◌, ◌+◌, ◌<◌, ◌≤◌, ◌^◌, true, false, [], ◌∷◌, slice_get, Some};
ghost use Rattle.std.specs.Prelude.{IfOk, IfSome, IfNone};
ghost use Rattle.memo.specs.KeyLog.{tasks_of, row_of, run_of, steps_of};
ghost use Rattle.memo.specs.LogEntries.{found_of, given_of, node_of, evals_of, IsExtent};
ghost use Rattle.memo.specs.Parts.{IsIn};
ghost use Rattle.memo.specs.declared.entry.Entry.{Entry};
ghost use Rattle.memo.specs.declared.task.MatchTask.TheVariants.{Eval, Tail};

use crate::found::Found;
use crate::key_log::Given;
use crate::narrow::narrow;
use crate::task::{MatchTask, eval_number, tail_number};
use ruletable::Memory;
use std::mem::size_of;

/// How an evaluation ended.
#[derive(Clone, Copy)]
pub(crate) enum EvaluationEnding {
    /// It failed.
    Missed,
    /// It succeeded.
    Ended,
}

/// An outcome in 32 bits.
#[derive(Clone, Copy)]
pub(crate) struct PackedOutcome {
    /// Whether the evaluation failed.
    pub(crate) ending: EvaluationEnding,
    /// The position where a success ends; 0 for a failure.
    pub(crate) end: u32,
}

impl PackedOutcome {
    /// Packs an outcome into 32 bits.
    ///
    /// # Errors
    /// `Memory` if it does not fit.
    #[inline(always)]
    pub(crate) fn of(found: Found) -> Result<PackedOutcome, Memory>
        ensures { IfOk result (λ o. found_of o.ending o.end ≡ found) }
    {
        match found {
            Found::Failed => Ok(PackedOutcome {
                ending: EvaluationEnding::Missed,
                end: 0,
            }),
            Found::Took(end) => Ok(PackedOutcome {
                ending: EvaluationEnding::Ended,
                end: narrow(end)?,
            }),
        }
    }
}

/// One entry of the log: a key, or keys of a node at positions in a row.
#[derive(Clone, Copy)]
pub(crate) enum Entry {
    /// The tail of a node from a member on, at a position.
    Member {
        ending: EvaluationEnding,
        node: u32,
        index: u32,
        position: u32,
        end: u32,
        events: u32,
    },
    /// A node at the positions from `from` to `to`, all with one outcome.
    Run {
        ending: EvaluationEnding,
        node: u32,
        from: u32,
        to: u32,
        end: u32,
        events: u32,
    },
    /// A node at the positions from `from` on, short of `to`, at each of which it takes one byte.
    Steps {
        node: u32,
        from: u32,
        to: u32,
    },
}

// An entry is to stay small: a long match is slowed by the memory that it writes.
const _: () = prove!(size_of::<Entry>() <= 24);

/// The keys of an entry. Their numbers are consecutive.
#[derive(Clone, Copy)]
pub(crate) struct Extent {
    /// The node whose row they are in.
    pub(crate) row: usize,
    /// The greatest position of a key.
    pub(crate) highest: u32,
    /// The number of keys.
    pub(crate) count: usize,
    /// The number of the first key.
    pub(crate) first: usize,
}

impl Entry {
    /// Returns an entry of one key.
    ///
    /// # Errors
    /// `Memory` if a number does not fit into 32 bits.
    #[inline(always)]
    pub(crate) fn of_task(task: MatchTask, given: Given) -> Result<Entry, Memory>
        ensures evals { IfOk result (λ e. evals_of e ≡ record { task = task; given = given } ∷ []) }
        ensures node { IfOk result (λ e. node_of e ≡ row_of task) }
    {
        match task {
            MatchTask::Eval { node, position } => Entry::run(node, position, position, given),
            MatchTask::Tail {
                node,
                index,
                position,
            } => {
                let outcome = PackedOutcome::of(given.found)?;
                Ok(Entry::Member {
                    ending: outcome.ending,
                    node: narrow(node)?,
                    index: narrow(index)?,
                    position: narrow(position)?,
                    end: outcome.end,
                    events: narrow(given.events)?,
                })
            }
        }
    }

    /// Returns an entry of a node at the positions from `from` to `to`.
    ///
    /// # Errors
    /// `Memory` if a number does not fit into 32 bits.
    #[inline(always)]
    pub(crate) fn run(node: usize, from: usize, to: usize, given: Given) -> Result<Entry, Memory>
        ensures evals { IfOk result (λ e. evals_of e ≡ run_of node from to given) }
        ensures node { IfOk result (λ e. node_of e ≡ node) }
    {
        let outcome = PackedOutcome::of(given.found)?;
        Ok(Entry::Run {
            ending: outcome.ending,
            node: narrow(node)?,
            from: narrow(from)?,
            to: narrow(to)?,
            end: outcome.end,
            events: narrow(given.events)?,
        })
    }

    /// Returns an entry of a node that takes one byte at each position from `from` on, short of `to`.
    ///
    /// # Errors
    /// `Memory` if a number does not fit into 32 bits.
    #[inline(always)]
    pub(crate) fn steps(node: usize, from: usize, to: usize) -> Result<Entry, Memory>
        ensures evals { IfOk result (λ e. evals_of e ≡ steps_of node from to) }
        ensures node { IfOk result (λ e. node_of e ≡ node) }
    {
        Ok(Entry::Steps {
            node: narrow(node)?,
            from: narrow(from)?,
            to: narrow(to)?,
        })
    }

    /// Returns the extent of its keys.
    #[inline(always)]
    pub(crate) fn extent(self) -> Extent
        ensures extent { IsExtent self result }
        ensures room { result.first + result.count < 2 ^ 64 }
    {
        match self {
            Entry::Member {
                node,
                index,
                position,
                end: _,
                ending: _,
                events: _,
            } => Extent {
                row: node as usize,
                highest: position,
                count: 1,
                first: tail_number(node, index, position),
            },
            Entry::Run {
                node,
                from,
                to,
                end: _,
                ending: _,
                events: _,
            } => Extent {
                row: node as usize,
                highest: to,
                count: (to as usize + 1).saturating_sub(from as usize),
                first: eval_number(node, from),
            },
            Entry::Steps { node, from, to } => Extent {
                row: node as usize,
                highest: to.saturating_sub(1),
                count: (to as usize).saturating_sub(from as usize),
                first: eval_number(node, from),
            },
        }
    }

    /// Returns the stored outcome of a key, if the entry has the key.
    #[inline(always)]
    pub(crate) fn given_for(self, task: MatchTask) -> Option<Given>
        ensures some { IfSome result (λ g. IsIn (record { task = task; given = g }) (evals_of self)) }
        ensures none { IfNone result (IsIn task (tasks_of (evals_of self)) → ⊥) }
    {
        match task {
            MatchTask::Eval { node, position } => self.given_for_eval(node, position),
            MatchTask::Tail {
                node,
                index,
                position,
            } => self.given_for_tail(node, index, position),
        }
    }

    // Returns what it says of an evaluation, if it has it.
    #[inline(always)]
    fn given_for_eval(self, node: usize, position: usize) -> Option<Given>
        ensures some { IfSome result (λ g. IsIn (record { task = Eval node position; given = g }) (evals_of self)) }
        ensures none { IfNone result (IsIn (Eval node position) (tasks_of (evals_of self)) → ⊥) }
    {
        match self {
            Entry::Member {
                node: _,
                index: _,
                position: _,
                end: _,
                ending: _,
                events: _,
            } => None,
            Entry::Run {
                node: own,
                from,
                to,
                end,
                ending,
                events,
            } => {
                if is_within(node, position, own, from, to as usize + 1) {
                    Some(given(ending, end, events))
                } else {
                    None
                }
            }
            Entry::Steps {
                node: own,
                from,
                to,
            } => {
                if is_within(node, position, own, from, to as usize) {
                    Some(Given {
                        found: Found::Took(position + 1),
                        events: 0,
                    })
                } else {
                    None
                }
            }
        }
    }

    // Returns what it says of a tail, if it has it.
    fn given_for_tail(self, node: usize, index: usize, position: usize) -> Option<Given>
        ensures some { IfSome result
            (λ g. IsIn (record { task = Tail node index position; given = g }) (evals_of self)) }
        ensures none { IfNone result (IsIn (Tail node index position) (tasks_of (evals_of self)) → ⊥) }
    {
        match self {
            Entry::Member {
                node: own,
                index: member,
                position: there,
                end,
                ending,
                events,
            } => {
                if node == own as usize && index == member as usize && position == there as usize {
                    Some(given(ending, end, events))
                } else {
                    None
                }
            }
            Entry::Run {
                node: _,
                from: _,
                to: _,
                end: _,
                ending: _,
                events: _,
            } => None,
            Entry::Steps {
                node: _,
                from: _,
                to: _,
            } => None,
        }
    }
}

// Returns whether a node at a position is that node, at a position from `from` on, before `end`.
#[inline(always)]
fn is_within(node: usize, position: usize, own: u32, from: u32, end: usize) -> bool
    ensures yes { result ≡ true → (node ≡ own) × (from ≤ position) × (position < end) }
    ensures no { result ≡ false → node ≡ own → from ≤ position → position < end → ⊥ }
{
    node == own as usize && position >= from as usize && position < end
}

// Returns what was found, with its events.
#[inline(always)]
fn given(ending: EvaluationEnding, end: u32, events: u32) -> Given
    ensures { result ≡ given_of ending end events }
{
    let found = match ending {
        EvaluationEnding::Missed => Found::Failed,
        EvaluationEnding::Ended => Found::Took(end as usize),
    };
    Given {
        found,
        events: events as usize,
    }
}

/// Returns the stored outcome of the key `task` from entry `at`, counted from 0. `None` if there is no such entry, or
/// the entry lacks the key.
pub(crate) fn given_in(entries: &[Entry], at: u32, task: MatchTask) -> Option<Given>
    ensures some { IfSome result (λ g. (e : Entry) × (slice_get entries.now at ≡ Some e)
        × IsIn (record { task = task; given = g }) (evals_of e)) }
    ensures none { IfNone result ((e : Entry) → slice_get entries.now at ≡ Some e → IsIn task (tasks_of (evals_of e))
        → ⊥) }
{
    match entries.get(at as usize) {
        Some(entry) => entry.given_for(task),
        None => None,
    }
}

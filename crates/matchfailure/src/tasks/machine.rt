//! The machine: it evaluates tasks by a loop over frames in place of recursion, and stores the keys alone.
ghost use Rattle.std.specs.Prelude.{◌≡◌, ◌<◌, ◌↔◌, ℕ, ◌∷◌, [], Bool, List, Option, true, slice_get, Some, IfOk, OnOk};
ghost use Rattle.std.specs.Prelude.{IfSome, IfNone};
ghost use Rattle.gramcheck.specs.Grammar.{Grammar, IsSoundGrammar};
ghost use Rattle.memo.specs.KeyLog.{row_of};
ghost use Rattle.memo.specs.Parts.{IsIn};
ghost use Rattle.memo.specs.declared.key_log.Given.{Given};
ghost use Rattle.memo.specs.declared.task.MatchTask.{MatchTask};
ghost use Rattle.matchfailure.specs.FailureStates.{AreFailures, IsCovered, IsOwnRecorded, IsReady, Stands};
ghost use Rattle.matchfailure.specs.ByteRuns.{IsRunPassed};
ghost use Rattle.matchfailure.specs.FailureTasks.{IsOutside, IsWell, NodeFinds, is_key_task};
ghost use Rattle.matchfailure.specs.KeptFailures.{StaysRecorded};
ghost use Rattle.matchfailure.specs.declared.farthest.visit.Visit.{Visit};
ghost use Rattle.matchfailure.specs.declared.tasks.machine.NextTask.TheVariants.{Ask, Answer};

use crate::farthest::{Visit, stop_of};
use crate::tasks::frames::{TaskFrame, TaskFrames};
use crate::tasks::kept::KeptFailures;
use crate::tasks::runs::{ByteRun, run_at};
use crate::tasks::steps::{TaskStep, begin_task, go_on};
use gramcheck::SoundPeg;
use memo::{Found, Given, KeyLog, MatchTask};
use pegnodes::Node;
use ruletable::Memory;
use std::alloc::Global;

/// The next step: to evaluate a task, outside of `!` or not, or to return a task's result to its frame.
#[derive(Clone, Copy)]
pub(crate) enum NextTask {
    Ask { task: MatchTask, outside: bool },
    Answer(Found),
}

// A result is stored if more than so many tasks begin to find it again. Fewer take no longer than a look-up.
const FEW_TASKS: u8 = 8;

// A repetition that goes on is stored after so many tasks.
const MANY_TASKS: u8 = 32;

// The comparison of so many bytes is one task.
const FEW_BYTES: usize = 32;

/// The machine. It stores the result of a key if it costs much to find it again. So it evaluates a key again at a
/// position where that begins few tasks, and else at most twice: in a `!`, and outside.
#[derive(Drop)]
pub(crate) struct FailureMachine {
    /// The memo table. A result is marked by the number 1 if it was found outside of `!`.
    log: KeyLog,
    /// The tasks under way.
    frames: TaskFrames,
    /// How many tasks were begun since the last frame was pushed that awaits its own result, 255 if more. Those below a
    /// stored result are left out.
    cost: u8,
    /// The farthest failing comparisons outside of `!`.
    pub(crate) kept: KeptFailures,
}

// Returns the mark of a result.
#[inline(always)]
fn mark_of(outside: bool) -> usize
    ensures { (result ≡ 1) ↔ (outside ≡ true) }
{
    if outside { 1 } else { 0 }
}

// Returns the result of a task, if it is stored, and covers its failing comparisons where it stands outside of `!`.
#[inline(always)]
fn recall(log: &mut KeyLog, task: MatchTask, outside: bool) -> Result<Option<Found>, Memory>
    ensures some { IfOk result (λ found. IfSome found (λ f. (given : Given) × (given.found ≡ f)
        × IsIn (record { task = task; given = given }) log.old.stored × (outside ≡ true → given.events ≡ 1))) }
    ensures same { log.new ≡ log.old }
{
    match log.get(task)? {
        None => Ok(None),
        Some(given) => {
            if outside && given.events != 1 {
                return Ok(None);
            }
            Ok(Some(given.found))
        }
    }
}

// Adds the failing comparison of a task's own node, where the task stands outside of `!`.
#[inline(always)]
fn note_stop(
    kept: &mut KeptFailures,
    peg: &SoundPeg,
    window: &[u8],
    task: MatchTask,
    outside: bool,
) -> Result<(), Memory>
    requires { IsWell peg.now window.now task }
    ensures stays { OnOk result (StaysRecorded kept.old kept.new) }
    ensures own { OnOk result (outside ≡ true → IsOwnRecorded peg.now window.now kept.new task) }
    ensures failures { OnOk result ((outside ≡ true → IsOutside peg.now window.now task)
        → AreFailures peg.now window.now kept.old → AreFailures peg.now window.now kept.new) }
{
    if !outside {
        return Ok(());
    }
    match task {
        MatchTask::Eval { node, position } => match stop_of(peg.node(node), window, position) {
            Some(stop) => {
                kept.add(Visit { node, position }, stop)?;
                Ok(())
            }
            None => Ok(()),
        },
        MatchTask::Tail { .. } => Ok(()),
    }
}

#[inline(always)]
fn is_key(peg: &SoundPeg, task: MatchTask) -> bool
    ensures { result ≡ is_key_task peg.now.keys task }
{
    match task {
        MatchTask::Eval { node, position: _ } => peg.is_key_node(node),
        MatchTask::Tail {
            node,
            index,
            position: _,
        } => peg.is_key_tail(node, index),
    }
}

// Returns what a task costs that begins: 1, or more if its node is a long literal.
#[inline(always)]
fn cost_of(peg: &SoundPeg, task: MatchTask) -> u8
    requires { (window : List ℕ) × IsWell peg.now window task }
{
    match task {
        MatchTask::Eval { node, position: _ } => match peg.node(node) {
            Node::Bytes(bytes) => { if bytes.len() > FEW_BYTES { u8::MAX } else { 1 } }
            _ => 1,
        },
        MatchTask::Tail { .. } => 1,
    }
}

impl FailureMachine {
    /// Returns a machine that holds nothing; it takes no memory.
    pub(crate) fn new(alloc: Global) -> FailureMachine
        ensures frames { result.frames ≡ [] }
        ensures position { result.kept.position ≡ None }
        ensures visits { result.kept.visits.items ≡ [] }
    {
        FailureMachine {
            log: KeyLog::new(alloc),
            frames: TaskFrames::new(alloc),
            cost: 0,
            kept: KeptFailures::new(alloc),
        }
    }

    // Returns the stored result of a task.
    #[inline(always)]
    fn stored(
        &mut self,
        peg: &SoundPeg,
        task: MatchTask,
        outside: bool,
    ) -> Result<Option<Found>, Memory>
        ensures same { (self.new.log ≡ self.old.log) × (self.new.frames ≡ self.old.frames)
            × (self.new.kept ≡ self.old.kept) }
        ensures some { (window : List ℕ) → Stands peg.now window self.old.log self.old.frames self.old.kept
            (Ask task outside) → IfOk result (λ found. IfSome found (λ f. Stands peg.now window self.old.log
            self.old.frames self.old.kept (Answer f))) }
    {
        if !is_key(peg, task) {
            return Ok(None);
        }
        recall(&mut self.log, task, outside)
    }

    // Returns whether a task is the next iteration of a repetition whose frame is the last one and was pushed few tasks
    // before, and no later position of the repetition is stored.
    #[inline(always)]
    fn is_next_iteration(&self, task: MatchTask) -> bool {
        match task {
            MatchTask::Eval { node, position } => {
                self.cost <= MANY_TASKS
                    && self.frames.awaits_node(node)
                    && self.log.is_new(node, position)
            }
            MatchTask::Tail { .. } => false,
        }
    }

    // Pushes a frame that awaits the result of a task, if the task is a key. A repetition that goes on has one for many
    // iterations.
    #[inline(always)]
    fn enter(&mut self, peg: &SoundPeg, task: MatchTask, outside: bool) -> Result<(), Memory>
        ensures kept { self.new.kept ≡ self.old.kept }
        ensures entered { OnOk result ((window : List ℕ) → Stands peg.now window self.old.log self.old.frames
            self.old.kept (Ask task outside) → Stands peg.now window self.new.log self.new.frames self.new.kept
            (Ask task outside)) }
    {
        if is_key(peg, task) && !self.is_next_iteration(task) {
            self.frames.push(TaskFrame {
                task,
                outside,
                stores: true,
                cost: self.cost,
            })?;
            self.cost = 0;
        }
        Ok(())
    }

    // Ends a run. Stores its result, which is that at each of its positions, if the repetition is a key and it is long.
    fn store_run(&mut self, peg: &SoundPeg, run: ByteRun, outside: bool) -> Result<NextTask, Memory>
        requires { run.star < self.old.log.rows }
        ensures { (g : Grammar) (window : List ℕ) (task : MatchTask) → IsRunPassed g window self.old.log self.old.frames
            self.old.kept task outside run → IfOk result (Stands g window self.new.log self.new.frames self.new.kept) }
    {
        let found = Found::Took(run.end);
        self.cost = self.cost.saturating_add(1);
        if peg.is_key_node(run.star) && run.end.saturating_sub(run.from) > FEW_BYTES {
            let given = Given {
                found,
                events: mark_of(outside),
            };
            self.log.put_run(run.star, run.from, run.end, given)?;
        }
        Ok(NextTask::Answer(found))
    }

    // Follows the step of a task.
    #[inline(always)]
    fn follow(&mut self, task: MatchTask, outside: bool, step: TaskStep) -> Result<NextTask, Memory>
        ensures { (g : Grammar) (window : List ℕ) (asked : Option Visit) → IsSoundGrammar g →
            IsReady g window self.old.log self.old.frames self.old.kept asked task outside step →
            IfOk result (Stands g window self.new.log self.new.frames self.new.kept) }
    {
        match step {
            TaskStep::Gives(found) => Ok(NextTask::Answer(found)),
            TaskStep::Becomes(task) => Ok(NextTask::Ask { task, outside }),
            TaskStep::Asks {
                node,
                position,
                denied,
            } => {
                self.frames.push(TaskFrame {
                    task,
                    outside,
                    stores: false,
                    cost: 0,
                })?;
                let task = MatchTask::Eval { node, position };
                if denied {
                    return Ok(NextTask::Ask {
                        task,
                        outside: false,
                    });
                }
                Ok(NextTask::Ask { task, outside })
            }
        }
    }

    // Begins a task that is not stored: passes it, or goes to a child.
    #[inline(always)]
    fn begin(
        &mut self,
        peg: &SoundPeg,
        window: &[u8],
        task: MatchTask,
        outside: bool,
    ) -> Result<NextTask, Memory>
        requires sound { IsSoundGrammar peg.now }
        requires stands { Stands peg.now window.now self.old.log self.old.frames self.old.kept (Ask task outside) }
        ensures { IfOk result (Stands peg.now window.now self.new.log self.new.frames self.new.kept) }
    {
        match run_at(peg, window, task) {
            Some(run) => {
                let last = MatchTask::Eval {
                    node: run.operand,
                    position: run.end,
                };
                note_stop(&mut self.kept, peg, window, last, outside)?;
                self.store_run(peg, run, outside)
            }
            None => {
                self.enter(peg, task, outside)?;
                self.cost = self.cost.saturating_add(cost_of(peg, task));
                note_stop(&mut self.kept, peg, window, task, outside)?;
                self.follow(task, outside, begin_task(peg, window, task))
            }
        }
    }

    // Returns the stored result of a task, or begins it.
    #[inline(always)]
    fn ask(
        &mut self,
        peg: &SoundPeg,
        window: &[u8],
        task: MatchTask,
        outside: bool,
    ) -> Result<NextTask, Memory>
        requires sound { IsSoundGrammar peg.now }
        requires stands { Stands peg.now window.now self.old.log self.old.frames self.old.kept (Ask task outside) }
        ensures { IfOk result (Stands peg.now window.now self.new.log self.new.frames self.new.kept) }
    {
        match self.stored(peg, task, outside)? {
            Some(found) => Ok(NextTask::Answer(found)),
            None => self.begin(peg, window, task, outside),
        }
    }

    // Ends the task of the frame that was the last one. Stores its result if it costs much.
    #[inline(always)]
    fn leave(&mut self, frame: TaskFrame, found: Found) -> Result<NextTask, Memory>
        requires row { row_of frame.task < self.old.log.rows }
        requires stores { frame.stores ≡ true }
        ensures { (g : Grammar) (window : List ℕ) → Stands g window self.old.log (frame ∷ self.old.frames)
            self.old.kept (Answer found) → IfOk result (Stands g window self.new.log self.new.frames self.new.kept) }
    {
        if self.cost <= FEW_TASKS {
            self.cost = self.cost.saturating_add(frame.cost);
            return Ok(NextTask::Answer(found));
        }
        self.cost = frame.cost;
        let given = Given {
            found,
            events: mark_of(frame.outside),
        };
        self.log.put(frame.task, given)?;
        Ok(NextTask::Answer(found))
    }

    // Returns a result to the frame that was the last one.
    #[inline(always)]
    fn resume(&mut self, peg: &SoundPeg, frame: TaskFrame, found: Found) -> Result<NextTask, Memory>
        requires sound { IsSoundGrammar peg.now }
        requires stands { (window : List ℕ) × Stands peg.now window self.old.log (frame ∷ self.old.frames)
            self.old.kept (Answer found) }
        ensures { (window : List ℕ) → Stands peg.now window self.old.log (frame ∷ self.old.frames) self.old.kept
            (Answer found) → IfOk result (Stands peg.now window self.new.log self.new.frames self.new.kept) }
    {
        if frame.stores {
            return self.leave(frame, found);
        }
        let step = go_on(peg, frame.task, found);
        self.follow(frame.task, frame.outside, step)
    }

    /// Evaluates the start rule's body at the front of a window, which is taken as the whole rest of the input. Returns
    /// its outcome, and keeps its farthest failing comparisons outside of `!`.
    ///
    /// # Errors
    /// `Memory` if an allocation fails, or after 2^64 - 1 steps.
    pub(crate) fn evaluate(
        &mut self,
        peg: &SoundPeg,
        window: &[u8],
        root: usize,
    ) -> Result<Found, Memory>
        requires sound { IsSoundGrammar peg.now }
        requires root { slice_get peg.now.bodies peg.now.start ≡ Some root }
        requires frames { self.old.frames ≡ [] }
        requires position { self.old.kept.position ≡ None }
        requires visits { self.old.kept.visits.items ≡ [] }
        ensures found { IfOk result (NodeFinds peg.now window.now root 0) }
        ensures covered { IfOk result (λ f. IsCovered peg.now window.now self.new.kept (MatchTask.Eval root 0)) }
        ensures failures { IfOk result (λ f. AreFailures peg.now window.now self.new.kept) }
    {
        self.log.begin_unit(peg.nodes())?;
        let mut next = NextTask::Ask {
            task: MatchTask::Eval {
                node: root,
                position: 0,
            },
            outside: true,
        };
        // Each step asks for a task or ends one, so there are far fewer.
        for _step in 0..u64::MAX {
            next = match next {
                NextTask::Ask { task, outside } => self.ask(peg, window, task, outside)?,
                NextTask::Answer(found) => match self.frames.pop() {
                    None => return Ok(found),
                    Some(frame) => self.resume(peg, frame, found)?,
                },
            };
        }
        Err(Memory)
    }
}

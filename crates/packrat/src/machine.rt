//! The machine: it evaluates by a loop over frames in place of recursion, and stores the keys alone.
ghost use Rattle.std.specs.Prelude.{◌≡◌, ℕ, ◌+◌, ◌^◌, ◌<◌, ◌≤◌, Bool, true, false, List, [], ◌∷◌, length};
ghost use Rattle.std.specs.Prelude.{slice_get, Some, IfOk, OnOk, IfSome, IfNone};
ghost use Rattle.gramcheck.specs.Grammar.{Grammar, HasKeys, IsSoundGrammar};
ghost use Rattle.pegmatch.specs.Answers.{WasEnough};
ghost use Rattle.packrat.specs.EventLog.{IsHead, AreGrown};
ghost use Rattle.packrat.specs.declared.events.link.Link.{Link};
ghost use Rattle.memo.specs.KeyLog.{tasks_of, row_of};
ghost use Rattle.memo.specs.Parts.{IsIn};
ghost use Rattle.memo.specs.declared.task.MatchTask.{MatchTask};
ghost use Rattle.pegnodes.specs.KeyLists.{Marks};
ghost use Rattle.packrat.specs.Skipped.{AreSkipped};
ghost use Rattle.packrat.specs.Turned.{AreDecided, AreFree, IsKeyed};
ghost use Rattle.packrat.specs.LoopIterations.{Ask, Answer, iteration_of};
ghost use Rattle.packrat.specs.IterationsLeft.{left, most_begun, FitsBegun};
ghost use Rattle.packrat.specs.Begins.{IsRepeated, repeated_of};
ghost use Rattle.packrat.specs.Known.{IsKnown, IsTaken, taken_of};
ghost use Rattle.packrat.specs.Onward.{AfterStart, IsWell};
ghost use Rattle.packrat.specs.Stands.{Stands, IsClosed, AreOn, IsEvaluated, LowersLeft, key_of};
ghost use Rattle.packrat.specs.Stands.{AreWaiting, IsWaitHead, IsEntered, IsJoined, IsUnawaited};
ghost use Rattle.packrat.specs.View.{weight};
ghost use Rattle.packrat.specs.declared.frames.Wait.{Wait};

use crate::counts::{counted, counted_known, counted_skips};
use crate::events::EventLog;
use crate::frames::{Frame, Frames, Wait};
use crate::iterations::{
    Iterations, find_iterations, is_fresh, put_iterations, put_operands, put_turned, wait_turned,
};
use crate::known::{Known, Taken};
use crate::onward::{Begun, Entering, Onward, Repeated, Start, begin_node, go_on};
use crate::skips::Skips;
use gramcheck::SoundPeg;
use memo::{Found, Given, KeyLog, MatchTask};
use pegnodes::Node;
use ruletable::Memory;

/// The machine's next step: to evaluate a node at a position, or to return a task's result to its frame.
#[derive(Clone, Copy)]
pub(crate) enum Next {
    Ask { node: usize, position: usize },
    Answer(Given),
}

/// The state of a match: all that an evaluation changes.
#[derive(Drop)]
pub(crate) struct Machine {
    /// The memo table.
    pub(crate) log: KeyLog,
    /// The events of the successes so far.
    pub(crate) events: EventLog,
    /// The tasks under way.
    pub(crate) frames: Frames,
    /// How many evaluations of a node and a position were begun.
    pub(crate) begun: u64,
}

// Returns the memoized result of a key, if there is one. It is inlined, and has a local of its own for what the call
// returns: a local of the caller would be cleared at each pass of the loop.
#[inline(always)]
fn sought(log: &mut KeyLog, task: MatchTask) -> Result<Option<Given>, Memory>
    ensures some { IfOk result (λ found. IfSome found (λ g. IsIn (record { task = task; given = g }) log.old.stored)) }
    ensures none { IfOk result (λ found. IfNone found (IsIn task (tasks_of log.old.stored) → ⊥)) }
    ensures same { log.new ≡ log.old }
{
    match log.get(task)? {
        Some(given) => Ok(Some(given)),
        None => Ok(None),
    }
}

// Returns the memoized result of a node at a position, if there is one. Most keys are new, which takes no call to see.
#[inline(always)]
fn stored_node(
    log: &mut KeyLog,
    node: usize,
    position: usize,
    key: bool,
) -> Result<Option<Given>, Memory>
    ensures some { IfOk result (λ found. IfSome found (λ g. (key ≡ true)
        × IsIn (record { task = MatchTask.Eval node position; given = g }) log.old.stored)) }
    ensures none { IfOk result (λ found. IfNone found (key ≡ true →
        IsIn (MatchTask.Eval node position) (tasks_of log.old.stored) → ⊥)) }
    ensures same { log.new ≡ log.old }
{
    if !key {
        return Ok(None);
    }
    if log.is_new(node, position) {
        return Ok(None);
    }
    sought(log, MatchTask::Eval { node, position })
}

// Returns the memoized result of the tail of a node from a member on at a position, likewise.
#[inline(always)]
fn stored_tail(
    log: &mut KeyLog,
    node: usize,
    index: usize,
    position: usize,
    key: bool,
) -> Result<Option<Given>, Memory>
    ensures some { IfOk result (λ found. IfSome found (λ g. (key ≡ true)
        × IsIn (record { task = MatchTask.Tail node index position; given = g }) log.old.stored)) }
    ensures none { IfOk result (λ found. IfNone found (key ≡ true →
        IsIn (MatchTask.Tail node index position) (tasks_of log.old.stored) → ⊥)) }
    ensures same { log.new ≡ log.old }
{
    if !key {
        return Ok(None);
    }
    if log.is_new(node, position) {
        return Ok(None);
    }
    let tail = MatchTask::Tail {
        node,
        index,
        position,
    };
    sought(log, tail)
}

// Ends a task with this result, which it stores if the task is a key. It is inlined wholly: a task whose address goes
// to a call is written to memory at each pass of the loop.
#[inline(always)]
fn close(log: &mut KeyLog, task: MatchTask, key: bool, given: Given) -> Result<(), Memory>
    requires { row_of task < log.old.rows }
    ensures rows { log.new.rows ≡ log.old.rows }
    ensures closed { OnOk result ((peg : Grammar) (window : List ℕ) (more : Bool) (marks : Marks) (links : List Link) →
        key ≡ key_of marks task →
        IsClosed peg window more marks links task given log.old.stored log.new.stored) }
{
    if key {
        log.put(task, given)?;
    }
    Ok(())
}

// Pushes a frame that awaits a task's last child, if it is a key or has events: with the head of its events.
#[inline(always)]
fn wait_last(frames: &mut Frames, task: MatchTask, key: bool, events: usize) -> Result<(), Memory>
    ensures { OnOk result (AreWaiting key events task frames.old frames.new) }
{
    if !key {
        if events == 0 {
            return Ok(());
        }
    }
    frames.push(Frame {
        task,
        key,
        wait: Wait::Last(events),
    })
}

// Enters a tail: goes to its member, with a frame if it has another member or is a key, or returns its stored result.
#[inline(always)]
fn enter(log: &mut KeyLog, frames: &mut Frames, entering: Entering) -> Result<Next, Memory>
    ensures same { log.new ≡ log.old }
    ensures entered { IfOk result (λ n. IsEntered log.old.stored entering frames.old frames.new (iteration_of n)) }
{
    let (node, index, position) = (entering.node, entering.index, entering.position);
    if let Some(given) = stored_tail(log, node, index, position, entering.key)? {
        return Ok(Next::Answer(given));
    }
    let tail = MatchTask::Tail {
        node,
        index,
        position,
    };
    if entering.only {
        wait_last(frames, tail, entering.key, 0)?;
    } else {
        frames.push(Frame {
            task: tail,
            key: entering.key,
            wait: Wait::First,
        })?;
    }
    Ok(Next::Ask {
        node: entering.member,
        position: entering.position,
    })
}

// Returns the result of a task whose last child has this result, with the events of a head before its events.
#[inline(always)]
fn joined(events: &mut EventLog, first: usize, given: Given) -> Result<Given, Memory>
    requires first { IsHead events.old first }
    requires second { IsHead events.old given.events }
    ensures joined { IfOk result (IsJoined events.old events.new first given) }
    ensures grown { AreGrown events.old events.new }
{
    match given.found {
        Found::Failed => Ok(Given {
            found: Found::Failed,
            events: 0,
        }),
        Found::Took(end) => Ok(Given {
            found: Found::Took(end),
            events: events.join(first, given.events)?,
        }),
    }
}

impl Machine {
    // Begins a task that is neither a choice nor a repetition, and goes to a child or returns a result.
    #[inline(always)]
    fn start_task(&mut self, task: MatchTask, key: bool, start: Start) -> Result<Next, Memory>
        requires row { row_of task < self.old.log.rows }
        requires fits { self.old.begun + 2 ^ 33 ≤ 2 ^ 64 }
        ensures rows { OnOk result (self.new.log.rows ≡ self.old.log.rows) }
        ensures stands { (peg : Grammar) (window : List ℕ) (more : Bool) → AfterStart peg window more task start →
            (root : MatchTask) → key ≡ key_of peg.keys task →
            (key ≡ true → IsIn task (tasks_of self.old.log.stored) → ⊥) →
            Stands peg window more peg.keys root (Ask task) self.old.frames
            self.old.log.stored self.old.events self.old.begun →
            IfOk result (λ iteration. Stands peg window more peg.keys root (iteration_of iteration)
            self.new.frames self.new.log.stored self.new.events self.new.begun) }
        ensures less { (peg : Grammar) (window : List ℕ) (more : Bool) → IsWell peg window task →
            AfterStart peg window more task start → self.new.begun ≤ most_begun peg window →
            IfOk result (λ iteration. left peg window (iteration_of iteration) self.new.frames self.new.begun
            < left peg window (Ask task) self.old.frames self.old.begun) }
    {
        self.begun = counted(self.begun, task);
        match start {
            Start::Gives(found) => {
                let given = Given { found, events: 0 };
                close(&mut self.log, task, key, given)?;
                Ok(Next::Answer(given))
            }
            Start::Marks(event) => {
                let given = Given {
                    found: Found::Took(task.position()),
                    events: self.events.mark(event)?,
                };
                close(&mut self.log, task, key, given)?;
                Ok(Next::Answer(given))
            }
            Start::Leads { node, position } => {
                self.frames.push(Frame {
                    task,
                    key,
                    wait: Wait::First,
                })?;
                Ok(Next::Ask { node, position })
            }
            Start::Passes { node, position } => {
                wait_last(&mut self.frames, task, key, 0)?;
                Ok(Next::Ask { node, position })
            }
            Start::Enters(entering) => {
                wait_last(&mut self.frames, task, key, 0)?;
                Ok(enter(&mut self.log, &mut self.frames, entering)?)
            }
        }
    }

    // Returns the iterations of a repetition that bytes decide, if no key among their evaluations is stored.
    #[inline(always)]
    fn iterations_at(
        &self,
        peg: &SoundPeg,
        window: &[u8],
        more: bool,
        repeated: Repeated,
    ) -> Option<Iterations>
        requires some { WasEnough window.now more 0 }
        requires well { IsWell peg.now window.now (repeated_of repeated) }
        requires is { IsRepeated peg.now window.now more repeated }
        ensures free { IfSome result (λ t. AreFree peg.now window.now more peg.now.keys (tasks_of self.now.log.stored)
            (repeated_of repeated) t) }
        ensures fits { IfSome result (λ t. self.now.begun + t.evals < 2 ^ 64) }
    {
        if !is_fresh(&self.log, peg, repeated.star, repeated.position) {
            return None;
        }
        if !is_fresh(&self.log, peg, repeated.operand, repeated.position) {
            return None;
        }
        let iterations = find_iterations(
            peg,
            window,
            more,
            repeated.star,
            repeated.operand,
            repeated.position,
        )?;
        if iterations.evals > u128::from(u64::MAX - self.begun) {
            return None;
        }
        Some(iterations)
    }

    // Goes over iterations that bytes decide, to the repetition's end or to its evaluation after them.
    #[inline(always)]
    fn run_iterations(&mut self, peg: &SoundPeg, iterations: Iterations) -> Result<Next, Memory>
        requires sound { IsSoundGrammar peg.now }
        requires keyed { IsKeyed peg.now }
        requires rows { self.old.log.rows ≡ length peg.now.nodes }
        requires star { iterations.star < length peg.now.nodes }
        requires operand { iterations.operand < length peg.now.nodes }
        requires some { iterations.whole ≡ false → iterations.from < iterations.end }
        requires fits { self.old.begun + iterations.evals < 2 ^ 64 }
        ensures rows { OnOk result (self.new.log.rows ≡ length peg.now.nodes) }
        ensures stands { (window : List ℕ) (more : Bool) → AreFree peg.now window more peg.now.keys
            (tasks_of self.old.log.stored) (MatchTask.Eval iterations.star iterations.from) iterations →
            (root : MatchTask) → Stands peg.now window more peg.now.keys root
            (Ask (MatchTask.Eval iterations.star iterations.from)) self.old.frames
            self.old.log.stored self.old.events self.old.begun →
            IfOk result (λ iteration. Stands peg.now window more peg.now.keys root (iteration_of iteration)
            self.new.frames self.new.log.stored self.new.events self.new.begun) }
        ensures less { (window : List ℕ) (more : Bool) → AreDecided peg.now window more peg.now.keys iterations →
            self.new.begun ≤ most_begun peg.now window → IfOk result (λ iteration.
            left peg.now window (iteration_of iteration) self.new.frames self.new.begun < left peg.now window
            (Ask (MatchTask.Eval iterations.star iterations.from)) self.old.frames self.old.begun) }
    {
        self.begun += iterations.evals as u64;
        put_operands(&mut self.log, peg, iterations)?;
        if iterations.whole {
            let last = MatchTask::Eval {
                node: iterations.operand,
                position: iterations.end,
            };
            let failed = Given {
                found: Found::Failed,
                events: 0,
            };
            let key = peg.is_key_node(iterations.operand);
            close(&mut self.log, last, key, failed)?;
            let given = Given {
                found: Found::Took(iterations.end),
                events: 0,
            };
            put_iterations(&mut self.log, peg, iterations, given)?;
            Ok(Next::Answer(given))
        } else {
            wait_turned(&mut self.frames, peg, iterations)?;
            Ok(Next::Ask {
                node: iterations.star,
                position: iterations.end,
            })
        }
    }

    // Begins a choice whose first alternatives fail, and goes to the next one, or returns that the choice fails.
    #[inline(always)]
    fn run_skips(&mut self, task: MatchTask, key: bool, skips: Skips) -> Result<Next, Memory>
        requires row { row_of task < self.old.log.rows }
        requires fits { self.old.begun + 2 ^ 33 ≤ 2 ^ 64 }
        ensures rows { OnOk result (self.new.log.rows ≡ self.old.log.rows) }
        ensures stands { (peg : Grammar) (window : List ℕ) (more : Bool) → IsSoundGrammar peg → IsKeyed peg →
            WasEnough window more 0 → AreSkipped peg window more peg.keys task skips → (root : MatchTask) →
            key ≡ key_of peg.keys task → (key ≡ true → IsIn task (tasks_of self.old.log.stored) → ⊥) →
            Stands peg window more peg.keys root (Ask task) self.old.frames
            self.old.log.stored self.old.events self.old.begun →
            IfOk result (λ iteration. Stands peg window more peg.keys root (iteration_of iteration)
            self.new.frames self.new.log.stored self.new.events self.new.begun) }
        ensures less { (peg : Grammar) (window : List ℕ) (more : Bool) → IsWell peg window task →
            AreSkipped peg window more peg.keys task skips → self.new.begun ≤ most_begun peg window →
            IfOk result (λ iteration. left peg window (iteration_of iteration) self.new.frames self.new.begun
            < left peg window (Ask task) self.old.frames self.old.begun) }
    {
        self.begun = counted_skips(self.begun, skips.evals);
        match skips.rest {
            Some(entering) => {
                wait_last(&mut self.frames, task, key, 0)?;
                Ok(enter(&mut self.log, &mut self.frames, entering)?)
            }
            None => {
                let given = Given {
                    found: Found::Failed,
                    events: 0,
                };
                close(&mut self.log, task, key, given)?;
                Ok(Next::Answer(given))
            }
        }
    }

    // Begins a repetition: goes over iterations that bytes decide, or to its operand.
    #[inline(always)]
    fn repeat(
        &mut self,
        peg: &SoundPeg,
        window: &[u8],
        more: bool,
        key: bool,
        repeated: Repeated,
    ) -> Result<Next, Memory>
        requires some { WasEnough window.now more 0 }
        requires sound { IsSoundGrammar peg.now }
        requires keyed { IsKeyed peg.now }
        requires well { IsWell peg.now window.now (repeated_of repeated) }
        requires is { IsRepeated peg.now window.now more repeated }
        requires rows { self.old.log.rows ≡ length peg.now.nodes }
        requires few { self.old.begun ≤ most_begun peg.now window.now }
        requires fits { FitsBegun peg.now window.now }
        ensures rows { OnOk result (self.new.log.rows ≡ length peg.now.nodes) }
        ensures stands { (root : MatchTask) → key ≡ key_of peg.now.keys (repeated_of repeated) →
            (key ≡ true → IsIn (repeated_of repeated) (tasks_of self.old.log.stored) → ⊥) →
            Stands peg.now window.now more peg.now.keys root (Ask (repeated_of repeated)) self.old.frames
            self.old.log.stored self.old.events self.old.begun →
            IfOk result (λ iteration. Stands peg.now window.now more peg.now.keys root (iteration_of iteration)
            self.new.frames self.new.log.stored self.new.events self.new.begun) }
        ensures less { self.new.begun ≤ most_begun peg.now window.now → IfOk result (λ iteration.
            left peg.now window.now (iteration_of iteration) self.new.frames self.new.begun
            < left peg.now window.now (Ask (repeated_of repeated)) self.old.frames self.old.begun) }
    {
        match self.iterations_at(peg, window, more, repeated) {
            Some(iterations) => self.run_iterations(peg, iterations),
            None => {
                let task = MatchTask::Eval {
                    node: repeated.star,
                    position: repeated.position,
                };
                let begun = counted(self.begun, task);
                self.begun = begun;
                self.frames.push(Frame {
                    task,
                    key,
                    wait: Wait::First,
                })?;
                Ok(Next::Ask {
                    node: repeated.operand,
                    position: repeated.position,
                })
            }
        }
    }

    // Begins a node whose outcome the byte at its position decides, and returns that.
    #[inline(always)]
    fn end_known(&mut self, task: MatchTask, key: bool, known: Known) -> Result<Next, Memory>
        requires row { row_of task < self.old.log.rows }
        requires fits { self.old.begun + 2 ^ 33 ≤ 2 ^ 64 }
        ensures rows { OnOk result (self.new.log.rows ≡ self.old.log.rows) }
        ensures stands { (peg : Grammar) (window : List ℕ) (more : Bool) → IsSoundGrammar peg → IsKeyed peg →
            WasEnough window more 0 → IsKnown peg window more peg.keys task known → (root : MatchTask) →
            key ≡ key_of peg.keys task → (key ≡ true → IsIn task (tasks_of self.old.log.stored) → ⊥) →
            Stands peg window more peg.keys root (Ask task) self.old.frames
            self.old.log.stored self.old.events self.old.begun →
            IfOk result (λ iteration. Stands peg window more peg.keys root (iteration_of iteration)
            self.new.frames self.new.log.stored self.new.events self.new.begun) }
        ensures less { (peg : Grammar) (window : List ℕ) (more : Bool) → IsSoundGrammar peg → IsWell peg window task →
            IsKnown peg window more peg.keys task known → self.new.begun ≤ most_begun peg window →
            IfOk result (λ iteration. left peg window (iteration_of iteration) self.new.frames self.new.begun
            < left peg window (Ask task) self.old.frames self.old.begun) }
    {
        self.begun = counted_known(self.begun, known.evals);
        let given = Given {
            found: known.found,
            events: 0,
        };
        close(&mut self.log, task, key, given)?;
        Ok(Next::Answer(given))
    }

    // Begins a repetition of one or more whose operand takes the byte: goes on with it, or to an operand that is a key.
    #[inline(always)]
    fn begin_plus(&mut self, peg: &SoundPeg, key: bool, taken: Taken) -> Result<Next, Memory>
        requires sound { IsSoundGrammar peg.now }
        requires keyed { IsKeyed peg.now }
        requires operand { taken.operand < self.old.log.rows }
        requires before { taken.position + 1 < 2 ^ 64 }
        requires fits { self.old.begun + 2 ^ 33 ≤ 2 ^ 64 }
        ensures rows { OnOk result (self.new.log.rows ≡ self.old.log.rows) }
        ensures stands { (window : List ℕ) (more : Bool) → WasEnough window more 0 →
            IsTaken peg.now window more peg.now.keys taken → (root : MatchTask) →
            key ≡ key_of peg.now.keys (taken_of taken) →
            (key ≡ true → IsIn (taken_of taken) (tasks_of self.old.log.stored) → ⊥) →
            Stands peg.now window more peg.now.keys root (Ask (taken_of taken)) self.old.frames
            self.old.log.stored self.old.events self.old.begun →
            IfOk result (λ iteration. Stands peg.now window more peg.now.keys root (iteration_of iteration)
            self.new.frames self.new.log.stored self.new.events self.new.begun) }
        ensures less { (window : List ℕ) (more : Bool) → IsWell peg.now window (taken_of taken) →
            IsTaken peg.now window more peg.now.keys taken → self.new.begun ≤ most_begun peg.now window →
            IfOk result (λ iteration. left peg.now window (iteration_of iteration) self.new.frames self.new.begun
            < left peg.now window (Ask (taken_of taken)) self.old.frames self.old.begun) }
    {
        let task = MatchTask::Eval {
            node: taken.plus,
            position: taken.position,
        };
        if !is_fresh(&self.log, peg, taken.operand, taken.position) {
            let begun = counted(self.begun, task);
            self.begun = begun;
            self.frames.push(Frame {
                task,
                key,
                wait: Wait::First,
            })?;
            return Ok(Next::Ask {
                node: taken.operand,
                position: taken.position,
            });
        }
        let end = taken.position + 1;
        let evals = u32::from(taken.evals);
        self.begun = counted_skips(self.begun, evals);
        let operand = MatchTask::Eval {
            node: taken.operand,
            position: taken.position,
        };
        let given = Given {
            found: Found::Took(end),
            events: 0,
        };
        let stores = peg.is_key_node(taken.operand);
        close(&mut self.log, operand, stores, given)?;
        wait_last(&mut self.frames, task, key, 0)?;
        Ok(Next::Ask {
            node: taken.star,
            position: end,
        })
    }

    // Evaluates a node, or begins it and goes to a child; none if the window is too short. Each kind has its own call.
    #[inline(always)]
    fn ask(
        &mut self,
        peg: &SoundPeg,
        window: &[u8],
        more: bool,
        node: usize,
        position: usize,
    ) -> Result<Option<Next>, Memory>
        requires some { WasEnough window.now more 0 }
        requires sound { IsSoundGrammar peg.now }
        requires keyed { IsKeyed peg.now }
        requires well { IsWell peg.now window.now (MatchTask.Eval node position) }
        requires rows { self.old.log.rows ≡ length peg.now.nodes }
        requires few { self.old.begun ≤ most_begun peg.now window.now }
        requires fits { FitsBegun peg.now window.now }
        ensures rows { OnOk result (self.new.log.rows ≡ length peg.now.nodes) }
        ensures stands { (root : MatchTask) →
            Stands peg.now window.now more peg.now.keys root (Ask (MatchTask.Eval node position)) self.old.frames
            self.old.log.stored self.old.events self.old.begun →
            IfOk result (λ iteration. AreOn peg.now window.now more peg.now.keys root iteration
            self.new.frames self.new.log.stored self.new.events self.new.begun) }
        ensures less { self.new.begun ≤ most_begun peg.now window.now → IfOk result (λ iteration.
            LowersLeft peg.now window.now iteration self.new.frames self.new.begun
            (left peg.now window.now (Ask (MatchTask.Eval node position)) self.old.frames self.old.begun)) }
    {
        let task = MatchTask::Eval { node, position };
        let key = peg.is_key_node(node);
        match stored_node(&mut self.log, node, position, key)? {
            Some(given) => Ok(Some(Next::Answer(given))),
            None => match begin_node(peg, window, more, node, position) {
                Begun::Starts(start) => match start {
                    Start::Gives(_) => Ok(Some(self.start_task(task, key, start)?)),
                    Start::Marks(_) => Ok(Some(self.start_task(task, key, start)?)),
                    Start::Leads { .. } => Ok(Some(self.start_task(task, key, start)?)),
                    Start::Passes { .. } => Ok(Some(self.start_task(task, key, start)?)),
                    Start::Enters(_) => Ok(Some(self.start_task(task, key, start)?)),
                },
                Begun::Knows(known) => Ok(Some(self.end_known(task, key, known)?)),
                Begun::Takes(taken) => Ok(Some(self.begin_plus(peg, key, taken)?)),
                Begun::Skips(skips) => Ok(Some(self.run_skips(task, key, skips)?)),
                Begun::Repeats(it) => Ok(Some(self.repeat(peg, window, more, key, it)?)),
                Begun::Need => {
                    let begun = counted(self.begun, task);
                    self.begun = begun;
                    Ok(None)
                }
            },
        }
    }

    // Goes on with the frame that was the last one, and whose first child has this result.
    #[inline(always)]
    fn after_first(
        &mut self,
        peg: &SoundPeg,
        task: MatchTask,
        key: bool,
        given: Given,
    ) -> Result<Next, Memory>
        requires sound { IsSoundGrammar peg.now }
        requires well { (window : List ℕ) × IsWell peg.now window task }
        requires rows { self.old.log.rows ≡ length peg.now.nodes }
        ensures rows { OnOk result (self.new.log.rows ≡ length peg.now.nodes) }
        ensures stands { (window : List ℕ) (more : Bool) → WasEnough window more 0 → (root : MatchTask) →
            Stands peg.now window more peg.now.keys root (Answer given)
            (record { task = task; key = key; wait = Wait.First } ∷ self.old.frames)
            self.old.log.stored self.old.events self.old.begun →
            IfOk result (λ iteration. Stands peg.now window more peg.now.keys root (iteration_of iteration)
            self.new.frames self.new.log.stored self.new.events self.new.begun) }
        ensures less { (window : List ℕ) (more : Bool) → WasEnough window more 0 → (root : MatchTask) →
            Stands peg.now window more peg.now.keys root (Answer given)
            (record { task = task; key = key; wait = Wait.First } ∷ self.old.frames)
            self.old.log.stored self.old.events self.old.begun → (bytes : List ℕ) → IfOk result (λ iteration.
            left peg.now bytes (iteration_of iteration) self.new.frames self.new.begun
            < left peg.now bytes (Answer given)
            (record { task = task; key = key; wait = Wait.First } ∷ self.old.frames) self.old.begun) }
    {
        match go_on(peg, task, given.found) {
            Onward::Gives(found) => {
                let own = Given { found, events: 0 };
                close(&mut self.log, task, key, own)?;
                Ok(Next::Answer(own))
            }
            Onward::Same => {
                close(&mut self.log, task, key, given)?;
                Ok(Next::Answer(given))
            }
            Onward::Passes { node, position } => {
                wait_last(&mut self.frames, task, key, given.events)?;
                Ok(Next::Ask { node, position })
            }
            Onward::Enters(entering) => {
                wait_last(&mut self.frames, task, key, given.events)?;
                Ok(enter(&mut self.log, &mut self.frames, entering)?)
            }
        }
    }

    // Goes on with the frame that was the last one, and whose awaited child has this result.
    #[inline(always)]
    fn resume(&mut self, peg: &SoundPeg, frame: Frame, given: Given) -> Result<Next, Memory>
        requires sound { IsSoundGrammar peg.now }
        requires keyed { IsKeyed peg.now }
        requires well { (window : List ℕ) × IsWell peg.now window frame.task }
        requires rows { self.old.log.rows ≡ length peg.now.nodes }
        requires first { IsWaitHead self.old.events frame.wait }
        requires second { IsHead self.old.events given.events }
        ensures rows { OnOk result (self.new.log.rows ≡ length peg.now.nodes) }
        ensures stands { (window : List ℕ) (more : Bool) → WasEnough window more 0 → (root : MatchTask) →
            Stands peg.now window more peg.now.keys root (Answer given) (frame ∷ self.old.frames)
            self.old.log.stored self.old.events self.old.begun →
            IfOk result (λ iteration. Stands peg.now window more peg.now.keys root (iteration_of iteration)
            self.new.frames self.new.log.stored self.new.events self.new.begun) }
        ensures less { (window : List ℕ) (more : Bool) → WasEnough window more 0 → (root : MatchTask) →
            Stands peg.now window more peg.now.keys root (Answer given)
            (frame ∷ self.old.frames) self.old.log.stored self.old.events self.old.begun → (bytes : List ℕ) →
            IfOk result (λ iteration. left peg.now bytes (iteration_of iteration) self.new.frames self.new.begun
            < left peg.now bytes (Answer given) (frame ∷ self.old.frames) self.old.begun) }
    {
        match frame.wait {
            Wait::First => self.after_first(peg, frame.task, frame.key, given),
            Wait::Turned(last) => {
                put_turned(&mut self.log, frame.task, last, given)?;
                Ok(Next::Answer(given))
            }
            Wait::Last(first) => {
                let all = joined(&mut self.events, first, given)?;
                close(&mut self.log, frame.task, frame.key, all)?;
                Ok(Next::Answer(all))
            }
        }
    }

    // Returns a result to the last frame, and goes on with that frame, until a child is asked for or no frame is left.
    #[inline(always)]
    fn settle(&mut self, peg: &SoundPeg, first: Given) -> Result<Next, Memory>
        requires sound { IsSoundGrammar peg.now }
        requires keyed { IsKeyed peg.now }
        requires rows { self.old.log.rows ≡ length peg.now.nodes }
        requires stands { (window : List ℕ) × (more : Bool) × (root : MatchTask) × WasEnough window more 0
            × Stands peg.now window more peg.now.keys root (Answer first) self.old.frames
            self.old.log.stored self.old.events self.old.begun }
        ensures rows { OnOk result (self.new.log.rows ≡ length peg.now.nodes) }
        ensures stands { (window : List ℕ) (more : Bool) → WasEnough window more 0 → (root : MatchTask) →
            Stands peg.now window more peg.now.keys root (Answer first) self.old.frames
            self.old.log.stored self.old.events self.old.begun →
            IfOk result (λ iteration. Stands peg.now window more peg.now.keys root (iteration_of iteration)
            self.new.frames self.new.log.stored self.new.events self.new.begun) }
        ensures less { (bytes : List ℕ) → IfOk result (λ next.
            left peg.now bytes (iteration_of next) self.new.frames self.new.begun
            ≤ left peg.now bytes (Answer first) self.old.frames self.old.begun) }
        ensures last { IfOk result (λ iteration. IsUnawaited iteration self.new.frames) }
    {
        let mut given = first;
        'frames: loop {
            match self.frames.pop() {
                None => return Ok(Next::Answer(given)),
                Some(frame) => match self.resume(peg, frame, given)? {
                    Next::Answer(own) => given = own,
                    Next::Ask { node, position } => return Ok(Next::Ask { node, position }),
                },
            }
        }
    }

    /// Evaluates the start rule's body at the window's front as `Run` states it. None where the window is too short.
    ///
    /// # Errors
    /// `Memory` if an allocation fails.
    pub(crate) fn evaluate(
        &mut self,
        peg: &SoundPeg,
        window: &[u8],
        more: bool,
        root: usize,
    ) -> Result<Option<Given>, Memory>
        requires some { WasEnough window.now more 0 }
        requires sound { IsSoundGrammar peg.now }
        requires fits { FitsBegun peg.now window.now }
        requires root { slice_get peg.now.bodies peg.now.start ≡ Some root }
        requires keys { HasKeys peg.now }
        requires rows { self.old.log.rows ≡ length peg.now.nodes }
        requires empty { self.old.log.stored ≡ [] }
        ensures { IfOk result (λ given. IsEvaluated peg.now window.now more peg.now.keys (MatchTask.Eval root 0) given
            self.new.frames self.new.log.stored self.new.events self.new.begun) }
    {
        self.begun = 0;
        self.frames.clear();
        self.events.clear();
        let mut node = root;
        let mut position = 0;
        'asks: loop {
            match self.ask(peg, window, more, node, position)? {
                None => {
                    self.frames.clear();
                    return Ok(None);
                }
                Some(next) => match next {
                    Next::Ask {
                        node: child,
                        position: there,
                    } => {
                        node = child;
                        position = there;
                    }
                    Next::Answer(given) => match self.settle(peg, given)? {
                        Next::Ask {
                            node: child,
                            position: there,
                        } => {
                            node = child;
                            position = there;
                        }
                        Next::Answer(last) => return Ok(Some(last)),
                    },
                },
            }
        }
    }
}

//! The steps of a task: what it gives at once, and what it asks for.
ghost use Rattle.std.specs.Prelude.{◌≡◌, ℕ, Bool, false, List};
ghost use Rattle.gramcheck.specs.Grammar.{IsSoundGrammar};
ghost use Rattle.memo.specs.declared.task.MatchTask.{MatchTask};
ghost use Rattle.matchfailure.specs.FailureTasks.{IsFirst, IsWell};
ghost use Rattle.matchfailure.specs.FailureSteps.{IsBegun, GoesOn};

use gramcheck::SoundPeg;
use memo::{Found, MatchTask};
use pegmatch::{match_any, match_bytes, match_set};
use pegnodes::Node;

/// A step of a task.
///
/// - It has this result.
/// - Its result is that of another task.
/// - It asks for a node at a position first; `denied` if it is a `!`.
#[derive(Clone, Copy)]
pub(crate) enum TaskStep {
    Gives(Found),
    Becomes(MatchTask),
    Asks {
        node: usize,
        position: usize,
        denied: bool,
    },
}

#[inline(always)]
fn asks(node: usize, position: usize) -> TaskStep
    ensures { result ≡ TaskStep.Asks node position false }
{
    TaskStep::Asks {
        node,
        position,
        denied: false,
    }
}

#[inline(always)]
fn tail(node: usize, position: usize) -> TaskStep
    ensures { result ≡ TaskStep.Becomes (MatchTask.Tail node 0 position) }
{
    TaskStep::Becomes(MatchTask::Tail {
        node,
        index: 0,
        position,
    })
}

// Returns the first step of a node at a position.
#[inline(always)]
fn begin_node(peg: &SoundPeg, window: &[u8], node: usize, position: usize) -> TaskStep
    requires sound { IsSoundGrammar peg.now }
    requires well { IsWell peg.now window.now (MatchTask.Eval node position) }
    ensures { IsBegun peg.now window.now (MatchTask.Eval node position) result }
{
    match peg.node(node) {
        Node::Any => TaskStep::Gives(match_any(window, position).found),
        Node::Bytes(bytes) => TaskStep::Gives(match_bytes(bytes, window, position).found),
        Node::Set(set) => TaskStep::Gives(match_set(set, window, position).found),
        Node::Name(id) => TaskStep::Becomes(MatchTask::Eval {
            node: peg.body_node(*id),
            position,
        }),
        Node::Seq(_) => tail(node, position),
        Node::Choice(_) => tail(node, position),
        Node::Star(operand) => asks(*operand, position),
        Node::Plus { operand, star: _ } => asks(*operand, position),
        Node::Opt(operand) => asks(*operand, position),
        Node::And(operand) => asks(*operand, position),
        Node::Not(operand) => TaskStep::Asks {
            node: *operand,
            position,
            denied: true,
        },
        Node::Act(_) => TaskStep::Gives(Found::Took(position)),
        Node::Open => TaskStep::Gives(Found::Took(position)),
        Node::Close => TaskStep::Gives(Found::Took(position)),
    }
}

// Returns the first step of a tail at a position.
#[inline(always)]
fn begin_tail(peg: &SoundPeg, node: usize, index: usize, position: usize) -> TaskStep
    requires sound { IsSoundGrammar peg.now }
    requires well { (window : List ℕ) × IsWell peg.now window (MatchTask.Tail node index position) }
    ensures { (window : List ℕ) → IsWell peg.now window (MatchTask.Tail node index position)
        → IsBegun peg.now window (MatchTask.Tail node index position) result }
{
    match peg.node(node) {
        Node::Seq(members) => {
            if index < members.len() {
                asks(members[index], position)
            } else {
                TaskStep::Gives(Found::Took(position))
            }
        }
        Node::Choice(alternatives) => {
            if index < alternatives.len() {
                asks(alternatives[index], position)
            } else {
                TaskStep::Gives(Found::Failed)
            }
        }
        _ => TaskStep::Gives(Found::Failed),
    }
}

/// Returns the first step of a task.
#[inline(always)]
pub(crate) fn begin_task(peg: &SoundPeg, window: &[u8], task: MatchTask) -> TaskStep
    requires sound { IsSoundGrammar peg.now }
    requires well { IsWell peg.now window.now task }
    ensures { IsBegun peg.now window.now task result }
{
    match task {
        MatchTask::Eval { node, position } => begin_node(peg, window, node, position),
        MatchTask::Tail {
            node,
            index,
            position,
        } => begin_tail(peg, node, index, position),
    }
}

// Returns the step of a node at a position whose operand has this outcome.
#[inline(always)]
fn go_on_node(peg: &SoundPeg, node: usize, position: usize, found: Found) -> TaskStep
    requires sound { IsSoundGrammar peg.now }
    requires well { (window : List ℕ) × IsWell peg.now window (MatchTask.Eval node position) }
    ensures { (window : List ℕ) → IsWell peg.now window (MatchTask.Eval node position)
        → GoesOn peg.now window (MatchTask.Eval node position) found result }
{
    match peg.node(node) {
        Node::Star(_) => match found {
            Found::Failed => TaskStep::Gives(Found::Took(position)),
            Found::Took(end) => TaskStep::Becomes(MatchTask::Eval {
                node,
                position: end,
            }),
        },
        Node::Plus { operand: _, star } => match found {
            Found::Failed => TaskStep::Gives(Found::Failed),
            Found::Took(end) => TaskStep::Becomes(MatchTask::Eval {
                node: *star,
                position: end,
            }),
        },
        Node::Opt(_) => match found {
            Found::Failed => TaskStep::Gives(Found::Took(position)),
            Found::Took(end) => TaskStep::Gives(Found::Took(end)),
        },
        Node::And(_) => match found {
            Found::Failed => TaskStep::Gives(Found::Failed),
            Found::Took(_) => TaskStep::Gives(Found::Took(position)),
        },
        Node::Not(_) => match found {
            Found::Failed => TaskStep::Gives(Found::Took(position)),
            Found::Took(_) => TaskStep::Gives(Found::Failed),
        },
        _ => TaskStep::Gives(Found::Failed),
    }
}

// Returns the step of a tail at a position whose first member has this outcome.
#[inline(always)]
fn go_on_tail(peg: &SoundPeg, node: usize, index: usize, position: usize, found: Found) -> TaskStep
    requires sound { IsSoundGrammar peg.now }
    requires well { (window : List ℕ) × IsWell peg.now window (MatchTask.Tail node index position) }
    requires asks { (k : ℕ) × (q : ℕ) × (denied : Bool)
        × IsFirst peg.now (MatchTask.Tail node index position) k q denied }
    ensures { (window : List ℕ) → IsWell peg.now window (MatchTask.Tail node index position)
        → GoesOn peg.now window (MatchTask.Tail node index position) found result }
{
    match peg.node(node) {
        Node::Seq(_) => match found {
            Found::Failed => TaskStep::Gives(Found::Failed),
            Found::Took(end) => TaskStep::Becomes(MatchTask::Tail {
                node,
                index: index + 1,
                position: end,
            }),
        },
        Node::Choice(_) => match found {
            Found::Failed => TaskStep::Becomes(MatchTask::Tail {
                node,
                index: index + 1,
                position,
            }),
            Found::Took(end) => TaskStep::Gives(Found::Took(end)),
        },
        _ => TaskStep::Gives(Found::Failed),
    }
}

/// Returns the step of a task whose first child has this outcome.
#[inline(always)]
pub(crate) fn go_on(peg: &SoundPeg, task: MatchTask, found: Found) -> TaskStep
    requires sound { IsSoundGrammar peg.now }
    requires asks { (k : ℕ) × (q : ℕ) × (denied : Bool) × IsFirst peg.now task k q denied }
    requires well { (window : List ℕ) × IsWell peg.now window task }
    ensures { (window : List ℕ) → IsWell peg.now window task → GoesOn peg.now window task found result }
{
    match task {
        MatchTask::Eval { node, position } => go_on_node(peg, node, position, found),
        MatchTask::Tail {
            node,
            index,
            position,
        } => go_on_tail(peg, node, index, position, found),
    }
}

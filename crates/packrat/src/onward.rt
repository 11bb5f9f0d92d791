//! How a task goes on: which result it has at once, and which children it asks for.
ghost use Rattle.std.specs.Prelude.{◌≡◌, ◌<◌, ℕ, Bool, false, List, length, slice_get, Some};
ghost use Rattle.pegread.specs.PegViews.{rules_of};
ghost use Rattle.gramcheck.specs.Grammar.{IsSoundGrammar};
ghost use Rattle.pegnodes.specs.ByteTables.{IsTabled};
ghost use Rattle.pegnodes.specs.Nodes.{Shape, shapes_of};
ghost use Rattle.gramcheck.specs.Outcome.{Event};
ghost use Rattle.pegmatch.specs.Answers.{WasEnough};
ghost use Rattle.memo.specs.declared.task.MatchTask.{MatchTask};
ghost use Rattle.packrat.specs.Begins.{AfterNone, IsLeaf, IsRepeated};
ghost use Rattle.packrat.specs.Onward.{IsWell, IsLed, AfterOne, entering_of};
ghost use Rattle.packrat.specs.TaskGives.{TaskYields};
ghost use Rattle.packrat.specs.TaskSteps.{IsFirst};

use crate::known::{Known, Taken, decided_at, ended_at, known_at, taken_at};
use crate::skips::{Skips, skips_at};
use gramcheck::SoundPeg;
use memo::{Found, MatchTask};
use pegmatch::{Kept, Tried, match_any, match_bytes, match_set};
use pegnodes::Node;

/// The tail of a node from one of its members on, at a position.
#[derive(Clone, Copy)]
pub(crate) struct Entering {
    /// The node.
    pub(crate) node: usize,
    /// The index of the member, from 0.
    pub(crate) index: usize,
    /// The position, in bytes from the front of the window.
    pub(crate) position: usize,
    /// The node of the member.
    pub(crate) member: usize,
    /// Whether the member is the last one.
    pub(crate) only: bool,
    /// Whether the tail is a key.
    pub(crate) key: bool,
}

/// A repetition of an operand, at a position.
#[derive(Clone, Copy)]
pub(crate) struct Repeated {
    /// The node of the repetition.
    pub(crate) star: usize,
    /// The node of its operand.
    pub(crate) operand: usize,
    /// The position, in bytes from the front of the window.
    pub(crate) position: usize,
}

/// The first step of a node that is neither a choice nor a repetition.
///
/// - It has a result without events.
/// - It takes nothing, and leaves an event.
/// - It asks for a child.
/// - It asks for its only child, which may be a tail, and passes on its result.
#[derive(Clone, Copy)]
pub(crate) enum Start {
    Gives(Found),
    Marks(Kept),
    Leads { node: usize, position: usize },
    Passes { node: usize, position: usize },
    Enters(Entering),
}

/// The first step of a node at a position.
///
/// - It is neither a choice nor a repetition, and has this step.
/// - The byte at the position decides its outcome.
/// - It is a repetition of one or more, and the byte at the position decides that its operand takes it.
/// - It is a choice. Some of its first alternatives fail.
/// - It is a repetition.
/// - Its comparison reaches the last byte of a window that more bytes follow.
#[derive(Clone, Copy)]
pub(crate) enum Begun {
    Starts(Start),
    Knows(Known),
    Takes(Taken),
    Skips(Skips),
    Repeats(Repeated),
    Need,
}

/// The step of a task after its first child.
///
/// - It has a result without events.
/// - It returns the result of its first child.
/// - It asks for its last child, which may be a tail, and returns that one's result. The events of its first child come
///   before those.
#[derive(Clone, Copy)]
pub(crate) enum Onward {
    Gives(Found),
    Same,
    Passes { node: usize, position: usize },
    Enters(Entering),
}

/// Returns the tail of a node with these members, from this one on.
#[inline(always)]
pub(crate) fn tail_from(
    peg: &SoundPeg,
    node: usize,
    members: &[usize],
    index: usize,
    position: usize,
) -> Entering
    requires { index < length members.now }
    ensures { result ≡ entering_of peg.now.keys node members.now index position }
{
    Entering {
        node,
        index,
        position,
        member: members[index],
        only: index + 1 == members.len(),
        key: peg.is_key_tail(node, index),
    }
}

// Returns the outcome of a trial, if its comparison does not reach the last byte of a window that more bytes follow.
#[inline(always)]
fn leaf(tried: Tried, length: usize, more: bool) -> Begun
    ensures { IsLeaf tried length more result }
{
    if more {
        if tried.looked == length {
            return Begun::Need;
        }
    }
    Begun::Starts(Start::Gives(tried.found))
}

// Returns how an option or predicate of an operand begins at a position.
#[inline(always)]
fn tested(
    peg: &SoundPeg,
    window: &[u8],
    more: bool,
    node: usize,
    operand: usize,
    position: usize,
) -> Begun
    requires some { WasEnough window.now more 0 }
    requires tabled { (s : Shape) × (slice_get (shapes_of peg.now.nodes) node ≡ Some s) × IsTabled node s node }
    requires led { IsLed peg.now window.now more false (MatchTask.Eval node position)
        (MatchTask.Eval operand position) }
    ensures { AfterNone peg.now window.now more (MatchTask.Eval node position) result }
{
    match known_at(peg, window, more, node, position) {
        Some(known) => Begun::Knows(known),
        None => Begun::Starts(Start::Leads {
            node: operand,
            position,
        }),
    }
}

// Returns how a repetition of an operand begins at a position.
#[inline(always)]
fn begin_star(
    peg: &SoundPeg,
    window: &[u8],
    more: bool,
    star: usize,
    operand: usize,
    position: usize,
) -> Begun
    requires some { WasEnough window.now more 0 }
    requires is { IsRepeated peg.now window.now more
        (record { star = star; operand = operand; position = position }) }
    ensures { AfterNone peg.now window.now more (MatchTask.Eval star position) result }
{
    match decided_at(peg, window, more, star, position) {
        Some(decided) => match ended_at(peg, operand, position, decided) {
            Some(known) => Begun::Knows(known),
            None => Begun::Repeats(Repeated {
                star,
                operand,
                position,
            }),
        },
        None => Begun::Starts(Start::Leads {
            node: operand,
            position,
        }),
    }
}

/// Returns how a node begins at a position: its result, or the child that it asks for first.
#[inline(always)]
pub(crate) fn begin_node(
    peg: &SoundPeg,
    window: &[u8],
    more: bool,
    node: usize,
    position: usize,
) -> Begun
    requires some { WasEnough window.now more 0 }
    requires sound { IsSoundGrammar peg.now }
    requires well { IsWell peg.now window.now (MatchTask.Eval node position) }
    ensures { AfterNone peg.now window.now more (MatchTask.Eval node position) result }
{
    match peg.node(node) {
        Node::Any => leaf(match_any(window, position), window.len(), more),
        Node::Bytes(bytes) => leaf(match_bytes(bytes, window, position), window.len(), more),
        Node::Set(set) => leaf(match_set(set, window, position), window.len(), more),
        Node::Name(id) => Begun::Starts(Start::Passes {
            node: peg.body_node(*id),
            position,
        }),
        Node::Seq(members) => {
            if members.is_empty() {
                Begun::Starts(Start::Gives(Found::Took(position)))
            } else {
                Begun::Starts(Start::Enters(tail_from(peg, node, members, 0, position)))
            }
        }
        Node::Choice(alternatives) => {
            Begun::Skips(skips_at(peg, window, more, node, alternatives, position))
        }
        Node::Star(operand) => begin_star(peg, window, more, node, *operand, position),
        Node::Not(operand) => tested(peg, window, more, node, *operand, position),
        Node::Plus { operand, star } => match taken_at(peg, window, more, *star, position) {
            Some(evals) => Begun::Takes(Taken {
                plus: node,
                operand: *operand,
                star: *star,
                position,
                evals,
            }),
            None => Begun::Starts(Start::Leads {
                node: *operand,
                position,
            }),
        },
        Node::Opt(operand) => tested(peg, window, more, node, *operand, position),
        Node::And(operand) => tested(peg, window, more, node, *operand, position),
        Node::Act(_) => Begun::Starts(Start::Marks(Kept::Acted(node))),
        Node::Open => Begun::Starts(Start::Marks(Kept::Opened(position))),
        Node::Close => Begun::Starts(Start::Marks(Kept::Closed(position))),
    }
}

// Returns how a node at a position goes on whose first child has this result.
#[inline(always)]
fn go_on_node(peg: &SoundPeg, node: usize, position: usize, found: Found) -> Onward
    requires sound { IsSoundGrammar peg.now }
    requires there { node < length peg.now.nodes }
    ensures { (window : List ℕ) (more : Bool) → IsWell peg.now window (MatchTask.Eval node position) →
        WasEnough window more 0 → (j : MatchTask) →
        IsFirst (rules_of peg.now.rules) (shapes_of peg.now.nodes) peg.now.bodies window
        (MatchTask.Eval node position) j → (events : List Event) → TaskYields peg.now window more j found events →
        AfterOne peg.now window more (MatchTask.Eval node position) j found events result }
{
    match peg.node(node) {
        Node::Star(_) => match found {
            Found::Failed => Onward::Gives(Found::Took(position)),
            Found::Took(end) => Onward::Passes {
                node,
                position: end,
            },
        },
        Node::Not(_) => match found {
            Found::Failed => Onward::Gives(Found::Took(position)),
            Found::Took(_) => Onward::Gives(Found::Failed),
        },
        Node::Plus { operand: _, star } => match found {
            Found::Failed => Onward::Gives(Found::Failed),
            Found::Took(end) => Onward::Passes {
                node: *star,
                position: end,
            },
        },
        Node::Opt(_) => match found {
            Found::Failed => Onward::Gives(Found::Took(position)),
            Found::Took(_) => Onward::Same,
        },
        Node::And(_) => match found {
            Found::Failed => Onward::Gives(Found::Failed),
            Found::Took(_) => Onward::Gives(Found::Took(position)),
        },
        Node::Name(_) => Onward::Same,
        Node::Seq(_) => Onward::Same,
        Node::Choice(_) => Onward::Same,
        Node::Any => Onward::Same,
        Node::Bytes(_) => Onward::Same,
        Node::Set(_) => Onward::Same,
        Node::Act(_) => Onward::Same,
        Node::Open => Onward::Same,
        Node::Close => Onward::Same,
    }
}

// Returns how a tail at a position goes on whose member has this result.
#[inline(always)]
fn go_on_tail(peg: &SoundPeg, node: usize, index: usize, position: usize, found: Found) -> Onward
    requires sound { IsSoundGrammar peg.now }
    requires well { (window : List ℕ) × IsWell peg.now window (MatchTask.Tail node index position) }
    ensures { (window : List ℕ) (more : Bool) → IsWell peg.now window (MatchTask.Tail node index position) →
        WasEnough window more 0 → (j : MatchTask) →
        IsFirst (rules_of peg.now.rules) (shapes_of peg.now.nodes) peg.now.bodies window
        (MatchTask.Tail node index position) j → (events : List Event) → TaskYields peg.now window more j found events →
        AfterOne peg.now window more (MatchTask.Tail node index position) j found events result }
{
    match peg.node(node) {
        Node::Seq(members) => match found {
            Found::Failed => Onward::Gives(Found::Failed),
            Found::Took(end) => {
                if index + 1 < members.len() {
                    Onward::Enters(tail_from(peg, node, members, index + 1, end))
                } else {
                    Onward::Same
                }
            }
        },
        Node::Choice(alternatives) => match found {
            Found::Took(_) => Onward::Same,
            Found::Failed => {
                if index + 1 < alternatives.len() {
                    Onward::Enters(tail_from(peg, node, alternatives, index + 1, position))
                } else {
                    Onward::Gives(Found::Failed)
                }
            }
        },
        _ => Onward::Same,
    }
}

/// Returns how a task goes on whose first child has this result.
#[inline(always)]
pub(crate) fn go_on(peg: &SoundPeg, task: MatchTask, found: Found) -> Onward
    requires sound { IsSoundGrammar peg.now }
    requires well { (window : List ℕ) × IsWell peg.now window task }
    ensures { (window : List ℕ) (more : Bool) → IsWell peg.now window task → WasEnough window more 0 →
        (j : MatchTask) → IsFirst (rules_of peg.now.rules) (shapes_of peg.now.nodes) peg.now.bodies window task j →
        (events : List Event) → TaskYields peg.now window more j found events →
        AfterOne peg.now window more task j found events result }
{
    match task {
        MatchTask::Eval { node, position } => go_on_node(peg, node, position, found),
        MatchTask::Tail {
            node,
            index,
            position,
        } => go_on_tail(peg, node, index, position, found),
    }
}

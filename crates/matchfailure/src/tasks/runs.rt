//! Repetitions of a set of bytes, which are passed at once.
ghost use Rattle.std.specs.Prelude.{◌≡◌, ℕ, ◌≤◌, ◌<◌, length, slice_get, get_or, Some, true, false, IfSome};
ghost use Rattle.gramcheck.specs.Grammar.{IsSoundGrammar};
ghost use Rattle.matchfailure.specs.ByteRuns.{IsByteRun};
ghost use Rattle.matchfailure.specs.FailureTasks.{IsWell};

use gramcheck::SoundPeg;
use memo::MatchTask;
use pegnodes::Node;
use ruletable::ByteSet;

/// A repetition of a set of bytes.
#[derive(Clone, Copy)]
pub(crate) struct ByteRun {
    /// The node of the repetition.
    pub(crate) star: usize,
    /// The node of the set.
    pub(crate) operand: usize,
    /// Where it begins.
    pub(crate) from: usize,
    /// Where the first byte stands that the set does not have, or the window's end.
    pub(crate) end: usize,
}

// Returns where the first byte stands from a position on that the set does not have, or the window's end.
fn end_of_run(set: &ByteSet, window: &[u8], from: usize) -> usize
    requires { from ≤ length window.now }
    ensures low { from ≤ result }
    ensures within { result ≤ length window.now }
    ensures taken { (r : ℕ) → from ≤ r → r < result → (b : ℕ) × (slice_get window.now r ≡ Some b)
        × (get_or set.now b false ≡ true) }
    ensures stops { (b : ℕ) → slice_get window.now result ≡ Some b → get_or set.now b false ≡ false }
{
    for end in from..window.len() {
        if !set.has(window[end]) {
            return end;
        }
    }
    window.len()
}

/// Returns the run of a task that is a repetition of a set of bytes.
pub(crate) fn run_at(peg: &SoundPeg, window: &[u8], task: MatchTask) -> Option<ByteRun>
    requires sound { IsSoundGrammar peg.now }
    requires well { IsWell peg.now window.now task }
    ensures { IfSome result (IsByteRun peg.now window.now task) }
{
    match task {
        MatchTask::Eval { node, position } => match peg.node(node) {
            Node::Star(operand) => match peg.node(*operand) {
                Node::Set(set) => Some(ByteRun {
                    star: node,
                    operand: *operand,
                    from: position,
                    end: end_of_run(set, window, position),
                }),
                _ => None,
            },
            _ => None,
        },
        MatchTask::Tail { .. } => None,
    }
}

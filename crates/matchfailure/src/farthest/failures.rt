//! The farthest failure of a unit.
ghost use Rattle.std.specs.Prelude.{◌≡◌, ℕ, List, IfOk, length, slice_get, Some};
ghost use Rattle.std.specs.Option.{MatchOption};
ghost use Rattle.gramcheck.specs.Grammar.{Grammar, IsNumbered, IsSoundGrammar};
ghost use Rattle.memo.specs.declared.task.MatchTask.{MatchTask};
ghost use Rattle.pegread.specs.PegViews.{rules_of};
ghost use Rattle.pegnodes.specs.Nodes.{shapes_of};
ghost use Rattle.matchfailure.specs.FailureStates.{AreFailures, IsCovered};
ghost use Rattle.matchfailure.specs.Farthest.{IsFarthest, NoneFails};
ghost use Rattle.matchfailure.specs.UnitEnds.{EndsSo, end_of_found};

use crate::farthest::order::put_in_order;
use crate::farthest::visit::Visit;
use crate::tasks::{FailureMachine, KeptFailures};
use gramcheck::SoundPeg;
use memo::Found;
use ruletable::Memory;
use std::alloc::Global;

/// Where the comparisons of a unit fail farthest, and what was expected there.
#[derive(Drop)]
pub struct Farthest {
    /// The farthest byte at which a comparison outside of `!` fails, from the front of the window.
    pub position: usize,
    /// The leaves whose comparison fails there, by the grammar's order and then by where they begin.
    pub expected: Vec<Visit>,
}

/// The end and the farthest failure that the evaluation of a unit shows.
#[derive(Drop)]
pub struct UnitSearch {
    /// Where the start rule ends, in bytes from the front of the window, if it succeeds.
    pub end: Option<usize>,
    /// Where its comparisons fail farthest, if one fails outside of `!`.
    pub farthest: Option<Farthest>,
}

// Returns where a success ends.
fn end_of(found: Found) -> Option<usize>
    ensures { result ≡ end_of_found found }
{
    match found {
        Found::Took(end) => Some(end),
        Found::Failed => None,
    }
}

// Returns the failing comparisons that were kept of a unit, in order.
fn farthest_of(kept: KeptFailures) -> Option<Farthest>
    ensures { (g : Grammar) (window : List ℕ) (root : ℕ) → slice_get g.bodies g.start ≡ Some root →
        AreFailures g window kept → IsCovered g window kept (MatchTask.Eval root 0) → MatchOption result
        (NoneFails (rules_of g.rules) (shapes_of g.nodes) g.bodies window g.start)
        (λ far. IsFarthest (rules_of g.rules) (shapes_of g.nodes) g.bodies window g.start
        far.position far.expected.items) }
{
    match kept.position {
        None => None,
        Some(position) => {
            let mut expected = kept.visits;
            put_in_order(&mut expected);
            Some(Farthest { position, expected })
        }
    }
}

/// Evaluates the start rule at the front of the window. Finds where it ends, and the farthest byte at which a
/// comparison outside of `!` fails, with all leaves that were expected there. The window is taken as the whole rest of
/// the input, whether the start rule succeeds on it or not.
///
/// It stores the results of keys alone. No clause counts its evaluations. The clauses `sound` and `numbered` repeat
/// those of `SoundPeg::start`.
///
/// # Errors
/// `Memory` if an allocation fails, or after 2^64 - 1 steps.
pub fn farthest_failure(alloc: Global, peg: &SoundPeg, window: &[u8]) -> Result<UnitSearch, Memory>
    ensures farthest { IfOk result (λ search. MatchOption search.farthest
        (NoneFails (rules_of peg.now.rules) (shapes_of peg.now.nodes) peg.now.bodies window.now peg.now.start)
        (λ far. IsFarthest (rules_of peg.now.rules) (shapes_of peg.now.nodes) peg.now.bodies window.now peg.now.start
        far.position far.expected.items)) }
    ensures end { IfOk result (λ search. EndsSo (rules_of peg.now.rules) peg.now.start window.now search.end) }
    ensures sound { IsSoundGrammar peg.now }
    ensures numbered { IsNumbered peg.now }
{
    let root = peg.body_node(peg.start());
    let mut machine = FailureMachine::new(alloc);
    let found = machine.evaluate(peg, window, root)?;
    Ok(UnitSearch {
        end: end_of(found),
        farthest: farthest_of(machine.kept),
    })
}

//! The symbols that items read, and those of sets.
ghost use Rattle.std.specs.Prelude.{◌≡◌, ◌↔◌, ◌⊎◌, ◌≤◌, ℕ, true, option_map, All, IfOk};
ghost use Rattle.flatgrammar.specs.Flat.{EitherCase, Has};
ghost use Rattle.flatgrammar.specs.FlatViews.{node_of, set_of};
ghost use Rattle.flatgrammar.specs.NodeSteps.{IfSomeSet, read_at};
ghost use Rattle.ruletable.specs.Letters.{has};
ghost use Rattle.refusedlines.specs.LetterRuns.{AreApartFrom, IsSomeRun, RunsHave};
ghost use Rattle.refusedlines.specs.ReadLetters.{GainLetters, DotReads, DotsRead};

use crate::letterruns::{LetterRun, merge_runs};
use flatgrammar::{DottedRule, Flat, Node, Set};
use ruletable::{Alphabet, Memory};
use std::alloc::Global;

// Adds the numbers from `low` to `high`, if there are any.
fn add_numbers(low: u32, high: u32, runs: &mut Vec<LetterRun>) -> Result<(), Memory>
    requires { All IsSomeRun runs.old.items }
    ensures some { IfOk result (λ done. All IsSomeRun runs.new.items) }
    ensures gain { IfOk result (λ done. GainLetters (λ c. (low ≤ c) × (c ≤ high)) runs.old.items runs.new.items) }
{
    if low <= high {
        runs.push(LetterRun {
            first: low,
            last: high,
        })?;
    }
    Ok(())
}

// Adds the symbols of an alphabet from `low` to `high`.
fn add_range(
    alphabet: Alphabet,
    low: u32,
    high: u32,
    runs: &mut Vec<LetterRun>,
) -> Result<(), Memory>
    requires { All IsSomeRun runs.old.items }
    ensures some { IfOk result (λ done. All IsSomeRun runs.new.items) }
    ensures gain { IfOk result (λ done. GainLetters (λ c. (has alphabet c ≡ true) × (low ≤ c) × (c ≤ high))
        runs.old.items runs.new.items) }
{
    match alphabet {
        Alphabet::Bytes => add_numbers(low, high.min(255), runs),
        Alphabet::Utf8 => {
            add_numbers(low, high.min(0xD7FF), runs)?;
            add_numbers(low.max(0xE000), high.min(0x10_FFFF), runs)
        }
    }
}

// Returns the other case of a letter of US-ASCII, or else the value itself.
fn other_case(value: u32) -> u32
    ensures { (c : ℕ) → Has (EitherCase value) c ↔ ((c ≡ value) ⊎ (c ≡ result)) }
{
    if 64 < value && value < 91 {
        value + 32
    } else if 96 < value && value < 123 {
        value - 32
    } else {
        value
    }
}

// Adds the symbols of an alphabet that a set has.
fn add_set(alphabet: Alphabet, set: Set, runs: &mut Vec<LetterRun>) -> Result<(), Memory>
    requires { All IsSomeRun runs.old.items }
    ensures some { IfOk result (λ done. All IsSomeRun runs.new.items) }
    ensures gain { IfOk result (λ done. GainLetters (λ c. (has alphabet c ≡ true) × Has (set_of set) c) runs.old.items
        runs.new.items) }
{
    match set {
        Set::Exactly(value) => add_range(alphabet, value, value, runs),
        Set::EitherCase(value) => {
            add_range(alphabet, value, value, runs)?;
            let other = other_case(value);
            add_range(alphabet, other, other, runs)
        }
        Set::Between { low, high } => add_range(alphabet, low, high, runs),
    }
}

// Adds the symbols of an alphabet that a step of a node reads.
fn add_node(
    alphabet: Alphabet,
    node: &Node,
    step: usize,
    runs: &mut Vec<LetterRun>,
) -> Result<(), Memory>
    requires { All IsSomeRun runs.old.items }
    ensures some { IfOk result (λ done. All IsSomeRun runs.new.items) }
    ensures gain { IfOk result (λ done. GainLetters (λ c. (has alphabet c ≡ true)
        × IfSomeSet (read_at (node_of node.now) step) c) runs.old.items runs.new.items) }
{
    match node {
        Node::Letters(sets) => match sets.get(step) {
            Some(set) => add_set(alphabet, *set, runs),
            None => Ok(()),
        },
        _ => Ok(()),
    }
}

// Adds the symbols of an alphabet that a dotted rule reads.
fn add_dot(
    alphabet: Alphabet,
    flat: &Flat,
    dot: DottedRule,
    runs: &mut Vec<LetterRun>,
) -> Result<(), Memory>
    requires { All IsSomeRun runs.old.items }
    ensures some { IfOk result (λ done. All IsSomeRun runs.new.items) }
    ensures gain { IfOk result (λ done. GainLetters (λ c. (has alphabet c ≡ true) × DotReads flat.now dot c)
        runs.old.items runs.new.items) }
{
    if dot.node < flat.nodes() {
        return add_node(alphabet, flat.node(dot.node), dot.step, runs);
    }
    Ok(())
}

/// Returns the maximal runs of the symbols of an alphabet that dotted rules read, in ascending order. `Memory` if an
/// allocation fails.
pub(crate) fn letters_read(
    alloc: Global,
    alphabet: Alphabet,
    flat: &Flat,
    dots: &[DottedRule],
) -> Result<Vec<LetterRun>, Memory>
    ensures apart { IfOk result (λ runs. AreApartFrom 0 runs.items) }
    ensures letters { IfOk result (λ runs. (c : ℕ) → RunsHave runs.items c
        ↔ ((has alphabet c ≡ true) × DotsRead flat.now dots.now c)) }
{
    let mut runs = Vec::new(alloc);
    for dot in dots {
        add_dot(alphabet, flat, *dot, &mut runs)?;
    }
    merge_runs(alloc, runs)
}

/// Returns the maximal runs of the symbols of an alphabet in a set, in ascending order; none without a set. `Memory` if
/// an allocation fails.
pub(crate) fn set_letters(
    alloc: Global,
    alphabet: Alphabet,
    set: Option<Set>,
) -> Result<Vec<LetterRun>, Memory>
    ensures apart { IfOk result (λ runs. AreApartFrom 0 runs.items) }
    ensures letters { IfOk result (λ runs. (c : ℕ) → RunsHave runs.items c
        ↔ ((has alphabet c ≡ true) × IfSomeSet (option_map set_of set) c)) }
{
    let mut runs = Vec::new(alloc);
    let Some(some) = set else {
        return Ok(runs);
    };
    add_set(alphabet, some, &mut runs)?;
    merge_runs(alloc, runs)
}

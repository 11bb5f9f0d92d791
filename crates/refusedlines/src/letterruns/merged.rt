//! The maximal runs of some runs' symbols.
ghost use Rattle.std.specs.Prelude.{◌≡◌, ◌↔◌, ◌⊎◌, ◌≤◌, ℕ, List, All, IfOk};
ghost use Rattle.std.specs.List.Sorted.{IsNonDecreasingBy};
ghost use Rattle.refusedlines.specs.LetterRuns.{AreApartFrom, IsSomeRun, RunHas, RunsHave};
ghost use Rattle.refusedlines.specs.declared.letterruns.run.LetterRun.{LetterRun as the_run};

use crate::letterruns::run::LetterRun;
use ruletable::Memory;
use std::alloc::Global;

// Sorts runs by their first symbols.
fn put_in_order(runs: &mut Vec<LetterRun>)
    requires { All IsSomeRun runs.old.items }
    ensures some { All IsSomeRun runs.new.items }
    ensures ordered { IsNonDecreasingBy (λ (r : the_run). r.first) runs.new.items }
    ensures same { (c : ℕ) → RunsHave runs.new.items c ↔ RunsHave runs.old.items c }
{
    runs.sort_unstable_by_key(|run| run.first);
}

// Adds a run to those before it: to the last of them, if no number is left out between both.
fn join_run(run: LetterRun, merged: &mut Vec<LetterRun>) -> Result<(), Memory>
    requires some { IsSomeRun run }
    requires apart { AreApartFrom 0 merged.old.items }
    requires before { All (λ r. r.first ≤ run.first) merged.old.items }
    ensures apart { IfOk result (λ done. AreApartFrom 0 merged.new.items) }
    ensures before { IfOk result (λ done. All (λ r. r.first ≤ run.first) merged.new.items) }
    ensures same { IfOk result (λ done. (c : ℕ) → RunsHave merged.new.items c
        ↔ (RunsHave merged.old.items c ⊎ RunHas run c)) }
{
    let Some(last) = merged.pop() else {
        merged.push(run)?;
        return Ok(());
    };
    if run.first <= last.last.saturating_add(1) {
        merged.push(LetterRun {
            first: last.first,
            last: last.last.max(run.last),
        })?;
        return Ok(());
    }
    merged.push(last)?;
    merged.push(run)?;
    Ok(())
}

/// Returns the maximal runs of the symbols of some runs, in ascending order. Each of those runs must have a symbol.
/// `Memory` if an allocation fails.
pub fn merge_runs(alloc: Global, runs: Vec<LetterRun>) -> Result<Vec<LetterRun>, Memory>
    requires { All IsSomeRun runs.items }
    ensures apart { IfOk result (λ merged. AreApartFrom 0 merged.items) }
    ensures same { IfOk result (λ merged. (c : ℕ) → RunsHave merged.items c ↔ RunsHave runs.items c) }
{
    let mut sorted = runs;
    put_in_order(&mut sorted);
    let mut merged = Vec::new(alloc);
    for run in &sorted {
        join_run(*run, &mut merged)?;
    }
    Ok(merged)
}

/// Returns nothing. Its contract is a law: a set of symbols has one list of maximal runs at most.
pub fn runs_are_one()
    ensures { (runs others : List the_run) → AreApartFrom 0 runs → AreApartFrom 0 others →
        ((c : ℕ) → RunsHave runs c ↔ RunsHave others c) → runs ≡ others }
{}

//! Runs of code points, where those on both sides of the surrogates are neighbours.
ghost use Rattle.std.specs.Prelude.{◌≡◌, ◌++◌, IfOk, OnOk};
ghost use Rattle.refusedlines.specs.SymbolPieces.{ends_before, joined_run, joined_runs, last_across};

use crate::letterruns::run::LetterRun;
use ruletable::Memory;
use std::alloc::Global;

// The last code point before the surrogates, and the first after them.
const BEFORE: u32 = 0xD7FF;

const AFTER: u32 = 0xE000;

// Returns the last symbol of the run that begins after the surrogates.
fn last_across(runs: &[LetterRun]) -> Option<u32>
    ensures { result ≡ last_across runs.now }
{
    for run in runs {
        if run.first == AFTER {
            return Some(run.last);
        }
    }
    None
}

// Whether some run ends before the surrogates.
fn ends_before(runs: &[LetterRun]) -> bool
    ensures { result ≡ ends_before runs.now }
{
    runs.iter().any(|run| run.last == BEFORE)
}

// Adds a run with what goes on after the surrogates; nothing for what goes on there.
fn add_joined(runs: &[LetterRun], run: LetterRun, joined: &mut Vec<LetterRun>) -> Result<(), Memory>
    ensures { OnOk result (joined.new.items ≡ joined.old.items ++ joined_run runs.now run) }
{
    if run.first == AFTER && ends_before(runs) {
        return Ok(());
    }
    let mut last = run.last;
    if let Some(further) = last_across(runs)
        && last == BEFORE
    {
        last = further;
    }
    joined.push(LetterRun {
        first: run.first,
        last,
    })?;
    Ok(())
}

/// Returns runs of code points, where 0xD7FF and 0xE000 are neighbours. `Memory` if an allocation fails.
pub(crate) fn joined(alloc: Global, runs: &[LetterRun]) -> Result<Vec<LetterRun>, Memory>
    ensures { IfOk result (λ all. all.items ≡ joined_runs runs.now) }
{
    let mut all = Vec::new(alloc);
    for run in runs {
        add_joined(runs, *run, &mut all)?;
    }
    Ok(all)
}

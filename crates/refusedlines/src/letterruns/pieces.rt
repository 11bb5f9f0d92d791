//! The pieces that report a set of symbols: names of core rules, and the terms of ABNF for the rest.
ghost use Rattle.std.specs.Prelude.{◌≡◌, ◌+◌, ◌++◌, option_map, IfOk, OnOk};
ghost use Rattle.std.specs.List.{list_all};
ghost use Rattle.refusedlines.specs.ReportedLetters.{reported_letters as the_letters};
ghost use Rattle.refusedlines.specs.SymbolPieces.{has_run, is_range, pieces, rest_without, run_after, run_before};
ghost use Rattle.refusedlines.specs.SymbolPieces.{reported_cost, without_run, without_runs};

use crate::letterruns::core_rule::{CoreRule, core_runs};
use crate::letterruns::joined::joined;
use crate::letterruns::reported::{ReportedLetters, reported_letters};
use crate::letterruns::run::LetterRun;
use ruletable::{Alphabet, Memory};
use std::alloc::Global;

static CORE_SETS: [CoreRule; 8] = [
    CoreRule::Octet,
    CoreRule::Char,
    CoreRule::Vchar,
    CoreRule::Alpha,
    CoreRule::Ctl,
    CoreRule::Hexdig,
    CoreRule::Digit,
    CoreRule::Wsp,
];

// Whether one of the runs has all symbols of a run.
fn has_run(runs: &[LetterRun], part: LetterRun) -> bool
    ensures { result ≡ has_run runs.now part }
{
    runs.iter()
        .any(|run| run.first <= part.first && part.last <= run.last)
}

// Whether the runs have all symbols of some runs.
fn has_runs(runs: &[LetterRun], parts: &[LetterRun]) -> bool
    ensures { result ≡ list_all (has_run runs.now) parts.now }
{
    for part in parts {
        if !has_run(runs, *part) {
            return false;
        }
    }
    true
}

// Adds the symbols of a run but those of another.
fn add_without(cut: LetterRun, run: LetterRun, rest: &mut Vec<LetterRun>) -> Result<(), Memory>
    ensures { OnOk result (rest.new.items ≡ rest.old.items ++ (run_before cut run ++ run_after cut run)) }
{
    if run.first < cut.first {
        rest.push(LetterRun {
            first: run.first,
            last: run.last.min(cut.first - 1),
        })?;
    }
    if cut.last < run.last {
        rest.push(LetterRun {
            first: run.first.max(cut.last + 1),
            last: run.last,
        })?;
    }
    Ok(())
}

// Returns the symbols of runs but those of a run.
fn without_run(alloc: Global, cut: LetterRun, runs: &[LetterRun]) -> Result<Vec<LetterRun>, Memory>
    ensures { IfOk result (λ rest. rest.items ≡ without_run cut runs.now) }
{
    let mut rest = Vec::new(alloc);
    for run in runs {
        add_without(cut, *run, &mut rest)?;
    }
    Ok(rest)
}

// Returns the symbols of runs but those of some runs.
fn without_runs(
    alloc: Global,
    cuts: &[LetterRun],
    runs: &[LetterRun],
) -> Result<Vec<LetterRun>, Memory>
    ensures { IfOk result (λ rest. rest.items ≡ without_runs cuts.now runs.now) }
{
    let mut rest = Vec::from_slice(alloc, runs)?;
    for cut in cuts {
        rest = without_run(alloc, *cut, &rest)?;
    }
    Ok(rest)
}

// Whether a term is a range.
fn is_range(term: &ReportedLetters) -> bool
    ensures { result ≡ is_range term.now }
{
    matches!(term, ReportedLetters::Through(_))
}

// Returns the cost of the terms for the symbols of runs: two a range, one each of the others.
fn cost(alloc: Global, alphabet: Alphabet, runs: &[LetterRun]) -> Result<u128, Memory>
    ensures { IfOk result (λ sum. sum ≡ reported_cost (the_letters alphabet runs.now)) }
{
    let terms = reported_letters(alloc, alphabet, runs)?;
    let ranges = terms.iter().filter(|term| is_range(term)).count();
    Ok(terms.len() as u128 + ranges as u128)
}

// Returns the symbols of runs that are left without those of a core rule; none if they lack one of these, or if what is
// left costs more.
fn rest_without(
    alloc: Global,
    alphabet: Alphabet,
    rule: CoreRule,
    runs: &[LetterRun],
) -> Result<Option<Vec<LetterRun>>, Memory>
    ensures { IfOk result (λ rest. option_map (λ v. v.items) rest ≡ rest_without alphabet rule runs.now) }
{
    let cuts = core_runs(rule);
    if !has_runs(runs, cuts) {
        return Ok(None);
    }
    let rest = without_runs(alloc, cuts, runs)?;
    if cost(alloc, alphabet, runs)? < cost(alloc, alphabet, &rest)? {
        return Ok(None);
    }
    Ok(Some(rest))
}

/// Returns the pieces that report the symbols of runs: the names of core rules whose symbols they have, if the rest
/// costs no more without them, and the terms for the rest. `Memory` if an allocation fails.
pub fn symbol_pieces(
    alloc: Global,
    alphabet: Alphabet,
    runs: &[LetterRun],
) -> Result<Vec<ReportedLetters>, Memory>
    ensures { IfOk result (λ all. all.items ≡ pieces alphabet runs.now) }
{
    let mut all = Vec::new(alloc);
    let mut rest = joined(alloc, runs)?;
    for rule in &CORE_SETS {
        if let Some(less) = rest_without(alloc, alphabet, *rule, &rest)? {
            all.push(ReportedLetters::Named(*rule))?;
            rest = less;
        }
    }
    let terms = reported_letters(alloc, alphabet, &rest)?;
    all.extend_from_slice(&terms)?;
    Ok(all)
}

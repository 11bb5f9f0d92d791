//! The comparison of two grammars' texts, and the report on it.
ghost use Rattle.std.specs.Prelude.{◌≡◌, IfOk};
ghost use Rattle.capi.specs.CompareReports.{AreTextsCompared, IsReportOf};
ghost use Rattle.capi.specs.GrammarsCompared.{AreFoundBetween, found_status};

use crate::alone::{AloneLine, line_of};
use crate::grammar::{OpenGrammar, open_grammar};
use abnfrun::{AbnfSettings, Alphabet};
use rulelines::{Alone, Comparison, compare};
use ruletable::Memory;
use std::alloc::Global;
use toolrun::Status;

/// What is found of two grammars, and the status of the call.
#[derive(Drop)]
pub(crate) struct FoundAlone {
    /// What is known of the lines that each rule alone derives.
    found: Comparison,
    /// The status.
    status: Status,
}

/// The report on two grammars.
#[derive(Drop)]
pub(crate) struct CompareReport {
    /// The messages on both grammars, the old one's first.
    pub(crate) reported: Vec<u8>,
    /// How long those on the old grammar are.
    pub(crate) old_err_len: usize,
    /// What is known of the lines that the old rule alone derives.
    pub(crate) old_alone: AloneLine,
    /// What is known of the lines that the new rule alone derives.
    pub(crate) new_alone: AloneLine,
    /// The status.
    pub(crate) status: Status,
}

/// Returns the status of a comparison: `Done` if both rules derive the same lines, `NoMatch` if one derives a line
/// that the other does not, and `Overlong`, whose code is 3, if neither is known.
fn status_of(found: &Comparison) -> Status
    ensures { result ≡ found_status found.now.old_alone found.now.new_alone }
{
    match &found.old_alone {
        Alone::First(_) => Status::NoMatch,
        Alone::Never => match &found.new_alone {
            Alone::First(_) => Status::NoMatch,
            Alone::Never => Status::Done,
            _ => Status::Overlong,
        },
        _ => match &found.new_alone {
            Alone::First(_) => Status::NoMatch,
            _ => Status::Overlong,
        },
    }
}

/// Returns what is found where a grammar is rejected: nothing.
fn nothing_found() -> FoundAlone
    ensures old { result.found.old_alone ≡ Alone.Unknown }
    ensures new { result.found.new_alone ≡ Alone.Unknown }
    ensures status { result.status ≡ Status.Refused }
{
    FoundAlone {
        found: Comparison {
            old_alone: Alone::Unknown,
            new_alone: Alone::Unknown,
        },
        status: Status::Refused,
    }
}

/// Compares the judged rules of two grammars, unless one is rejected. Returns `Memory` if an allocation fails.
fn found_between(
    alloc: Global,
    letters: Alphabet,
    budget: usize,
    old: &OpenGrammar,
    new: &OpenGrammar,
) -> Result<FoundAlone, Memory>
    ensures { IfOk result (λ f. AreFoundBetween letters old.now.grammar new.now.grammar f.found f.status) }
{
    match &old.grammar {
        Some(before) => match &new.grammar {
            Some(after) => {
                let found = compare(alloc, letters, before, after, budget)?;
                let status = status_of(&found);
                Ok(FoundAlone { found, status })
            }
            None => Ok(nothing_found()),
        },
        None => Ok(nothing_found()),
    }
}

/// Reports on two grammars. Returns `Memory` if an allocation fails.
fn report_on(
    alloc: Global,
    letters: Alphabet,
    old: &[u8],
    new: &[u8],
    lines: &FoundAlone,
) -> Result<CompareReport, Memory>
    ensures { IfOk result (IsReportOf letters old.now new.now lines.now.found lines.now.status) }
{
    let mut reported = Vec::from_slice(alloc, old)?;
    reported.extend_from_slice(new)?;
    let old_alone = line_of(alloc, letters, &lines.found.old_alone)?;
    let new_alone = line_of(alloc, letters, &lines.found.new_alone)?;
    Ok(CompareReport {
        reported,
        old_err_len: old.len(),
        old_alone,
        new_alone,
        status: lines.status,
    })
}

/// Opens two grammars' texts, each as its settings ask, and compares the grammars, unless one is rejected. The letters
/// are those of the old settings. A search goes over at most `budget` pairs of states. Returns `Memory` if an
/// allocation fails.
pub(crate) fn compare_texts(
    alloc: Global,
    budget: usize,
    old: &[u8],
    old_settings: &AbnfSettings<'_>,
    new: &[u8],
    new_settings: &AbnfSettings<'_>,
) -> Result<CompareReport, Memory>
    ensures { IfOk result (AreTextsCompared old.now old_settings.now new.now new_settings.now) }
{
    let letters = old_settings.options.letters;
    let old = open_grammar(alloc, old, old_settings)?;
    let new = open_grammar(alloc, new, new_settings)?;
    let lines = found_between(alloc, letters, budget, &old, &new)?;
    report_on(
        alloc,
        letters,
        old.reported.as_slice(),
        new.reported.as_slice(),
        &lines,
    )
}

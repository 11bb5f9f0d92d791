//! The reports on texts.
ghost use Rattle.std.specs.Prelude.{◌≡◌, ◌++◌, List, ℕ, IfOk, OnOk};
ghost use Rattle.abnftexts.specs.JoinedViews.{grammar_joined};
ghost use Rattle.abnftexts.specs.RuleReports.{AreReports, ExplainsIfAsked, ExplainsText};
ghost use Rattle.abnftexts.specs.RulesGathered.{reported_rule};

use abnfexplain::explain_abnf_fault;
use abnfread::read_definitions;
use abnftexts::{JoinedTexts, RuleReport};
use ruletable::{Memory, ReadFault};
use std::alloc::Global;

// Returns the lines that explain why a text is no ABNF; none if it is.
fn explained(alloc: Global, text: &[u8]) -> Result<Vec<u8>, Memory>
    ensures { IfOk result (λ why. ExplainsText text.now why.items) }
{
    match read_definitions(alloc, text) {
        Ok(_) => Ok(Vec::new(alloc)),
        Err(ReadFault::Memory) => Err(Memory),
        Err(fault) => explain_abnf_fault(alloc, text, fault),
    }
}

// Returns what explains the lines of a report, where that is asked for.
fn explained_if(alloc: Global, explains: bool, report: &RuleReport) -> Result<Vec<u8>, Memory>
    ensures { IfOk result (λ why. ExplainsIfAsked explains (reported_rule report.now).lines why.items) }
{
    if !explains {
        return Ok(Vec::new(alloc));
    }
    match &report.lines {
        Some(lines) => explained(alloc, lines),
        None => Ok(Vec::new(alloc)),
    }
}

// Adds the message of a report, and what explains it, where that is asked for.
fn push_report(
    alloc: Global,
    out: &mut Vec<u8>,
    report: &RuleReport,
    explains: bool,
) -> Result<(), Memory>
    ensures { OnOk result ((why : List ℕ) × ExplainsIfAsked explains (reported_rule report.now).lines why
        × (out.new.items ≡ out.old.items ++ ((reported_rule report.now).message ++ why))) }
{
    let why = explained_if(alloc, explains, report)?;
    out.extend_from_slice(&report.message)?;
    out.extend_from_slice(&why)?;
    Ok(())
}

/// Returns the reports on joined texts: first those of rules that are no ABNF, each with what explains it, where that
/// is asked for.
///
/// # Errors
/// `Memory` if an allocation fails.
pub(crate) fn reported_text(
    alloc: Global,
    joined: &JoinedTexts,
    explains: bool,
) -> Result<Vec<u8>, Memory>
    ensures { IfOk result (λ text. (reports : List ℕ)
        × AreReports explains (grammar_joined joined.now).reports reports
        × (text.items ≡ reports ++ (grammar_joined joined.now).reported)) }
{
    let mut out = Vec::new(alloc);
    for report in &joined.reports {
        push_report(alloc, &mut out, report, explains)?;
    }
    out.extend_from_slice(&joined.reported)?;
    Ok(out)
}

//! Faults of a grammar's text, as findings.
ghost use Rattle.std.specs.Prelude.{◌≡◌, ◌++◌, OnOk, codes, map, option_map};
ghost use Rattle.findings.specs.FaultFindings.{code_of_fault, column_of_fault, end_words, fault_at, fault_finding};
ghost use Rattle.findings.specs.FaultFindings.{fault_of_head, pictured, words_of_fault};
ghost use Rattle.findings.specs.NoteFindings.{grammar_at, with_more};

use crate::finding::{Code, Finding, Location, Severity, Wording};
use crate::form::push_finding;
use crate::lines::numbered_line;
use crate::notes::GrammarText;
use crate::numbers::{LeadingNumber, reported_after};
use crate::words::text_column;
use ruletable::Memory;
use std::alloc::Global;

/// A fault of a grammar's text.
#[derive(Clone, Copy)]
pub(crate) struct Fault<'a> {
    /// The line.
    line: usize,
    /// What is wrong there.
    what: &'a [u8],
    /// What it is about.
    code: Code,
}

// Returns what a fault of that wording is about.
fn fault_code(what: &[u8]) -> Option<Code>
    ensures { result ≡ code_of_fault what.now }
{
    if what == b"syntax error".as_slice() {
        return Some(Code::Syntax);
    }
    if what == b"nested too deeply".as_slice() {
        return Some(Code::Nested);
    }
    if what == b"number too large".as_slice() {
        return Some(Code::Number);
    }
    if what == b"code predicate".as_slice() {
        return Some(Code::CodePredicate);
    }
    None
}

/// Returns the fault that a message reports, if it reports one.
pub(crate) fn fault_of(head: &[u8]) -> Option<Fault<'_>>
    ensures { option_map fault_at result ≡ fault_of_head head.entry.now }
{
    let report = reported_after(head, b"line ")?;
    let code = fault_code(report.rest)?;
    Some(Fault {
        line: report.number,
        what: report.rest,
        code,
    })
}

// Returns the column of a fault, and what can stand there, from the line below its picture.
fn pictured_column<'a>(more: &[&'a [u8]]) -> Option<LeadingNumber<'a>>
    ensures number { option_map (λ n. n.number) result
        ≡ option_map (λ n. n.number) (pictured (map (λ l. l.now) more.now)) }
    ensures report { option_map (λ n. n.rest.now) result
        ≡ option_map (λ n. n.report) (pictured (map (λ l. l.now) more.now)) }
{
    let line = more.get(2)?;
    reported_after(line, b"  column ")
}

// Returns what can stand at the end of the text, if the fault stands there.
fn words_at_end<'a>(more: &[&'a [u8]]) -> Option<&'a [u8]>
    ensures { option_map (λ b. b.now) result ≡ end_words (map (λ l. l.now) more.now) }
{
    let line = more.first()?;
    let words = line.strip_prefix(b"  ")?;
    if words.starts_with(b"at the end of the text: ") {
        return Some(words);
    }
    None
}

// Returns the column of a fault in the line of that number: the reported one, or that of the first byte that is no
// blank.
fn fault_column(
    grammar: &GrammarText<'_, '_>,
    line: usize,
    report: Option<LeadingNumber<'_>>,
) -> usize
    ensures { result ≡ column_of_fault (grammar_at grammar.now) line (option_map (λ n. n.number) report.entry) }
{
    match report {
        Some(report) => report.number,
        None => text_column(numbered_line(grammar.lines, line)),
    }
}

// Returns the message of a fault, with what can stand there.
fn fault_wording<'a>(
    what: &'a [u8],
    report: Option<LeadingNumber<'a>>,
    at_end: Option<&'a [u8]>,
) -> Wording<'a>
    ensures { result.what.now ++ (result.mark.now ++ result.more.now) ≡ with_more what.entry.now (codes ": ")
        (words_of_fault (option_map (λ n. n.rest.now) report.entry) (option_map (λ b. b.now) at_end.entry)) }
{
    let (mark, more): (&[u8], &[u8]) = match report {
        Some(report) => (b": ", report.rest),
        None => match at_end {
            Some(words) => (b": ", words),
            None => (b"", b""),
        },
    };
    Wording { what, mark, more }
}

/// Adds the finding of a fault.
pub(crate) fn push_fault<'a>(
    alloc: Global,
    out: &mut Vec<u8>,
    grammar: &GrammarText<'_, '_>,
    fault: Fault<'a>,
    more: &[&'a [u8]],
) -> Result<(), Memory>
    ensures { OnOk result (out.new.items ≡ out.old.items ++ fault_finding (grammar_at grammar.now)
        (fault_at fault.entry) (map (λ l. l.now) more.now)) }
{
    let report = pictured_column(more);
    let at_end = words_at_end(more);
    let location = Location {
        line: fault.line,
        column: fault_column(grammar, fault.line, report),
    };
    let found = Finding {
        location,
        severity: Severity::Error,
        code: fault.code,
        message: fault_wording(fault.what, report, at_end),
    };
    push_finding(alloc, out, grammar.form, grammar.file, found, &[])
}

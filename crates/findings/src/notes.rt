//! Messages on a grammar that reads, as findings.
ghost use Rattle.std.specs.Prelude.{◌≡◌, ◌++◌, IfOk, OnOk, map, option_map};
ghost use Rattle.findings.specs.Findings.{further_at};
ghost use Rattle.findings.specs.NoteFindings.{all_further as the_further, further_in, grammar_at};
ghost use Rattle.findings.specs.NoteFindings.{is_reached as reaches};
ghost use Rattle.findings.specs.NoteFindings.{location_reported, note_finding};
ghost use Rattle.findings.specs.NoteFindings.{severity_of as the_severity, wording};

use crate::finding::{Code, Finding, FurtherPosition, Location, NOWHERE, Severity, Wording};
use crate::form::{FindingForm, push_finding};
use crate::lines::location_of;
use crate::numbers::{LeadingNumber, quoted, reported_after};
use crate::related::{chain_of, first_reported_line};
use crate::sorts::{Rank, Sort};
use ruletable::{Memory, NameCase};
use std::alloc::Global;

/// A grammar's text.
#[derive(Clone, Copy)]
pub(crate) struct GrammarText<'a, 'b> {
    /// The form of findings in it.
    pub(crate) form: FindingForm,
    /// The name of its file.
    pub(crate) file: &'a str,
    /// Its lines.
    pub(crate) lines: &'b [&'a [u8]],
    /// How names compare.
    pub(crate) names: NameCase,
    /// The name of the judged rule, if only what that reaches rejects the grammar.
    pub(crate) judged: Option<&'a [u8]>,
}

// Returns whether the rule of that name counts as reached, by the chain to it if there is one.
fn is_reached(judged: Option<&[u8]>, name: &[u8], chain: Option<&[u8]>) -> bool
    ensures { result ≡ reaches (option_map (λ b. b.now) judged.entry) name.now (option_map (λ b. b.now) chain.entry) }
{
    match judged {
        None => true,
        Some(judged) => chain.is_some() || judged.eq_ignore_ascii_case(name),
    }
}

// Returns how grave a message of that rank is, on a rule that counts as reached or not.
fn severity_of(rank: Rank, is_reached: bool) -> Severity
    ensures { result ≡ the_severity rank is_reached }
{
    match rank {
        Rank::Rejects => Severity::Error,
        Rank::Warns => Severity::Warning,
        Rank::RejectsIfReached => {
            if is_reached {
                Severity::Error
            } else {
                Severity::Warning
            }
        }
    }
}

// Returns the position of a name in the line of a grammar that is reported.
fn reported_location(
    grammar: &GrammarText<'_, '_>,
    report: Option<LeadingNumber<'_>>,
    name: &[u8],
) -> Location
    ensures { result ≡ location_reported (grammar_at grammar.now) (option_map (λ n. n.number) report.entry) name.now }
{
    match report {
        Some(report) => location_of(grammar.names, grammar.lines, report.number, name),
        None => NOWHERE,
    }
}

// Returns the message of a finding: of a hint with what is reported of its line, of others with the chain to the rule.
fn wording_of<'a>(
    head: &'a [u8],
    code: Code,
    report: Option<LeadingNumber<'a>>,
    chain: Option<&'a [u8]>,
) -> Wording<'a>
    ensures { result.what.now ++ (result.mark.now ++ result.more.now) ≡ wording code head.entry.now
        (option_map (λ n. n.rest.now) report.entry) (option_map (λ b. b.now) chain.entry) }
{
    let (mark, more): (&[u8], &[u8]) = match code {
        Code::NeverTaken | Code::HeldDefinition | Code::NoBegin | Code::Reversed => match report {
            Some(report) => (b": ", report.rest),
            None => (b"", b""),
        },
        _ => match chain {
            Some(words) => (b", ", words),
            None => (b"", b""),
        },
    };
    Wording {
        what: head,
        mark,
        more,
    }
}

// Returns the further position of a name that an explaining line gives, if it gives another one.
fn further_of<'a>(
    grammar: &GrammarText<'_, '_>,
    name: &[u8],
    first: Location,
    line: &'a [u8],
) -> Option<FurtherPosition<'a>>
    ensures { option_map further_at result ≡ further_in (grammar_at grammar.now) name.now first line.entry.now }
{
    let report = reported_after(line, b"  line ")?;
    let location = location_of(grammar.names, grammar.lines, report.number, name);
    if location.line == first.line && location.column == first.column {
        return None;
    }
    Some(FurtherPosition {
        location,
        report: report.rest,
    })
}

// Returns the further positions of a name that explaining lines give.
fn all_further<'a>(
    alloc: Global,
    grammar: &GrammarText<'_, '_>,
    name: &[u8],
    first: Location,
    more: &[&'a [u8]],
) -> Result<Vec<FurtherPosition<'a>>, Memory>
    ensures { IfOk result (λ found. map further_at found.items
        ≡ the_further (grammar_at grammar.now) name.now first (map (λ l. l.now) more.now)) }
{
    let mut found = Vec::new(alloc);
    for line in more {
        if let Some(further) = further_of(grammar, name, first, line) {
            found.push(further)?;
        }
    }
    Ok(found)
}

/// Adds the finding of a message on a grammar that reads.
pub(crate) fn push_note<'a>(
    alloc: Global,
    out: &mut Vec<u8>,
    grammar: &GrammarText<'_, '_>,
    sort: Sort,
    head: &'a [u8],
    more: &[&'a [u8]],
) -> Result<(), Memory>
    ensures { OnOk result (out.new.items ≡ out.old.items ++ note_finding (grammar_at grammar.now) sort head.now
        (map (λ l. l.now) more.now)) }
{
    let name = quoted(head);
    let report = first_reported_line(more);
    let chain = chain_of(more);
    let location = reported_location(grammar, report, name);
    let further = all_further(alloc, grammar, name, location, more)?;
    let found = Finding {
        location,
        severity: severity_of(sort.rank, is_reached(grammar.judged, name, chain)),
        code: sort.code,
        message: wording_of(head, sort.code, report, chain),
    };
    push_finding(alloc, out, grammar.form, grammar.file, found, &further)
}

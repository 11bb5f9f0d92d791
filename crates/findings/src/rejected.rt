//! Messages on an input, as findings.
ghost use Rattle.std.specs.Prelude.{◌≡◌, ◌++◌, OnOk, option_map};
ghost use Rattle.findings.specs.InputFindings.{exceeds, plain_text, rejected_at, rejected_head, rejected_text};
ghost use Rattle.findings.specs.InputFindings.{rejection_after};

use crate::finding::{Code, Finding, Location, NOWHERE, Severity, Wording};
use crate::form::{FindingForm, push_finding};
use crate::numbers::{LeadingNumber, leading_number};
use ruletable::Memory;
use std::alloc::Global;

/// A line or a text that is rejected.
#[derive(Clone, Copy)]
pub(crate) struct Rejected<'a> {
    /// The position.
    pub(crate) location: Location,
    /// Why it is rejected.
    pub(crate) what: &'a [u8],
    /// What that is about.
    pub(crate) code: Code,
}

// Returns whether a message says that a line is too long, or needs too many items, after the line's number.
fn is_too_long(rest: &[u8]) -> bool
    ensures { result ≡ exceeds rest.now }
{
    rest.starts_with(b" longer than ") || rest.starts_with(b" needs more than ")
}

// Returns the rejection of the line of that number, which a message reports after the number.
fn rejected_line(numbered: LeadingNumber<'_>) -> Option<Rejected<'_>>
    ensures { option_map rejected_at result ≡ rejection_after numbered.entry.number numbered.entry.rest.now }
{
    let (column, code, what) = if let Some(after) = numbered.rest.strip_prefix(b", letter ") {
        let letter = leading_number(after);
        (
            letter.number,
            Code::Refused,
            letter.rest.strip_prefix(b": ")?,
        )
    } else if let Some(what) = numbered.rest.strip_prefix(b" ends too early: ") {
        (1, Code::Refused, what)
    } else if is_too_long(numbered.rest) {
        (1, Code::TooLong, numbered.rest.strip_prefix(b" ")?)
    } else {
        (1, Code::Refused, numbered.rest.strip_prefix(b": ")?)
    };
    let location = Location {
        line: numbered.number,
        column,
    };
    Some(Rejected {
        location,
        what,
        code,
    })
}

/// Returns the rejection that a message reports, if it reports one.
pub(crate) fn rejected_of(head: &[u8]) -> Option<Rejected<'_>>
    ensures { option_map rejected_at result ≡ rejected_head head.entry.now }
{
    if head == b"grammar too long".as_slice() {
        return Some(Rejected {
            location: NOWHERE,
            what: head,
            code: Code::TooLong,
        });
    }
    rejected_line(leading_number(head.strip_prefix(b"line ")?))
}

/// Adds the finding of a rejection.
pub(crate) fn push_rejected(
    alloc: Global,
    out: &mut Vec<u8>,
    form: FindingForm,
    file: &str,
    rejected: Rejected<'_>,
) -> Result<(), Memory>
    ensures { OnOk result (out.new.items ≡ out.old.items ++ rejected_text form file.now (rejected_at rejected.entry)) }
{
    let found = Finding {
        location: rejected.location,
        severity: Severity::Error,
        code: rejected.code,
        message: Wording::new(rejected.what),
    };
    push_finding(alloc, out, form, file, found, &[])
}

/// Adds a message that is no finding, after the name of the file.
pub(crate) fn push_plain(out: &mut Vec<u8>, file: &str, head: &[u8]) -> Result<(), Memory>
    ensures { OnOk result (out.new.items ≡ out.old.items ++ plain_text file.now head.now) }
{
    out.extend_from_slice(file.as_bytes())?;
    out.extend_from_slice(b": ")?;
    out.extend_from_slice(head)?;
    out.extend_from_slice(b"\n")?;
    Ok(())
}

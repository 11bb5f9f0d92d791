//! Units at which a run ends, and records that are rejected, as findings.
ghost use Rattle.std.specs.Prelude.{◌≡◌, map, option_map};
ghost use Rattle.findings.specs.InputFindings.{rejected_at};
ghost use Rattle.findings.specs.UnitFindings.{code_of_unit, first_location as the_first, location_begun};
ghost use Rattle.findings.specs.UnitFindings.{location_given, location_in as the_location, location_in_record};
ghost use Rattle.findings.specs.UnitFindings.{unit_of_head};

use crate::finding::{Code, Location, NOWHERE};
use crate::numbers::{LeadingNumber, leading_number};
use crate::rejected::Rejected;

// Returns the position of which the line begins the bytes, and the column follows it.
fn leading_location(bytes: &[u8]) -> Option<Location>
    ensures { result ≡ location_begun bytes.now }
{
    let line = leading_number(bytes);
    let column = line.rest.strip_prefix(b", column ")?;
    Some(Location {
        line: line.number,
        column: leading_number(column).number,
    })
}

// Returns the position that an explaining line gives: where a unit begins, or that of the farthest failure.
fn location_in(line: &[u8]) -> Option<Location>
    ensures { result ≡ the_location line.now }
{
    if let Some(begin) = line.strip_prefix(b"  the unit begins on line ") {
        return leading_location(begin);
    }
    let byte = leading_number(line.strip_prefix(b"  byte ")?);
    leading_location(byte.rest.strip_prefix(b", line ")?)
}

// Returns the first position that the lines give, or that of what has none.
fn first_location(more: &[&[u8]]) -> Location
    ensures { result ≡ location_given (the_first (map (λ l. l.now) more.now)) }
{
    for line in more {
        if let Some(location) = location_in(line) {
            return location;
        }
    }
    NOWHERE
}

// Returns what a message on a unit is about.
fn unit_code(head: &[u8]) -> Option<Code>
    ensures { result ≡ code_of_unit head.now }
{
    if head.starts_with(b"no match at byte ") {
        return Some(Code::NoMatch);
    }
    if head.starts_with(b"unit at byte ") {
        return Some(Code::TooLong);
    }
    None
}

// Returns the position of a rejection in the record of that number, which a message reports after the number. Only the
// lines of the first record are those of the input.
fn record_location(numbered: LeadingNumber<'_>) -> Location
    ensures { result ≡ location_in_record numbered.entry.number numbered.entry.rest.now }
{
    if numbered.number != 1 {
        return NOWHERE;
    }
    match numbered.rest.strip_prefix(b", line ") {
        Some(bytes) => leading_location(bytes).unwrap_or(NOWHERE),
        None => NOWHERE,
    }
}

/// Returns the unit at which a run ends, or the record that is rejected, if a message reports one.
pub(crate) fn unit_of<'a>(head: &'a [u8], more: &[&[u8]]) -> Option<Rejected<'a>>
    ensures { option_map rejected_at result ≡ unit_of_head head.entry.now (map (λ l. l.now) more.now) }
{
    if let Some(bytes) = head.strip_prefix(b"record ") {
        return Some(Rejected {
            location: record_location(leading_number(bytes)),
            what: head,
            code: Code::Refused,
        });
    }
    let code = unit_code(head)?;
    Some(Rejected {
        location: first_location(more),
        what: head,
        code,
    })
}

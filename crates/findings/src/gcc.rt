//! Findings in the form of gcc's diagnostics.
ghost use Rattle.std.specs.Prelude.{◌≡◌, ◌++◌, OnOk, flat_map, map};
ghost use Rattle.findings.specs.Findings.{finding_at, further_at};
ghost use Rattle.findings.specs.GccLines.{gcc_finding, gcc_further, gcc_line, location_text};

use crate::finding::{Code, Finding, FurtherPosition, Location, Severity, Wording};
use itoa::Buffer;
use ruletable::Memory;

/// Adds a file's name and a position in it, with a colon after each part.
fn push_location(out: &mut Vec<u8>, file: &str, location: Location) -> Result<(), Memory>
    ensures { OnOk result (out.new.items ≡ out.old.items ++ location_text file.now location) }
{
    let mut line = Buffer::new();
    let mut column = Buffer::new();
    out.extend_from_slice(file.as_bytes())?;
    out.push(b':')?;
    out.extend_from_slice(line.format(location.line).as_bytes())?;
    out.push(b':')?;
    out.extend_from_slice(column.format(location.column).as_bytes())?;
    out.extend_from_slice(b": ")?;
    Ok(())
}

// Adds the line of a finding, or of a further position of one: `FILE:LINE:COLUMN: SEVERITY: MESSAGE [CODE]`.
fn push_line(
    out: &mut Vec<u8>,
    file: &str,
    location: Location,
    severity: Severity,
    message: Wording<'_>,
    code: Code,
) -> Result<(), Memory>
    ensures { OnOk result (out.new.items ≡ out.old.items ++ gcc_line file.now location severity
        (message.entry.what.now ++ (message.entry.mark.now ++ message.entry.more.now)) code) }
{
    push_location(out, file, location)?;
    out.extend_from_slice(severity.name().as_bytes())?;
    out.extend_from_slice(b": ")?;
    message.push(out)?;
    out.extend_from_slice(b" [")?;
    out.extend_from_slice(code.name().as_bytes())?;
    out.extend_from_slice(b"]\n")?;
    Ok(())
}

// Adds the lines of the further positions of a finding.
fn push_further(
    out: &mut Vec<u8>,
    file: &str,
    code: Code,
    further: &[FurtherPosition<'_>],
) -> Result<(), Memory>
    ensures { OnOk result (out.new.items ≡ out.old.items
        ++ flat_map (gcc_further file.now code) (map further_at further.now)) }
{
    for one in further {
        let message = Wording::new(one.report);
        push_line(out, file, one.location, Severity::Note, message, code)?;
    }
    Ok(())
}

/// Adds the lines of a finding, and of its further positions.
pub(crate) fn push_gcc(
    out: &mut Vec<u8>,
    file: &str,
    found: Finding<'_>,
    further: &[FurtherPosition<'_>],
) -> Result<(), Memory>
    ensures { OnOk result (out.new.items ≡ out.old.items
        ++ gcc_finding file.now (finding_at found.entry) (map further_at further.now)) }
{
    push_line(
        out,
        file,
        found.location,
        found.severity,
        found.message,
        found.code,
    )?;
    push_further(out, file, found.code, further)
}

//! The forms of findings.
ghost use Rattle.std.specs.Prelude.{◌≡◌, ◌++◌, OnOk, map};
ghost use Rattle.findings.specs.FindingTexts.{finding_text};
ghost use Rattle.findings.specs.Findings.{finding_at, further_at};

use crate::finding::{Finding, FurtherPosition};
use crate::gcc::push_gcc;
use crate::json_lines::push_json;
use ruletable::Memory;
use std::alloc::Global;

/// The form of findings.
#[derive(Clone, Copy)]
pub enum FindingForm {
    /// The diagnostics of gcc.
    Gcc,
    /// JSON, an object a line.
    Json,
}

/// Adds a finding, with its further positions.
pub(crate) fn push_finding(
    alloc: Global,
    out: &mut Vec<u8>,
    form: FindingForm,
    file: &str,
    found: Finding<'_>,
    further: &[FurtherPosition<'_>],
) -> Result<(), Memory>
    ensures { OnOk result (out.new.items ≡ out.old.items
        ++ finding_text form file.now (finding_at found.entry) (map further_at further.now)) }
{
    match form {
        FindingForm::Gcc => push_gcc(out, file, found, further),
        FindingForm::Json => push_json(alloc, out, file, found, further),
    }
}

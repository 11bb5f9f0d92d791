//! The lines that report where a unit fails farthest.
ghost use Rattle.std.specs.Prelude.{◌≡◌, ℕ, ◌+◌, ◌^◌, ◌<◌, ◌≤◌, ◌++◌, List, length, OnOk, IfOk};
ghost use Rattle.std.specs.List.{flat_map};
ghost use Rattle.gramcheck.specs.Grammar.{IsNumbered};
ghost use Rattle.matchfailure.specs.VisitLists.{ListsVisit};
ghost use Rattle.matchfailure.specs.ReportOrder.{AreReported};
ghost use Rattle.matchfailure.specs.declared.farthest.visit.Visit.{Visit};
ghost use Rattle.pegnodes.specs.Nodes.{shapes_of};
ghost use Rattle.pegread.specs.PegViews.{rules_of};
ghost use Rattle.matchfailure.specs.FittingFailures.{AreFitting, IsFitting};
ghost use Rattle.matchfailure.specs.NoMatchLines.{begun_at, end_shown, expected_line, expected_lines};
ghost use Rattle.matchfailure.specs.NoMatchLines.{failing_picture, failing_position, failure_lines, more_expected};

use crate::explain::node_texts::{leaf_at, rule_name};
use crate::explain::order::in_report_order;
use crate::explain::position::TextPosition;
use crate::farthest::{Farthest, Visit};
use diagnostics::{line_around, push_cut, push_number, push_picture};
use gramcheck::SoundPeg;
use ruletable::{LineRule, Memory};
use std::alloc::Global;

/// How many of the expressions that were expected are reported.
pub const MAX_EXPECTED: usize = 16;

// Adds that no byte stands there, if so.
fn push_end(out: &mut Vec<u8>, is_end: bool) -> Result<(), Memory>
    ensures { OnOk result (out.new.items ≡ out.old.items ++ end_shown is_end) }
{
    if is_end {
        out.extend_from_slice(b", the end of the input")?;
    }
    Ok(())
}

// Adds the line of the position where a unit fails, which may be the input's end. The unit begins after `unit` bytes.
fn push_failing_position(
    out: &mut Vec<u8>,
    at: TextPosition,
    is_end: bool,
    unit: usize,
) -> Result<(), Memory>
    ensures { OnOk result (out.new.items ≡ out.old.items ++ failing_position at is_end unit) }
{
    out.extend_from_slice(b"  byte ")?;
    push_number(out, at.byte)?;
    out.extend_from_slice(b", line ")?;
    push_number(out, at.line)?;
    out.extend_from_slice(b", column ")?;
    push_number(out, at.column)?;
    push_end(out, is_end)?;
    out.extend_from_slice(b", in the unit at byte ")?;
    push_number(out, unit)?;
    out.extend_from_slice(b"\n")?;
    Ok(())
}

// Adds the line of that byte of a text, with a caret below the byte, unless the line is empty.
fn push_failing_picture(out: &mut Vec<u8>, text: &[u8], position: usize) -> Result<(), Memory>
    requires { position ≤ length text.now }
    ensures { OnOk result (out.new.items ≡ out.old.items ++ failing_picture text.now position) }
{
    let around = line_around(text, position, LineRule::Lf);
    if around.line.is_empty() {
        return Ok(());
    }
    push_picture(out, around)
}

/// Adds where an expression begins, unless it begins where it fails.
///
/// # Errors
/// `Memory` if an allocation fails.
pub(crate) fn push_begun(
    out: &mut Vec<u8>,
    unit: usize,
    position: usize,
    begin: usize,
) -> Result<(), Memory>
    requires { unit + begin < 2 ^ 63 }
    ensures { OnOk result (out.new.items ≡ out.old.items ++ begun_at unit position begin) }
{
    if begin != position {
        out.extend_from_slice(b" from byte ")?;
        push_number(out, unit + begin)?;
    }
    Ok(())
}

// Adds the line of an expression that was expected.
fn push_expected_line(
    alloc: Global,
    out: &mut Vec<u8>,
    peg: &SoundPeg,
    unit: usize,
    position: usize,
    visit: Visit,
) -> Result<(), Memory>
    requires numbered { IsNumbered peg.now }
    requires node { visit.node < length peg.now.nodes }
    requires begin { unit + visit.position < 2 ^ 63 }
    ensures { OnOk result (out.new.items ≡ out.old.items
        ++ expected_line (rules_of peg.now.rules) (shapes_of peg.now.nodes) peg.now.bodies unit position visit) }
{
    let leaf = leaf_at(alloc, peg, visit.node)?;
    out.extend_from_slice(b"  expected ")?;
    push_cut(out, leaf.as_slice())?;
    push_begun(out, unit, position, visit.position)?;
    out.extend_from_slice(b" in ")?;
    push_cut(out, rule_name(peg, visit.node))?;
    out.extend_from_slice(b"\n")?;
    Ok(())
}

// Adds a line of each of the expressions.
fn push_each(
    alloc: Global,
    out: &mut Vec<u8>,
    peg: &SoundPeg,
    unit: usize,
    position: usize,
    reported: &[Visit],
) -> Result<(), Memory>
    requires numbered { IsNumbered peg.now }
    requires fitting { AreFitting (length peg.now.nodes) unit reported.now }
    ensures { OnOk result (out.new.items ≡ out.old.items ++ flat_map (expected_line (rules_of peg.now.rules)
        (shapes_of peg.now.nodes) peg.now.bodies unit position) reported.now) }
{
    for visit in reported {
        push_expected_line(alloc, out, peg, unit, position, *visit)?;
    }
    Ok(())
}

// Adds how many more are expected, if any are.
fn push_more(out: &mut Vec<u8>, count: usize) -> Result<(), Memory>
    ensures { OnOk result (out.new.items ≡ out.old.items ++ more_expected count) }
{
    if count > 0 {
        out.extend_from_slice(b"  and ")?;
        push_number(out, count)?;
        out.extend_from_slice(b" more\n")?;
    }
    Ok(())
}

// Adds a line of each of the first expressions, and how many more there are.
fn push_expected(
    alloc: Global,
    out: &mut Vec<u8>,
    peg: &SoundPeg,
    unit: usize,
    position: usize,
    reported: &[Visit],
) -> Result<(), Memory>
    requires numbered { IsNumbered peg.now }
    requires fitting { AreFitting (length peg.now.nodes) unit reported.now }
    ensures { OnOk result (out.new.items ≡ out.old.items ++ expected_lines (rules_of peg.now.rules)
        (shapes_of peg.now.nodes) peg.now.bodies unit position reported.now) }
{
    let shown = reported.len().min(MAX_EXPECTED);
    push_each(alloc, out, peg, unit, position, &reported[..shown])?;
    push_more(out, reported.len() - shown)?;
    Ok(())
}

/// Returns the lines of the farthest failure of a unit that begins after `unit` bytes. They report the position of the
/// failing byte in the input, a picture of its line, as far as the unit is seen, and the expressions expected there.
///
/// # Errors
/// `Memory` if an allocation fails.
pub(crate) fn lines_of_farthest(
    alloc: Global,
    peg: &SoundPeg,
    seen: &[u8],
    at: TextPosition,
    unit: usize,
    farthest: &Farthest,
) -> Result<Vec<u8>, Memory>
    requires { IsFitting (length peg.now.nodes) (length seen.now) unit farthest.now }
    ensures { IfOk result (λ why. (reported : List Visit) × AreReported (rules_of peg.now.rules) peg.now.start
        (shapes_of peg.now.nodes) peg.now.bodies unit farthest.now.position farthest.now.expected.items reported
        × (why.items ≡ failure_lines (rules_of peg.now.rules) (shapes_of peg.now.nodes) peg.now.bodies seen.now at unit
        farthest.now.position reported)) }
{
    let position = farthest.position;
    let reported = in_report_order(alloc, peg, unit, farthest)?;
    let mut out = Vec::new(alloc);
    push_failing_position(&mut out, at, position == seen.len(), unit)?;
    push_failing_picture(&mut out, seen, position)?;
    push_expected(alloc, &mut out, peg, unit, position, &reported)?;
    Ok(out)
}

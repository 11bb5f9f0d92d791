//! Explains why no unit goes on.
ghost use Rattle.std.specs.Prelude.{◌≡◌, ℕ, ◌+◌, ◌^◌, ◌<◌, ◌≤◌, ◌++◌, List, length, drop, min, IfOk, IfSome, OnOk};
ghost use Rattle.gramcheck.specs.Grammar.{IsNumbered};
ghost use Rattle.pegnodes.specs.Nodes.{shapes_of};
ghost use Rattle.pegread.specs.PegViews.{rules_of};
ghost use Rattle.matchfailure.specs.FailureSearches.{evaluated_by, most_evaluated};
ghost use Rattle.matchfailure.specs.FittingFailures.{IsFitting};
ghost use Rattle.matchfailure.specs.FoundFailures.{IsFound, IsFoundBefore, failure_found};
ghost use Rattle.gramcheck.specs.Outcome.{Event};
ghost use Rattle.matchfailure.specs.NodeTexts.{name_of_rule};
ghost use Rattle.matchfailure.specs.NoMatchLines.{long_unit_lines, no_byte_taken, opening};
ghost use Rattle.matchfailure.specs.NoMatches.{AreReportedOf, IsNoMatchReported, failing_byte, lines_of_failure};
ghost use Rattle.matchfailure.specs.NoMatches.{unit_before};
ghost use Rattle.matchfailure.specs.declared.farthest.visit.Visit.{Visit};
ghost use Rattle.matchfailure.specs.InputPositions.{position_after};
ghost use Rattle.matchfailure.specs.UnitEnds.{EndsSo, outcome_at, takes_no_byte};

use crate::explain::lines::lines_of_farthest;
use crate::explain::position::TextPosition;
use crate::farthest::{
    Farthest, LastUnit, UnitSearch, farthest_failure, farthest_is_within, reported_unit,
};
use diagnostics::{push_cut, push_number};
use gramcheck::SoundPeg;
use ruletable::Memory;
use std::alloc::Global;

/// Returns the lines of what was found of a unit, none if no comparison fails. `seen` stands at `at`; the unit begins
/// `offset` bytes after that.
fn lines_of_found(
    alloc: Global,
    peg: &SoundPeg,
    seen: &[u8],
    at: TextPosition,
    offset: usize,
    found: &Option<Farthest>,
) -> Result<Vec<u8>, Memory>
    requires offset { offset ≤ length seen.now }
    requires stands { (front : List ℕ) × (at ≡ position_after front) × (length front + length seen.now < 2 ^ 63) }
    requires fitting { IfSome found.now (IsFitting (length peg.now.nodes) (length (drop offset seen.now))
        (at.byte + offset)) }
    ensures { IfOk result (λ why. (reported : List Visit)
        × AreReportedOf (rules_of peg.now.rules) peg.now.start (shapes_of peg.now.nodes) peg.now.bodies
        (failure_found (at.byte + offset) found.now) reported
        × ((front : List ℕ) → at ≡ position_after front → why.items ≡ lines_of_failure (rules_of peg.now.rules)
        (shapes_of peg.now.nodes) peg.now.bodies (front ++ seen.now) (failure_found (at.byte + offset) found.now)
        reported)) }
{
    match found {
        Some(farthest) => {
            let unit = at.byte + offset;
            let position = at.after(&seen[..offset + farthest.position]);
            lines_of_farthest(alloc, peg, &seen[offset..], position, unit, farthest)
        }
        None => Ok(Vec::new(alloc)),
    }
}

/// Returns the failing byte in the input, where the unit begins after so many bytes.
fn byte_of(found: &Option<Farthest>, unit: usize) -> Option<u128>
    requires { IfSome found.now (λ far. unit + far.position < 2 ^ 63) }
    ensures { result ≡ failing_byte (failure_found unit found.now) }
{
    match found {
        Some(farthest) => Some((unit + farthest.position) as u128),
        None => None,
    }
}

// Returns whether the start rule succeeds, but takes no byte.
fn is_stuck(end: Option<usize>) -> bool
    ensures { (events : List Event) → result ≡ takes_no_byte (outcome_at end events) }
{
    match end {
        Some(end) => end == 0,
        None => false,
    }
}

// Adds that the unit took no byte, where the start rule has this name.
fn push_no_byte(out: &mut Vec<u8>, name: &[u8]) -> Result<(), Memory>
    ensures { OnOk result (out.new.items ≡ out.old.items ++ no_byte_taken name.now) }
{
    out.extend_from_slice(b"  rule '")?;
    push_cut(out, name)?;
    out.extend_from_slice(b"' matched and took no byte\n")?;
    Ok(())
}

// Adds the first line: that the last unit took no byte, or that no comparison failed if there are no lines of a
// failure.
fn push_opening(
    out: &mut Vec<u8>,
    peg: &SoundPeg,
    is_stuck: bool,
    lines: &[u8],
) -> Result<(), Memory>
    ensures { OnOk result (out.new.items ≡ out.old.items
        ++ opening is_stuck (name_of_rule (rules_of peg.now.rules) peg.now.start) lines.now) }
{
    if is_stuck {
        return push_no_byte(out, peg.rules().name(peg.start()));
    }
    if lines.is_empty() {
        out.extend_from_slice(b"  no comparison failed outside of \"!\"\n")?;
    }
    Ok(())
}

// Returns the lines of a failure after their first line.
fn opened(alloc: Global, peg: &SoundPeg, is_stuck: bool, lines: &[u8]) -> Result<Vec<u8>, Memory>
    ensures { IfOk result (λ why. why.items ≡ opening is_stuck
        (name_of_rule (rules_of peg.now.rules) peg.now.start) lines.now ++ lines.now) }
{
    let mut out = Vec::new(alloc);
    push_opening(&mut out, peg, is_stuck, lines)?;
    out.extend_from_slice(lines)?;
    Ok(out)
}

/// A search for the farthest failures of units. It evaluates a unit anew, and holds the count alone, so that contracts
/// bound how many units are evaluated for an explanation.
#[derive(Drop)]
pub struct FailureSearch {
    /// How many units it evaluated.
    evaluated: u128,
}

impl FailureSearch {
    /// Returns a search that evaluated no unit yet.
    pub fn new() -> FailureSearch
        ensures { evaluated_by result ≡ 0 }
    {
        FailureSearch { evaluated: 0 }
    }

    /// Returns where a unit ends and where it fails farthest. `seen` holds what is seen of the unit.
    ///
    /// # Errors
    /// `Memory` if an allocation fails.
    fn failure_in(
        &mut self,
        alloc: Global,
        peg: &SoundPeg,
        seen: &[u8],
    ) -> Result<UnitSearch, Memory>
        ensures found { IfOk result (λ search. IsFound (rules_of peg.now.rules) peg.now.start
            (shapes_of peg.now.nodes) peg.now.bodies seen.now search.farthest) }
        ensures fitting { IfOk result (λ search. (unit : ℕ) → unit + length seen.now < 2 ^ 63 →
            IfSome search.farthest (IsFitting (length peg.now.nodes) (length seen.now) unit)) }
        ensures end { IfOk result (λ search. EndsSo (rules_of peg.now.rules) peg.now.start seen.now search.end) }
        ensures numbered { IsNumbered peg.now }
        ensures once { evaluated_by self.new ≡ min (evaluated_by self.old + 1) most_evaluated }
    {
        farthest_is_within();
        self.evaluated = self.evaluated.saturating_add(1);
        farthest_failure(alloc, peg, seen)
    }

    /// Returns where the unit before the last one fails farthest, if the last one begins `last` bytes after it; nothing
    /// if `last` is 0.
    ///
    /// # Errors
    /// `Memory` if an allocation fails.
    fn failure_before(
        &mut self,
        alloc: Global,
        peg: &SoundPeg,
        seen: &[u8],
        last: usize,
    ) -> Result<Option<Farthest>, Memory>
        ensures found { IfOk result (IsFoundBefore (rules_of peg.now.rules) peg.now.start (shapes_of peg.now.nodes)
            peg.now.bodies seen.now last) }
        ensures fitting { IfOk result (λ found. (unit : ℕ) → unit + length seen.now < 2 ^ 63 →
            IfSome found (IsFitting (length peg.now.nodes) (length seen.now) unit)) }
        ensures once { evaluated_by self.new ≤ evaluated_by self.old + 1 }
    {
        if last == 0 {
            return Ok(None);
        }
        Ok(self.failure_in(alloc, peg, seen)?.farthest)
    }

    /// Returns the lines that explain why no unit follows the last one. They report where that unit, or the one before
    /// it, fails farthest: the byte, the line and the column of the input, and a picture. Then they list the
    /// expressions that were expected there, each with its rule. Before them they say if the last unit matches and
    /// takes no byte.
    ///
    /// `seen` holds all that is taken of the input from the front of the unit before on, which stands at `at`. The last
    /// unit begins `last` bytes after that. If there is no unit before, `last` is 0.
    ///
    /// It evaluates the start rule anew, once for each of both units.
    ///
    /// # Errors
    /// `Memory` if an allocation fails.
    pub fn explain_no_match(
        &mut self,
        alloc: Global,
        peg: &SoundPeg,
        seen: &[u8],
        last: usize,
        at: TextPosition,
    ) -> Result<Vec<u8>, Memory>
        requires last { last ≤ length seen.now }
        requires stands { (front : List ℕ) × (at ≡ position_after front) × (length front + length seen.now < 2 ^ 63) }
        ensures lines { IfOk result (λ why. (front : List ℕ) → at ≡ position_after front → IsNoMatchReported
            (rules_of peg.now.rules) peg.now.start (front ++ seen.now) (unit_before at.byte last) (at.byte + last)
            why.items) }
        ensures twice { evaluated_by self.new ≤ evaluated_by self.old + 2 }
    {
        let before = self.failure_before(alloc, peg, seen, last)?;
        let latest = self.failure_in(alloc, peg, &seen[last..])?;
        let stuck = is_stuck(latest.end);
        let failing = byte_of(&latest.farthest, at.byte + last);
        match reported_unit(byte_of(&before, at.byte), failing) {
            LastUnit::Before => {
                let lines = lines_of_found(alloc, peg, seen, at, 0, &before)?;
                opened(alloc, peg, stuck, &lines)
            }
            LastUnit::Last => {
                let lines = lines_of_found(alloc, peg, seen, at, last, &latest.farthest)?;
                opened(alloc, peg, stuck, &lines)
            }
        }
    }
}

/// Returns the lines that explain that a unit would look at more bytes than the limit: where it begins, and up to which
/// limit one can go.
///
/// # Errors
/// `Memory` if an allocation fails.
pub fn explain_long_unit(alloc: Global, at: TextPosition) -> Result<Vec<u8>, Memory>
    ensures { IfOk result (λ why. why.items ≡ long_unit_lines at) }
{
    let mut out = Vec::new(alloc);
    out.extend_from_slice(b"  the unit begins on line ")?;
    push_number(&mut out, at.line)?;
    out.extend_from_slice(b", column ")?;
    push_number(&mut out, at.column)?;
    out.extend_from_slice(b"\n  -l allows at most 16777216\n")?;
    Ok(out)
}

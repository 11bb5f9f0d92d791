//! The longest cut of a rule that is ABNF.
ghost use Rattle.std.specs.Prelude.{◌≡◌, ◌<◌, ◌≤◌, false, length, map, IfOk};
ghost use Rattle.abnfblocks.specs.TextLines.{numbered};
ghost use Rattle.abnfblocks.specs.RuleCuts.{cut_text, margin_at};
ghost use Rattle.abnfblocks.specs.RuleEnds.{IsCutLimit, line_bound};
ghost use Rattle.abnfblocks.specs.FoundRules.{IsAbnf, IsFoundOf, IsShorter};

use crate::ends::may_end;
use crate::found::RuleSearch;
use crate::reading::fault_of;
use crate::rfctext::TextLine;
use crate::rule::{full_size, is_cut};
use crate::rule_line::margin;
use abnfread::one_reading;
use ruletable::{Memory, ReadFault};
use std::alloc::Global;

// Returns the line of the fault of so many lines of a rule, or how many there are. No cut that has this line reads.
fn fault_line(fault: ReadFault, size: usize) -> usize
    ensures { result ≡ line_bound fault size }
{
    match fault {
        ReadFault::Syntax { line }
        | ReadFault::Depth { line }
        | ReadFault::NumberTooLarge { line } => line.min(size),
        _ => size,
    }
}

// Returns `None` if so many lines of a rule are a cut, and read as ABNF without that margin; or else a limit: no cut
// from there up to this one reads. The lines do not read where the test of their tokens is false.
fn cut_limit(
    alloc: Global,
    margin_size: usize,
    rule: &[TextLine<'_>],
    size: usize,
    may_end_there: bool,
) -> Result<Option<usize>, Memory>
    requires some { 0 < size }
    requires within { size ≤ length rule.now }
    requires margin { margin_size ≡ margin_at (map numbered rule.now) }
    requires bar { may_end_there ≡ false → IsAbnf (cut_text (map numbered rule.now) size) → ⊥ }
    ensures { IfOk result (λ limit. IsCutLimit (map numbered rule.now) size limit) }
{
    if !may_end_there {
        return Ok(Some(size));
    }
    if !is_cut(rule, size) {
        return Ok(Some(size));
    }
    one_reading();
    match fault_of(alloc, margin_size, &rule[..size])? {
        None => Ok(None),
        Some(fault) => Ok(Some(fault_line(fault, size))),
    }
}

// Returns the size of the longest cut of less than so many lines that reads, or 0.
fn shorter_cut(
    alloc: Global,
    margin_size: usize,
    rule: &[TextLine<'_>],
    limit: usize,
) -> Result<usize, Memory>
    requires within { limit ≤ length rule.now }
    requires margin { margin_size ≡ margin_at (map numbered rule.now) }
    ensures { IfOk result (λ size. IsShorter (map numbered rule.now) limit size) }
{
    let tests = may_end(alloc, margin_size, &rule[..limit.saturating_sub(1)])?;
    let mut size = tests.len();
    while size > 0 {
        match cut_limit(alloc, margin_size, rule, size, tests[size - 1])? {
            None => return Ok(size),
            Some(lower) => size = lower.saturating_sub(1),
        }
    }
    Ok(0)
}

/// Finds the longest cut of a rule that is ABNF, by the rule's lines. The first of them has the number `first`.
///
/// # Errors
/// `Memory` if an allocation fails.
pub(crate) fn look_at(
    alloc: Global,
    first: usize,
    rule: &[TextLine<'_>],
) -> Result<RuleSearch, Memory>
    requires { 0 < length rule.now }
    ensures { IfOk result (λ found. IsFoundOf first (map numbered rule.now) found) }
{
    one_reading();
    let margin_size = margin(rule[0].bytes);
    let longest = full_size(rule);
    let outcome = fault_of(alloc, margin_size, &rule[..longest])?;
    match outcome {
        None => Ok(RuleSearch::Rule {
            first,
            count: longest,
        }),
        Some(fault) => {
            let limit = fault_line(fault, longest);
            let count = shorter_cut(alloc, margin_size, rule, limit)?;
            if count > 0 {
                return Ok(RuleSearch::Rule { first, count });
            }
            Ok(RuleSearch::NotAbnf {
                first,
                count: longest,
                fault,
            })
        }
    }
}

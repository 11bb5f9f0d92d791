//! Readings of the lines of a rule.
ghost use Rattle.std.specs.Prelude.{map, IfOk};
ghost use Rattle.abnfblocks.specs.TextLines.{numbered};
ghost use Rattle.abnfblocks.specs.RuleCuts.{lines_text};
ghost use Rattle.abnfblocks.specs.FoundRules.{IsOutcome};

use crate::rfctext::TextLine;
use crate::rule::joined_text;
use abnfread::read_definitions;
use ruletable::{Memory, ReadFault};
use std::alloc::Global;

/// Reads the lines as ABNF, without that margin, and returns their fault, if they have one.
///
/// # Errors
/// `Memory` if an allocation fails.
pub(crate) fn fault_of(
    alloc: Global,
    margin_size: usize,
    lines: &[TextLine<'_>],
) -> Result<Option<ReadFault>, Memory>
    ensures { IfOk result (λ r. IsOutcome (lines_text margin_size (map numbered lines.now)) r) }
{
    let text = joined_text(alloc, margin_size, lines)?;
    match read_definitions(alloc, &text) {
        Ok(_) => Ok(None),
        Err(ReadFault::Memory) => Err(Memory),
        Err(fault) => Ok(Some(fault)),
    }
}

//! The rule that a text spells.
ghost use Rattle.std.specs.Prelude.{◌≡◌, map, option_map, IfOk};
ghost use Rattle.abnfblocks.specs.RuleCuts.{margin_at};
ghost use Rattle.abnfblocks.specs.TextLines.{numbered};
ghost use Rattle.abnfread.specs.AbnfViews.{definition_from};
ghost use Rattle.abnftexts.specs.GivenRules.{text_rule};
ghost use Rattle.abnftexts.specs.TakenRules.{IsRuleOf};
ghost use Rattle.abnftexts.specs.TextRules.{given_by};

use crate::join::{GivenRule, is_only_prose};
use abnfblocks::{TextLine, margin};
use abnfread::{Definition, begun_body, one_reading, read_definitions};
use ruletable::{Memory, ReadFault};
use std::alloc::Global;

// The rule that a definition is.
fn given_rule(alloc: Global, definition: Definition<'_>) -> Result<GivenRule, Memory>
    ensures { IfOk result (λ rule. text_rule rule ≡ given_by (definition_from definition.entry)) }
{
    let adds = definition.adds;
    let name = Vec::from_slice(alloc, definition.name)?;
    let body = begun_body(alloc, definition)?;
    let is_prose = !adds && is_only_prose(&body);
    Ok(GivenRule {
        adds,
        name,
        body,
        is_prose,
    })
}

/// Returns the margin of the first of these lines.
pub(crate) fn margin_in(lines: &[TextLine<'_>]) -> usize
    ensures { result ≡ margin_at (map numbered lines.now) }
{
    match lines.first() {
        Some(line) => margin(line.bytes),
        None => 0,
    }
}

/// Returns the rule that the text alone spells, if it spells one.
///
/// # Errors
/// `Memory` if an allocation fails.
pub(crate) fn read_rule(alloc: Global, text: &[u8]) -> Result<Option<GivenRule>, Memory>
    ensures { IfOk result (λ rule. IsRuleOf text.now (option_map text_rule rule)) }
{
    one_reading();
    let mut definitions = match read_definitions(alloc, text) {
        Ok(definitions) => definitions,
        Err(ReadFault::Memory) => return Err(Memory),
        Err(_fault) => return Ok(None),
    };
    if definitions.len() != 1 {
        return Ok(None);
    }
    match definitions.pop() {
        Some(definition) => Ok(Some(given_rule(alloc, definition)?)),
        None => Ok(None),
    }
}

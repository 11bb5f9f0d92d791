//! Callers of `pegmatch`, for any matcher.
ghost use Rattle.std.specs.Prelude.{IfOk};
ghost use Rattle.std.specs.Option.{option_map};
ghost use Rattle.uses.specs.Printed.{IsPrinted, TakesUpTo};

use gramcheck::SoundPeg;
use pegmatch::{Matcher, PrintStyle, ReplayFault, Unit};
use ruletable::{Memory, SinkOf};
use std::alloc::Global;

/// Returns how many bytes the start rule takes at the front of a text; none if it fails there.
pub fn match_text<M: Matcher>(
    matcher: &mut M,
    peg: &SoundPeg,
    text: &[u8],
) -> Result<Option<usize>, Memory>
    ensures { IfOk result (λ end. TakesUpTo peg.now text.now end) }
{
    match matcher.match_unit(peg, text, false)? {
        Unit::Took { end, .. } => Ok(Some(end)),
        Unit::Failed { .. } => Ok(None),
        Unit::Need => unreachable!(),
    }
}

/// Prints the actions of the start rule at the front of a text. Returns none if the rule fails there.
pub fn print_text<M: Matcher>(
    alloc: Global,
    matcher: &mut M,
    peg: &SoundPeg,
    text: &[u8],
) -> Result<Option<Vec<u8>>, ReplayFault>
    ensures { IfOk result (λ printed. IsPrinted peg.now text.now (option_map (λ v. v.items) printed)) }
{
    match matcher.match_unit(peg, text, false) {
        Ok(Unit::Took { .. }) => {
            let mut out = SinkOf::new(Vec::new(alloc));
            let style = PrintStyle {
                raw: false,
                escapes: false,
            };
            matcher.replay(peg, text, style, &mut out)?;
            Ok(Some(out.into_inner()))
        }
        Ok(Unit::Failed { .. }) => Ok(None),
        Ok(Unit::Need) => unreachable!(),
        Err(Memory) => Err(ReplayFault::Memory),
    }
}

//! A caller of `packrat`.
ghost use Rattle.std.specs.Prelude.{IfOk};
ghost use Rattle.std.specs.Option.{option_map};
ghost use Rattle.uses.specs.Printed.{IsPrinted};

use crate::unit_caller::print_text;
use gramcheck::SoundPeg;
use packrat::Packrat;
use pegmatch::ReplayFault;
use std::alloc::Global;

/// Prints the actions of the start rule at the front of a text, and evaluates each node once at each position. Returns
/// none if the rule fails there.
pub fn print_once(
    alloc: Global,
    peg: &SoundPeg,
    text: &[u8],
) -> Result<Option<Vec<u8>>, ReplayFault>
    ensures { IfOk result (λ printed. IsPrinted peg.now text.now (option_map (λ v. v.items) printed)) }
{
    let mut matcher = Packrat::new(alloc);
    print_text(alloc, &mut matcher, peg, text)
}

//! A caller of `gramcheck`.
ghost use Rattle.std.specs.Prelude.{IfOk, IfErr};
ghost use Rattle.uses.specs.Loaded.{IsLoaded};
ghost use Rattle.pegread.specs.Reading.{IsFaultOf};

use gramcheck::{SoundPeg, check_peg};
use pegread::read_peg;
use ruletable::{Memory, ReadFault};
use std::alloc::Global;

/// Returns the grammar of a text, ready to run from its first rule; none if a note rejects it.
pub fn load_peg(alloc: Global, text: &[u8]) -> Result<Option<SoundPeg>, ReadFault>
    ensures loaded { IfOk result (λ sound. IsLoaded text.now sound) }
    ensures fault { IfErr result (λ f. IsFaultOf text.now f) }
{
    let peg = read_peg(alloc, text)?;
    match check_peg(alloc, peg, None) {
        Ok(checked) => Ok(checked.sound),
        Err(Memory) => Err(ReadFault::Memory),
    }
}

//! Callers of `abnfread` and `abnfcheck`.
ghost use Rattle.std.specs.Prelude.{◌≡◌, List, length, option_copied, IfOk, IfErr};
ghost use Rattle.abnfread.specs.AbnfReading.{IsFaultOf, Reads};
ghost use Rattle.abnfread.specs.Element.{Definition};
ghost use Rattle.abnfprint.specs.AbnfReadBack.{file_rules};
ghost use Rattle.uses.specs.LoadedAbnf.{IsAbnfLoaded};

use abnfcheck::{SoundAbnf, check_abnf};
use abnfread::read_abnf;
use ruletable::{Memory, ReadFault};
use std::alloc::Global;

/// Returns how many rules a grammar's text defines, where each name counts once, and the core rules do not.
pub fn count_abnf_rules(alloc: Global, text: &[u8]) -> Result<usize, ReadFault>
    ensures count { IfOk result (λ n. (definitions : List Definition) × Reads text.now definitions
        × (n ≡ length (file_rules definitions))) }
    ensures fault { IfErr result (λ f. IsFaultOf text.now f) }
{
    let abnf = read_abnf(alloc, text)?;
    Ok(abnf.rules.len())
}

/// Returns the grammar of a text with its judged rule, which is that of the name, or else the first; none if the
/// grammar is rejected.
pub fn load_abnf(
    alloc: Global,
    text: &[u8],
    rule: Option<&str>,
) -> Result<Option<SoundAbnf>, ReadFault>
    ensures loaded { IfOk result (λ sound. IsAbnfLoaded text.now (option_copied rule.entry) sound) }
    ensures fault { IfErr result (λ f. IsFaultOf text.now f) }
{
    let abnf = read_abnf(alloc, text)?;
    match check_abnf(alloc, abnf, rule) {
        Ok(checked) => Ok(checked.sound),
        Err(Memory) => Err(ReadFault::Memory),
    }
}

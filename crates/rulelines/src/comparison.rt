//! Which lines one of two rules derives alone.
ghost use Rattle.std.specs.Prelude.{◌≡◌, ℕ, Bool, IfOk, IfSome};
ghost use Rattle.abnfread.specs.AbnfViews.{rules_of};
ghost use Rattle.ruletable.specs.Letters.{has as symbols_of};
ghost use Rattle.rulelines.specs.Alone.{DerivesAsRule, IsKnownOf};
ghost use Rattle.rulelines.specs.FirstLines.{IsOfOldAlone};

use crate::alone::{Alone, old_alone};
use abnfcheck::{SoundAbnf, are_rules_within, reached_grammar, unrolled_grammar};
use flatgrammar::Flat;
use lowering::lower;
use ruletable::{Alphabet, Memory};
use std::alloc::Global;

/// The greatest repeat count. A grammar that is lowered with this limit has each of its counts, and serves lines of any
/// length.
const GREATEST: usize = 4_294_967_295;

/// The results on the lines that the judged rule of one grammar derives, and that of another does not.
#[derive(Drop)]
pub struct Comparison {
    /// The lines of the old grammar alone.
    pub old_alone: Alone,
    /// The lines of the new grammar alone.
    pub new_alone: Alone,
}

// Lowers the rules that the judged one of a grammar reaches, for lines of any length; `None` if a repeat count is too
// great. `Memory` if an allocation fails.
fn lower_any(alloc: Global, grammar: &SoundAbnf) -> Result<Option<Flat>, Memory>
    ensures { IfOk result (λ reported. IfSome reported (λ flat. (has : ℕ → Bool) → DerivesAsRule has
        (rules_of grammar.now.rules) grammar.now.judged flat)) }
{
    let kept = reached_grammar(alloc, grammar)?;
    let unrolled = unrolled_grammar(alloc, &kept)?;
    if !are_rules_within(unrolled.rules(), GREATEST) {
        return Ok(None);
    }
    let flat = lower(alloc, &unrolled, GREATEST)?;
    Ok(Some(flat))
}

/// Compares the judged rules of two grammars on lines of symbols of an alphabet, whatever their length. For each of
/// them a search goes over at most `room` pairs of states, with room for `room` entries of each grammar's states.
/// `Memory` if an allocation fails.
pub fn compare(
    alloc: Global,
    alphabet: Alphabet,
    old: &SoundAbnf,
    new: &SoundAbnf,
    room: usize,
) -> Result<Comparison, Memory>
    ensures old { IfOk result (λ found. IsKnownOf (IsOfOldAlone (symbols_of alphabet) (rules_of old.now.rules)
        old.now.judged (rules_of new.now.rules) new.now.judged) found.old_alone) }
    ensures new { IfOk result (λ found. IsKnownOf (IsOfOldAlone (symbols_of alphabet) (rules_of new.now.rules)
        new.now.judged (rules_of old.now.rules) old.now.judged) found.new_alone) }
{
    let old_flat = lower_any(alloc, old)?;
    let new_flat = lower_any(alloc, new)?;
    match (old_flat, new_flat) {
        (Some(old_flat), Some(new_flat)) => Ok(Comparison {
            old_alone: old_alone(alloc, alphabet, &old_flat, &new_flat, room)?,
            new_alone: old_alone(alloc, alphabet, &new_flat, &old_flat, room)?,
        }),
        _ => Ok(Comparison {
            old_alone: Alone::Unknown,
            new_alone: Alone::Unknown,
        }),
    }
}

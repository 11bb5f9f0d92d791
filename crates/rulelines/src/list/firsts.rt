//! The symbols of a line each of which comes before all that no set distinguishes from it.
ghost use Rattle.std.specs.Prelude.{◌≡◌, ◌↔◌, ℕ, true, IfOk, Contains};
ghost use Rattle.std.specs.List.Sorted.{IsStrictlyIncreasing};
ghost use Rattle.abnfcheck.specs.AlikeSymbols.{AreAlikeInRules};
ghost use Rattle.abnfread.specs.AbnfViews.{rules_of};
ghost use Rattle.lowering.specs.Lowered.{IsLowered};
ghost use Rattle.rulelines.specs.FirstLines.{sort_key};
ghost use Rattle.rulelines.specs.SampleLines.{IsFirstOf};
ghost use Rattle.rulelines.specs.StateTables.{line_symbols};

use crate::list::keys::LineSymbols;
use crate::miss::symbols::line_samples;
use crate::samples::keys_of;
use abnfcheck::new_symbols;
use abnfread::Elem;
use flatgrammar::Flat;
use ruletable::{Memory, RuleTable};
use std::alloc::Global;

/// Returns the keys, in ascending order, of those symbols of a line that come before all that no set in the bodies of
/// rules distinguishes from them. The rules are those of the flat grammar. `Memory` if an allocation fails.
pub(crate) fn first_keys(
    alloc: Global,
    inner: LineSymbols,
    flat: &Flat,
    rules: &RuleTable<Elem>,
) -> Result<Vec<u32>, Memory>
    ensures rise { IfOk result (λ keys. IsStrictlyIncreasing keys.items) }
    ensures firsts { IfOk result (λ keys. (judged : ℕ) → IsLowered (rules_of rules.now) judged flat.now → (c : ℕ) →
        line_symbols inner c ≡ true → Contains keys.items (sort_key c)
        ↔ IsFirstOf (line_symbols inner) (AreAlikeInRules (rules_of rules.now)) c) }
{
    let samples = line_samples(alloc, inner, flat, false)?;
    let news = new_symbols(alloc, rules, &samples)?;
    let mut keys = keys_of(alloc, inner.alphabet, &news)?;
    keys.sort_unstable();
    keys.dedup();
    Ok(keys)
}

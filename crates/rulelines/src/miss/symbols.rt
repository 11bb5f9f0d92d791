//! Symbols that stand for all symbols of a line of their class.
ghost use Rattle.std.specs.Prelude.{◌≡◌, ℕ, true, IfOk, Contains};
ghost use Rattle.std.specs.List.Sorted.{IsStrictlyIncreasing};
ghost use Rattle.rulelines.specs.FirstLines.{sort_key};
ghost use Rattle.rulelines.specs.Samples.{AreInLineOrder};
ghost use Rattle.rulelines.specs.StatePairs.{AreSamples};
ghost use Rattle.rulelines.specs.Starts.{HaveBothEnds};
ghost use Rattle.rulelines.specs.StateTables.{line_symbols};

use crate::list::keys::{LineSymbols, is_inner};
use crate::list::starts::find_starts;
use crate::samples::{key_of, symbol_at};
use flatgrammar::Flat;
use ruletable::Memory;
use std::alloc::Global;

// Returns the symbols of a line that have these keys. `Memory` if an allocation fails.
fn symbols_of(alloc: Global, inner: LineSymbols, keys: &[u32]) -> Result<Vec<u32>, Memory>
    requires rise { IsStrictlyIncreasing keys.now }
    ensures all { IfOk result (λ symbols. (c : ℕ) → line_symbols inner c ≡ true → Contains keys.now (sort_key c) →
        Contains symbols.items c) }
    ensures order { IfOk result (λ symbols. AreInLineOrder (line_symbols inner) symbols.items) }
{
    let mut symbols = Vec::new(alloc);
    for key in keys {
        let symbol = symbol_at(*key);
        if is_inner(inner, symbol) && key_of(symbol) == *key {
            symbols.push(symbol)?;
        }
    }
    Ok(symbols)
}

/// Returns a symbol of each class of symbols of a line, the first of its class. With `edges`, also those next to
/// another class by number. They come in the order of lines. `Memory` if an allocation fails.
pub(crate) fn line_samples(
    alloc: Global,
    inner: LineSymbols,
    flat: &Flat,
    edges: bool,
) -> Result<Vec<u32>, Memory>
    ensures each { IfOk result (λ samples. AreSamples flat.now flat.now (line_symbols inner) samples.items) }
    ensures order { IfOk result (λ samples. AreInLineOrder (line_symbols inner) samples.items) }
    ensures ends { IfOk result (λ samples. edges ≡ true → HaveBothEnds flat.now (line_symbols inner) samples.items) }
{
    let starts = find_starts(alloc, inner, flat, edges)?;
    symbols_of(alloc, inner, &starts)
}

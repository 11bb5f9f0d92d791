//! Symbols that stand for all symbols of their class, in the order of lines.
ghost use Rattle.std.specs.Prelude.{◌≡◌, ◌<◌, ◌^◌, IfOk, map};
ghost use Rattle.ruletable.specs.Letters.{has};
ghost use Rattle.rulelines.specs.FirstLines.{sort_key};
ghost use Rattle.rulelines.specs.Samples.{AreCommonBounds, AreInLineOrder, AreKeysOf, IsKeyAdded, symbol_of};
ghost use Rattle.rulelines.specs.StatePairs.{AreSamples};

use flatgrammar::{Flat, find_classes};
use ruletable::{Alphabet, Memory};
use std::alloc::Global;

// Returns where classes of both grammars begin, with the cuts in the order of symbols and in the alphabets. `Memory` if
// an allocation fails.
fn common_bounds(alloc: Global, old: &Flat, new: &Flat) -> Result<Vec<u32>, Memory>
    ensures { IfOk result (λ bounds. AreCommonBounds old.now new.now bounds.items) }
{
    let old_tables = old.share()?;
    let old_classes = find_classes(alloc, &old_tables)?;
    let new_tables = new.share()?;
    let new_classes = find_classes(alloc, &new_tables)?;
    let mut bounds = old_classes.samples;
    bounds.extend_from_slice(&new_classes.samples)?;
    bounds.extend_from_slice(&[0, 32, 33, 127, 57_344])?;
    Ok(bounds)
}

/// Returns the key of a symbol: %x21-7E come first, then the space, then others by number.
pub(crate) fn key_of(symbol: u32) -> u32
    requires { symbol < 2 ^ 31 }
    ensures { result ≡ sort_key symbol }
{
    if 33 <= symbol && symbol <= 126 {
        symbol
    } else if symbol == 32 {
        127
    } else {
        128 + symbol
    }
}

/// Returns the symbol of a key.
pub(crate) fn symbol_at(key: u32) -> u32
    ensures { result ≡ symbol_of key }
{
    if key < 127 {
        key
    } else if key == 127 {
        32
    } else {
        key - 128
    }
}

// Adds the key of a number, if it is a symbol. `Memory` if an allocation fails.
fn add_key(alphabet: Alphabet, number: u32, keys: &mut Vec<u32>) -> Result<(), Memory>
    ensures { IfOk result (λ done. IsKeyAdded (has alphabet) number keys.old.items keys.new.items) }
{
    if alphabet.has(number) {
        keys.push(key_of(number))?;
    }
    Ok(())
}

/// Returns the keys of the bounds that are symbols. `Memory` if an allocation fails.
pub(crate) fn keys_of(alloc: Global, alphabet: Alphabet, bounds: &[u32]) -> Result<Vec<u32>, Memory>
    ensures { IfOk result (λ keys. AreKeysOf (has alphabet) bounds.now keys.items) }
{
    let mut keys = Vec::new(alloc);
    for bound in bounds {
        add_key(alphabet, *bound, &mut keys)?;
    }
    Ok(keys)
}

// Returns the symbols of keys. `Memory` if an allocation fails.
fn symbols_of(alloc: Global, keys: &[u32]) -> Result<Vec<u32>, Memory>
    ensures { IfOk result (λ symbols. symbols.items ≡ map symbol_of keys.now) }
{
    let mut symbols = Vec::new(alloc);
    for key in keys {
        symbols.push(symbol_at(*key))?;
    }
    Ok(symbols)
}

/// Returns a symbol of each class of symbols that each set of two grammars takes or rejects together, the first of its
/// class. They come in the order of lines. `Memory` if an allocation fails.
pub(crate) fn common_samples(
    alloc: Global,
    alphabet: Alphabet,
    old: &Flat,
    new: &Flat,
) -> Result<Vec<u32>, Memory>
    ensures each { IfOk result (λ samples. AreSamples old.now new.now (has alphabet) samples.items) }
    ensures order { IfOk result (λ samples. AreInLineOrder (has alphabet) samples.items) }
{
    let bounds = common_bounds(alloc, old, new)?;
    let mut keys = keys_of(alloc, alphabet, &bounds)?;
    keys.sort_unstable();
    keys.dedup();
    symbols_of(alloc, &keys)
}

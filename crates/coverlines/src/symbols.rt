//! The symbols of texts.
ghost use Rattle.std.specs.Prelude.{◌≡◌, ℕ, List, map, true, IfOk};
ghost use Rattle.abnfcheck.specs.Derivable.{AreLetters, Spelled, StandsFor};
ghost use Rattle.coverlines.specs.Goals.{swapped_case as the_swapped_case};
ghost use Rattle.coverlines.specs.Shortest.{may};

use crate::bounds::LineBounds;
use ruletable::Memory;
use std::alloc::Global;

// Returns a US-ASCII letter in the other case, and any other byte as it is.
fn other_case(byte: u8) -> u8
    ensures { result ≡ the_swapped_case byte }
{
    match byte {
        b'A'..=b'Z' => byte + 32,
        b'a'..=b'z' => byte - 32,
        _ => byte,
    }
}

// Returns a symbol that stands for a byte of a text: the byte, or where a line may not have it a letter in the other
// case.
fn spelled_symbol(bounds: LineBounds, folds: bool, byte: u8) -> u32
    ensures stands { StandsFor folds byte result }
    ensures best { (c : ℕ) → StandsFor folds byte c → may bounds c ≡ true → may bounds result ≡ true }
{
    let symbol = u32::from(byte);
    if folds && !bounds.has(symbol) {
        u32::from(other_case(byte))
    } else {
        symbol
    }
}

/// Returns a spelling of a text that may stand in a line, if there is one.
pub(crate) fn spelling(
    alloc: Global,
    bounds: LineBounds,
    folds: bool,
    text: &[u8],
) -> Result<Vec<u32>, Memory>
    ensures spelled { IfOk result (λ word. Spelled folds text.now word.items) }
    ensures best { IfOk result (λ word. (w : List ℕ) → Spelled folds text.now w → AreLetters (may bounds) w
        → AreLetters (may bounds) word.items) }
{
    let mut word = Vec::new(alloc);
    for byte in text {
        word.push(spelled_symbol(bounds, folds, *byte))?;
    }
    Ok(word)
}

/// Returns the symbols of a text: its bytes.
pub(crate) fn text_symbols(alloc: Global, text: &[u8]) -> Result<Vec<u32>, Memory>
    ensures { IfOk result (λ word. word.items ≡ text.now) }
{
    let mut word = Vec::new(alloc);
    for byte in text {
        word.push(u32::from(*byte))?;
    }
    Ok(word)
}

/// Returns the symbols of a text, with each letter in the other case.
pub(crate) fn other_symbols(alloc: Global, text: &[u8]) -> Result<Vec<u32>, Memory>
    ensures { IfOk result (λ word. word.items ≡ map the_swapped_case text.now) }
{
    let mut word = Vec::new(alloc);
    for byte in text {
        word.push(u32::from(other_case(*byte)))?;
    }
    Ok(word)
}

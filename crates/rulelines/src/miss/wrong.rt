//! The samples that are reported as symbols that cannot follow.
ghost use Rattle.std.specs.Prelude.{◌≡◌, ◌↔◌, ◌⊎◌, ◌+◌, ◌<◌, true, false, IsTrue, IfOk, get_or, slice_get, Some};
ghost use Rattle.std.specs.Prelude.{length};
ghost use Rattle.rulelines.specs.WrongSymbols.{AreWrongTo, IsBesideLive};

use ruletable::Memory;
use std::alloc::Global;

// Returns whether a sample leads on, and its number is one more or less than that of a symbol.
fn is_beside(live: bool, sample: u32, symbol: u32) -> bool
    ensures { IsTrue result ↔ ((live ≡ true) × ((sample ≡ symbol + 1) ⊎ (symbol ≡ sample + 1))) }
{
    live && sample.abs_diff(symbol) == 1
}

// Returns whether a sample leads on whose number is one more or less than that of a symbol.
fn is_edge(samples: &[u32], live: &[bool], symbol: u32) -> bool
    requires { length live.now ≡ length samples.now }
    ensures { IsTrue result ↔ IsBesideLive samples.now live.now symbol }
{
    for index in 0..samples.len() {
        if is_beside(live[index], samples[index], symbol) {
            return true;
        }
    }
    false
}

// Returns whether a sample of an index leads astray, and is the first such or, with `edges`, next to one that leads on.
fn is_reported(samples: &[u32], live: &[bool], edges: bool, index: usize, is_first: bool) -> bool
    requires same { length live.now ≡ length samples.now }
    requires within { index < length samples.now }
    ensures { IsTrue result ↔ ((slice_get live.now index ≡ Some false) × ((is_first ≡ true)
        ⊎ ((edges ≡ true) × IsBesideLive samples.now live.now (get_or samples.now index 0)))) }
{
    !live[index] && (is_first || (edges && is_edge(samples, live, samples[index])))
}

/// Returns the samples that lead astray and are reported: the first, and with `edges` each one next to one that leads
/// on. They come in the order of samples. `Memory` if an allocation fails.
pub(crate) fn wrong_symbols(
    alloc: Global,
    samples: &[u32],
    live: &[bool],
    edges: bool,
) -> Result<Vec<u32>, Memory>
    requires { length live.now ≡ length samples.now }
    ensures { IfOk result (λ wrong. AreWrongTo samples.now live.now edges (length samples.now) wrong.items) }
{
    let mut wrong = Vec::new(alloc);
    for index in 0..samples.len() {
        if is_reported(samples, live, edges, index, wrong.is_empty()) {
            wrong.push(samples[index])?;
        }
    }
    Ok(wrong)
}

//! Windows of words: word `first` of a row, and those after it. All other words are 0.
ghost use Rattle.std.specs.Prelude.{◌≡◌, ◌+◌, ◌-◌, ◌*◌, ◌<◌, ◌≤◌, ◌^◌, ◌↔◌, ◌⊎◌, ℕ, length, slice_index_or, IfOk};
ghost use Rattle.std.specs.Prelude.{IsTrue, OnOk, OnErr, IfSome, IfNone, bit_and, bit_or, count_ones};
ghost use Rattle.std.specs.List.{sum_by};
ghost use Rattle.std.specs.Int.{w64, bit_at, bit_not};
ghost use Rattle.earley.specs.RowMembers.{word_in};

use ruletable::Memory;
use std::alloc::Global;

/// Returns word `i`.
#[inline(always)]
pub(crate) fn word(first: usize, words: &[u64], i: usize) -> u64
    ensures { result ≡ word_in first words.now i }
{
    if i < first {
        return 0;
    }
    match words.get(i - first) {
        Some(word) => *word,
        None => 0,
    }
}

// Returns the words from `low` on that stand before `high`.
fn widened(
    alloc: Global,
    first: usize,
    words: &[u64],
    low: usize,
    high: usize,
) -> Result<Vec<u64>, Memory>
    requires { low ≤ high }
    ensures count { IfOk result (λ wide. low + length wide.items ≡ high) }
    ensures same { IfOk result (λ wide. (n : ℕ) → n < length wide.items
        → slice_index_or wide.items n 0 ≡ word_in first words.now (low + n)) }
{
    let mut wide = Vec::with_capacity(alloc, high - low)?;
    for i in low..high {
        wide.push(word(first, words, i))?;
    }
    Ok(wide)
}

/// Makes the window hold the words from `low` on that stand before `high`.
///
/// `Memory` if an allocation fails; the window stays as it is then.
pub(crate) fn cover(
    alloc: Global,
    first: &mut usize,
    words: &mut Vec<u64>,
    low: usize,
    high: usize,
) -> Result<(), Memory>
    requires some { low < high }
    requires high { high ≤ 2 ^ 57 }
    requires end { first.old + length words.old.items ≤ 2 ^ 57 }
    ensures same { (i : ℕ) → word_in first.new words.new.items i ≡ word_in first.old words.old.items i }
    ensures low { OnOk result (first.new ≤ low) }
    ensures high { OnOk result (high ≤ first.new + length words.new.items) }
    ensures end { first.new + length words.new.items ≤ 2 ^ 57 }
    ensures err { OnErr result ((first.new ≡ first.old) × (words.new ≡ words.old)) }
{
    let end = *first + words.len();
    if *first <= low && high <= end {
        return Ok(());
    }
    let (from, to) = if words.is_empty() {
        (low, high)
    } else {
        (low.min(*first), high.max(end))
    };
    let wide = widened(alloc, *first, words, from, to)?;
    *first = from;
    *words = wide;
    Ok(())
}

/// Sets the bits of more words, the first of which is word `at`.
pub(crate) fn or_words(words: &mut [u64], at: usize, more: &[u64])
    requires { at + length more.now ≤ length words.old }
    ensures count { length words.new ≡ length words.old }
    ensures or { (n : ℕ) → slice_index_or words.new n 0 ≡ bit_or (slice_index_or words.old n 0) (word_in at more.now
        n) }
{
    for i in 0..more.len() {
        words[at + i] |= more[i];
    }
}

/// Sets those bits of more words, the first of which is word `at`, that known words lack. The first of these is word
/// `known_at` of the known ones.
pub(crate) fn or_missing(words: &mut [u64], at: usize, more: &[u64], known: &[u64], known_at: usize)
    requires room { at + length more.now ≤ length words.old }
    requires known { known_at + length more.now ≤ length known.now }
    ensures count { length words.new ≡ length words.old }
    ensures or { (n : ℕ) → slice_index_or words.new n 0 ≡ bit_or (slice_index_or words.old n 0)
        (bit_and (word_in at more.now n) (bit_not w64 (slice_index_or known.now (n - at + known_at) 0))) }
    ensures known { (n : ℕ) → slice_index_or known.now n 0 < 2 ^ 64 }
{
    for i in 0..more.len() {
        words[at + i] |= more[i] & !known[known_at + i];
    }
}

/// Returns the index of the lowest bit of a word from bit `from` on.
pub(crate) fn lowest_bit(word: u64, from: u32) -> Option<u32>
    requires { from < 64 }
    ensures found { IfSome result (λ bit. (from ≤ bit) × (bit < 64) × (bit_at word bit ≡ 1)) }
    ensures first { IfSome result (λ bit. (i : ℕ) → from ≤ i → i < bit → bit_at word i ≡ 0) }
    ensures none { IfNone result ((i : ℕ) → from ≤ i → bit_at word i ≡ 0) }
{
    let high = word >> from;
    if high == 0 {
        return None;
    }
    Some(from + high.trailing_zeros())
}

/// Returns the index of the highest bit of a word.
pub(crate) fn highest_bit(word: u64) -> Option<u32>
    ensures found { IfSome result (λ bit. (bit < 64) × (bit_at word bit ≡ 1)) }
    ensures last { IfSome result (λ bit. (i : ℕ) → bit < i → bit_at word i ≡ 0) }
    ensures none { IfNone result ((i : ℕ) → bit_at word i ≡ 0) }
{
    if word == 0 {
        return None;
    }
    Some(63 - word.leading_zeros())
}

/// Returns how many bits are set.
pub(crate) fn count_bits(words: &[u64]) -> usize
    requires { length words.now ≤ 2 ^ 57 }
    ensures count { result ≡ sum_by count_ones words.now }
    ensures words { (n : ℕ) → slice_index_or words.now n 0 < 2 ^ 64 }
{
    let mut count = 0;
    for word in words {
        count += word.count_ones() as usize;
    }
    count
}

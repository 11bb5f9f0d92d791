//! Rows of bits.
ghost use Rattle.std.specs.Prelude.{◌≡◌, ◌↔◌, ◌⊎◌, ◌<◌, ◌≤◌, ◌^◌, ℕ, [], length, Contains, IfOk, IfSome};
ghost use Rattle.std.specs.Prelude.{IfNone, IsTrue, OnErr};
ghost use Rattle.std.specs.List.Sorted.{IsStrictlyIncreasing};

use crate::words::{count_bits, cover, highest_bit, lowest_bit, or_missing, or_words, word};
use ruletable::Memory;
use std::alloc::Global;
use std::marker::Model;

/// A set of numbers below 2^63. Contracts see the ascending list of its members.
///
/// Bit `k % 64` of word `k / 64` says whether `k` is a member. Only the words from the first to the last that has a bit
/// are kept. So a set takes a bit for each number between its least and its greatest member.
#[derive(Drop)]
pub struct BitRow {
    /// Allocates the words.
    alloc: Global,
    /// The number of the first word that is kept.
    first: usize,
    /// The words from that one on.
    words: Vec<u64>,
}

impl Model for BitRow {
    ghost use Rattle.std.specs.Prelude.{ℕ, List, length, ◌+◌, ◌≤◌, ◌^◌};
    ghost use Rattle.earley.specs.RowMembers.{members};

    ghost Value = { List ℕ };

    ghost view = { λ r. members r.first r.words.items };

    ghost invariant = { λ r. r.first + length r.words.items ≤ 2 ^ 57 };
}

impl BitRow {
    /// Returns the empty set. It takes no memory.
    pub fn new(alloc: Global) -> BitRow
        ensures { result ≡ [] }
    {
        BitRow {
            alloc,
            first: 0,
            words: Vec::new(alloc),
        }
    }

    /// Makes `k` a member. `Memory` if an allocation fails; the set stays as it is then.
    pub fn insert(&mut self, k: usize) -> Result<(), Memory>
        requires { k < 2 ^ 63 }
        ensures members { IfOk result (λ done. (x : ℕ) → Contains self.new x ↔ (Contains self.old x ⊎ (x ≡ k))) }
        ensures err { OnErr result (self.new ≡ self.old) }
    {
        let at = k / 64;
        cover(self.alloc, &mut self.first, &mut self.words, at, at + 1)?;
        self.words[at - self.first] |= 1 << (k % 64);
        Ok(())
    }

    /// Adds the members of another set, and to `pending` those of them that are new. `Memory` if an allocation fails;
    /// both sets keep their members then.
    pub fn merge(&mut self, found: &BitRow, pending: &mut BitRow) -> Result<(), Memory>
        ensures members { IfOk result (λ done. (x : ℕ) → Contains self.new x ↔ (Contains self.old x
            ⊎ Contains found.now x)) }
        ensures pending { IfOk result (λ done. (x : ℕ) → Contains pending.new x ↔ (Contains pending.old x
            ⊎ (Contains found.now x × (Contains self.old x → ⊥)))) }
        ensures err { OnErr result ((x : ℕ) → Contains self.new x ↔ Contains self.old x) }
        ensures err_pending { OnErr result ((x : ℕ) → Contains pending.new x ↔ Contains pending.old x) }
    {
        if found.words.is_empty() {
            return Ok(());
        }
        let low = found.first;
        let high = found.first + found.words.len();
        cover(self.alloc, &mut self.first, &mut self.words, low, high)?;
        cover(
            pending.alloc,
            &mut pending.first,
            &mut pending.words,
            low,
            high,
        )?;
        let at = low - self.first;
        or_missing(
            &mut pending.words,
            low - pending.first,
            &found.words,
            &self.words,
            at,
        );
        or_words(&mut self.words, at, &found.words);
        Ok(())
    }

    /// Adds the members of another set. `Memory` if an allocation fails; the set stays as it is then.
    pub fn join(&mut self, found: &BitRow) -> Result<(), Memory>
        ensures members { IfOk result (λ done. (x : ℕ) → Contains self.new x ↔ (Contains self.old x
            ⊎ Contains found.now x)) }
        ensures err { OnErr result (self.new ≡ self.old) }
    {
        if found.words.is_empty() {
            return Ok(());
        }
        let low = found.first;
        let high = found.first + found.words.len();
        cover(self.alloc, &mut self.first, &mut self.words, low, high)?;
        or_words(&mut self.words, low - self.first, &found.words);
        Ok(())
    }

    /// Returns whether it has each member of another set.
    pub fn has_all(&self, found: &BitRow) -> bool
        ensures { IsTrue result ↔ ((x : ℕ) → Contains found.now x → Contains self.now x) }
    {
        for i in found.first..found.first + found.words.len() {
            let more = word(found.first, &found.words, i);
            if let Some(_bit) = lowest_bit(more & !word(self.first, &self.words, i), 0) {
                return false;
            }
        }
        true
    }

    /// Returns the set of the members that both sets have. `Memory` if an allocation fails.
    pub fn common(&self, other: &BitRow) -> Result<BitRow, Memory>
        ensures { IfOk result (λ both. (x : ℕ) → Contains both x ↔ (Contains self.now x × Contains other.now x)) }
    {
        let low = self.first.max(other.first);
        let high = (self.first + self.words.len()).min(other.first + other.words.len());
        let mut words = Vec::with_capacity(self.alloc, high.saturating_sub(low))?;
        for i in low..high {
            let one = word(self.first, &self.words, i);
            words.push(one & word(other.first, &other.words, i))?;
        }
        Ok(BitRow {
            alloc: self.alloc,
            first: low,
            words,
        })
    }

    /// Returns the least member from `from` on.
    pub fn next(&self, from: usize) -> Option<usize>
        ensures found { IfSome result (λ k. (from ≤ k) × Contains self.now k) }
        ensures first { IfSome result (λ k. (x : ℕ) → Contains self.now x → from ≤ x → k ≤ x) }
        ensures none { IfNone result ((x : ℕ) → Contains self.now x → x < from) }
    {
        let start = from / 64;
        if let Some(bit) = lowest_bit(word(self.first, &self.words, start), (from % 64) as u32) {
            return Some(start * 64 + bit as usize);
        }
        for i in (start + 1).max(self.first)..self.first + self.words.len() {
            if let Some(bit) = lowest_bit(word(self.first, &self.words, i), 0) {
                return Some(i * 64 + bit as usize);
            }
        }
        None
    }

    /// Returns the greatest member.
    pub fn last(&self) -> Option<usize>
        ensures found { IfSome result (λ k. Contains self.now k) }
        ensures last { IfSome result (λ k. (x : ℕ) → Contains self.now x → x ≤ k) }
        ensures none { IfNone result ((x : ℕ) → Contains self.now x → ⊥) }
    {
        let mut end = self.first + self.words.len();
        while end > self.first {
            end -= 1;
            if let Some(bit) = highest_bit(word(self.first, &self.words, end)) {
                return Some(end * 64 + bit as usize);
            }
        }
        None
    }

    /// Returns the number of members. Each is listed once.
    pub fn len(&self) -> usize
        ensures count { result ≡ length self.now }
        ensures ascend { IsStrictlyIncreasing self.now }
    {
        count_bits(&self.words)
    }

    /// Empties it, and keeps its memory.
    pub fn clear(&mut self)
        ensures { self.new ≡ [] }
    {
        self.words.clear();
    }
}

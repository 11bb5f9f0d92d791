//! Sets of bytes.
ghost use Rattle.std.specs.Prelude.{◌≡◌, ℕ, ◌<◌, ◌||◌, ◌&&◌, ◌==◌, nat_le, not, Bool, true, false, List, length};
ghost use Rattle.std.specs.Prelude.{get_or};
ghost use Rattle.ruletable.specs.Runs.{AreRuns, IsFirst, runs_of, test_of};

use crate::runs::Runs;
use std::marker::Model;

/// A set of bytes. Contracts see a list of 256 flags, which say of each byte whether it is a member.
#[derive(Drop)]
pub struct ByteSet {
    /// Bit `b % 64` of word `b / 64` says whether byte `b` is a member.
    words: [u64; 4],
}

impl Model for ByteSet {
    ghost use Rattle.std.specs.Prelude.{Bool, List};

    ghost Value = { List Bool };

    ghost use Rattle.ruletable.specs.Members.{members_of};

    ghost view = { λ s. members_of s.words };
}

impl ByteSet {
    /// Returns the empty set.
    pub fn new() -> ByteSet
        ensures count { length result ≡ 256 }
        ensures empty { (k : ℕ) → get_or result k false ≡ false }
    {
        ByteSet { words: [0; 4] }
    }

    /// Returns whether the byte is a member.
    pub fn has(&self, b: u8) -> bool
        ensures { result ≡ get_or self.now b false }
    {
        let position = usize::from(b);
        (self.words[position / 64] >> (position % 64)) & 1 == 1
    }

    // The first byte from `from` on that is a member, or with `member` false, that is none.
    pub(crate) fn first_from(&self, from: u8, member: bool) -> Option<u8>
        ensures { IsFirst (test_of self.now) from member result }
    {
        for b in from..=u8::MAX {
            if self.has(b) == member {
                return Some(b);
            }
        }
        None
    }

    /// Returns the maximal ranges of members, each with its first and its last byte, in ascending order. It takes no
    /// memory.
    pub fn runs(&self) -> Runs<'_>
        ensures runs { result ≡ runs_of (test_of self.now) }
        ensures exact { AreRuns self.now result }
    {
        Runs::new(self)
    }

    /// Returns a set of the same members.
    pub fn copied(&self) -> ByteSet
        ensures { result ≡ self.now }
    {
        ByteSet { words: self.words }
    }

    // Makes the byte a member.
    fn put(&mut self, b: u8)
        ensures count { length self.new ≡ length self.old }
        ensures members { (k : ℕ) → get_or self.new k false ≡ (get_or self.old k false || (k == b)) }
    {
        let position = usize::from(b);
        self.words[position / 64] |= 1 << (position % 64);
    }

    /// Makes each byte from `first` to `last` a member. Where `first` is greater than `last`, the set stays as it is.
    pub fn add_range(&mut self, first: u8, last: u8)
        ensures count { length self.new ≡ length self.old }
        ensures members { (k : ℕ) → get_or self.new k false
            ≡ (get_or self.old k false || (nat_le first k && nat_le k last)) }
    {
        for b in first..=last {
            self.put(b);
        }
    }

    /// Returns the numbers from 0 to 255 that are no members.
    pub fn complement(&self) -> ByteSet
        ensures count { length result ≡ 256 }
        ensures members { (k : ℕ) → k < 256 → get_or result k false ≡ not (get_or self.now k false) }
    {
        let [a, b, c, d] = self.words;
        ByteSet {
            words: [u64::MAX ^ a, u64::MAX ^ b, u64::MAX ^ c, u64::MAX ^ d],
        }
    }
}

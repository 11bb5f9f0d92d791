//! The maximal ranges of a set's members.
ghost use Rattle.std.specs.Prelude.{◌≡◌, ℕ, ◌<◌, false, get_or};
ghost use Rattle.std.specs.Iterator.{YieldsFirst, item_count};
ghost use Rattle.ruletable.specs.Runs.{runs_of, test_of};

use crate::byte_set::ByteSet;
use std::marker::Model;

/// An iterator over the maximal ranges of a set's members, each with its first and its last byte, in ascending order.
/// Contracts see the ranges still to come.
#[derive(Drop)]
pub struct Runs<'a> {
    /// The set.
    set: &'a ByteSet,
    /// The least byte that is not looked at yet; `None` at the end.
    next: Option<u8>,
}

impl<'a> Model for Runs<'a> {
    ghost use Rattle.std.specs.Prelude.{ℕ, List};

    ghost Value = { List (ℕ × ℕ) };

    ghost use Rattle.ruletable.specs.Runs.{runs_after, test_of, position_of};

    ghost view = { λ r. runs_after (test_of r.set.now) (position_of r.next) };
}

impl<'a> Runs<'a> {
    pub(crate) fn new(set: &'a ByteSet) -> Runs<'a>
        ensures { result ≡ runs_of (test_of set.now) }
    {
        Runs { set, next: Some(0) }
    }
}

impl<'a> Iterator for Runs<'a> {
    type Item = (u8, u8);

    ghost next_gives = { YieldsFirst (λ rest. rest) };

    ghost remaining = { item_count (λ rest. rest) };

    fn next(&mut self) -> Option<(u8, u8)> {
        let first = self.set.first_from(self.next?, true)?;
        self.next = self.set.first_from(first, false);
        let last = match self.next {
            Some(gap) => gap - 1,
            None => u8::MAX,
        };
        Some((first, last))
    }
}

/// Says that a set is made of its runs. It goes over them, and puts the bytes of each into a new set.
pub fn union_of_runs(set: &ByteSet) -> ByteSet
    ensures { (b : ℕ) → b < 256 → get_or result b false ≡ get_or set.now b false }
{
    let mut union = ByteSet::new();
    for (first, last) in set.runs() {
        union.add_range(first, last);
    }
    union
}

//! The symbols and the greatest length of lines.
ghost use Rattle.std.specs.Prelude.{◌≡◌, ◌↔◌, ◌≤◌, ℕ, IsTrue, true, length, MatchOption};
ghost use Rattle.abnfcheck.specs.Derivable.{AreLetters};
ghost use Rattle.coverlines.specs.Goals.{HasNoneIn, IsFirstIn, IsLastIn};
ghost use Rattle.coverlines.specs.Shortest.{may};

use ruletable::Alphabet;

/// Which lists of symbols may be lines.
#[derive(Clone, Copy)]
pub struct LineBounds {
    /// The alphabet of lines.
    pub alphabet: Alphabet,
    /// The symbol that ends a line; no line has it.
    pub terminator: u32,
    /// The greatest length of a line, in symbols.
    pub limit: usize,
}

impl LineBounds {
    /// Returns whether a line may have a symbol.
    pub(crate) fn has(self, symbol: u32) -> bool
        ensures { result ≡ may self symbol }
    {
        self.alphabet.has(symbol) && symbol != self.terminator
    }

    // Returns whether a line may have all of these symbols.
    fn has_all(self, word: &[u32]) -> bool
        ensures { IsTrue result ↔ AreLetters (may self) word.now }
    {
        for symbol in word {
            if !self.has(*symbol) {
                return false;
            }
        }
        true
    }

    /// Returns whether these symbols may stand in a line, and fit in it.
    pub(crate) fn admits(self, word: &[u32]) -> bool
        ensures { IsTrue result ↔ (AreLetters (may self) word.now × (length word.now ≤ self.limit)) }
    {
        word.len() <= self.limit && self.has_all(word)
    }

    /// Returns the least symbol of a range that a line may have.
    pub(crate) fn first_between(self, low: u32, high: u32) -> Option<u32>
        ensures { MatchOption result (HasNoneIn (may self) low high) (IsFirstIn (may self) low high) }
    {
        if !self.alphabet.has_between(low, high) {
            return None;
        }
        for symbol in low..=high {
            if self.has(symbol) {
                return Some(symbol);
            }
        }
        None
    }

    // Returns the greatest number that is a symbol of the alphabet.
    fn greatest(self) -> u32
        ensures { (c : ℕ) → may self c ≡ true → c ≤ result }
    {
        match self.alphabet {
            Alphabet::Bytes => 255,
            Alphabet::Utf8 => 0x10_FFFF,
        }
    }

    /// Returns the greatest symbol of a range that a line may have.
    pub(crate) fn last_between(self, low: u32, high: u32) -> Option<u32>
        ensures { MatchOption result (HasNoneIn (may self) low high) (IsLastIn (may self) low high) }
    {
        let end = high.min(self.greatest());
        if end < low {
            return None;
        }
        for back in 0..=end - low {
            if self.has(end - back) {
                return Some(end - back);
            }
        }
        None
    }
}

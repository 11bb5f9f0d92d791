//! Alphabets of lines.
ghost use Rattle.std.specs.Prelude.{◌≡◌, ◌↔◌, IsTrue};
ghost use Rattle.ruletable.specs.Letters.{has, HasLetter};

/// The alphabet of a line.
#[derive(Clone, Copy, Debug, PartialEq, Eq)]
pub enum Alphabet {
    /// Bytes.
    Bytes,
    /// Code points outside the surrogates, written in UTF-8.
    Utf8,
}

impl Alphabet {
    /// Returns whether a value is that of a symbol: 0 to 255 for bytes, for code points 0 to 1,114,111 outside 55,296
    /// to 57,343.
    pub fn has(self, value: u32) -> bool
        ensures { result ≡ has self value }
    {
        match self {
            Alphabet::Bytes => value < 256,
            Alphabet::Utf8 => value < 55_296 || (57_344 <= value && value < 1_114_112),
        }
    }

    /// Returns whether one of the values from `low` to `high` is that of a symbol.
    pub fn has_between(self, low: u32, high: u32) -> bool
        ensures { IsTrue result ↔ HasLetter (has self) low high }
    {
        let first = if 55_296 <= low && low < 57_344 {
            57_344
        } else {
            low
        };
        first <= high && self.has(first)
    }
}

//! Symbols of a line.
ghost use Rattle.std.specs.Prelude.{◌≡◌, ◌≤◌, ℕ, true};
ghost use Rattle.ruletable.specs.declared.alphabet.Alphabet.{Alphabet};
ghost use Rattle.ruletable.specs.declared.alphabet.Alphabet.TheVariants.{Bytes};
ghost use Rattle.ruletable.specs.Letters.{has};

use crate::alphabet::Alphabet;

/// A symbol of a line, seen as a number, its value. Two symbols are equal exactly if their values are.
pub trait Letter: Copy {
    ghost number: { Self → ℕ };

    ghost GREATEST: { ℕ };

    ghost ALPHABET: { Alphabet };

    /// The greatest value of a symbol.
    const GREATEST: u32;

    /// The alphabet that the symbols are of.
    const ALPHABET: Alphabet;

    /// Returns the symbol's value, at most `GREATEST`. `ALPHABET` has it.
    fn value(self) -> u32
        ensures number { result ≡ number self }
        ensures greatest { result ≤ GREATEST }
        ensures letter { has ALPHABET result ≡ true };

    ghost same: { (a b : Self) → number a ≡ number b → a ≡ b };
}

impl Letter for u8 {
    ghost number = { λ b. b };

    ghost GREATEST = { 255 };

    ghost ALPHABET = { Bytes };

    const GREATEST: u32 = 255;

    const ALPHABET: Alphabet = Alphabet::Bytes;

    fn value(self) -> u32 {
        self as u32
    }

    ghost same = { λ a b is. is };
}

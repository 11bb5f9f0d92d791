//! Code points.
ghost use Rattle.std.specs.Prelude.{◌≡◌, Some, None, IfSome, IfNone};
ghost use Rattle.std.proofs.Common.{ap};
ghost use Rattle.ruletable.specs.declared.alphabet.Alphabet.TheVariants.{Utf8};
ghost use Rattle.ruletable.specs.Letters.{IsPoint};
ghost use Rattle.ruletable.specs.Utf8Text.{number};

use crate::alphabet::Alphabet;
use crate::letter::Letter;

/// A code point outside the surrogates: a number from 0 to 1,114,111 that is not one from 55,296 to 57,343. Contracts
/// see the number.
#[derive(Clone, Copy)]
pub struct CodePoint {
    /// The code point. A `char` has just these numbers.
    point: char,
}

impl CodePoint {
    /// Returns the code point of a number, or `None` for a surrogate and for a number above 1,114,111.
    pub fn new(value: u32) -> Option<CodePoint>
        ensures some { IfSome result (λ point. (number point ≡ value) × IsPoint value) }
        ensures none { IfNone result (IsPoint value → ⊥) }
    {
        let point = char::from_u32(value)?;
        Some(CodePoint { point })
    }

    /// Returns the code point of a character.
    pub(crate) fn of(point: char) -> CodePoint
        ensures { number result ≡ point }
    {
        CodePoint { point }
    }
}

impl Letter for CodePoint {
    ghost number = { number };

    ghost GREATEST = { 1114111 };

    ghost ALPHABET = { Utf8 };

    const GREATEST: u32 = 1_114_111;

    const ALPHABET: Alphabet = Alphabet::Utf8;

    fn value(self) -> u32 {
        self.point as u32
    }

    ghost same = { λ a b is. ap (λ v. record { point = v }) is };
}

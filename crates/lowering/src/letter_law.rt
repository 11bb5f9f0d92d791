//! A law of symbols.
ghost use Rattle.std.specs.Prelude.{map};
ghost use Rattle.abnfcheck.specs.Derivable.{AreLetters};
ghost use Rattle.ruletable.specs.Letters.{has};

use ruletable::Letter;

/// Returns nothing. Its contract is a law: the alphabet of a line's symbols has each of their values.
pub fn values_are_letters<L: Letter>(line: &[L])
    ensures { AreLetters (has L.ALPHABET) (map L.number line.now) }
{
    for letter in line {
        letter.value();
    }
}

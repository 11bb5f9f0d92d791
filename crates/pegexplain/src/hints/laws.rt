//! Laws of hints.
ghost use Rattle.std.specs.Prelude.{◌≡◌, ℕ, List};
ghost use Rattle.pegread.specs.Pattern.{Pattern, Rule};
ghost use Rattle.pegexplain.specs.HiddenAlternatives.{HiddenBy};
ghost use Rattle.pegexplain.specs.NeverTaken.{IsTaken, NeverTaken, ReportsNeverTaken};
ghost use Rattle.pegexplain.specs.PegHints.{ArePegHints};

use lexer::one_list;
use pegread::{Kind, one_reading};

/// Says that the hints on the grammar of a text are one text.
pub fn one_text_of_hints()
    ensures { (text a b : List ℕ) → ArePegHints text a → ArePegHints text b → a ≡ b }
{
    one_list::<Kind>();
    one_reading();
}

/// Says that an alternative is hidden exactly if it is never taken, and that no choice then comes to it on any input.
pub fn never_taken()
    ensures reports { ReportsNeverTaken }
    ensures never { (rules : List Rule) (x : List ℕ) (alternatives : List Pattern) (k p : ℕ) (hidden : HiddenBy) →
        NeverTaken rules alternatives k hidden → IsTaken rules x alternatives k p → ⊥ }
{}

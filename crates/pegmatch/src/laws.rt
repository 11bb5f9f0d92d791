//! Laws of what a matcher answers.
ghost use Rattle.std.specs.Prelude.{◌≡◌, ℕ, ◌≤◌, ◌++◌, true, List, length};
ghost use Rattle.gramcheck.specs.Grammar.{Grammar};
ghost use Rattle.gramcheck.specs.Outcome.{Outcome};
ghost use Rattle.pegmatch.specs.Answers.{StartGives, WasEnough};

use gramcheck::{longer_input_of_start, one_outcome_of_start, shorter_input_of_start};

/// States that a window has at most one answer.
pub fn one_answer()
    ensures { (g : Grammar) (window : List ℕ) (o c : Outcome) (looked far : ℕ) →
        StartGives g window o looked → StartGives g window c far → (o ≡ c) × (looked ≡ far) }
{
    one_outcome_of_start();
}

/// Says that the answer for a window that more bytes follow is what the start rule gives on every input with that
/// prefix.
pub fn answer_stands()
    ensures { (g : Grammar) (window rest : List ℕ) (o : Outcome) (looked : ℕ) →
        StartGives g window o looked → WasEnough window true looked → StartGives g (window ++ rest) o looked }
{
    longer_input_of_start();
}

/// States that the start rule looks at all of a window that was not enough, on every input that begins with it.
pub fn need_stands()
    ensures { (g : Grammar) (window rest : List ℕ) (o c : Outcome) (looked : ℕ) →
        StartGives g window o (length window) → StartGives g (window ++ rest) c looked → length window ≤ looked }
{
    one_outcome_of_start();
    shorter_input_of_start();
}

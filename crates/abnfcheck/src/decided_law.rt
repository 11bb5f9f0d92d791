//! Laws of derivation.
ghost use Rattle.std.specs.Prelude.{◌≡◌, ℕ, Bool, List};
ghost use Rattle.abnfread.specs.Element.{Rule};
ghost use Rattle.abnfcheck.specs.Prefixes.{IsFurthest};
ghost use Rattle.abnfcheck.specs.Decided.{Says};
ghost use Rattle.abnfcheck.specs.Derivable.{RuleDerives};

/// Returns nothing. Its contract is a law: for every line either a rule derives it or it does not.
pub fn derivation_is_decided()
    ensures { (has : ℕ → Bool) (rules : List Rule) (id : ℕ) (x : List ℕ) → (yes : Bool)
        × Says (RuleDerives has rules id x) yes }
{}

/// Returns nothing. Its contract is a law: the longest viable prefix of each line has one length.
pub fn furthest_is_found()
    ensures found { (has : ℕ → Bool) (rules : List Rule) (id : ℕ) (x : List ℕ) → (n : ℕ) × IsFurthest has rules id x n }
    ensures one { (has : ℕ → Bool) (rules : List Rule) (id : ℕ) (x : List ℕ) (a b : ℕ) →
        IsFurthest has rules id x a → IsFurthest has rules id x b → a ≡ b }
{}

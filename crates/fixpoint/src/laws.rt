//! Laws of chains.
ghost use Rattle.std.specs.Prelude.{◌≡◌, ℕ, ◌+◌, List, length, Option};
ghost use Rattle.fixpoint.specs.Distances.{Distance};
ghost use Rattle.fixpoint.specs.ShortChains.{ChainTo, IsChainIfReached, IsRoundIfAny};

/// Says that at most one chain to a number is returned, and that it is a shortest one. It does nothing.
pub fn one_chain()
    ensures one { (rows : List (List ℕ)) (s v : ℕ) (a b : Option (List ℕ)) → IsChainIfReached rows s v a
        → IsChainIfReached rows s v b → a ≡ b }
    ensures short { (rows : List (List ℕ)) (s v n : ℕ) (a : List ℕ) → ChainTo rows s v a → Distance rows s v n
        → length a ≡ n + 1 }
{}

/// Says that at most one cycle through a number is returned. It does nothing.
pub fn one_way_back()
    ensures { (rows : List (List ℕ)) (s : ℕ) (a b : Option (List ℕ)) → IsRoundIfAny rows s a → IsRoundIfAny rows s b
        → a ≡ b }
{}

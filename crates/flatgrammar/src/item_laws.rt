//! A law of items.
ghost use Rattle.std.specs.Prelude.{ℕ, ◌+◌, ◌*◌, ◌≤◌, List, length};
ghost use Rattle.flatgrammar.specs.Flat.{Flat, Dot};
ghost use Rattle.flatgrammar.specs.Holds.{Holds};
ghost use Rattle.flatgrammar.specs.Positions.{In, AreDifferent, positions};

/// Returns nothing. Its contract is a law: different items of set j are at most as many as dotted rules and origins
/// allow.
pub fn items_at_most()
    ensures { (flat : Flat) (x : List ℕ) (j : ℕ) (set : List (Dot × ℕ)) → AreDifferent set →
        ((p : Dot) (i : ℕ) → In {A = Dot × ℕ} (p, i) set → Holds flat x j p i)
        → length set ≤ positions flat.nodes * (j + 1) }
{}

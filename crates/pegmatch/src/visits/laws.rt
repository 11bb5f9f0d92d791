//! Laws of visited pairs.
ghost use Rattle.std.specs.Prelude.{ℕ, ◌<◌, ◌≤◌, List, length};
ghost use Rattle.pegread.specs.Pattern.{Rule};
ghost use Rattle.pegnodes.specs.Nodes.{Shape};
ghost use Rattle.gramcheck.specs.Sound.{IsRanked};
ghost use Rattle.pegmatch.specs.Visits.{Visits};

/// States that a visited pair is of a node that is there, and of a position of the input or its end.
pub fn visits_are_within()
    ensures { (rules : List Rule) (start : ℕ) (nodes : List Shape) (bodies ranks x : List ℕ) →
        IsRanked rules start nodes bodies ranks → (n p : ℕ) → Visits rules nodes bodies x start n p →
        (n < length nodes) × (p ≤ length x) }
{}

//! Laws of the explanation that no unit goes on.
ghost use Rattle.std.specs.Prelude.{◌≡◌, ◌<◌, ◌++◌, ℕ, List, Option, drop, length};
ghost use Rattle.gramcheck.specs.Outcome.{Outcome, RuleGives};
ghost use Rattle.gramcheck.specs.Sound.{IsRanked};
ghost use Rattle.pegnodes.specs.Nodes.{Shape};
ghost use Rattle.pegread.specs.Pattern.{Rule};
ghost use Rattle.matchfailure.specs.NoMatches.{IsNoMatchReported, IsUnitFailure, UnitFailure};

use crate::farthest::{farthest_or_none, one_farthest, same_on_longer};
use gramcheck::one_outcome_of_start;

/// Says that at most one text explains that no unit goes on after the last one of an input.
pub fn one_no_match()
    ensures { (rules : List Rule) (start : ℕ) (text : List ℕ) (before : Option ℕ) (last : ℕ) (a b : List ℕ) →
        IsNoMatchReported rules start text before last a → IsNoMatchReported rules start text before last b → a ≡ b }
{
    one_farthest();
    farthest_or_none();
    one_outcome_of_start();
}

/// States that a unit has the same farthest failure in a prefix of an input as in the whole input. The start rule must
/// look at fewer bytes than the prefix has from the unit's first byte on.
pub fn fails_so_in_input()
    ensures { (rules : List Rule) (start : ℕ) (nodes : List Shape) (bodies ranks text after : List ℕ) (unit k : ℕ)
        (o : Outcome) (failure : Option UnitFailure) → IsRanked rules start nodes bodies ranks →
        RuleGives rules start (drop unit text) o k → k < length (drop unit text) →
        IsUnitFailure rules start nodes bodies text unit failure →
        IsUnitFailure rules start nodes bodies (text ++ after) unit failure }
{
    same_on_longer();
}

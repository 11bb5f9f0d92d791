//! Laws of grammars whose ranks fall with every left step: in them every expression has one outcome at every position.
ghost use Rattle.std.specs.Prelude.{◌≡◌, ℕ, ◌<◌, ◌≤◌, List, length, slice_index};
ghost use Rattle.pegread.specs.Pattern.{Pattern, Rule};
ghost use Rattle.pegnodes.specs.Nodes.{Shape, Spells};
ghost use Rattle.gramcheck.specs.Outcome.{Outcome, Gives};
ghost use Rattle.gramcheck.specs.Ranks.{NodeStep};
ghost use Rattle.gramcheck.specs.Sound.{IsRanked, GivesOne, StartGivesOne};
ghost use Rattle.pegnodes.specs.Within.{StandsIn};

/// States that a left step leads to a node, and lowers the rank.
pub fn ranks_fall()
    ensures { (rules : List Rule) (start : ℕ) (nodes : List Shape) (bodies ranks : List ℕ) (n m : ℕ) →
        IsRanked rules start nodes bodies ranks → NodeStep rules nodes bodies n m →
        (m < length nodes) × (slice_index ranks m < slice_index ranks n) }
{}

/// States that every expression that a node spells gives an outcome at every position of the input.
pub fn some_outcome_of_ranked()
    ensures { (rules : List Rule) (start : ℕ) (nodes : List Shape) (bodies ranks x : List ℕ) (n p : ℕ) (e : Pattern) →
        IsRanked rules start nodes bodies ranks → Spells rules nodes n e → p ≤ length x →
        (o : Outcome) × (k : ℕ) × Gives rules x e p o k }
{}

/// States that every expression that stands in a rule's body gives exactly one outcome at every position of the input.
pub fn exactly_one_outcome()
    ensures { (rules : List Rule) (start : ℕ) (nodes : List Shape) (bodies ranks x : List ℕ) (e : Pattern) (p : ℕ) →
        IsRanked rules start nodes bodies ranks → StandsIn rules e → p ≤ length x → GivesOne rules x e p }
{}

/// States that the start rule gives exactly one outcome on every input.
pub fn exactly_one_outcome_of_start()
    ensures { (rules : List Rule) (start : ℕ) (nodes : List Shape) (bodies ranks x : List ℕ) →
        IsRanked rules start nodes bodies ranks → StartGivesOne rules start x }
{}

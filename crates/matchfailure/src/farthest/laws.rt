//! Laws of failing comparisons.
ghost use Rattle.std.specs.Prelude.{◌≡◌, ◌<◌, ◌≤◌, ◌++◌, ℕ, List, length};
ghost use Rattle.pegread.specs.Pattern.{Pattern, Rule};
ghost use Rattle.pegnodes.specs.Nodes.{Shape, Spells};
ghost use Rattle.gramcheck.specs.Outcome.{Gives, Outcome, RuleGives};
ghost use Rattle.gramcheck.specs.Sound.{IsRanked};
ghost use Rattle.matchfailure.specs.declared.farthest.visit.Visit.{Visit};
ghost use Rattle.matchfailure.specs.Farthest.{IsFarthest, NoneFails, LeafStops, IsLeafNode};
ghost use Rattle.matchfailure.specs.VisitLists.{AreWithin};

/// States that a start rule has at most one farthest failing comparison outside of `!`, and one list of what is
/// expected there.
pub fn one_farthest()
    ensures { (rules : List Rule) (nodes : List Shape) (bodies x : List ℕ) (start f h : ℕ) (vs ws : List Visit) →
        IsFarthest rules nodes bodies x start f vs → IsFarthest rules nodes bodies x start h ws →
        (f ≡ h) × (vs ≡ ws) }
{}

/// States that no unit has both a farthest failing comparison outside of `!` and none that fails there.
pub fn farthest_or_none()
    ensures { (rules : List Rule) (nodes : List Shape) (bodies x : List ℕ) (start f : ℕ) (vs : List Visit) →
        IsFarthest rules nodes bodies x start f vs → NoneFails rules nodes bodies x start → ⊥ }
{}

/// States that a node whose comparison fails at some byte gives a failure.
pub fn stops_fail()
    ensures { (rules : List Rule) (nodes : List Shape) (x : List ℕ) (n p f : ℕ) (e : Pattern) →
        Spells rules nodes n e → LeafStops nodes x n p f → (k : ℕ) × Gives rules x e p Outcome.Fails k }
{}

/// States that a leaf that gives a failure makes a comparison that fails at some byte.
pub fn failing_leaf_stops()
    ensures { (rules : List Rule) (nodes : List Shape) (x : List ℕ) (n p k : ℕ) (e : Pattern) →
        Spells rules nodes n e → IsLeafNode nodes n → Gives rules x e p Outcome.Fails k →
        (f : ℕ) × LeafStops nodes x n p f }
{}

/// States that the farthest failures of a start rule that looks at less than a text are the same on every input that
/// begins with the text. If no comparison fails outside of `!`, none fails on such an input.
pub fn same_on_longer()
    ensures far { (rules : List Rule) (start : ℕ) (nodes : List Shape) (bodies ranks x y : List ℕ) (k f : ℕ)
        (o : Outcome) (vs : List Visit) → IsRanked rules start nodes bodies ranks → RuleGives rules start x o k →
        k < length x → IsFarthest rules nodes bodies x start f vs → IsFarthest rules nodes bodies (x ++ y) start f vs }
    ensures none { (rules : List Rule) (start : ℕ) (nodes : List Shape) (bodies ranks x y : List ℕ) (k : ℕ)
        (o : Outcome) → IsRanked rules start nodes bodies ranks → RuleGives rules start x o k → k < length x →
        NoneFails rules nodes bodies x start → NoneFails rules nodes bodies (x ++ y) start }
{}

/// States that the farthest byte at which a comparison fails is one of the text or its end. The leaves that were
/// expected there are nodes of the grammar, which begin in the text or at its end.
pub fn farthest_is_within()
    ensures position { (rules : List Rule) (start : ℕ) (nodes : List Shape) (bodies ranks x : List ℕ) (f : ℕ)
        (vs : List Visit) → IsRanked rules start nodes bodies ranks → IsFarthest rules nodes bodies x start f vs →
        f ≤ length x }
    ensures expected { (rules : List Rule) (start : ℕ) (nodes : List Shape) (bodies ranks x : List ℕ) (f : ℕ)
        (vs : List Visit) → IsRanked rules start nodes bodies ranks → IsFarthest rules nodes bodies x start f vs →
        AreWithin (length nodes) (length x) vs }
{}

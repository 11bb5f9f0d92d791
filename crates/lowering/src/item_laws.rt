//! The law of flat grammars and rules.
ghost use Rattle.std.specs.Prelude.{◌≡◌, ◌↔◌, ℕ, ◌≤◌, List, Bool, Some, length, slice_get};
ghost use Rattle.abnfread.specs.Element.{Element, Rule, bodies};
ghost use Rattle.abnfcheck.specs.Derivable.{AreLetters, RuleDerives};
ghost use Rattle.flatgrammar.specs.Flat.{Flat, Dot, Name, Starts};
ghost use Rattle.flatgrammar.specs.OldItems.{HasPart, IsOld};
ghost use Rattle.flatgrammar.specs.FlatVerdicts.{DerivesLine, IsFlatVerdict};
ghost use Rattle.flatgrammar.specs.declared.verdict.Verdict.{Verdict as the_verdict};
ghost use Rattle.lowering.specs.AwaitedParts.{IsAwaited, StandsIn, element_at};
ghost use Rattle.lowering.specs.Lowered.{IsLowered};
ghost use Rattle.lowering.specs.GivenPrefixes.{GivesPrefixes};
ghost use Rattle.lowering.specs.Pruned.{ArePruned};
ghost use Rattle.lowering.specs.Verdicts.{IsVerdict};

/// Returns nothing. Its contract is a law: on lines within its limit a flat grammar answers for the judged rule.
///
/// The flat grammar of `lower` derives a line exactly if the rule does. The verdict of the flat grammar of
/// `lower_viable` is that of the rule, with the longest viable prefix. A name or terminal at a site of a rule's body
/// can come next after a prefix exactly if an item of its last set, of a rule that began before, calls or reads it. It
/// is the element at that site. One list of rules is left of rules without what derives nothing. A flat grammar of it
/// gives the prefixes of the rules. The node of a name whose rule derives a line has a start.
pub fn items_decide()
    ensures derives { (has : ℕ → Bool) (rules : List Rule) (judged : ℕ) (flat : Flat) (x : List ℕ) →
        IsLowered rules judged flat → length x ≤ flat.limit → AreLetters has x →
        DerivesLine flat x ↔ RuleDerives has rules judged x }
    ensures verdict { (has : ℕ → Bool) (rules : List Rule) (judged : ℕ) (flat : Flat) (x : List ℕ)
        (verdict : the_verdict) → GivesPrefixes has rules judged flat → length x ≤ flat.limit → AreLetters has x →
        IsFlatVerdict flat x verdict → IsVerdict has rules judged x verdict }
    ensures awaited { (has : ℕ → Bool) (rules : List Rule) (judged : ℕ) (flat : Flat) (x : List ℕ) →
        IsLowered rules judged flat → length x ≤ flat.limit → AreLetters has x → (rule top s n k : ℕ) (site : List ℕ) →
        slice_get flat.bodies rule ≡ Some top → StandsIn flat top site s →
        ((part : Element) × IsAwaited has rules judged x n rule site part k) ↔ HasPart flat x n (IsOld flat x n) s k }
    ensures element { (has : ℕ → Bool) (rules : List Rule) (judged : ℕ) (x : List ℕ) (n rule k : ℕ) (site : List ℕ)
        (body part : Element) → slice_get (bodies rules) rule ≡ Some body →
        IsAwaited has rules judged x n rule site part k → element_at body site ≡ Some part }
    ensures prefixes { (has : ℕ → Bool) (rules left : List Rule) (judged : ℕ) (flat : Flat) → ArePruned has rules left →
        IsLowered left judged flat → GivesPrefixes has rules judged flat }
    ensures pruned { (has : ℕ → Bool) (rules left other : List Rule) → ArePruned has rules left →
        ArePruned has rules other → left ≡ other }
    ensures starts { (has : ℕ → Bool) (rules : List Rule) (judged : ℕ) (flat : Flat) → IsLowered rules judged flat →
        (s id : ℕ) (w : List ℕ) → slice_get flat.nodes s ≡ Some (Name id) → RuleDerives has rules id w →
        (p : Dot) × Starts flat s p }
{}

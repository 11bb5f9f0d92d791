//! Laws of stacks of dotted rules.
ghost use Rattle.std.specs.Prelude.{◌≡◌, ◌↔◌, ◌++◌, ◌+◌, ◌∷◌, ℕ, true, false, Bool, List, [], Some, Contains};
ghost use Rattle.std.specs.Prelude.{slice_get};
ghost use Rattle.flatgrammar.specs.Flat.{Flat, Dot, Concat};
ghost use Rattle.flatgrammar.specs.Holds.{Holds, HasItem};
ghost use Rattle.flatgrammar.specs.OldItems.{IsOld, Walks};
ghost use Rattle.flatgrammar.specs.Stacks.{node_at, Reach, Accepts, ReadBy, MarksLast, AreUncounted, AreAlike, IsPlain};
ghost use Rattle.flatgrammar.specs.Stacks.{IsStackClosure, IsNext, IsResumed, Lifted, IsReading};

/// Returns nothing. Its contract is a law: stacks and item sets hold the same dotted rules, and accept the same lines.
pub fn stacks_decide()
    ensures { (flat : Flat) (last : Dot → Bool) (body : ℕ) (x : List ℕ) → MarksLast flat last → AreUncounted flat
        → slice_get flat.nodes flat.start ≡ Some (Concat (body ∷ [])) → (j : ℕ) →
        (Accepts flat last x j ↔ Holds flat x j (Dot.at flat.start 1) 0) ×
        (((stack : List Dot) × Reach flat last x j stack) ↔ HasItem flat x j) }
{}

/// Returns nothing. Its contract is a law of rules under way: after a symbol, a walk without one into no rule has on
/// top of its stacks the dotted rules of the items of the next set that belong to rules which began before.
pub fn walks_find_old_items()
    ensures { (flat : Flat) (last : Dot → Bool) (x : List ℕ) (j c : ℕ) (p : Dot) → MarksLast flat last
        → AreUncounted flat → slice_get x j ≡ Some c → last p ≡ false →
        ((below : List Dot) × Walks flat last (ReadBy flat last (Reach flat last x j) c) (p ∷ below))
        ↔ ((i : ℕ) × Holds flat x (j + 1) p i × IsOld flat x (j + 1) (node_at p) i) }
{}

/// Returns nothing. Its contract is a law of transitions, each computed from tops alone and for one symbol of a class.
/// It leads from the front before a symbol of that class to the front after it. Something is reached after the symbol
/// exactly if a top reads it.
pub fn a_letter_leads_on()
    ensures { (flat : Flat) (last : Dot → Bool) (x : List ℕ) (j c d : ℕ) → slice_get x j ≡ Some c →
        AreAlike flat c d → (tops : List (List Dot)) (below : List Dot) →
        IsPlain flat last x j (Contains tops) below →
        (((stack : List Dot) × Reach flat last x (j + 1) stack) ↔ ((top : List Dot)
        × ReadBy flat last (Contains tops) d top)) ×
        ((next : List (List Dot)) (ended : Bool) → IsNext flat last (Contains tops) d (Contains next) ended →
        IsStackClosure flat last x (j + 1) (Contains next) ended below) }
{}

/// Returns nothing. Its contract is a law of shared suffixes. A suffix of all tops can be split off. Tops of which one
/// has ended are put back on the suffix. A front that has not ended, or has nothing below, is plain.
pub fn suffixes_are_moved()
    ensures { (flat : Flat) (last : Dot → Bool) (x : List ℕ) (j : ℕ) (tops : List (List Dot)) →
        ((suffix below : List Dot) (next : List (List Dot)) (ended : Bool) → (suffix ≡ [] → ⊥) →
        IsStackClosure flat last x j (Contains tops) true (suffix ++ below) → IsResumed flat last (Contains tops) suffix
        (Contains next) ended → IsStackClosure flat last x j (Contains next) ended below) ×
        ((base : List (List Dot)) (suffix below : List Dot) → IsPlain flat last x j (Contains tops) below →
        ((top : List Dot) → Contains tops top ↔ Lifted (Contains base) suffix top) →
        ((top : List Dot) → Contains base top → IsReading flat top) →
        IsPlain flat last x j (Contains base) (suffix ++ below)) ×
        ((below : List Dot) → IsStackClosure flat last x j (Contains tops) false below →
        IsPlain flat last x j (Contains tops) below) ×
        ((ended : Bool) → IsStackClosure flat last x j (Contains tops) ended []
        → IsPlain flat last x j (Contains tops) []) }
{}

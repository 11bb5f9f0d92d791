//! A law of notes.
ghost use Rattle.std.specs.Prelude.{◌≡◌, ℕ, List, Option};
ghost use Rattle.abnfread.specs.Element.{Rule};
ghost use Rattle.ruletable.specs.Notes.{Said};
ghost use Rattle.abnfcheck.specs.AbnfNotes.{AreNotes};

/// Returns nothing. Its contract is a law: there is at most one list of notes on a grammar in ABNF.
pub fn one_list_of_abnf_notes()
    ensures { (file rules : List Rule) (again early : List ℕ) (given : Option (List ℕ)) (a b : List Said) →
        AreNotes file rules again early given a → AreNotes file rules again early given b → a ≡ b }
{}

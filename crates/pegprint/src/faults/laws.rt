//! Laws of what explains faults: they have one text, and no kind of token is left out.
ghost use Rattle.std.specs.Prelude.{◌≡◌, ℕ, List};
ghost use Rattle.ruletable.specs.declared.fault.ReadFault.{ReadFault};
ghost use Rattle.diagnostics.specs.ReportedPhrases.{AreAllReported, ReportAll};
ghost use Rattle.pegread.specs.Reading.{IsHopeless};
ghost use Rattle.pegread.specs.Tokens.{Tok};
ghost use Rattle.pegprint.specs.PegExpected.{CanStand, phrases};
ghost use Rattle.pegprint.specs.PegAllFaults.{ExplainsAll};

/// Says that at most one text explains the faults of a grammar's text.
pub fn one_explanation()
    ensures { (text : List ℕ) (fault : ReadFault) (a b : List ℕ) → ExplainsAll text fault a
        → ExplainsAll text fault b → a ≡ b }
{}

/// Says that an explanation leaves nothing out: a kind of token can stand in place of the token that decides exactly if
/// a reported phrase means it.
pub fn nothing_left_out()
    ensures { (all : List Tok) (i : ℕ) (reported : List (List ℕ)) → IsHopeless all i
        → AreAllReported (CanStand all i) phrases reported → ReportAll (CanStand all i) phrases reported }
{}

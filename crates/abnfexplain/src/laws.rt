//! Laws of what explains a fault of ABNF: it is one text, and leaves nothing out that could stand there.
ghost use Rattle.std.specs.Prelude.{◌≡◌, ℕ, List};
ghost use Rattle.ruletable.specs.declared.fault.ReadFault.{ReadFault};
ghost use Rattle.diagnostics.specs.ReportedPhrases.{AreAllReported, ReportAll};
ghost use Rattle.abnfread.specs.AbnfSays.{IsHopeless};
ghost use Rattle.abnfread.specs.MarkedTokens.{Marked};
ghost use Rattle.abnfexplain.specs.AbnfAllFaults.{ExplainsAll};
ghost use Rattle.abnfexplain.specs.AbnfExpected.{CanStand, phrases};
ghost use Rattle.abnfexplain.specs.AbnfExplained.{Explains};

/// Says that at most one text explains the first fault of a grammar's text in ABNF.
pub fn one_explanation_of_abnf()
    ensures { (text : List ℕ) (fault : ReadFault) (a b : List ℕ) → Explains text fault a → Explains text fault b
        → a ≡ b }
{}

/// Says that at most one text explains the faults of a grammar's text in ABNF.
pub fn one_explanation_of_abnf_faults()
    ensures { (text : List ℕ) (fault : ReadFault) (a b : List ℕ) → ExplainsAll text fault a
        → ExplainsAll text fault b → a ≡ b }
{}

/// Says that the phrases of a fault in ABNF leave nothing out. A kind of token with these marks can stand in place of
/// the token that decides exactly if a reported phrase means it.
pub fn nothing_left_out_of_abnf()
    ensures { (all : List Marked) (i : ℕ) (reported : List (List ℕ)) → IsHopeless all i
        → AreAllReported (CanStand all i) phrases reported → ReportAll (CanStand all i) phrases reported }
{}

//! The law of a grammar that was read once: it gives what a run reports.
ghost use Rattle.std.specs.Prelude.{◌≡◌, ℕ, List, Some};
ghost use Rattle.gramcheck.specs.Grammar.{Grammar};
ghost use Rattle.pegexplain.specs.PegNotes.{ExplainsNote};
ghost use Rattle.pegexplain.specs.PegHints.{ArePegHints};
ghost use Rattle.pegread.specs.PegViews.{rules_of};
ghost use Rattle.pegrun.specs.Answers.{States};
ghost use Rattle.pegrun.specs.OpenPeg.{IsPegOpened};
ghost use Rattle.pegrun.specs.PegReply.{RunStates};
ghost use Rattle.ruletable.specs.Notes.{Said};
ghost use Rattle.toolrun.specs.Input.{Input};
ghost use Rattle.toolrun.specs.Reply.{Reply};
ghost use Rattle.toolrun.specs.ReportedNotes.{HintedNotes};
ghost use Rattle.toolrun.specs.declared.settings.Mode.TheVariants.{Run};
ghost use Rattle.pegrun.specs.PegSettings.{PegSettings};

/// Says that a run of an open grammar states what a run of its text states after the notes and hints. It does nothing.
pub fn runs_as_a_run()
    ensures { (text : List ℕ) (settings : PegSettings) (input : Input) (notes : List Said) (reported : List ℕ)
        (grammar : Grammar) (stated : Reply) → settings.mode ≡ Run → IsPegOpened text settings notes (Some grammar) →
        HintedNotes settings (ExplainsNote text) (ArePegHints text) notes reported →
        RunStates (rules_of grammar.rules) grammar.start settings input stated →
        States text settings input reported stated }
{}

//! The law of a grammar that was read once: it answers as a run does.
ghost use Rattle.std.specs.Prelude.{◌≡◌, ◌≤◌, ℕ, List, Some, length};
ghost use Rattle.abnfrun.specs.AbnfExplainedNotes.{ExplainsAbnfNote};
ghost use Rattle.abnfread.specs.AbnfViews.{rules_of};
ghost use Rattle.abnfrun.specs.AbnfAnswers.{AbnfStates};
ghost use Rattle.abnfrun.specs.AbnfReply.{IsAnswerTo, form_of};
ghost use Rattle.abnfrun.specs.OpenAbnf.{IsOpened, ReportsAlone, answer_alone, judged_line, line_alone};
ghost use Rattle.abnfrun.specs.AbnfTextHints.{AreTextHints};
ghost use Rattle.abnfrun.specs.OpenJudge.{OpenJudge};
ghost use Rattle.linejudge.specs.InputLines.{HasNoEnd};
ghost use Rattle.linejudge.specs.declared.answers.Answer.{Answer};
ghost use Rattle.ruletable.specs.Notes.{Said};
ghost use Rattle.toolrun.specs.ReportedNotes.{HintedNotes};
ghost use Rattle.toolrun.specs.declared.settings.Mode.TheVariants.{Run};
ghost use Rattle.abnfrun.specs.AbnfSettings.{AbnfSettings};

/// Returns nothing. Its contract is a law: the answer of an open grammar to a line is that of a run on this line alone.
/// The line has its end if settings ask that ends are judged. The run writes its notes and hints first, and the
/// explanation of a rejected line if that is asked.
pub fn answers_as_a_run()
    ensures { (text line : List ℕ) (settings : AbnfSettings) (notes : List Said) (reported : List ℕ) (judge : OpenJudge)
        (said : Answer) (why : List ℕ) → settings.mode ≡ Run → IsOpened text settings notes (Some judge) →
        HintedNotes settings (ExplainsAbnfNote text) (AreTextHints text settings) notes reported →
        HasNoEnd (form_of settings).end line →
        length (judged_line settings line) ≤ judge.limit →
        IsAnswerTo judge.letters judge.viable (rules_of judge.grammar.rules) judge.grammar.judged
        (judged_line settings line) said → ReportsAlone judge settings (judged_line settings line) said why →
        AbnfStates text settings (line_alone settings line) reported (answer_alone settings line said why) }
{}

//! The language of ABNF, whose grammars judge the lines of an input.
ghost use Rattle.std.specs.Prelude.{IfOk, Some, map};
ghost use Rattle.ruletable.specs.Notes.{said_of};
ghost use Rattle.abnfexplain.specs.AbnfAllFaults.{ExplainsAll};
ghost use Rattle.abnfexplain.specs.AbnfNoteLines.{AreAbnfPositions};
ghost use Rattle.abnfread.specs.AbnfReading.{IsFaultOf};
ghost use Rattle.abnfread.specs.AbnfViews.{rules_of};
ghost use Rattle.abnfprint.specs.CanonicalAbnf.{grammar_text};
ghost use Rattle.abnfrun.specs.AbnfAnswers.{AbnfStates};
ghost use Rattle.abnfcheck.specs.AbnfGrammar.{IsSoundGrammar};
ghost use Rattle.abnfrun.specs.AbnfExplainedNotes.{AreAllRules, AreNotePositions, ExplainsAbnfNote};
ghost use Rattle.abnfrun.specs.AbnfTextHints.{AreTextHints};
ghost use Rattle.abnfrun.specs.AbnfLanguage.{IsChecked, IsPrintable, IsReadAs};
ghost use Rattle.abnfrun.specs.AbnfNoted.{AreRedefinitions};
ghost use Rattle.abnfrun.specs.AbnfReply.{JudgeReply};

use crate::abnf_positions::AbnfPositions;
use crate::hints::hints_of;
use crate::line_judge::{
    LineJudge, Work, explainer_of, line_form, line_unit, lines_have_answers, lowered,
};
use crate::note_positions::{explain_reached, note_positions};
use crate::options::{AbnfOptions, AbnfSettings};
use abnfcheck::{AllRules, JudgedAbnf, SoundAbnf, judge_abnf};
use abnfexplain::{AbnfText, explain_abnf_faults, read_abnf_text};
use abnfprint::print_abnf;
use abnfread::{Abnf, read_abnf};
use diagnostics::Positions;
use feed::Source;
use fixpoint::{marks_at, note_marked};
use linejudge::run_lines;
use ruletable::{Memory, Note, NoteKind, ReadFault, Sink, WriteFault};
use std::alloc::Global;
use toolrun::{Checked, Ending, Language, ReadText, Stop};

/// Returns the notes on the rules that a grammar defines again, alone, by the order of the rules.
fn redefined_in(alloc: Global, abnf: &Abnf) -> Result<Vec<Note>, Memory>
    ensures { IfOk result (λ notes. AreRedefinitions (rules_of abnf.now.rules) abnf.now.redefined.items
        (map said_of notes.items)) }
{
    let marks = marks_at(alloc, &abnf.redefined, abnf.rules.len())?;
    let mut notes = Vec::new(alloc);
    note_marked(alloc, &abnf.rules, &marks, NoteKind::Redefined, &mut notes)?;
    Ok(notes)
}

/// The language of ABNF.
pub struct AbnfLanguage;

impl Language for AbnfLanguage {
    type Options = AbnfOptions;

    type Grammar = Abnf;

    type Rules = AllRules;

    type Judged = usize;

    type Sound = SoundAbnf;

    type TextPositions = Positions;

    type Positions = AbnfPositions;

    ghost states = { AbnfStates };

    ghost has_fault = { IsFaultOf };

    ghost explains = { ExplainsAll };

    ghost are_text_positions = { AreAbnfPositions };

    ghost are_positions = { AreNotePositions };

    ghost explains_note = { ExplainsAbnfNote };

    ghost are_hints = { AreTextHints };

    ghost is_read = { λ text abnf. IsReadAs text abnf.rules abnf.core abnf.redefined.items abnf.extended.items };

    ghost are_rules = { λ text all. AreAllRules text all.rules all.count };

    ghost held = { λ positions. positions.all };

    ghost is_checked = { λ text start notes all judged. IsChecked text start notes all.rules judged };

    ghost belongs = { λ all id. IsSoundGrammar (record { rules = all.rules; judged = id }) };

    ghost is_ready = { λ text start notes abnf. IsChecked text start notes abnf.rules (Some abnf.judged) };

    ghost is_printable = { λ text abnf again. IsPrintable text (rules_of abnf.rules) again };

    ghost canonical = { λ abnf. grammar_text (rules_of abnf.rules) };

    ghost runs = { λ abnf. JudgeReply (rules_of abnf.rules) abnf.judged };

    fn read(
        alloc: Global,
        text: &[u8],
        explain: bool,
    ) -> Result<ReadText<Abnf, Positions>, ReadFault> {
        if !explain {
            let grammar = read_abnf(alloc, text)?;
            return Ok(ReadText {
                grammar,
                positions: None,
            });
        }
        let AbnfText { abnf, positions } = read_abnf_text(alloc, text)?;
        Ok(ReadText {
            grammar: abnf,
            positions: Some(positions),
        })
    }

    fn explain_fault(alloc: Global, text: &[u8], fault: ReadFault) -> Result<Vec<u8>, Memory> {
        explain_abnf_faults(alloc, text, fault)
    }

    fn positions(
        alloc: Global,
        found: Positions,
        rules: AllRules,
        start: Option<&str>,
    ) -> Result<AbnfPositions, Memory> {
        note_positions(alloc, found, rules, start)
    }

    fn into_rules(positions: AbnfPositions) -> AllRules {
        positions.all
    }

    fn explain_note(
        alloc: Global,
        positions: &AbnfPositions,
        start: Option<&str>,
        note: &Note,
    ) -> Result<Vec<u8>, Memory> {
        explain_reached(alloc, positions, start, note)
    }

    fn hints(
        alloc: Global,
        positions: &AbnfPositions,
        settings: &AbnfSettings<'_>,
    ) -> Result<Vec<u8>, Memory> {
        hints_of(alloc, positions, settings)
    }

    fn check(
        alloc: Global,
        grammar: Abnf,
        start: Option<&str>,
    ) -> Result<Checked<AllRules, usize>, Memory> {
        let JudgedAbnf { notes, all, judged } = judge_abnf(alloc, grammar, start)?;
        Ok(Checked {
            notes,
            rules: all,
            judged,
        })
    }

    fn ready(_alloc: Global, rules: AllRules, judged: usize) -> Result<SoundAbnf, Memory> {
        Ok(SoundAbnf::new(rules.rules, judged))
    }

    fn redefinitions(alloc: Global, grammar: &Abnf) -> Result<Vec<Note>, Memory> {
        redefined_in(alloc, grammar)
    }

    fn print<O: Sink>(grammar: &Abnf, out: &mut O) -> Result<(), WriteFault> {
        print_abnf(grammar, out)
    }

    fn run<R: Source, O: Sink>(
        alloc: Global,
        grammar: &SoundAbnf,
        settings: &AbnfSettings<'_>,
        reader: &mut R,
        out: &mut O,
    ) -> Result<Ending, WriteFault> {
        lines_have_answers();
        let Ok(flat) = lowered(alloc, grammar, settings) else {
            return Ok(Ending::Plain(Stop::NoMemory));
        };
        let explainer = explainer_of(alloc, grammar, settings);
        let mut work = Work::new(alloc, grammar, settings, &flat);
        let explainer = explainer.as_ref();
        let judge = LineJudge {
            grammar,
            letters: settings.options.letters,
            viable: settings.options.viable,
            budget: settings.options.budget,
            flat: &flat,
            explains: settings.explain,
            unit: line_unit(settings.options.nul),
            explainer,
        };
        run_lines(alloc, &judge, &mut work, line_form(settings), reader, out)
    }

    fn follows() {
        lines_have_answers();
    }
}

//! A grammar in ABNF that is read once, and judges lines as often as asked.
ghost use Rattle.std.specs.Prelude.{◌≡◌, ◌≤◌, length, map, IfErr, IfOk};
ghost use Rattle.abnfread.specs.AbnfReading.{IsFaultOf};
ghost use Rattle.abnfread.specs.AbnfViews.{rules_of};
ghost use Rattle.abnfrun.specs.AbnfExplainedNotes.{ExplainsAbnfNote};
ghost use Rattle.abnfrun.specs.AbnfReply.{IsAnswerTo, NeedsMoreItems, judged_size};
ghost use Rattle.abnfrun.specs.AbnfTextHints.{AreTextHints};
ghost use Rattle.abnfrun.specs.OpenAbnf.{IsOpened};
ghost use Rattle.linejudge.specs.InputLines.{IsNoAnswer};
ghost use Rattle.ruletable.specs.Notes.{said_of};
ghost use Rattle.toolrun.specs.ReportedNotes.{HintedNotes};

use crate::abnf_language::AbnfLanguage;
use crate::line_judge::{LineJudge, Work, lowered};
use crate::options::AbnfSettings;
use abnfcheck::SoundAbnf;
use flatgrammar::Flat;
use linejudge::{Answer, Judge, NoAnswer};
use refusedlines::LineUnit;
use ruletable::{Alphabet, Memory, Note, ReadFault};
use std::alloc::Global;
use std::marker::Model;
use toolrun::{Opened, open};

/// An open grammar, read, checked and lowered once, that judges lines.
///
/// `flat` is lowered from `grammar`. With `viable` it has the productive parts alone, for the alphabet: then a prefix
/// with a symbol is viable exactly if its item set has an item. `work` keeps the automaton of earlier lines; no answer
/// depends on it.
#[derive(Drop)]
pub struct AbnfJudge {
    /// The grammar.
    grammar: SoundAbnf,
    /// The alphabet of lines.
    letters: Alphabet,
    /// Whether a rejection reports the length of the longest viable prefix.
    viable: bool,
    /// How many items the sets of a line may have; any number if it is `None`.
    budget: Option<usize>,
    /// The lowered grammar.
    flat: Flat,
    /// The chart, the automaton and the code points, which serve line after line.
    work: Work,
}

impl Model for AbnfJudge {
    ghost use Rattle.std.specs.Coded.{codes};
    ghost use Rattle.abnfread.specs.contracts.elem.Elem as e;
    ghost use Rattle.abnfrun.specs.OpenJudge.{OpenJudge, IsReadyFor};

    ghost Value = { OpenJudge };

    ghost coded = { Prim.hlevel (codes, e.the_row.coded) };

    ghost view = { λ j. record {
      grammar = j.grammar;
      letters = j.letters;
      viable = j.viable;
      budget = j.budget;
      limit = j.flat.limit;
    } };

    ghost invariant = { λ j. IsReadyFor j.grammar j.letters j.viable j.flat j.work.engines.automaton };
}

impl AbnfJudge {
    /// Returns how many bytes a line may have.
    pub fn limit(&self) -> usize
        ensures { result ≡ self.now.limit }
    {
        self.flat.limit()
    }

    /// Returns the answer to a line, as a run of the grammar writes it. `Memory` if an allocation fails, `Costly` if
    /// the line needs more items than the budget.
    pub fn judge(&mut self, line: &[u8]) -> Result<Answer, NoAnswer>
        requires within { length line.now ≤ self.old.limit }
        ensures same { self.new ≡ self.old }
        ensures answer { IfOk result (IsAnswerTo self.old.letters self.old.viable (rules_of self.old.grammar.rules)
            self.old.grammar.judged line.now) }
        ensures costly { IfErr result (IsNoAnswer (NeedsMoreItems self.old.budget self.old.letters self.old.viable
            (rules_of self.old.grammar.rules) self.old.grammar.judged line.now)) }
    {
        let judge = LineJudge {
            grammar: &self.grammar,
            letters: self.letters,
            viable: self.viable,
            budget: self.budget,
            flat: &self.flat,
            explains: false,
            unit: LineUnit::Line,
            explainer: None,
        };
        judge.judge(&mut self.work, line)
    }
}

/// The result of opening a grammar.
#[derive(Drop)]
pub struct OpenedAbnf {
    /// The notes on the grammar, in order.
    pub notes: Vec<Note>,
    /// Their text, as a run writes it: each explained, with hints after them, if settings ask for that.
    pub diagnostics: Vec<u8>,
    /// Its judge of lines, unless notes reject it.
    pub judge: Option<AbnfJudge>,
}

/// Makes the judge of lines by a grammar, as settings ask. `Memory` if an allocation fails.
fn judge_by(
    alloc: Global,
    grammar: SoundAbnf,
    settings: &AbnfSettings<'_>,
) -> Result<AbnfJudge, Memory>
    ensures { IfOk result (λ j. j ≡ record {
      grammar = grammar;
      letters = settings.now.options.letters;
      viable = settings.now.options.viable;
      budget = settings.now.options.budget;
      limit = judged_size settings.now settings.now.limit;
    }) }
{
    let flat = lowered(alloc, &grammar, settings)?;
    let work = Work::new(alloc, &grammar, settings, &flat);
    Ok(AbnfJudge {
        grammar,
        letters: settings.options.letters,
        viable: settings.options.viable,
        budget: settings.options.budget,
        flat,
        work,
    })
}

/// Reads and checks a grammar's text. Returns the notes on it, their text, explained if settings ask for that, and what
/// judges lines by it as settings ask: by the rule that they name, within their limit and their budget. They say what
/// symbols are, whether the longest viable prefix is asked for, and whether lines have their ends. All else of them is
/// ignored. Fails by the text's fault if it is not a grammar, or if an allocation fails.
pub fn open_abnf(
    alloc: Global,
    text: &[u8],
    settings: &AbnfSettings<'_>,
) -> Result<OpenedAbnf, ReadFault>
    ensures opened { IfOk result (λ o. IsOpened text.now settings.now (map said_of o.notes.items) o.judge) }
    ensures diagnostics { IfOk result (λ o. HintedNotes settings.now (ExplainsAbnfNote text.now)
        (AreTextHints text.now settings.now) (map said_of o.notes.items) o.diagnostics.items) }
    ensures fault { IfErr result (λ f. IsFaultOf text.now f) }
{
    let Opened {
        notes,
        diagnostics,
        rules,
        judged,
    } = open::<AbnfLanguage>(alloc, text, settings)?;
    let Some(judged) = judged else {
        return Ok(OpenedAbnf {
            notes,
            diagnostics,
            judge: None,
        });
    };
    let grammar = SoundAbnf::new(rules.rules, judged);
    match judge_by(alloc, grammar, settings) {
        Ok(judge) => Ok(OpenedAbnf {
            notes,
            diagnostics,
            judge: Some(judge),
        }),
        Err(Memory) => Err(ReadFault::Memory),
    }
}

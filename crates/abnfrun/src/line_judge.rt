//! The lines of an input, judged by a grammar.
ghost use Rattle.std.specs.Prelude.{◌≡◌, ◌≤◌, ◌+◌, ℕ, Bool, List, None, false, true, length, map, IfErr, IfOk};
ghost use Rattle.std.specs.Prelude.{IfSome};
ghost use Rattle.abnfread.specs.Element.{Rule};
ghost use Rattle.abnfread.specs.AbnfViews.{rules_of};
ghost use Rattle.abnfcheck.specs.Derivable.{AreLetters};
ghost use Rattle.abnfrun.specs.AbnfReply.{HaveMoreThan, IsAnswerTo, NeedsMoreItems, form_of, judged_size};
ghost use Rattle.abnfrun.specs.AbnfReply.{unit_for};
ghost use Rattle.abnfrun.specs.JudgedAlike.{AreJudgedAlike};
ghost use Rattle.abnfrun.specs.OpenJudge.{ExplainsLines};
ghost use Rattle.abnfrun.specs.LetterAnswers.{IsAnswerOn, torn};
ghost use Rattle.lowering.specs.Lowered.{IsLowered};
ghost use Rattle.lowering.specs.GivenPrefixes.{GivesPrefixes};
ghost use Rattle.ruletable.specs.Letters.{has};
ghost use Rattle.ruletable.specs.Utf8Text.{IsText};
ghost use Rattle.linejudge.specs.InputLines.{IsNoAnswer};
ghost use Rattle.linejudge.specs.declared.answers.Answer.{Answer};
ghost use Rattle.refusedlines.specs.Refusals.{IsRefusalReported};

use crate::engines::Engines;
use crate::factored::automaton_grammar;
use crate::options::AbnfSettings;
use abnfcheck::{SoundAbnf, derivation_is_decided, furthest_is_found};
use earley::Chart;
use flatgrammar::{Flat, Verdict};
use lazydfa::Automaton;
use linejudge::{Answer, Judge, LineForm, NoAnswer, Printed};
use lowering::{items_decide, lower, lower_viable, values_are_letters};
use refusedlines::{Explainer, LineUnit, PrunedGrammar, RefusedLine, explain_refused};
use ruletable::{Alphabet, CodePoint, Letter, Memory, decode, utf8_is_decided, utf8_len};
use std::alloc::Global;

/// With a smaller budget an automaton keeps so many entries, which take some 2 MB: common grammars need no more.
const LEAST_ROOM: usize = 65_536;

/// A judge of lines by a grammar: it answers whether the judged rule derives a line. It borrows all that it needs, and
/// changes nothing; the memory of the judges is in `Work`.
#[derive(Drop)]
pub struct LineJudge<'a> {
    /// The grammar.
    pub(crate) grammar: &'a SoundAbnf,
    /// The alphabet of lines.
    pub(crate) letters: Alphabet,
    /// Whether a rejection reports the length of the longest viable prefix.
    pub(crate) viable: bool,
    /// How many items the sets of a line may have; any number if it is `None`.
    pub(crate) budget: Option<usize>,
    /// The lowered grammar: with `viable`, its productive parts alone.
    pub(crate) flat: &'a Flat,
    /// Whether rejected lines are explained.
    pub(crate) explains: bool,
    /// What explanations call a line.
    pub(crate) unit: LineUnit,
    /// The productive parts of the grammar, with a flat grammar for lines of one symbol more, by which rejected lines
    /// are explained; `None` if they are not, or an allocation failed in making them.
    pub(crate) explainer: Option<&'a PrunedGrammar>,
    ghost lowered: { viable ≡ false → ∥ IsLowered (rules_of grammar.now.rules) grammar.now.judged flat.now ∥₁ },
    ghost prefixes: { viable ≡ true → ∥ GivesPrefixes (has letters) (rules_of grammar.now.rules) grammar.now.judged
        flat.now ∥₁ },
}

/// The memory in which lines are judged. It is kept from line to line.
#[derive(Drop)]
pub struct Work {
    /// Allocates the explanations.
    alloc: Global,
    /// The two judges of symbols.
    pub(crate) engines: Engines,
    /// The automaton of the flat grammar by which rejected lines are explained, once one was, if it has one.
    pub(crate) explainer: Option<Automaton>,
    /// The code points of the line, if its symbols are code points.
    points: Vec<CodePoint>,
}

impl Work {
    /// Returns the memory that lines are judged in by the flat grammar of a grammar. A budget bounds its automaton too.
    pub(crate) fn new(
        alloc: Global,
        grammar: &SoundAbnf,
        settings: &AbnfSettings<'_>,
        flat: &Flat,
    ) -> Work
        requires limit { flat.now.limit ≡ judged_size settings.now settings.now.limit }
        requires lowered { settings.now.options.viable ≡ false →
            IsLowered (rules_of grammar.now.rules) grammar.now.judged flat.now }
        requires prefixes { settings.now.options.viable ≡ true →
            GivesPrefixes (has settings.now.options.letters) (rules_of grammar.now.rules) grammar.now.judged
            flat.now }
        ensures alike { IfSome result.engines.automaton
            (AreJudgedAlike (has settings.now.options.letters) settings.now.options.viable flat.now) }
        ensures none { result.explainer ≡ None }
    {
        Work {
            alloc,
            explainer: None,
            engines: Engines {
                chart: Chart::new(alloc),
                automaton: automaton_for(alloc, grammar, settings, flat),
            },
            points: Vec::new(alloc),
        }
    }
}

/// Returns nothing. Its contract is a law: each line has an answer.
pub fn lines_have_answers()
    ensures { (letters : Alphabet) (viable : Bool) (rules : List Rule) (judged : ℕ) (line : List ℕ) →
        (said : Answer) × IsAnswerTo letters viable rules judged line said }
{
    derivation_is_decided();
    furthest_is_found();
    utf8_is_decided();
}

/// Returns the answer to the symbols of a line, no more than the flat grammar serves. `Memory` if an allocation fails,
/// `Costly` if they need more items than the budget.
#[inline(always)]
fn judge_letters<L: Letter>(
    judges: &LineJudge<'_>,
    engines: &mut Engines,
    line: &[L],
) -> Result<Answer, NoAnswer>
    requires letters { AreLetters (has judges.now.letters) (map L.number line.now) }
    requires within { length line.now ≤ judges.now.flat.now.limit }
    requires alike { IfSome engines.old.automaton
        (AreJudgedAlike (has judges.now.letters) judges.now.viable judges.now.flat.now) }
    ensures same { engines.new.automaton ≡ engines.old.automaton }
    ensures answer { IfOk result (IsAnswerOn (has judges.now.letters) judges.now.viable
        (rules_of judges.now.grammar.now.rules) judges.now.grammar.now.judged (map L.number line.now)) }
    ensures costly { IfErr result (IsNoAnswer (HaveMoreThan judges.now.budget judges.now.letters judges.now.viable
        (rules_of judges.now.grammar.now.rules) judges.now.grammar.now.judged (map L.number line.now))) }
{
    derivation_is_decided();
    furthest_is_found();
    items_decide();
    if judges.viable {
        return match engines.viable(judges.flat, judges.budget, line)? {
            Verdict::Yes => Ok(Answer::Yes),
            Verdict::No(n) => Ok(Answer::NoAfter(n)),
        };
    }
    let yes = engines.judge(judges.flat, judges.budget, line)?;
    if yes { Ok(Answer::Yes) } else { Ok(Answer::No) }
}

/// Returns the answer to a line by the answer to its longest prefix that is UTF-8, of so many symbols, where that is
/// not the whole line.
fn torn_by(said: Answer, count: usize) -> Answer
    ensures { result ≡ torn count said }
{
    match said {
        Answer::Yes => Answer::NoAfter(count),
        Answer::No => Answer::No,
        Answer::NoAfter(n) => Answer::NoAfter(n),
    }
}

/// Returns the answer to a line that is not UTF-8. `Memory` if an allocation fails, `Costly` if the line needs more
/// items than the budget.
fn judge_torn(judges: &LineJudge<'_>, work: &mut Work, line: &[u8]) -> Result<Answer, NoAnswer>
    requires letters { judges.now.letters ≡ Alphabet.Utf8 }
    requires viable { judges.now.viable ≡ true }
    requires torn { IsText line.now → ⊥ }
    requires within { length line.now ≤ judges.now.flat.now.limit }
    requires alike { IfSome work.old.engines.automaton
        (AreJudgedAlike (has judges.now.letters) judges.now.viable judges.now.flat.now) }
    ensures same { work.new.engines.automaton ≡ work.old.engines.automaton }
    ensures explainer { work.new.explainer ≡ work.old.explainer }
    ensures answer { IfOk result (IsAnswerTo Alphabet.Utf8 judges.now.viable (rules_of judges.now.grammar.now.rules)
        judges.now.grammar.now.judged line.now) }
    ensures costly { IfErr result (IsNoAnswer (NeedsMoreItems judges.now.budget Alphabet.Utf8 judges.now.viable
        (rules_of judges.now.grammar.now.rules) judges.now.grammar.now.judged line.now)) }
{
    let len = utf8_len(line);
    let _is_text = decode(&line[..len], &mut work.points)?;
    let points = work.points.as_slice();
    values_are_letters(points);
    let said = judge_letters(judges, &mut work.engines, points)?;
    Ok(torn_by(said, work.points.len()))
}

/// Returns the answer to a line of code points, which are the bytes where the line is ASCII. `Memory` if an allocation
/// fails, `Costly` if the line needs more items than the budget.
fn judge_points(judges: &LineJudge<'_>, work: &mut Work, line: &[u8]) -> Result<Answer, NoAnswer>
    requires letters { judges.now.letters ≡ Alphabet.Utf8 }
    requires within { length line.now ≤ judges.now.flat.now.limit }
    requires alike { IfSome work.old.engines.automaton
        (AreJudgedAlike (has judges.now.letters) judges.now.viable judges.now.flat.now) }
    ensures same { work.new.engines.automaton ≡ work.old.engines.automaton }
    ensures explainer { work.new.explainer ≡ work.old.explainer }
    ensures answer { IfOk result (IsAnswerTo Alphabet.Utf8 judges.now.viable (rules_of judges.now.grammar.now.rules)
        judges.now.grammar.now.judged line.now) }
    ensures costly { IfErr result (IsNoAnswer (NeedsMoreItems judges.now.budget Alphabet.Utf8 judges.now.viable
        (rules_of judges.now.grammar.now.rules) judges.now.grammar.now.judged line.now)) }
{
    utf8_is_decided();
    if line.is_ascii() {
        return judge_letters(judges, &mut work.engines, line);
    }
    let is_text = decode(line, &mut work.points)?;
    if is_text {
        let points = work.points.as_slice();
        values_are_letters(points);
        return judge_letters(judges, &mut work.engines, points);
    }
    if judges.viable {
        return judge_torn(judges, work, line);
    }
    Ok(Answer::No)
}

/// Returns the lines that explain a rejected line of that number, by the productive parts of the grammar. It frees all
/// memory that it takes but that of an automaton, which serves the next lines. `Memory` if an allocation fails; then
/// that automaton is freed too.
fn explain_line(
    judges: &LineJudge<'_>,
    pruned: &PrunedGrammar,
    work: &mut Work,
    line: RefusedLine<'_>,
) -> Result<Vec<u8>, Memory>
    requires within { length line.bytes.now ≤ judges.now.flat.now.limit }
    requires explains { ExplainsLines (rules_of judges.now.grammar.now.rules) judges.now.grammar.now.judged
        judges.now.letters judges.now.flat.now.limit pruned.now }
    requires flat { IfSome work.old.explainer (λ a. a ≡ pruned.now.flat) }
    ensures same { work.new.engines ≡ work.old.engines }
    ensures flat { IfSome work.new.explainer (λ a. a ≡ pruned.now.flat) }
    ensures reported { IfOk result (λ why. IsRefusalReported line.entry.unit judges.now.letters
        (rules_of judges.now.grammar.now.rules) judges.now.grammar.now.judged line.entry.bytes.now line.entry.number
        why.items) }
{
    let explainer = Explainer {
        grammar: judges.grammar,
        letters: judges.letters,
        pruned,
        budget: judges.budget,
    };
    if work.explainer.is_none() {
        work.explainer = automaton_of(work.alloc, &pruned.flat, judges.budget);
    }
    let mut chart = Chart::new(work.alloc);
    let mut why = Vec::new(work.alloc);
    match explain_refused(
        work.alloc,
        &mut chart,
        &mut work.explainer,
        &explainer,
        line,
        &mut why,
    ) {
        Ok(()) => Ok(why),
        Err(Memory) => {
            work.explainer = None;
            Err(Memory)
        }
    }
}

impl Judge<Work> for LineJudge<'_> {
    ghost reported = { λ j. IsAnswerTo j.letters j.viable (rules_of j.grammar.now.rules) j.grammar.now.judged };

    ghost costly = { λ j. NeedsMoreItems j.budget j.letters j.viable (rules_of j.grammar.now.rules)
        j.grammar.now.judged };

    ghost explains = { λ j. j.explains };

    ghost refusal = { λ j. IsRefusalReported j.unit j.letters (rules_of j.grammar.now.rules) j.grammar.now.judged };

    ghost served = { λ j. j.flat.now.limit };

    ghost works_in = { λ j work. IfSome work.engines.automaton (AreJudgedAlike (has j.letters) j.viable j.flat.now)
        × IfSome j.explainer (λ pruned. ExplainsLines (rules_of j.grammar.now.rules) j.grammar.now.judged j.letters
        j.flat.now.limit pruned.now × IfSome work.explainer (λ a. a ≡ pruned.now.flat)) };

    fn judge(&self, work: &mut Work, line: &[u8]) -> Result<Answer, NoAnswer> {
        match self.letters {
            Alphabet::Bytes => {
                values_are_letters(line);
                judge_letters(self, &mut work.engines, line)
            }
            Alphabet::Utf8 => judge_points(self, work, line),
        }
    }

    fn is_explained(&self) -> bool {
        self.explains
    }

    fn explain(&self, work: &mut Work, line: &[u8], number: usize) -> Result<Vec<u8>, Memory> {
        match self.explainer {
            Some(pruned) => {
                let refused = RefusedLine {
                    unit: self.unit,
                    bytes: line,
                    number,
                };
                explain_line(self, pruned, work, refused)
            }
            None => Err(Memory),
        }
    }

    fn decided(&self) {
        lines_have_answers();
    }
}

/// Returns how many bytes settings let be judged of a line: its end is one more, if it belongs to them.
fn judged_limit(settings: &AbnfSettings<'_>) -> usize
    ensures limit { result ≡ judged_size settings.now settings.now.limit }
    ensures small { result ≤ 16777217 }
{
    if settings.options.keeps {
        settings.limit + 1
    } else {
        settings.limit
    }
}

/// Lowers a grammar as settings ask for: for lines within their limit, and its productive parts alone if they ask for
/// viable prefixes. `Memory` if an allocation fails.
pub(crate) fn lowered(
    alloc: Global,
    grammar: &SoundAbnf,
    settings: &AbnfSettings<'_>,
) -> Result<Flat, Memory>
    ensures limit { IfOk result (λ flat. flat.limit ≡ judged_size settings.now settings.now.limit) }
    ensures lowered { IfOk result (λ flat. settings.now.options.viable ≡ false →
        IsLowered (rules_of grammar.now.rules) grammar.now.judged flat) }
    ensures prefixes { IfOk result (λ flat. settings.now.options.viable ≡ true →
        GivesPrefixes (has settings.now.options.letters) (rules_of grammar.now.rules) grammar.now.judged flat) }
{
    if settings.options.viable {
        return lower_viable(
            alloc,
            grammar,
            settings.options.letters,
            judged_limit(settings),
        );
    }
    lower(alloc, grammar, judged_limit(settings))
}

/// Returns the productive parts of a grammar, lowered for lines of one symbol more than settings allow, by which
/// rejected lines are explained. `None` if settings do not ask for that, or an allocation fails.
pub(crate) fn explainer_of(
    alloc: Global,
    grammar: &SoundAbnf,
    settings: &AbnfSettings<'_>,
) -> Option<PrunedGrammar>
    ensures { IfSome result (ExplainsLines (rules_of grammar.now.rules) grammar.now.judged
        settings.now.options.letters (judged_size settings.now settings.now.limit)) }
{
    if !settings.explain {
        return None;
    }
    let limit = judged_limit(settings) + 1;
    PrunedGrammar::new(alloc, grammar, settings.options.letters, limit).ok()
}

/// Returns an automaton of a flat grammar; `None` if it has none, or an allocation fails. With a budget it keeps at
/// most so many entries, or `LEAST_ROOM`.
fn automaton_of(alloc: Global, flat: &Flat, budget: Option<usize>) -> Option<Automaton>
    ensures { IfSome result (λ a. a ≡ flat.now) }
{
    let room = match budget {
        Some(n) => n.max(LEAST_ROOM),
        None => usize::MAX,
    };
    match Automaton::with_room(alloc, flat, room) {
        Ok(made) => made,
        Err(Memory) => None,
    }
}

/// Returns an automaton that judges lines as the flat grammar of a grammar does. It is one of that flat grammar, or of
/// one with loops, where rules are left recursive, and with large choices of texts factored. `None` if it has none, or
/// an allocation fails.
fn automaton_for(
    alloc: Global,
    grammar: &SoundAbnf,
    settings: &AbnfSettings<'_>,
    flat: &Flat,
) -> Option<Automaton>
    requires limit { flat.now.limit ≡ judged_size settings.now settings.now.limit }
    requires lowered { settings.now.options.viable ≡ false →
        IsLowered (rules_of grammar.now.rules) grammar.now.judged flat.now }
    requires prefixes { settings.now.options.viable ≡ true →
        GivesPrefixes (has settings.now.options.letters) (rules_of grammar.now.rules) grammar.now.judged flat.now }
    ensures { IfSome result
        (AreJudgedAlike (has settings.now.options.letters) settings.now.options.viable flat.now) }
{
    items_decide();
    let budget = settings.options.budget;
    match automaton_grammar(alloc, grammar) {
        Ok(Some(made)) => {
            let Ok(fast) = lowered(alloc, &made, settings) else {
                return None;
            };
            automaton_of(alloc, &fast, budget)
        }
        Ok(None) => automaton_of(alloc, flat, budget),
        Err(Memory) => None,
    }
}

/// Returns what explanations call the lines of an input: records, if NUL ends them.
pub(crate) fn line_unit(nul: bool) -> LineUnit
    ensures { result ≡ unit_for nul }
{
    if nul {
        LineUnit::Record
    } else {
        LineUnit::Line
    }
}

/// Returns how settings cut an input into lines, and what they print for them.
pub(crate) fn line_form<'a>(settings: &AbnfSettings<'a>) -> LineForm<'a>
    ensures { result ≡ form_of settings.now }
{
    LineForm {
        limit: settings.limit,
        end: if settings.options.nul { 0 } else { b'\n' },
        keeps: settings.options.keeps,
        printed: if settings.options.quiet {
            Printed::Nothing
        } else {
            settings.options.printed
        },
        name: if settings.options.named {
            Some(settings.input)
        } else {
            None
        },
        numbered: settings.options.numbered,
        stops: settings.options.quiet,
        line_buffered: settings.options.line_buffered,
    }
}

//! The answer to one line.
ghost use Rattle.std.specs.Prelude.{◌≡◌, ◌≤◌, ◌<◌, ◌+◌, ◌^◌, ℕ, Bool, List, length, take, true, false};
ghost use Rattle.std.specs.Prelude.{IfOk, IfErr, OnOk, OnErr, IsTrue};
ghost use Rattle.feed.specs.Feed.{SameFeed, bytes_of};
ghost use Rattle.linejudge.specs.InputLines.{IsNoAnswer, says_yes};
ghost use Rattle.linejudge.specs.LineRefusals.{is_reported as may_report};
ghost use Rattle.linejudge.specs.LineSteps.{Adds, AddsReported, Answered, HasRoom};
ghost use Rattle.linejudge.specs.declared.answers.Answer.{Answer};

use crate::line::LineForm;
use crate::printed::push_line;
use crate::reached::{Explanations, LinePosition, MAX_REPORTED, Reached};
use feed::{Feed, Source};
use ruletable::Memory;

/// A line of more bytes is not copied: the memory for a copy is bounded so.
const MAX_COPY: usize = 1_048_576;

/// The answer to a line.
#[derive(Clone, Copy)]
pub enum Answer {
    /// `yes`.
    Yes,
    /// `no`.
    No,
    /// `no` and a number.
    NoAfter(usize),
}

/// Why a line has no answer.
#[derive(Clone, Copy)]
pub enum NoAnswer {
    /// An allocation failed.
    Memory,
    /// The line needs more items than this budget.
    Costly(usize),
}

impl From<Memory> for NoAnswer {
    ghost use Rattle.linejudge.specs.declared.answers.NoAnswer.TheVariants.{Memory};

    ghost from_gives = { λ _ e. e ≡ Memory };

    fn from(_: Memory) -> Self {
        NoAnswer::Memory
    }
}

/// A judge of lines. `W` is the memory that it works in.
pub trait Judge<W> {
    /// Which answer is that of a line.
    ghost reported: { Self → List ℕ → Answer → Type 0 };
    /// Which lines need more than so many items.
    ghost costly: { Self → List ℕ → ℕ → Type 0 };
    /// Whether rejected lines are explained.
    ghost explains: { Self → Bool };
    /// Which lines explain a rejected line that has a number.
    ghost refusal: { Self → List ℕ → ℕ → List ℕ → Type 0 };
    /// How many bytes a line may have that is answered.
    ghost served: { Self → ℕ };
    /// Which memory it can work in.
    ghost works_in: { Self → W → Type 0 };

    /// Returns the line's answer. `Memory` if an allocation fails, `Costly` if the line needs more items than a budget.
    fn judge(&self, work: &mut W, line: &[u8]) -> Result<Answer, NoAnswer>
        requires served { length line.now ≤ served self.now }
        requires work { works_in self.now work.old }
        ensures work { works_in self.now work.new }
        ensures reported { IfOk result (reported self.now line.now) }
        ensures costly { IfErr result (IsNoAnswer (costly self.now line.now)) };

    /// Returns whether rejected lines are explained.
    fn is_explained(&self) -> bool
        ensures { result ≡ explains self.now };

    /// Returns the lines that explain a rejected line of that number. `Memory` if an allocation fails.
    fn explain(&self, work: &mut W, line: &[u8], number: usize) -> Result<Vec<u8>, Memory>
        requires asked { explains self.now ≡ true }
        requires served { length line.now ≤ served self.now }
        requires work { works_in self.now work.old }
        ensures work { works_in self.now work.new }
        ensures reported { IfOk result (λ why. refusal self.now line.now number why.items) };

    /// States that each line has an answer. It does nothing.
    fn decided(&self)
        ensures { (line : List ℕ) → (said : Answer) × reported self.now line said };
}

/// Returns whether an answer is yes.
pub(crate) fn is_yes(said: Answer) -> bool
    ensures { result ≡ says_yes said }
{
    match said {
        Answer::Yes => true,
        Answer::No => false,
        Answer::NoAfter(_) => false,
    }
}

/// Returns whether a line with that answer, after so many rejected ones, is explained, where that is asked.
fn is_reported(asked: bool, refused: usize, said: Answer) -> bool
    ensures { result ≡ may_report asked refused said }
{
    asked && !is_yes(said) && refused < MAX_REPORTED
}

/// Adds the lines that explain a rejected line of that number. `Memory` if an allocation fails; then nothing is added.
fn push_refusal<W, J: Judge<W>>(
    judge: &J,
    work: &mut W,
    line: &[u8],
    number: usize,
    reported: &mut Explanations,
) -> Result<(), Memory>
    requires asked { J.explains judge.now ≡ true }
    requires served { length line.now ≤ J.served judge.now }
    requires work { J.works_in judge.now work.old }
    requires room { HasRoom reported.old }
    requires whole { reported.old.lacks ≡ false }
    ensures work { J.works_in judge.now work.new }
    ensures room { HasRoom reported.new }
    ensures whole { reported.new.lacks ≡ false }
    ensures ok { OnOk result (Adds (J.refusal judge.now line.now number) reported.old.text.items
        reported.new.text.items) }
    ensures err { OnErr result (reported.new.text.items ≡ reported.old.text.items) }
{
    let why = judge.explain(work, line, number)?;
    reported.add(why.as_slice())
}

/// Adds the explanation of a line with that answer at a position, if it has one. Where an allocation fails in it, a
/// line says so, and after that nothing is added.
fn report_line<W, J: Judge<W>>(
    judge: &J,
    work: &mut W,
    line: &[u8],
    said: Answer,
    at: LinePosition,
    reported: &mut Explanations,
)
    requires served { length line.now ≤ J.served judge.now }
    requires work { J.works_in judge.now work.old }
    requires counted { at.count + 1 < 2 ^ 64 }
    requires room { J.explains judge.now ≡ true → HasRoom reported.old }
    ensures work { J.works_in judge.now work.new }
    ensures room { J.explains judge.now ≡ true → HasRoom reported.new }
    ensures reported { AddsReported (J.reported judge.now) (J.explains judge.now)
        (J.refusal judge.now) at line.now said reported.old
        reported.new }
{
    if reported.lacks || !is_reported(judge.is_explained(), at.refused, said) {
        return;
    }
    if push_refusal(judge, work, line, at.count + 1, reported).is_err() {
        reported.end_at(at.count + 1);
    }
}

/// A line of an input.
#[derive(Clone, Copy)]
struct FoundLine<'a> {
    /// The bytes that are judged: without its end, or with it.
    bytes: &'a [u8],
    /// The position before it.
    at: LinePosition,
    /// The form of the input's lines.
    form: LineForm<'a>,
}

/// Judges a line, puts what is printed for it into `text`, in place of what that holds, and adds its explanation, if it
/// has one. `Memory` if an allocation fails in that but the explanation; then no explanation is added. Nor is one of a
/// line that needs more items than a budget.
fn answer_line<W, J: Judge<W>>(
    judge: &J,
    work: &mut W,
    line: FoundLine<'_>,
    reported: &mut Explanations,
    text: &mut Vec<u8>,
) -> Result<Answer, NoAnswer>
    requires served { length line.bytes.now ≤ J.served judge.now }
    requires work { J.works_in judge.now work.old }
    requires counted { line.at.count + 1 < 2 ^ 64 }
    requires room { J.explains judge.now ≡ true → HasRoom reported.old }
    ensures work { J.works_in judge.now work.new }
    ensures room { J.explains judge.now ≡ true → HasRoom reported.new }
    ensures answered { IfOk result (Answered (J.reported judge.now) (J.explains judge.now) (J.refusal judge.now)
        line.entry.form line.entry.at line.entry.bytes.now reported.old reported.new text.new.items) }
    ensures costly { IfErr result (IsNoAnswer (J.costly judge.now line.entry.bytes.now)) }
    ensures err { OnErr result (reported.new ≡ reported.old) }
{
    let said = judge.judge(work, line.bytes)?;
    text.clear();
    push_line(line.form, line.at.count + 1, line.bytes, said, text)?;
    report_line(judge, work, line.bytes, said, line.at, reported);
    Ok(said)
}

/// Returns whether the first `n` bytes that are held were copied, since they are few enough and no allocation failed.
fn is_copied<R: Source>(feed: &Feed<'_, R>, n: usize, line: &mut Vec<u8>) -> bool
    requires { n ≤ length (bytes_of feed.now) }
    ensures { IsTrue result → line.new.items ≡ take n (bytes_of feed.now) }
{
    n <= MAX_COPY && feed.copy_front(n, line).is_ok()
}

/// Judges the first `n` bytes that are held as a line, puts what is printed for it into `reached.text`, and adds its
/// explanation, if it has one. `Memory` if an allocation fails in that but the explanation; then no explanation is
/// added. Nor is one of a line that needs more items than a budget: `Costly`. Bytes in two pieces are copied. If they
/// are too many for that, or the copy cannot be allocated, all that is held is put in one piece.
pub fn answer_held<W, J: Judge<W>, R: Source>(
    judge: &J,
    work: &mut W,
    form: LineForm<'_>,
    feed: &mut Feed<'_, R>,
    n: usize,
    reached: &mut Reached,
) -> Result<Answer, NoAnswer>
    requires held { n ≤ length (bytes_of feed.old) }
    requires served { n ≤ J.served judge.now }
    requires work { J.works_in judge.now work.old }
    requires counted { reached.old.at.count + 1 < 2 ^ 64 }
    requires room { J.explains judge.now ≡ true → HasRoom reached.old.reported }
    ensures work { J.works_in judge.now work.new }
    ensures room { J.explains judge.now ≡ true → HasRoom reached.new.reported }
    ensures same { SameFeed feed.old feed.new }
    ensures at { reached.new.at ≡ reached.old.at }
    ensures answered { IfOk result (Answered (J.reported judge.now) (J.explains judge.now) (J.refusal judge.now)
        form.entry reached.old.at (take n (bytes_of feed.old)) reached.old.reported reached.new.reported
        reached.new.text.items) }
    ensures costly { IfErr result (IsNoAnswer (J.costly judge.now (take n (bytes_of feed.old)))) }
    ensures err { OnErr result (reached.new.reported ≡ reached.old.reported) }
{
    let at = reached.at;
    let front = feed.front();
    if n <= front.len() {
        let bytes = &front[..n];
        let line = FoundLine { bytes, at, form };
        return answer_line(judge, work, line, &mut reached.reported, &mut reached.text);
    }
    if is_copied(feed, n, &mut reached.line) {
        let bytes = reached.line.as_slice();
        let line = FoundLine { bytes, at, form };
        return answer_line(judge, work, line, &mut reached.reported, &mut reached.text);
    }
    let window: &[u8] = feed.window();
    let bytes = &window[..n];
    let line = FoundLine { bytes, at, form };
    answer_line(judge, work, line, &mut reached.reported, &mut reached.text)
}

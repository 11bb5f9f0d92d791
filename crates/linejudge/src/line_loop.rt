//! The lines of an input that is read as far as they need it.
ghost use Rattle.std.specs.Prelude.{◌≡◌, ◌≤◌, ◌+◌, ℕ, List, [], ◌++◌, length, not, true, false, IfOk, vec_capacity};
ghost use Rattle.std.specs.Prelude.{vec_len};
ghost use Rattle.std.specs.Io.KnownBytes.{Consumes};
ghost use Rattle.ruletable.specs.Writing.{Flags, Writes};
ghost use Rattle.feed.specs.Feed.{Grows, IsTrueOfReader, SameLoan, allowance_of, bytes_of, capacity_of, flow_of};
ghost use Rattle.feed.specs.Feed.{input_limit, reader_of};
ghost use Rattle.toolrun.specs.Agrees.{Agrees};
ghost use Rattle.toolrun.specs.Input.{Input};
ghost use Rattle.toolrun.specs.RunEnd.{more_refused};
ghost use Rattle.toolrun.specs.RunSteps.{HasReportedRun};
ghost use Rattle.toolrun.specs.Stopped.{Fulfils};
ghost use Rattle.toolrun.specs.Stream.{passed};
ghost use Rattle.linejudge.specs.InputLines.{at_front, kept_size, printed_last, status_after, taken_at};
ghost use Rattle.linejudge.specs.LineRefusals.{
  EndsAt,
  LinesStates,
  LinesTo,
  NeverLacks,
  ReportsTo,
  WhyTo,
  count_unreported,
};
ghost use Rattle.linejudge.specs.LineRefusals.{stop_lines, taken_by};
ghost use Rattle.linejudge.specs.LineSteps.{FitsIn, HasRoom, IsStep, IsReportedEnding, StepsAfter};

use crate::answers::{Answer, Judge, NoAnswer, answer_held};
use crate::batch::judge_front;
use crate::line::{Line, LineForm, next_line};
use crate::printed::write_end;
use crate::reached::{Explanations, LinePosition, MAX_REPORTED, Reached};
use feed::{Feed, Source};
use ruletable::{Sink, WriteFault, write_whole};
use std::alloc::Global;
use toolrun::{Ending, ReportedRefusals, Stop};

/// The next step of a run: the answer to a line that takes so many bytes, or a stop.
#[derive(Clone, Copy)]
pub enum LineStep {
    Answers { said: Answer, len: usize },
    Stops(Stop),
}

/// Writes what is printed for a line of that number that takes so many bytes, and returns what follows it. Nothing is
/// written if it has no answer.
fn step_of<O: Sink>(
    answered: Result<Answer, NoAnswer>,
    text: &[u8],
    line: usize,
    len: usize,
    out: &mut O,
) -> Result<LineStep, WriteFault>
    requires { O.failed out.old ≡ false }
    ensures step { StepsAfter line len (O.contents out.old) (O.contents out.new) text.now answered result }
    ensures flag { Flags (O.failed out.old) (O.failed out.new) result }
{
    let said = match answered {
        Ok(said) => said,
        Err(NoAnswer::Memory) => return Ok(LineStep::Stops(Stop::NoMemory)),
        Err(NoAnswer::Costly(budget)) => {
            return Ok(LineStep::Stops(Stop::CostlyLine { line, budget }));
        }
    };
    match write_whole(out, text) {
        Ok(()) => Ok(LineStep::Answers { said, len }),
        Err(fault) => Err(fault),
    }
}

/// Writes what is printed at the end of a run, and returns how it ends there.
fn end_step<O: Sink>(
    form: LineForm<'_>,
    at: LinePosition,
    out: &mut O,
) -> Result<LineStep, WriteFault>
    requires { O.failed out.old ≡ false }
    ensures bytes { Writes (O.contents out.old) (O.contents out.new) (printed_last form.entry.name
        form.entry.printed at) result }
    ensures step { IfOk result (λ step. step ≡ LineStep.Stops (Stop.Quiet (status_after at.refused))) }
    ensures flag { Flags (O.failed out.old) (O.failed out.new) result }
{
    match write_end(form, at, out) {
        Ok(()) => Ok(LineStep::Stops(Stop::Quiet(at.status()))),
        Err(fault) => Err(fault),
    }
}

/// Answers the line at a position and adds its explanation, or ends the run there.
fn next_step<W, J: Judge<W>, R: Source, O: Sink>(
    judge: &J,
    work: &mut W,
    form: LineForm<'_>,
    feed: &mut Feed<'_, R>,
    reached: &mut Reached,
    out: &mut O,
) -> Result<LineStep, WriteFault>
    requires small { form.limit ≤ 16777216 }
    requires served { kept_size form form.limit ≤ J.served judge.now }
    requires work { J.works_in judge.now work.old }
    requires capacity { capacity_of feed.old ≡ form.limit + 1 }
    requires counted { reached.old.at.count ≤ reached.old.at.position }
    requires within { reached.old.at.position ≤ input_limit }
    requires reported { IsTrueOfReader R.remaining R.failed R.ended feed.old }
    requires room { J.explains judge.now ≡ true → HasRoom reached.old.reported }
    requires out_is_fresh { O.failed out.old ≡ false }
    ensures work { J.works_in judge.now work.new }
    ensures room { J.explains judge.now ≡ true → HasRoom reached.new.reported }
    ensures at { reached.new.at ≡ reached.old.at }
    ensures loan { SameLoan feed.old feed.new }
    ensures reported { IsTrueOfReader R.remaining R.failed R.ended feed.new }
    ensures grows { Grows R.remaining feed.old feed.new }
    ensures follows { (before : List ℕ) (input : Input) → length before ≡ reached.old.at.position → Agrees (before
        ++ bytes_of feed.new) (flow_of feed.new) input →
        IsStep (J.reported judge.now) (J.explains judge.now) (J.refusal judge.now) (J.costly judge.now) form.entry input
        reached.old.at (O.contents out.old) (O.contents out.new) reached.old.reported reached.new.reported result ×
        (length (before ++ bytes_of feed.new) ≤ taken_at form.entry.limit input reached.old.at.position) }
    ensures fits { FitsIn (length (bytes_of feed.new)) result }
    ensures flag { Flags (O.failed out.old) (O.failed out.new) result }
{
    if form.is_over(reached.at) {
        // a run that stops has taken as much as the greatest line takes there
        feed.fill();
        return end_step(form, reached.at, out);
    }
    let line = reached.at.count + 1;
    match next_line(feed, form) {
        Line::Whole(n) => {
            let answered = answer_held(judge, work, form, feed, form.kept_size(n), reached);
            step_of(answered, reached.text.as_slice(), line, n + 1, out)
        }
        Line::Last(n) => {
            let answered = answer_held(judge, work, form, feed, n, reached);
            step_of(answered, reached.text.as_slice(), line, n, out)
        }
        Line::Overlong => {
            let limit = form.limit;
            Ok(LineStep::Stops(Stop::LongLine { line, limit }))
        }
        Line::End => end_step(form, reached.at, out),
        Line::Broken => Ok(LineStep::Stops(Stop::Broken)),
    }
}

/// Adds the lines that explain a stop to none, where there is room for them. It allocates nothing.
fn push_stop(stop: Stop, why: &mut Vec<u8>)
    requires none { why.old.items ≡ [] }
    requires room { vec_len why.old + 128 ≤ vec_capacity why.old }
    ensures { why.new.items ≡ stop_lines stop }
{
    if let Stop::LongLine { .. } = stop {
        why.extend_from_slice(b"  -l allows at most 16777216\n")
            .unwrap();
    }
}

/// Returns the ending of a run after so many rejected lines: the explanations of lines, the stop, and the lines that
/// explain it, unless an explanation is missing.
fn reported_ending(reported: Explanations, refused: usize, stop: Stop) -> Ending
    requires room { HasRoom reported }
    ensures { IsReportedEnding reported.lacks (reported.text.items ++ more_refused
        (count_unreported (not reported.lacks) refused)) stop
        result }
{
    let Explanations {
        text,
        mut why,
        lacks,
    } = reported;
    if lacks {
        let reported = ReportedRefusals { text, more: 0 };
        return Ending::Explained {
            reported,
            stop,
            why,
        };
    }
    let more = refused.saturating_sub(MAX_REPORTED);
    let reported = ReportedRefusals { text, more };
    push_stop(stop, &mut why);
    Ending::Explained {
        reported,
        stop,
        why,
    }
}

/// Wraps the stop of a run as its ending. If `asked`, it adds the explanations of rejected lines and of the stop.
fn ending_at(asked: bool, reached: Reached, stop: Stop) -> Ending
    requires room { asked ≡ true → HasRoom reached.reported }
    ensures plain { asked ≡ false → result ≡ Ending.Plain stop }
    ensures reported { asked ≡ true → IsReportedEnding reached.reported.lacks (reached.reported.text.items
        ++ more_refused (count_unreported (not reached.reported.lacks) reached.at.refused)) stop result }
{
    if asked {
        return reported_ending(reached.reported, reached.at.refused, stop);
    }
    Ending::Plain(stop)
}

/// Answers the lines of an input in turn.
fn answer_lines<W, J: Judge<W>, R: Source, O: Sink>(
    judge: &J,
    work: &mut W,
    form: LineForm<'_>,
    feed: &mut Feed<'_, R>,
    mut reached: Reached,
    out: &mut O,
) -> Result<Ending, WriteFault>
    requires small { form.limit ≤ 16777216 }
    requires served { kept_size form form.limit ≤ J.served judge.now }
    requires work { J.works_in judge.now work.old }
    requires capacity { capacity_of feed.old ≡ form.limit + 1 }
    requires empty { bytes_of feed.old ≡ [] }
    requires allowance { allowance_of feed.old ≡ input_limit }
    requires front { (reached.at ≡ at_front) × (reached.reported.text.items ≡ []) × (reached.reported.lacks ≡ false) }
    requires room { J.explains judge.now ≡ true → HasRoom reached.reported }
    requires reported { IsTrueOfReader R.remaining R.failed R.ended feed.old }
    requires out_is_fresh { O.failed out.old ≡ false }
    ensures work { J.works_in judge.now work.new }
    ensures loan { SameLoan feed.old feed.new }
    ensures reported { IsTrueOfReader R.remaining R.failed R.ended feed.new }
    ensures lines { (seen : List ℕ) × Consumes (R.remaining (reader_of feed.old)) (R.remaining
        (reader_of feed.new)) seen ×
        (allowance_of feed.new + length seen ≡ input_limit) ×
        ((input : Input) → Agrees seen (flow_of feed.new) input →
        HasReportedRun (LinesTo (J.reported judge.now) form.entry input) (EndsAt (J.costly judge.now) form.entry input)
        (taken_by form.entry.limit input)
        (ReportsTo (J.reported judge.now) (J.explains judge.now) (J.refusal judge.now) form.entry input)
        (WhyTo (J.explains judge.now) input) (NeverLacks input) (length seen) (O.contents out.old)
        (O.contents out.new) result) }
    ensures flag { Flags (O.failed out.old) (O.failed out.new) result }
{
    judge.decided();
    loop {
        let at = reached.at;
        let next = judge_front(judge, work, form, feed.front(), at, &mut reached.text);
        if at.position < next.position {
            // its contract says that no more is held than there is room for
            let _ = feed.len();
            if let Err(fault) = write_whole(out, reached.text.as_slice()) {
                return Err(fault);
            }
            feed.skip(next.position - at.position);
            reached.at = next;
            continue;
        }
        match next_step(judge, work, form, feed, &mut reached, out) {
            Ok(LineStep::Answers { said, len }) => {
                feed.skip(len);
                reached.at = reached.at.next_position(len, said);
            }
            Ok(LineStep::Stops(stop)) => {
                // a run that stops has taken as much as the greatest line takes there
                feed.fill();
                return Ok(ending_at(judge.is_explained(), reached, stop));
            }
            Err(fault) => return Err(fault),
        }
    }
}

/// Judges the lines that a reader gives, and writes the output that `form.printed` asks for. The reader may neither
/// have failed nor have given its end before. The judge must serve lines of `form.limit` bytes, with `form.keeps` of
/// one more, and be able to work in that memory.
///
/// - An answer is `yes`, `no`, or `no` and a number. Lines that are printed keep their ends. Counts of lines are
///   printed at the end of the input.
/// - If lines are numbered, a line's number from 1 and a colon stand before its answer, or before the line.
/// - A line ends before a byte `form.end`, and a last piece without one is a line if it is not empty. All other bytes
///   belong to their line, a CR too. With `form.keeps` its end is judged with it, and a last piece without one is
///   judged as it stands. Then lines are printed as they were judged.
/// - The first line of more than `form.limit` bytes ends the run: `LongLine` with its number from 1 and the limit. So
///   it is with more than `form.limit` bytes of which none is `form.end`.
/// - A line that needs more items than the judge's budget ends the run: `CostlyLine` with its number and the budget.
/// - After a fault of the reader a line is judged only if its end was given; then `Broken`.
/// - After the last line the run ends with `Done` if all answers are yes, else with `NoMatch`. With `form.stops` it
///   ends after the first rejected line, as if that were the last one.
/// - If the judge explains rejected lines, the ending has the explanations of the first `MAX_REPORTED` of them, and how
///   many more there are. For a line that is too long it has the greatest length that `-l` allows.
/// - Where an allocation fails in such an explanation, a line says so in its place, nothing after it is explained, and
///   the run goes on.
/// - `NoMemory` if any other allocation fails. The output for the lines before stands whole, and so do the explanations
///   of those lines.
/// - `WriteFault` if the output fails; then a prefix is written.
pub fn run_lines<W, J: Judge<W>, R: Source, O: Sink>(
    alloc: Global,
    judge: &J,
    work: &mut W,
    form: LineForm<'_>,
    reader: &mut R,
    out: &mut O,
) -> Result<Ending, WriteFault>
    requires small { form.limit ≤ 16777216 }
    requires served { kept_size form form.limit ≤ J.served judge.now }
    requires work { J.works_in judge.now work.old }
    requires reader_is_fresh { R.failed reader.old ≡ false }
    requires reader_is_open { R.ended reader.old ≡ false }
    requires out_is_fresh { O.failed out.old ≡ false }
    ensures { Fulfils (LinesStates (J.reported judge.now) (J.explains judge.now) (J.refusal judge.now)
        (J.costly judge.now) form.entry)
        (passed R.remaining R.failed reader.old reader.new) (passed O.contents O.failed out.old out.new) result }
{
    judge.decided();
    let ring = match Feed::<R>::room(alloc, form.limit) {
        Ok(ring) => ring,
        Err(_) => return Ok(Ending::Plain(Stop::NoMemory)),
    };
    let Ok(reached) = Reached::new(alloc, judge.is_explained()) else {
        return Ok(Ending::Plain(Stop::NoMemory));
    };
    let mut feed = Feed::new(ring, reader);
    let ending = answer_lines(judge, work, form, &mut feed, reached, out);
    feed.into_reader();
    ending
}

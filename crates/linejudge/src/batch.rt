//! Lines that lie in one piece, judged together.
ghost use Rattle.std.specs.Prelude.{◌≡◌, ◌≤◌, ◌+◌, ℕ, List, ◌++◌, drop, false, length, IsTrue};
ghost use Rattle.feed.specs.Feed.{input_limit};
ghost use Rattle.toolrun.specs.Input.{Input};
ghost use Rattle.linejudge.specs.InputLines.{is_over, kept_size};
ghost use Rattle.linejudge.specs.LineSteps.{AddsLines};

use crate::answers::Judge;
use crate::line::LineForm;
use crate::printed::{has_plain_answers, push_if_plain};
use crate::reached::{BATCH, LinePosition};
use memchr::memchr;

/// No line of an answer is longer: a number of 20 digits, a colon, `no`, a blank, a number and LF.
const MAX_ANSWER: usize = 45;

/// Returns whether a run goes on at a position; with `is_plain` it does.
#[inline(always)]
fn goes_on(is_plain: bool, form: LineForm<'_>, at: LinePosition) -> bool
    requires { IsTrue is_plain → form.stops ≡ false }
    ensures { IsTrue result → is_over form.entry at ≡ false }
{
    is_plain || !form.is_over(at)
}

/// Judges the whole lines at the front of some bytes in turn, from a position on, and returns the position after them.
/// `text` is replaced by what is printed for them. It stops before a line that is too long, or has no end or no answer
/// there, where an allocation fails, where the run is over, and where the text has some `BATCH` bytes. No line is
/// judged if rejected lines are explained.
pub(crate) fn judge_front<W, J: Judge<W>>(
    judge: &J,
    work: &mut W,
    form: LineForm<'_>,
    front: &[u8],
    at: LinePosition,
    text: &mut Vec<u8>,
) -> LinePosition
    requires served { kept_size form form.limit ≤ J.served judge.now }
    requires work { J.works_in judge.now work.old }
    requires within { at.position + length front.now ≤ input_limit }
    requires counted { at.count ≤ at.position }
    requires refused { at.refused ≤ at.count }
    ensures work { J.works_in judge.now work.new }
    ensures ahead { at.position ≤ result.position }
    ensures within { result.position ≤ at.position + length front.now }
    ensures counted { result.count ≤ result.position }
    ensures refused { result.refused ≤ result.count }
    ensures goes_on { (input : Input) (rest : List ℕ) → drop at.position input.bytes ≡ front.now ++ rest →
        AddsLines (J.reported judge.now) (J.explains judge.now) (J.refusal judge.now) form.entry input at result
        text.new.items }
{
    text.clear();
    if judge.is_explained() {
        return at;
    }
    let is_plain = has_plain_answers(form);
    let mut next = at;
    let mut len = 0;
    while text.len() <= BATCH - MAX_ANSWER && goes_on(is_plain, form, next) {
        let rest = &front[len..];
        let Some(n) = memchr(form.end, rest) else {
            return next;
        };
        if n > form.limit {
            return next;
        }
        let line = &rest[..form.kept_size(n)];
        let Ok(said) = judge.judge(work, line) else {
            return next;
        };
        let Ok(()) = push_if_plain(is_plain, form, next.count + 1, line, said, text) else {
            text.clear();
            return at;
        };
        next = next.next_position(n + 1, said);
        len += n + 1;
    }
    next
}

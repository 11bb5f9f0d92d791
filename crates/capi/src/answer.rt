//! The answer to a line, for C.
ghost use Rattle.std.specs.Prelude.{◌≡◌, Some};
ghost use Rattle.capi.specs.JudgeCall.{IsJudgeCall, c_answer, c_status};

use abnfrun::{AbnfJudge, Answer, NoAnswer};
use toolrun::Status;

/// The status of a line that needs more items than the budget.
pub const COSTLY: u8 = 7;

/// The answer to a line.
#[repr(C)]
#[derive(Clone, Copy)]
pub struct CAnswer {
    /// How many symbols the longest viable prefix of a rejected line has, if the settings ask for that; else 0.
    pub reached: usize,
    /// 0: the line is derived; 1: it is not; 3: it is longer than the limit; 5: an allocation failed; `COSTLY`: it
    /// needs more items than the budget; `BAD_SETTINGS`: there is no judge.
    pub status: u8,
}

/// Returns the answer of a call that judged no line: this status, and a viable prefix of length 0.
pub fn without_answer(status: u8) -> CAnswer
    ensures { result ≡ c_status status }
{
    CAnswer { reached: 0, status }
}

/// Returns an answer as C has it.
fn answer_of(said: Answer) -> CAnswer
    ensures { result ≡ c_answer said }
{
    match said {
        Answer::Yes => CAnswer {
            reached: 0,
            status: 0,
        },
        Answer::No => CAnswer {
            reached: 0,
            status: 1,
        },
        Answer::NoAfter(n) => CAnswer {
            reached: n,
            status: 1,
        },
    }
}

/// Judges a line.
pub fn judge_line(judge: &mut AbnfJudge, line: &[u8]) -> CAnswer
    ensures same { judge.new ≡ judge.old }
    ensures reported { IsJudgeCall line.now result (Some judge.old) }
{
    if line.len() > judge.limit() {
        return without_answer(Status::Overlong.code());
    }
    match judge.judge(line) {
        Ok(said) => answer_of(said),
        Err(NoAnswer::Costly(_)) => without_answer(COSTLY),
        Err(NoAnswer::Memory) => without_answer(Status::NoMemory.code()),
    }
}

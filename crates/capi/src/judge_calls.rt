//! Judges line after line by a grammar that is read once.
ghost use Rattle.std.specs.Prelude.{◌≡◌, None};
ghost use Rattle.capi.specs.Asking.{AbnfMeant};
ghost use Rattle.capi.specs.JudgeCall.{IsJudgeCall};
ghost use Rattle.capi.specs.OpenCall.{IsOpenCall};
ghost use Rattle.capi.specs.GrammarOpenings.{IsAbnfOpening};

use crate::answer::{CAnswer, judge_line, without_answer};
use crate::asked::{BAD_SETTINGS, CSettings, settings_of};
use crate::judge::{CJudge, put_judge, take_judge};
use crate::opening::open_judge;
use crate::reported::lay_reported;
use crate::result::{CResult, nothing_done};
use abnfrun::AbnfOptions;
use std::alloc::Global;

/// Reads and checks a grammar in ABNF, and puts a judge of lines by it into an empty handle. Lays the notes on it into
/// the buffer, as much as there is room for. A rejected grammar leaves the handle empty. A text that is no grammar
/// gives its fault in place of notes, explained if the settings ask for that. The mode must be valid, and has no other
/// effect.
///
/// Returns `BAD_SETTINGS` and does nothing where the settings are invalid or the handle is not empty. Settings are
/// invalid if the size is unknown, a number is out of its range, or the name is not UTF-8.
pub fn abnf_open(
    alloc: Global,
    asked: &CSettings,
    grammar: &[u8],
    name: &[u8],
    slot: &mut CJudge,
    err: &mut [u8],
) -> CResult
    ensures out { result.out_len ≡ 0 }
    ensures call { IsOpenCall AbnfMeant (λ settings. IsAbnfOpening grammar.now settings) asked.now name.now
        (record { old = slot.old.judge.held; new = slot.new.judge.held })
        (record { old = err.old; new = err.new; len = result.err_len }) result.status }
{
    if slot.is_open {
        return nothing_done();
    }
    let Some(settings) = settings_of::<AbnfOptions>(asked, name) else {
        return nothing_done();
    };
    let reported = open_judge(alloc, grammar, &settings, slot);
    lay_reported(reported, slot.is_open, err)
}

/// Judges a line, which may hold any bytes. A line without the byte that ends lines gets the answer of `run_abnf` for
/// the grammar and the settings of opening.
pub fn abnf_judge(alloc: Global, slot: &mut CJudge, line: &[u8]) -> CAnswer
    ensures same { slot.new.judge.held ≡ slot.old.judge.held }
    ensures reported { IsJudgeCall line.now result slot.old.judge.held }
{
    if !slot.is_open {
        return without_answer(BAD_SETTINGS);
    }
    let mut judge = take_judge(alloc, slot);
    let reported = judge_line(&mut judge, line);
    put_judge(judge, slot);
    reported
}

/// Frees the judge, if the handle is not empty, and leaves the handle empty.
pub fn abnf_close(alloc: Global, slot: &mut CJudge)
    ensures { slot.new.judge.held ≡ None }
{
    if slot.is_open {
        let _judge = take_judge(alloc, slot);
    }
}

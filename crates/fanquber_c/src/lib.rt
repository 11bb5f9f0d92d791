//! Exports the calls of `capi` to C. `c/fanquber.h` declares them.
#![tactic(auto)]

ghost use Rattle.std.specs.Prelude.{◌≡◌, None};
ghost use Rattle.abnfrun.specs.AbnfAnswers.{AbnfStates};
ghost use Rattle.capi.specs.Asking.{AbnfMeant, PegMeant};
ghost use Rattle.capi.specs.BufferRun.{IsBufferRun};
ghost use Rattle.capi.specs.CompareCall.{IsCompareCall};
ghost use Rattle.capi.specs.GrammarOpenings.{IsAbnfOpening, IsPegOpening};
ghost use Rattle.capi.specs.JudgeCall.{IsJudgeCall};
ghost use Rattle.capi.specs.LinesOpenCall.{IsLinesOpenCall};
ghost use Rattle.capi.specs.NextLineCall.{IsLineCall};
ghost use Rattle.capi.specs.OpenCall.{IsOpenCall};
ghost use Rattle.capi.specs.RunCall.{IsRunCall};
ghost use Rattle.capi.specs.WindowsRun.{IsWindowsRun};
ghost use Rattle.pegrun.specs.Answers.{States};

use capi::{CAnswer, CComparison, CJudge, CLine, CLines, CResult, CRunner, CSettings, CWindow};
use std::alloc::Global;

/// Exports `capi::peg`.
#[unsafe(no_mangle)]
pub extern "C" fn fanquber_peg(
    alloc: Global,
    asked: &CSettings,
    grammar: &[u8],
    name: &[u8],
    input: &[u8],
    out: &mut [u8],
    err: &mut [u8],
) -> CResult
    ensures { IsBufferRun PegMeant (λ settings. States grammar.now settings) asked.now name.now input.now
        (record { old = out.old; new = out.new; len = result.out_len })
        (record { old = err.old; new = err.new; len = result.err_len }) result.status }
{
    capi::peg(alloc, asked, grammar, name, input, out, err)
}

/// Exports `capi::abnf`.
#[unsafe(no_mangle)]
pub extern "C" fn fanquber_abnf(
    alloc: Global,
    asked: &CSettings,
    grammar: &[u8],
    name: &[u8],
    input: &[u8],
    out: &mut [u8],
    err: &mut [u8],
) -> CResult
    ensures { IsBufferRun AbnfMeant (λ settings. AbnfStates grammar.now settings) asked.now name.now input.now
        (record { old = out.old; new = out.new; len = result.out_len })
        (record { old = err.old; new = err.new; len = result.err_len }) result.status }
{
    capi::abnf(alloc, asked, grammar, name, input, out, err)
}

/// Exports `capi::peg_windows`.
#[unsafe(no_mangle)]
pub extern "C" fn fanquber_peg_windows(
    alloc: Global,
    asked: &CSettings,
    grammar: &[u8],
    name: &[u8],
    input: &[u8],
    windows: &[CWindow],
    results: &mut [CResult],
    out: &mut [u8],
    err: &mut [u8],
) -> CResult
    ensures { IsWindowsRun PegMeant (λ settings. States grammar.now settings) asked.now name.now input.now windows.now
        (record { old = results.old; new = results.new })
        (record { old = out.old; new = out.new; len = result.out_len })
        (record { old = err.old; new = err.new; len = result.err_len }) result.status }
{
    capi::peg_windows(
        alloc, asked, grammar, name, input, windows, results, out, err,
    )
}

/// Exports `capi::peg_open`.
#[unsafe(no_mangle)]
pub extern "C" fn fanquber_peg_open(
    alloc: Global,
    asked: &CSettings,
    grammar: &[u8],
    name: &[u8],
    slot: &mut CRunner,
    err: &mut [u8],
) -> CResult
    ensures out { result.out_len ≡ 0 }
    ensures call { IsOpenCall PegMeant (λ settings. IsPegOpening grammar.now settings) asked.now name.now
        (record { old = slot.old.runner.held; new = slot.new.runner.held })
        (record { old = err.old; new = err.new; len = result.err_len }) result.status }
{
    capi::peg_open(alloc, asked, grammar, name, slot, err)
}

/// Exports `capi::peg_run`.
#[unsafe(no_mangle)]
pub extern "C" fn fanquber_peg_run(
    alloc: Global,
    slot: &mut CRunner,
    input: &[u8],
    out: &mut [u8],
    err: &mut [u8],
) -> CResult
    ensures same { slot.new.runner.held ≡ slot.old.runner.held }
    ensures ran { IsRunCall input.now (record { old = out.old; new = out.new; len = result.out_len })
        (record { old = err.old; new = err.new; len = result.err_len }) result.status slot.old.runner.held }
{
    capi::peg_run(alloc, slot, input, out, err)
}

/// Exports `capi::peg_close`.
#[unsafe(no_mangle)]
pub extern "C" fn fanquber_peg_close(alloc: Global, slot: &mut CRunner)
    ensures { slot.new.runner.held ≡ None }
{
    capi::peg_close(alloc, slot)
}

/// Exports `capi::abnf_open`.
#[unsafe(no_mangle)]
pub extern "C" fn fanquber_abnf_open(
    alloc: Global,
    asked: &CSettings,
    grammar: &[u8],
    name: &[u8],
    slot: &mut CJudge,
    err: &mut [u8],
) -> CResult
    ensures out { result.out_len ≡ 0 }
    ensures call { IsOpenCall AbnfMeant (λ settings. IsAbnfOpening grammar.now settings) asked.now name.now
        (record { old = slot.old.judge.held; new = slot.new.judge.held })
        (record { old = err.old; new = err.new; len = result.err_len }) result.status }
{
    capi::abnf_open(alloc, asked, grammar, name, slot, err)
}

/// Exports `capi::abnf_judge`.
#[unsafe(no_mangle)]
pub extern "C" fn fanquber_abnf_judge(alloc: Global, slot: &mut CJudge, line: &[u8]) -> CAnswer
    ensures same { slot.new.judge.held ≡ slot.old.judge.held }
    ensures reported { IsJudgeCall line.now result slot.old.judge.held }
{
    capi::abnf_judge(alloc, slot, line)
}

/// Exports `capi::abnf_close`.
#[unsafe(no_mangle)]
pub extern "C" fn fanquber_abnf_close(alloc: Global, slot: &mut CJudge)
    ensures { slot.new.judge.held ≡ None }
{
    capi::abnf_close(alloc, slot)
}

/// Exports `capi::compare`.
#[unsafe(no_mangle)]
pub extern "C" fn fanquber_compare(
    alloc: Global,
    asked: &CSettings,
    budget: usize,
    old: &[u8],
    old_name: &[u8],
    new: &[u8],
    new_name: &[u8],
    old_line: &mut [u8],
    new_line: &mut [u8],
    err: &mut [u8],
) -> CComparison
    ensures { IsCompareCall asked.now old_name.now new_name.now old.now new.now (record {
      old_line = record { old = old_line.old; new = old_line.new };
      new_line = record { old = new_line.old; new = new_line.new };
      err = record { old = err.old; new = err.new; len = result.err_len };
    }) result }
{
    capi::compare(
        alloc, asked, budget, old, old_name, new, new_name, old_line, new_line, err,
    )
}

/// Exports `capi::lines_open`.
#[unsafe(no_mangle)]
pub extern "C" fn fanquber_lines_open(
    alloc: Global,
    asked: &CSettings,
    which: u8,
    grammar: &[u8],
    name: &[u8],
    slot: &mut CLines,
    err: &mut [u8],
) -> CResult
    ensures out { result.out_len ≡ 0 }
    ensures call { IsLinesOpenCall which asked.now grammar.now name.now
        (record { old = slot.old.listing.held; new = slot.new.listing.held })
        (record { old = err.old; new = err.new; len = result.err_len }) result.status }
{
    capi::lines_open(alloc, asked, which, grammar, name, slot, err)
}

/// Exports `capi::lines_next`.
#[unsafe(no_mangle)]
pub extern "C" fn fanquber_lines_next(alloc: Global, slot: &mut CLines, line: &mut [u8]) -> CLine
    ensures { IsLineCall (record { old = line.old; new = line.new }) result slot.old.listing.held
        slot.new.listing.held }
{
    capi::lines_next(alloc, slot, line)
}

/// Exports `capi::lines_close`.
#[unsafe(no_mangle)]
pub extern "C" fn fanquber_lines_close(alloc: Global, slot: &mut CLines)
    ensures { slot.new.listing.held ≡ None }
{
    capi::lines_close(alloc, slot)
}

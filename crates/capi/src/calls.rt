//! Runs of a grammar's text.
ghost use Rattle.std.specs.Prelude.{◌≡◌};
ghost use Rattle.abnfrun.specs.AbnfAnswers.{AbnfStates};
ghost use Rattle.capi.specs.Asking.{AbnfMeant, PegMeant};
ghost use Rattle.capi.specs.BufferRun.{IsBufferRun};
ghost use Rattle.pegrun.specs.Answers.{States};
ghost use Rattle.capi.specs.WindowsRun.{IsWindowsRun};
ghost use Rattle.toolrun.specs.Status.{code_of};

use crate::asked::{CSettings, settings_of};
use crate::front::front_of;
use crate::result::{CResult, nothing_done};
use crate::windows::{CWindow, WindowsOf, run_windows};
use abnfrun::AbnfOptions;
use memoryrun::{BufferOutputs, BufferSink, abnf_into_buffers, peg_into_buffers};
use pegrun::{PegLanguage, PegOptions};
use std::alloc::Global;
use toolrun::{Status, plan_of};

/// Returns the result of a run as C has it.
pub(crate) fn c_result(ran: BufferOutputs) -> CResult
    ensures out_len { result.out_len ≡ ran.out_len }
    ensures err_len { result.err_len ≡ ran.err_len }
    ensures status { result.status ≡ code_of ran.status }
{
    CResult {
        out_len: ran.out_len,
        err_len: ran.err_len,
        status: ran.status.code(),
    }
}

/// Runs a grammar of peg(1) on an input, as `run_peg` does, and lays both outputs into the buffers, as much as there is
/// room for. Returns `BAD_SETTINGS` and does nothing where the settings are invalid: the size is unknown, a number is
/// out of its range, or the name is not UTF-8.
pub fn peg(
    alloc: Global,
    asked: &CSettings,
    grammar: &[u8],
    name: &[u8],
    input: &[u8],
    out: &mut [u8],
    err: &mut [u8],
) -> CResult
    ensures { IsBufferRun PegMeant (λ settings. States grammar.now settings) asked.now name.now input.now
        (record { old = out.old; new = out.new; len = result.out_len })
        (record { old = err.old; new = err.new; len = result.err_len }) result.status }
{
    let Some(settings) = settings_of::<PegOptions>(asked, name) else {
        return nothing_done();
    };
    let ran = peg_into_buffers(alloc, grammar, &settings, input, out, err);
    c_result(ran)
}

/// Judges the lines of an input by a grammar in ABNF, as `run_abnf` does, and lays both outputs into the buffers, as
/// much as there is room for. Returns `BAD_SETTINGS` and does nothing where the settings are invalid: the size is
/// unknown, a number is out of its range, or the name is not UTF-8.
pub fn abnf(
    alloc: Global,
    asked: &CSettings,
    grammar: &[u8],
    name: &[u8],
    input: &[u8],
    out: &mut [u8],
    err: &mut [u8],
) -> CResult
    ensures { IsBufferRun AbnfMeant (λ settings. AbnfStates grammar.now settings) asked.now name.now input.now
        (record { old = out.old; new = out.new; len = result.out_len })
        (record { old = err.old; new = err.new; len = result.err_len }) result.status }
{
    let Some(settings) = settings_of::<AbnfOptions>(asked, name) else {
        return nothing_done();
    };
    let ran = abnf_into_buffers(alloc, grammar, &settings, input, out, err);
    c_result(ran)
}

/// Runs a grammar of peg(1) on each window of an input by itself, as `run_peg` does. Reads and checks the grammar once.
///
/// The error output begins with the messages on the grammar, its notes or the fault of its text, once for all runs. The
/// other messages follow, one run after the other. So do the outputs of the runs in the other buffer. Each buffer gets
/// as much as there is room for. A result has the status of a run and the lengths of what the run wrote. It is
/// `BAD_SETTINGS` for a window that does not lie in the input.
///
/// Returns `BAD_SETTINGS` and does nothing where the settings are invalid or the results are not as many as the
/// windows. Settings are invalid if the size is unknown, a number is out of its range, or the name is not UTF-8.
pub fn peg_windows(
    alloc: Global,
    asked: &CSettings,
    grammar: &[u8],
    name: &[u8],
    input: &[u8],
    windows: &[CWindow],
    results: &mut [CResult],
    out: &mut [u8],
    err: &mut [u8],
) -> CResult
    ensures { IsWindowsRun PegMeant (λ settings. States grammar.now settings) asked.now name.now input.now windows.now
        (record { old = results.old; new = results.new })
        (record { old = out.old; new = out.new; len = result.out_len })
        (record { old = err.old; new = err.new; len = result.err_len }) result.status }
{
    if results.len() != windows.len() {
        return nothing_done();
    }
    let Some(settings) = settings_of::<PegOptions>(asked, name) else {
        return nothing_done();
    };
    let front = front_of(alloc, plan_of::<PegLanguage>(alloc, grammar, &settings));
    let of = WindowsOf {
        settings: &settings,
        input,
        windows,
    };
    let mut printed = BufferSink::new(out, b"");
    let mut reported = BufferSink::new(err, front.reported.as_slice());
    run_windows::<PegLanguage>(
        alloc,
        &front.plan,
        &of,
        results,
        &mut printed,
        &mut reported,
    );
    CResult {
        out_len: printed.len,
        err_len: reported.len,
        status: Status::Done.code(),
    }
}

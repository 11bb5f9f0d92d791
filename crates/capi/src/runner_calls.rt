//! Runs of a grammar of peg(1), which is read once, on input after input.
ghost use Rattle.std.specs.Prelude.{◌≡◌, None};
ghost use Rattle.capi.specs.Asking.{PegMeant};
ghost use Rattle.capi.specs.OpenCall.{IsOpenCall};
ghost use Rattle.capi.specs.GrammarOpenings.{IsPegOpening};
ghost use Rattle.capi.specs.RunCall.{IsRunCall};

use crate::asked::{CSettings, settings_of};
use crate::calls::c_result;
use crate::opening::open_runner;
use crate::reported::lay_reported;
use crate::result::{CResult, nothing_done};
use crate::runs::run_input;
use crate::slot::{CRunner, put_runner, take_runner};
use pegrun::PegOptions;
use std::alloc::Global;

/// Reads and checks a grammar of peg(1), and puts a runner of it into an empty handle. Lays the notes on it into the
/// buffer, as much as there is room for. A rejected grammar leaves the handle empty. A text that is no grammar gives
/// its fault in place of notes, explained if the settings ask for that. The mode must be valid, and has no other
/// effect.
///
/// Returns `BAD_SETTINGS` and does nothing where the settings are invalid or the handle is not empty. Settings are
/// invalid if the size is unknown, a number is out of its range, or the name is not UTF-8.
pub fn peg_open(
    alloc: Global,
    asked: &CSettings,
    grammar: &[u8],
    name: &[u8],
    slot: &mut CRunner,
    err: &mut [u8],
) -> CResult
    ensures out { result.out_len ≡ 0 }
    ensures call { IsOpenCall PegMeant (λ settings. IsPegOpening grammar.now settings) asked.now name.now
        (record { old = slot.old.runner.held; new = slot.new.runner.held })
        (record { old = err.old; new = err.new; len = result.err_len }) result.status }
{
    if slot.is_open {
        return nothing_done();
    }
    let Some(settings) = settings_of::<PegOptions>(asked, name) else {
        return nothing_done();
    };
    let reported = open_runner(alloc, grammar, &settings, slot);
    lay_reported(reported, slot.is_open, err)
}

/// Runs the open grammar on an input, as `run_peg` does with the settings of opening. Lays both outputs into the
/// buffers, as much as there is room for, without the messages of opening. Returns `BAD_SETTINGS` and does nothing
/// where no grammar is open.
pub fn peg_run(
    alloc: Global,
    slot: &mut CRunner,
    input: &[u8],
    out: &mut [u8],
    err: &mut [u8],
) -> CResult
    ensures same { slot.new.runner.held ≡ slot.old.runner.held }
    ensures ran { IsRunCall input.now (record { old = out.old; new = out.new; len = result.out_len })
        (record { old = err.old; new = err.new; len = result.err_len }) result.status slot.old.runner.held }
{
    if !slot.is_open {
        return nothing_done();
    }
    let mut runner = take_runner(alloc, slot);
    let ran = run_input(alloc, &mut runner, input, out, err);
    put_runner(runner, slot);
    c_result(ran)
}

/// Frees the runner, if the handle is not empty, and leaves the handle empty.
pub fn peg_close(alloc: Global, slot: &mut CRunner)
    ensures { slot.new.runner.held ≡ None }
{
    if slot.is_open {
        let _runner = take_runner(alloc, slot);
    }
}

//! Runs of a grammar of peg(1) that was opened.
ghost use Rattle.std.specs.Prelude.{◌≡◌, ℕ, List};
ghost use Rattle.capi.specs.BufferRun.{IsLaid};
ghost use Rattle.capi.specs.GrammarOpenings.{RunsBy};
ghost use Rattle.capi.specs.RunCall.{HasRunOn};
ghost use Rattle.toolrun.specs.Status.{code_of};

use crate::runner::Runner;
use memoryrun::{BufferOutputs, run_opened_into};
use pegrun::{PegOptions, PegRunner, PegSettings};
use std::alloc::Global;
use toolrun::{Mode, Settings};

/// Makes the runner of a grammar, as settings ask.
pub(crate) fn runner_by(peg: PegRunner, settings: &PegSettings<'_>) -> Runner
    ensures grammar { result.peg ≡ peg }
    ensures settings { RunsBy result settings.now }
{
    Runner {
        peg,
        limit: settings.limit,
        style: settings.options.style,
        whole: settings.options.whole,
        budget: settings.options.budget,
        line_buffered: settings.options.line_buffered,
        explain: settings.explain,
    }
}

/// Runs an open grammar on an input, and lays what the run writes after the messages on the grammar into the buffers.
pub(crate) fn run_input(
    alloc: Global,
    runner: &mut Runner,
    input: &[u8],
    out: &mut [u8],
    err: &mut [u8],
) -> BufferOutputs
    ensures same { runner.new ≡ runner.old }
    ensures runs { (printed : List ℕ) × (reported : List ℕ)
        × HasRunOn runner.old input.now printed reported (code_of result.status)
        × IsLaid printed (record { old = out.old; new = out.new; len = result.out_len })
        × IsLaid reported (record { old = err.old; new = err.new; len = result.err_len }) }
{
    let settings = Settings {
        mode: Mode::Run,
        limit: runner.limit,
        start: None,
        input: "-",
        explain: runner.explain,
        options: PegOptions {
            style: runner.style,
            whole: runner.whole,
            budget: runner.budget,
            line_buffered: runner.line_buffered,
        },
    };
    run_opened_into(alloc, &mut runner.peg, &settings, input, out, err)
}

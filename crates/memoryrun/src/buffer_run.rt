//! Runs that write into buffers.
ghost use Rattle.abnfrun.specs.AbnfAnswers.{AbnfStates};
ghost use Rattle.memoryrun.specs.Filled.{IsLaid};
ghost use Rattle.memoryrun.specs.MemoryRun.{IsMemoryRun};
ghost use Rattle.memoryrun.specs.PlannedRun.{IsPlannedRun};
ghost use Rattle.pegread.specs.PegViews.{rules_of};
ghost use Rattle.pegrun.specs.Answers.{States};
ghost use Rattle.pegrun.specs.PegReply.{RunStates};
ghost use Rattle.std.specs.Prelude.{◌≡◌, List, ℕ};
ghost use Rattle.toolrun.specs.Status.{code_of};

use crate::buffer_sink::BufferSink;
use crate::bytes::Bytes;
use abnfrun::{AbnfSettings, run_abnf};
use pegrun::{PegRunner, PegSettings, run_peg};
use std::alloc::Global;
use toolrun::{Status, conclude_run};

/// The result of a run that writes into two buffers.
#[derive(Clone, Copy)]
pub struct BufferOutputs {
    /// The length of all of the output.
    pub out_len: usize,
    /// The length of all of the error output.
    pub err_len: usize,
    /// The exit status.
    pub status: Status,
}

/// Runs a grammar of peg(1) on an input in memory, as `run_peg` does, and lays both outputs over the fronts of buffers,
/// as much as there is room for. It keeps nothing of the rest. `Status::Fault` also if the length of an output does not
/// fit into a `usize`.
pub fn peg_into_buffers(
    alloc: Global,
    grammar: &[u8],
    settings: &PegSettings<'_>,
    input: &[u8],
    out: &mut [u8],
    err: &mut [u8],
) -> BufferOutputs
    ensures { (printed : List ℕ) × (reported : List ℕ)
        × IsMemoryRun (States grammar.now settings.now) input.now printed reported (code_of result.status)
        × IsLaid printed (record { old = out.old; new = out.new; len = result.out_len })
        × IsLaid reported (record { old = err.old; new = err.new; len = result.err_len }) }
{
    let mut reader = Bytes::new(input);
    let mut printed = BufferSink::new(out, b"");
    let mut reported = BufferSink::new(err, b"");
    let status = run_peg(
        alloc,
        grammar,
        settings,
        &mut reader,
        &mut printed,
        &mut reported,
    );
    BufferOutputs {
        out_len: printed.len,
        err_len: reported.len,
        status,
    }
}

/// Judges the lines of an input in memory by a grammar in ABNF, as `run_abnf` does, and lays both outputs over the
/// fronts of buffers, as much as there is room for. It keeps nothing of the rest. `Status::Fault` also if the length of
/// an output does not fit into a `usize`.
pub fn abnf_into_buffers(
    alloc: Global,
    grammar: &[u8],
    settings: &AbnfSettings<'_>,
    input: &[u8],
    out: &mut [u8],
    err: &mut [u8],
) -> BufferOutputs
    ensures { (printed : List ℕ) × (reported : List ℕ)
        × IsMemoryRun (AbnfStates grammar.now settings.now) input.now printed reported (code_of result.status)
        × IsLaid printed (record { old = out.old; new = out.new; len = result.out_len })
        × IsLaid reported (record { old = err.old; new = err.new; len = result.err_len }) }
{
    let mut reader = Bytes::new(input);
    let mut printed = BufferSink::new(out, b"");
    let mut reported = BufferSink::new(err, b"");
    let status = run_abnf(
        alloc,
        grammar,
        settings,
        &mut reader,
        &mut printed,
        &mut reported,
    );
    BufferOutputs {
        out_len: printed.len,
        err_len: reported.len,
        status,
    }
}

/// Runs an open grammar on an input in memory, and lays both outputs over the fronts of buffers, as much as there is
/// room for, after the messages on the grammar. It keeps nothing of the rest. `Status::Fault` also if the length of an
/// output does not fit into a `usize`.
pub fn run_opened_into(
    alloc: Global,
    runner: &mut PegRunner,
    settings: &PegSettings<'_>,
    input: &[u8],
    out: &mut [u8],
    err: &mut [u8],
) -> BufferOutputs
    ensures same { runner.new ≡ runner.old }
    ensures runs { (printed : List ℕ) × (reported : List ℕ)
        × IsPlannedRun (RunStates (rules_of runner.old.rules) runner.old.start settings.now) input.now printed reported
        (code_of result.status) × IsLaid printed (record { old = out.old; new = out.new; len = result.out_len })
        × IsLaid reported (record { old = err.old; new = err.new; len = result.err_len }) }
{
    let mut reader = Bytes::new(input);
    let mut printed = BufferSink::new(out, b"");
    let mut reported = BufferSink::new(err, b"");
    let ending = runner.run(alloc, settings, &mut reader, &mut printed);
    let status = conclude_run(ending, &mut printed, &mut reported);
    BufferOutputs {
        out_len: printed.len,
        err_len: reported.len,
        status,
    }
}

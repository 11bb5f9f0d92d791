//! Whole runs in memory.
ghost use Rattle.abnfrun.specs.AbnfAnswers.{AbnfStates};
ghost use Rattle.pegrun.specs.Answers.{States};
ghost use Rattle.memoryrun.specs.MemoryRun.{IsMemoryRun};
ghost use Rattle.toolrun.specs.Status.{code_of};

use crate::bytes::Bytes;
use crate::outputs::Outputs;
use abnfrun::{AbnfSettings, run_abnf};
use pegrun::{PegSettings, run_peg};
use ruletable::SinkOf;
use std::alloc::Global;

/// Runs a grammar of peg(1) on an input in memory, as `run_peg` does, and returns both outputs. `Status::Fault` also if
/// an allocation for one of the outputs fails; that output is then cut short.
pub fn peg_in_memory(
    alloc: Global,
    grammar: &[u8],
    settings: &PegSettings<'_>,
    input: &[u8],
) -> Outputs
    ensures { IsMemoryRun (States grammar.now settings.now) input.now result.out.items result.err.items
        (code_of result.status) }
{
    let mut reader = Bytes::new(input);
    let mut out = SinkOf::new(Vec::new(alloc));
    let mut err = SinkOf::new(Vec::new(alloc));
    let status = run_peg(alloc, grammar, settings, &mut reader, &mut out, &mut err);
    Outputs {
        out: out.into_inner(),
        err: err.into_inner(),
        status,
    }
}

/// Judges the lines of an input in memory by a grammar in ABNF, as `run_abnf` does, and returns both outputs.
/// `Status::Fault` also if an allocation for one of the outputs fails; that output is then cut short.
pub fn abnf_in_memory(
    alloc: Global,
    grammar: &[u8],
    settings: &AbnfSettings<'_>,
    input: &[u8],
) -> Outputs
    ensures { IsMemoryRun (AbnfStates grammar.now settings.now) input.now result.out.items result.err.items
        (code_of result.status) }
{
    let mut reader = Bytes::new(input);
    let mut out = SinkOf::new(Vec::new(alloc));
    let mut err = SinkOf::new(Vec::new(alloc));
    let status = run_abnf(alloc, grammar, settings, &mut reader, &mut out, &mut err);
    Outputs {
        out: out.into_inner(),
        err: err.into_inner(),
        status,
    }
}

//! Runs in memory of a grammar that was opened.
ghost use Rattle.memoryrun.specs.PlannedRun.{IsPlannedRun};
ghost use Rattle.pegread.specs.PegViews.{rules_of};
ghost use Rattle.pegrun.specs.PegReply.{RunStates};
ghost use Rattle.std.specs.Prelude.{◌≡◌};
ghost use Rattle.toolrun.specs.Status.{code_of};

use crate::bytes::Bytes;
use crate::outputs::Outputs;
use pegrun::{PegRunner, PegSettings};
use ruletable::SinkOf;
use std::alloc::Global;
use toolrun::conclude_run;

/// Runs an open grammar on an input in memory, and returns both outputs, after the messages on the grammar.
/// `Status::Fault` also if an allocation for one of the outputs fails; that output is then cut short.
pub fn run_opened(
    alloc: Global,
    runner: &mut PegRunner,
    settings: &PegSettings<'_>,
    input: &[u8],
) -> Outputs
    ensures same { runner.new ≡ runner.old }
    ensures runs { IsPlannedRun (RunStates (rules_of runner.old.rules) runner.old.start settings.now) input.now
        result.out.items result.err.items (code_of result.status) }
{
    let mut reader = Bytes::new(input);
    let mut out = SinkOf::new(Vec::new(alloc));
    let mut err = SinkOf::new(Vec::new(alloc));
    let ending = runner.run(alloc, settings, &mut reader, &mut out);
    let status = conclude_run(ending, &mut out, &mut err);
    Outputs {
        out: out.into_inner(),
        err: err.into_inner(),
        status,
    }
}

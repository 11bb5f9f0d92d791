//! Runs in memory of a grammar that was read and checked before.
ghost use Rattle.memoryrun.specs.PlannedRun.{IsPlannedRun};
ghost use Rattle.toolrun.specs.Plan.{does_of};
ghost use Rattle.toolrun.specs.Status.{code_of};
ghost use Rattle.toolrun.specs.Tasks.{task_does};

use crate::bytes::Bytes;
use crate::outputs::Outputs;
use ruletable::SinkOf;
use std::alloc::Global;
use toolrun::{Language, Plan, Settings, act_on, conclude_run};

/// Performs a plan on an input in memory, and returns both outputs, after the plan's first messages. `Status::Fault`
/// also if an allocation for one of the outputs fails; that output is then cut short.
pub fn run_plan<L: Language>(
    alloc: Global,
    plan: &Plan<L::Grammar, L::Sound>,
    settings: &Settings<'_, L::Options>,
    input: &[u8],
) -> Outputs
    ensures { IsPlannedRun (does_of (λ t. task_does L.canonical L.runs t settings.now) plan.now.task) input.now
        result.out.items result.err.items (code_of result.status) }
{
    let mut reader = Bytes::new(input);
    let mut out = SinkOf::new(Vec::new(alloc));
    let mut err = SinkOf::new(Vec::new(alloc));
    let ending = act_on::<L, _, _>(&plan.task, alloc, settings, &mut reader, &mut out);
    let status = conclude_run(ending, &mut out, &mut err);
    Outputs {
        out: out.into_inner(),
        err: err.into_inner(),
        status,
    }
}

//! Runs that write into sinks.
ghost use Rattle.memoryrun.specs.PlannedRun.{IsPlannedRun};
ghost use Rattle.std.specs.Io.KnownBytes.{Appends};
ghost use Rattle.std.specs.Prelude.{◌≡◌, List, ℕ, false};
ghost use Rattle.toolrun.specs.Plan.{does_of};
ghost use Rattle.toolrun.specs.Status.{code_of};
ghost use Rattle.toolrun.specs.Tasks.{task_does};

use crate::bytes::Bytes;
use ruletable::Sink;
use std::alloc::Global;
use toolrun::{Language, Plan, Settings, Status, act_on, conclude_run};

/// Performs a plan on an input in memory, and writes both outputs, after the plan's first messages. Returns the status.
pub fn run_plan_into<L: Language, O: Sink, E: Sink>(
    alloc: Global,
    plan: &Plan<L::Grammar, L::Sound>,
    settings: &Settings<'_, L::Options>,
    input: &[u8],
    out: &mut O,
    err: &mut E,
) -> Status
    requires out_is_fresh { O.failed out.old ≡ false }
    requires err_is_fresh { E.failed err.old ≡ false }
    ensures { (printed : List ℕ) × (reported : List ℕ)
        × IsPlannedRun (does_of (λ t. task_does L.canonical L.runs t settings.now) plan.now.task) input.now printed
        reported (code_of result) × Appends (O.contents out.old) (O.contents out.new) printed
        × Appends (E.contents err.old) (E.contents err.new) reported }
{
    let mut reader = Bytes::new(input);
    let ending = act_on::<L, _, _>(&plan.task, alloc, settings, &mut reader, out);
    conclude_run(ending, out, err)
}

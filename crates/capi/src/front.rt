//! The messages on a grammar, which stand once before those of its runs.
ghost use Rattle.std.specs.Prelude.{◌≡◌, ◌≢◌, ◌++◌, Err, IfOk, MatchOption};
ghost use Rattle.capi.specs.FrontText.{IsFrontOf};
ghost use Rattle.ruletable.specs.Faults.{fault_text};
ghost use Rattle.ruletable.specs.declared.fault.ReadFault.{ReadFault as Fault};
ghost use Rattle.toolrun.specs.Plan.{first_text};
ghost use Rattle.toolrun.specs.declared.stop.Stop.TheVariants.{Refused};

use ruletable::{Memory, ReadFault, SinkOf, write_fault};
use std::alloc::Global;
use toolrun::{First, Plan, Status, Stop, write_first};

/// The common part of the runs of all windows.
#[derive(Drop)]
pub struct Front<G, S> {
    /// The messages that are written once.
    pub reported: Vec<u8>,
    /// The plan for each window.
    pub plan: Plan<G, S>,
}

/// Returns the first messages as a text. Returns `Memory` if an allocation fails.
pub(crate) fn text_of_first(alloc: Global, first: &First) -> Result<Vec<u8>, Memory>
    ensures { IfOk result (λ text. text.items ≡ first_text first.now) }
{
    let mut text = SinkOf::new(Vec::new(alloc));
    match write_first(alloc, first, &mut text) {
        Ok(()) => Ok(text.into_inner()),
        Err(_) => Err(Memory),
    }
}

/// Returns the first messages and the fault of a grammar's text after them. Returns `Memory` if an allocation fails.
fn text_of_refusal(alloc: Global, first: &First, fault: &ReadFault) -> Result<Vec<u8>, Memory>
    ensures { IfOk result (λ text. text.items ≡ first_text first.now ++ fault_text fault.now) }
{
    let mut text = SinkOf::new(text_of_first(alloc, first)?);
    match write_fault(fault, &mut text) {
        Ok(()) => Ok(text.into_inner()),
        Err(_) => Err(Memory),
    }
}

/// Returns the fault of a grammar's text that stops a run; `None` if no such fault does.
fn refused_by<T>(task: &Result<T, Stop>) -> Option<ReadFault>
    ensures { MatchOption result ((fault : Fault) → task.now ≢ Err (Refused fault))
        (λ fault. task.now ≡ Err (Refused fault)) }
{
    match task {
        Err(Stop::Refused(fault)) => Some(*fault),
        _ => None,
    }
}

/// Splits a plan into the messages that stand once for all windows and the plan for each window. The messages are the
/// notes on the grammar or the fault of its text. If an allocation fails there are none, and each run stops with
/// `NoMemory`.
pub fn front_of<G: Drop, S: Drop>(alloc: Global, plan: Plan<G, S>) -> Front<G, S>
    ensures { IsFrontOf (first_text plan.first) plan.task result.reported.items result.plan.task }
{
    let Plan { first, task } = plan;
    let (reported, task) = match refused_by(&task) {
        Some(fault) => {
            let reported = text_of_refusal(alloc, &first, &fault);
            (reported, Err(Stop::Quiet(Status::Refused)))
        }
        None => (text_of_first(alloc, &first), task),
    };
    match reported {
        Ok(reported) => Front {
            reported,
            plan: Plan { first, task },
        },
        Err(Memory) => Front {
            reported: Vec::new(alloc),
            plan: Plan {
                first,
                task: Err(Stop::NoMemory),
            },
        },
    }
}

//! The run of a tool.
ghost use Rattle.std.specs.Prelude.{◌≡◌, false};
ghost use Rattle.ruletable.specs.Writing.{Flags};
ghost use Rattle.toolrun.specs.Plan.{does_of, met_before};
ghost use Rattle.toolrun.specs.Right.{RunIsRight};
ghost use Rattle.toolrun.specs.Status.{code_of};
ghost use Rattle.toolrun.specs.Stopped.{Fulfils, Prints};
ghost use Rattle.toolrun.specs.Stream.{passed};
ghost use Rattle.toolrun.specs.Tasks.{task_does};

use crate::ending::{Ending, plain_ending};
use crate::finish::{close, conclude};
use crate::first::write_first;
use crate::language::Language;
use crate::plan::{Task, plan_of};
use crate::settings::Settings;
use crate::status::Status;
use crate::stop::{Stop, status};
use feed::Source;
use ruletable::{Sink, WriteFault};
use std::alloc::Global;

/// Writes a grammar's canonical text.
fn print_grammar<L: Language, O: Sink>(
    grammar: &L::Grammar,
    out: &mut O,
) -> Result<Stop, WriteFault>
    requires { O.failed out.old ≡ false }
    ensures prints { Prints (O.contents out.old) (O.contents out.new) (L.canonical grammar.now) result }
    ensures flag { Flags (O.failed out.old) (O.failed out.new) result }
{
    match L::print(grammar, out) {
        Ok(()) => Ok(Stop::Quiet(Status::Done)),
        Err(fault) => Err(fault),
    }
}

/// Performs the task of a plan, if it has one. `WriteFault` if the output fails; then a prefix of its text is written.
pub fn act<L: Language, R: Source, O: Sink>(
    task: &Result<Task<L::Grammar, L::Sound>, Stop>,
    alloc: Global,
    settings: &Settings<'_, L::Options>,
    reader: &mut R,
    out: &mut O,
) -> Result<Ending, WriteFault>
    requires reader_is_fresh { R.failed reader.old ≡ false }
    requires reader_is_open { R.ended reader.old ≡ false }
    requires out_is_fresh { O.failed out.old ≡ false }
    ensures { Fulfils (does_of (λ t. task_does L.canonical L.runs t settings.now) task.now)
        (passed R.remaining R.failed reader.old reader.new) (passed O.contents O.failed out.old out.new) result }
{
    let task = match task {
        Ok(task) => task,
        Err(stop) => return Ok(Ending::Plain(*stop)),
    };
    match task {
        Task::Prints(grammar) => plain_ending(print_grammar::<L, O>(grammar, out)),
        Task::Runs(grammar) => L::run(alloc, grammar, settings, reader, out),
    }
}

/// Returns the status that a run has met before it performs this.
fn status_before<T>(task: &Result<T, Stop>) -> Status
    ensures { result ≡ met_before task.now }
{
    match task {
        Ok(_) => Status::Done,
        Err(stop) => status(*stop),
    }
}

/// Runs a grammar language's tool on a grammar's text and what a reader gives.
pub fn run_tool<L: Language, R: Source, O: Sink, E: Sink>(
    alloc: Global,
    grammar: &[u8],
    settings: &Settings<'_, L::Options>,
    reader: &mut R,
    out: &mut O,
    err: &mut E,
) -> Status
    requires reader_is_fresh { R.failed reader.old ≡ false }
    requires reader_is_open { R.ended reader.old ≡ false }
    requires out_is_fresh { O.failed out.old ≡ false }
    requires err_is_fresh { E.failed err.old ≡ false }
    ensures right { RunIsRight (L.states grammar.now settings.now) (passed R.remaining R.failed reader.old reader.new)
        (passed O.contents O.failed out.old out.new) (passed E.contents E.failed err.old err.new) (code_of result) }
{
    let plan = plan_of::<L>(alloc, grammar, settings);
    if write_first(alloc, &plan.first, err).is_err() {
        close(out, err);
        return status_before(&plan.task).at_least_fault();
    }
    let ending = act::<L, R, O>(&plan.task, alloc, settings, reader, out);
    conclude(ending, out, err)
}

//! The run of a program.
ghost use Rattle.std.specs.Prelude.{◌≡◌, ◌≢◌, [], false, map, string_bytes};
ghost use Rattle.std.specs.Io.KnownBytes.{Keeps};
ghost use Rattle.clap.specs.Words.{App, fault_of, matches_of};
ghost use Rattle.cli.specs.Jobs.{JobStates};
ghost use Rattle.cli.specs.Parsing.{WordsState};
ghost use Rattle.toolrun.specs.Right.{RunIsRight};
ghost use Rattle.toolrun.specs.Status.{code_of};
ghost use Rattle.toolrun.specs.Stream.{no_input, passed};

use crate::output::BufferedSink;
use crate::program::Program;
use crate::reading::{end_unready, read_job};
use feed::Source;
use ruletable::Sink;
use std::rt::Files;
use toolrun::Status;

/// Runs a program, whose words are its own name and those of its command. It runs the grammar in the file GRAMMAR on
/// what the reader gives, with the settings of the words.
///
/// - `-h`: the help on `out`, `Done`.
/// - Other words, or a value out of its range: what is wrong with them on `err`, `Refused`, and nothing is read.
/// - A file that cannot be read: `cannot read the grammar`, `Fault`.
/// - If an allocation fails in parsing the words or reading the file: `out of memory`, `NoMemory`.
/// - Where a writer fails it holds a prefix of its text, and the status is at least `Fault`.
pub fn tool_main<P: Program, R: Files + AllocGlobal, I: Source, O: BufferedSink, E: Sink>(
    rt: &R,
    words: &[String],
    reader: &mut I,
    out: &mut O,
    err: &mut E,
) -> Status
    requires reader_is_fresh { I.failed reader.old ≡ false }
    requires reader_is_open { I.ended reader.old ≡ false }
    requires out_is_fresh { O.failed out.old ≡ false }
    requires err_is_fresh { E.failed err.old ≡ false }
    ensures words { (app : App) × P.is_app app × (fault_of app (map string_bytes words.now) ≢ [] →
        Keeps (I.remaining reader.old) (I.remaining reader.new) ×
        RunIsRight (WordsState (fault_of app (map string_bytes words.now))) no_input
        (passed O.contents O.failed out.old out.new) (passed E.contents E.failed err.old err.new) (code_of result)) }
    ensures right { (app : App) × P.is_app app × (fault_of app (map string_bytes words.now) ≡ [] →
        RunIsRight (JobStates P.asks P.states (matches_of app (map string_bytes words.now)))
        (passed I.remaining I.failed reader.old reader.new) (passed O.contents O.failed out.old out.new)
        (passed E.contents E.failed err.old err.new) (code_of result)) }
{
    match read_job::<P, R>(rt, words) {
        Ok(job) => P::run(
            rt.alloc(),
            job.grammar.as_slice(),
            &job.settings,
            reader,
            out,
            err,
        ),
        Err(why) => end_unready(rt.alloc(), &why, out, err),
    }
}

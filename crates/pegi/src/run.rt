//! The run of the program.
ghost use Rattle.std.specs.Prelude.{◌≡◌, ◌≢◌, [], false, map, string_bytes};
ghost use Rattle.std.specs.Io.KnownBytes.{Keeps};
ghost use Rattle.clap.specs.Words.{fault_of, matches_of};
ghost use Rattle.cli.specs.Jobs.{JobStates};
ghost use Rattle.cli.specs.Parsing.{WordsState};
ghost use Rattle.pegi.specs.PegiCommand.{AsksPegi, IsPegiApp};
ghost use Rattle.pegrun.specs.Answers.{States};
ghost use Rattle.toolrun.specs.Right.{RunIsRight};
ghost use Rattle.toolrun.specs.Status.{code_of};
ghost use Rattle.toolrun.specs.Stream.{no_input, passed};

use crate::command::Pegi;
use cli::{BufferedSink, tool_main};
use feed::Source;
use ruletable::Sink;
use std::rt::Files;
use toolrun::Status;

/// Runs the program `pegi`. It runs the grammar in the file GRAMMAR on the bytes that the reader gives, as `run_peg`
/// says, with the settings of the words. These are its own name and `[-m MODE] [-l N] [-s RULE] [-b N] [-r] [-1]
/// [--escapes] [-x] [-f FORM] GRAMMAR [FILE]..`.
///
/// - `-h`: the help on `out`, `Done`.
/// - Other words, or a value out of its range: what is wrong with them on `err`, `Refused`, and nothing is read.
/// - A file that cannot be read: `cannot read the grammar`, `Fault`.
/// - If an allocation fails in parsing the words or reading the file: `out of memory`, `NoMemory`.
/// - Where a writer fails it holds a prefix of its text, and the status is at least `Fault`.
pub(crate) fn pegi_main<R: Files + AllocGlobal, I: Source, O: BufferedSink, E: Sink>(
    rt: &R,
    words: &[String],
    reader: &mut I,
    out: &mut O,
    err: &mut E,
) -> Status
    requires reader_is_fresh { I.failed reader.old ≡ false }
    requires reader_is_open { I.ended reader.old ≡ false }
    requires out_is_fresh { O.failed out.old ≡ false }
    requires err_is_fresh { E.failed err.old ≡ false }
    ensures words { (app : _) × IsPegiApp app × (fault_of app (map string_bytes words.now) ≢ [] →
        Keeps (I.remaining reader.old) (I.remaining reader.new) ×
        RunIsRight (WordsState (fault_of app (map string_bytes words.now))) no_input
        (passed O.contents O.failed out.old out.new) (passed E.contents E.failed err.old err.new) (code_of result)) }
    ensures right { (app : _) × IsPegiApp app × (fault_of app (map string_bytes words.now) ≡ [] →
        RunIsRight (JobStates AsksPegi States (matches_of app (map string_bytes words.now)))
        (passed I.remaining I.failed reader.old reader.new) (passed O.contents O.failed out.old out.new)
        (passed E.contents E.failed err.old err.new) (code_of result)) }
{
    tool_main::<Pegi, R, I, O, E>(rt, words, reader, out, err)
}

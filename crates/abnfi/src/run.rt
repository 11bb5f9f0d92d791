//! The run of the program.
ghost use Rattle.std.specs.Prelude.{◌≡◌, ◌≢◌, [], false, map, string_bytes};
ghost use Rattle.std.specs.Io.KnownBytes.{Keeps};
ghost use Rattle.abnfi.specs.AbnfiCommand.{AsksAbnfi, IsAbnfiApp};
ghost use Rattle.abnfrun.specs.AbnfAnswers.{AbnfStates};
ghost use Rattle.clap.specs.Words.{fault_of, matches_of};
ghost use Rattle.cli.specs.Jobs.{JobStates};
ghost use Rattle.cli.specs.Parsing.{WordsState};
ghost use Rattle.toolrun.specs.Right.{RunIsRight};
ghost use Rattle.toolrun.specs.Status.{code_of};
ghost use Rattle.toolrun.specs.Stream.{no_input, passed};

use crate::command::Abnfi;
use cli::{BufferedSink, tool_main};
use feed::Source;
use ruletable::Sink;
use std::rt::Files;
use toolrun::Status;

/// Runs the program `abnfi`. It judges the lines that the reader gives by the grammar in the file GRAMMAR, as
/// `run_abnf` says, with the settings of the words. These are its own name and `[-m MODE] [-l N] [-s RULE] [-u MODE]
/// [-p WHAT] [-H] [-n] [-w] [-z] [-k] [-q] [--line-buffered] [-b N] [-x] [-f FORM] GRAMMAR [FILE]..`.
///
/// Words without a run, a grammar that cannot be read and an allocation that fails end it as `tool_main` says.
pub(crate) fn abnfi_main<R: Files + AllocGlobal, I: Source, O: BufferedSink, E: Sink>(
    rt: &R,
    words: &[String],
    reader: &mut I,
    out: &mut O,
    err: &mut E,
) -> Status
    requires reader_is_fresh { I.failed reader.old ≡ false }
    requires reader_is_open { I.ended reader.old ≡ false }
    requires out_is_fresh { O.failed out.old ≡ false }
    requires err_is_fresh { E.failed err.old ≡ false }
    ensures words { (app : _) × IsAbnfiApp app × (fault_of app (map string_bytes words.now) ≢ [] →
        Keeps (I.remaining reader.old) (I.remaining reader.new) ×
        RunIsRight (WordsState (fault_of app (map string_bytes words.now))) no_input
        (passed O.contents O.failed out.old out.new) (passed E.contents E.failed err.old err.new) (code_of result)) }
    ensures right { (app : _) × IsAbnfiApp app × (fault_of app (map string_bytes words.now) ≡ [] →
        RunIsRight (JobStates AsksAbnfi AbnfStates (matches_of app (map string_bytes words.now)))
        (passed I.remaining I.failed reader.old reader.new) (passed O.contents O.failed out.old out.new)
        (passed E.contents E.failed err.old err.new) (code_of result)) }
{
    tool_main::<Abnfi, R, I, O, E>(rt, words, reader, out, err)
}

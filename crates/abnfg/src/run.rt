//! The run of the program.
ghost use Rattle.std.specs.Prelude.{◌≡◌, ◌≢◌, [], false, map, string_bytes};
ghost use Rattle.abnfg.specs.ListAnswers.{ListAnswers};
ghost use Rattle.abnfg.specs.ListWords.{IsAbnfgApp};
ghost use Rattle.clap.specs.Words.{fault_of, found_of, matches_of, rows_of};
ghost use Rattle.cli.specs.Parsing.{WordsState};
ghost use Rattle.toolrun.specs.Right.{RunIsRight};
ghost use Rattle.toolrun.specs.Status.{code_of};
ghost use Rattle.toolrun.specs.Stream.{no_input, passed};

use crate::command::{abnfg_command, settings_of};
use crate::grammar::list_text;
use clap::ArgMatches;
use cli::{Unready, end_unready, parse_words, read_grammar};
use ruletable::Sink;
use std::io::ErrorKind;
use std::rt::Files;
use toolrun::{Status, Stop, end_run};

// Lists the lines of the grammar in the file that the words name.
fn list_asked<R: Files + AllocGlobal, O: Sink, E: Sink>(
    rt: &R,
    matches: &ArgMatches<'_>,
    out: &mut O,
    err: &mut E,
) -> Status
    requires out_is_fresh { O.failed out.old ≡ false }
    requires err_is_fresh { E.failed err.old ≡ false }
    ensures right { RunIsRight (ListAnswers (rows_of (found_of matches.now))) no_input
        (passed O.contents O.failed out.old out.new) (passed E.contents E.failed err.old err.new) (code_of result) }
{
    let settings = settings_of(matches);
    let path = matches.get_str("grammar").unwrap_or("");
    match read_grammar(rt, path) {
        Ok(text) => list_text(rt.alloc(), &settings, &text, out, err),
        Err(fault) if fault.kind() == ErrorKind::OutOfMemory => {
            end_run(Ok(Stop::NoMemory), out, err)
        }
        Err(_) => end_run(Ok(Stop::Unreadable), out, err),
    }
}

/// Runs the program, whose words are its own name and `[-a] [-e] [-m MODE] [-l N] [-c N] [-g SEED] [-s RULE] [-u
/// MODE] [-x] [-z] GRAMMAR`: it lists lines that a rule of the grammar in the file GRAMMAR derives.
///
/// - `-h`: the help on `out`, `Done`.
/// - Other words: what is wrong with them on `err`, `Refused`, and nothing is read.
/// - A file that cannot be read: `cannot read the grammar`, `Fault`.
/// - The grammar's fault, or the notes on it, stand on `err`. A fault, or a note that rejects the grammar: `Refused`.
/// - Else the first lines of the rule on `out`, each with its end, `Done`. They come in the order of lines: shorter
///   ones first, and else by the first symbol that differs: %x21-7E, then the space, then others by number. Each stands
///   there once. With `-a` no set distinguishes a symbol of them from an earlier one. They are as many as the words ask
///   for, or all that have at most so many symbols.
/// - With `-x` and `-m miss`: then on `err` why the rule rejects each of the lines.
/// - With `-x` and `-m cover`: then on `err` the goal of each of the lines, and the goals that no line reaches.
/// - There is no such line: `NoMatch`.
/// - The states of the grammar are too many, or it bounds the repetitions of a nullable operand: `too many stacks`,
///   `Overlong`. What is written is right, and more may be missing.
/// - If an allocation fails: `out of memory`, `NoMemory`.
pub(crate) fn abnfg_main<R: Files + AllocGlobal, O: Sink, E: Sink>(
    rt: &R,
    words: &[String],
    out: &mut O,
    err: &mut E,
) -> Status
    requires out_is_fresh { O.failed out.old ≡ false }
    requires err_is_fresh { E.failed err.old ≡ false }
    ensures words { (app : _) × IsAbnfgApp app × (fault_of app (map string_bytes words.now) ≢ [] →
        RunIsRight (WordsState (fault_of app (map string_bytes words.now))) no_input
        (passed O.contents O.failed out.old out.new) (passed E.contents E.failed err.old err.new) (code_of result)) }
    ensures right { (app : _) × IsAbnfgApp app × (fault_of app (map string_bytes words.now) ≡ [] →
        RunIsRight (ListAnswers (matches_of app (map string_bytes words.now))) no_input
        (passed O.contents O.failed out.old out.new) (passed E.contents E.failed err.old err.new) (code_of result)) }
{
    match parse_words(abnfg_command(rt.alloc()), words) {
        Ok(matches) => list_asked(rt, &matches, out, err),
        Err(error) => end_unready(rt.alloc(), &Unready::Words(error), out, err),
    }
}

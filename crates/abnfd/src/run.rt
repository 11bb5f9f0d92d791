//! The run of the program.
ghost use Rattle.std.specs.Prelude.{◌≡◌, ◌≢◌, [], false, map, option_copied, string_bytes};
ghost use Rattle.abnfd.specs.CompareAnswers.{CompareAnswers, FilesCompared, IsWholeReport, answer_reply, clash_text};
ghost use Rattle.abnfd.specs.CompareAnswers.{missing_stop, missing_text, shared_text};
ghost use Rattle.abnfd.specs.CompareWords.{IsAbnfdApp, is_clash as asks_twice};
ghost use Rattle.clap.specs.Words.{fault_of, found_of, matches_of, rows_of};
ghost use Rattle.cli.specs.Parsing.{WordsState};
ghost use Rattle.toolrun.specs.Plan.{IsReportedAnd};
ghost use Rattle.toolrun.specs.Right.{RunIsRight};
ghost use Rattle.toolrun.specs.Status.{code_of};
ghost use Rattle.toolrun.specs.Stopped.{Performs};
ghost use Rattle.toolrun.specs.Stream.{no_input, passed};

use crate::by_name::compare_asked;
use crate::command::{abnfd_command, are_shared, settings_of};
use crate::compared::{CompareSettings, ComparisonAnswer, Report};
use crate::files::{Texts, UnreadFile, read_both};
use clap::ArgMatches;
use cli::{Unready, end_unready, parse_words};
use ruletable::{Sink, WriteFault, write_whole};
use std::alloc::Global;
use std::rt::Files;
use toolrun::{Status, Stop, close_run, end_run};

// Writes an answer.
fn write_answer<O: Sink>(answer: &ComparisonAnswer, out: &mut O) -> Result<Stop, WriteFault>
    requires { O.failed out.old ≡ false }
    ensures { Performs (λ input reply. reply ≡ answer_reply answer.now.text.items answer.now.status) no_input
        (passed O.contents O.failed out.old out.new) result }
{
    match write_whole(out, answer.text.as_slice()) {
        Ok(()) => Ok(Stop::Quiet(answer.status)),
        Err(fault) => Err(fault),
    }
}

// Writes the report on a comparison, and ends.
fn end_compared<O: Sink, E: Sink>(report: &Report, out: &mut O, err: &mut E) -> Status
    requires out_is_fresh { O.failed out.old ≡ false }
    requires err_is_fresh { E.failed err.old ≡ false }
    ensures right { RunIsRight (IsWholeReport report.now.reported.items report.now.answer.text.items
        report.now.answer.status)
        no_input (passed O.contents O.failed out.old out.new) (passed E.contents E.failed err.old err.new)
        (code_of result) }
{
    if write_whole(err, report.reported.as_slice()).is_err() {
        return close_run(out, err);
    }
    let stop = write_answer(&report.answer, out);
    end_run(stop, out, err)
}

// Reports what is wrong, and ends with that status.
fn end_reported<O: Sink, E: Sink>(
    reported: &[u8],
    status: Status,
    out: &mut O,
    err: &mut E,
) -> Status
    requires out_is_fresh { O.failed out.old ≡ false }
    requires err_is_fresh { E.failed err.old ≡ false }
    ensures right { RunIsRight (IsReportedAnd reported.now (Stop.Quiet status)) no_input
        (passed O.contents O.failed out.old out.new) (passed E.contents E.failed err.old err.new) (code_of result) }
{
    if write_whole(err, reported).is_err() {
        return close_run(out, err);
    }
    end_run(Ok(Stop::Quiet(status)), out, err)
}

// Reports that options exclude each other, and ends.
fn end_clash<O: Sink, E: Sink>(out: &mut O, err: &mut E) -> Status
    requires out_is_fresh { O.failed out.old ≡ false }
    requires err_is_fresh { E.failed err.old ≡ false }
    ensures right { RunIsRight (IsReportedAnd clash_text (Stop.Quiet Status.Refused)) no_input
        (passed O.contents O.failed out.old out.new) (passed E.contents E.failed err.old err.new) (code_of result) }
{
    let reported = b"error: the argument '-a' cannot be used with '-s' or '-t'

Usage: abnfd [OPTIONS] <OLD> <NEW>

For more information, try '--help'.
";
    end_reported(reported, Status::Refused, out, err)
}

// Reports that both grammars are standard input, and ends.
fn end_shared<O: Sink, E: Sink>(out: &mut O, err: &mut E) -> Status
    requires out_is_fresh { O.failed out.old ≡ false }
    requires err_is_fresh { E.failed err.old ≡ false }
    ensures right { RunIsRight (IsReportedAnd shared_text (Stop.Quiet Status.Refused)) no_input
        (passed O.contents O.failed out.old out.new) (passed E.contents E.failed err.old err.new) (code_of result) }
{
    let reported = b"OLD and NEW are both standard input\n";
    end_reported(reported, Status::Refused, out, err)
}

// Ends a program that could not read both texts.
fn end_unread<O: Sink, E: Sink>(why: UnreadFile, out: &mut O, err: &mut E) -> Status
    requires out_is_fresh { O.failed out.old ≡ false }
    requires err_is_fresh { E.failed err.old ≡ false }
    ensures right { RunIsRight (IsReportedAnd (missing_text why) (missing_stop why)) no_input
        (passed O.contents O.failed out.old out.new) (passed E.contents E.failed err.old err.new) (code_of result) }
{
    match why {
        UnreadFile::Old => {
            let reported = b"old: cannot read the grammar\n";
            end_reported(reported, Status::Fault, out, err)
        }
        UnreadFile::New => {
            let reported = b"new: cannot read the grammar\n";
            end_reported(reported, Status::Fault, out, err)
        }
        UnreadFile::NoMemory => end_run(Ok(Stop::NoMemory), out, err),
    }
}

// Compares the texts of two grammars.
fn compare_read<O: Sink, E: Sink>(
    alloc: Global,
    settings: &CompareSettings<'_>,
    texts: &Texts,
    out: &mut O,
    err: &mut E,
) -> Status
    requires out_is_fresh { O.failed out.old ≡ false }
    requires err_is_fresh { E.failed err.old ≡ false }
    ensures right { RunIsRight (FilesCompared settings.now.all settings.now.explain settings.now.letters
        (option_copied settings.now.old_rule) (option_copied settings.now.new_rule)) no_input
        (passed O.contents O.failed out.old out.new) (passed E.contents E.failed err.old err.new) (code_of result) }
{
    match compare_asked(alloc, settings, texts) {
        Ok(report) => end_compared(&report, out, err),
        Err(_) => end_run(Ok(Stop::NoMemory), out, err),
    }
}

// Compares the grammars in the files of these names.
fn compare_files<R: Files + AllocGlobal, O: Sink, E: Sink>(
    rt: &R,
    settings: &CompareSettings<'_>,
    old: &str,
    new: &str,
    out: &mut O,
    err: &mut E,
) -> Status
    requires out_is_fresh { O.failed out.old ≡ false }
    requires err_is_fresh { E.failed err.old ≡ false }
    ensures right { RunIsRight (FilesCompared settings.now.all settings.now.explain settings.now.letters
        (option_copied settings.now.old_rule) (option_copied settings.now.new_rule)) no_input
        (passed O.contents O.failed out.old out.new) (passed E.contents E.failed err.old err.new) (code_of result) }
{
    match read_both(rt, old, new) {
        Ok(texts) => compare_read(rt.alloc(), settings, &texts, out, err),
        Err(why) => end_unread(why, out, err),
    }
}

// Returns whether all rules are asked for, and one too.
fn is_clash(settings: &CompareSettings<'_>) -> bool
    ensures { result ≡ asks_twice settings.now.all (option_copied settings.now.new_rule) }
{
    settings.all && settings.new_rule.is_some()
}

// Compares what the words ask for.
fn run_asked<R: Files + AllocGlobal, O: Sink, E: Sink>(
    rt: &R,
    matches: &ArgMatches<'_>,
    out: &mut O,
    err: &mut E,
) -> Status
    requires out_is_fresh { O.failed out.old ≡ false }
    requires err_is_fresh { E.failed err.old ≡ false }
    ensures right { RunIsRight (CompareAnswers (rows_of (found_of matches.now))) no_input
        (passed O.contents O.failed out.old out.new) (passed E.contents E.failed err.old err.new) (code_of result) }
{
    let settings = settings_of(matches);
    if is_clash(&settings) {
        return end_clash(out, err);
    }
    if are_shared(matches) {
        return end_shared(out, err);
    }
    let old = matches.get_str("old").unwrap_or("");
    let new = matches.get_str("new").unwrap_or("");
    compare_files(rt, &settings, old, new, out, err)
}

/// Runs the program, whose words are its own name and `[-s RULE] [-t RULE] [-a] [-b N] [-u MODE] [-x] OLD NEW`: it
/// compares the lines that a rule of the grammar in the file OLD derives with those of a rule of the grammar in the
/// file NEW.
///
/// - `-h`: the help on `out`, `Done`.
/// - Other words: what is wrong with them on `err`, `Refused`, and nothing is read.
/// - `-a` with `-s` or `-t`, or `-` for both files: a message on `err`, `Refused`, and nothing is read.
/// - The first file that cannot be read: `old: ` or `new: ` and `cannot read the grammar`, `Fault`.
/// - The notes on both grammars, or their faults, stand on `err`, the old one's first, each after `old: ` or `new: `.
///   If one is rejected, that is all: `Refused`.
/// - Else `same` on `out`, `Done`; or `differ`, `NoMatch`, if the first line is known that one of the rules derives
///   alone, or `not known`, `Overlong`, and two lines. They say what is known of the lines that the old rule alone
///   derives, and of those of the new one.
/// - `-x`: after these lines it stands why the other rule rejects each line that is known.
/// - `-a`: the messages as without it. Then a line on `out` for each rule that both texts define, in the order of OLD:
///   its name, and `same`, `differ`, `rejected` or `not known`, as the comparison of these rules ends. After these come
///   the names that OLD alone defines, each after `< `, and that NEW alone defines, each after `> `. The status is the
///   greatest of the comparisons. A text with a fault: no line, `Refused`. `-x` changes nothing.
/// - If an allocation fails: `out of memory`, `NoMemory`.
pub(crate) fn abnfd_main<R: Files + AllocGlobal, O: Sink, E: Sink>(
    rt: &R,
    words: &[String],
    out: &mut O,
    err: &mut E,
) -> Status
    requires out_is_fresh { O.failed out.old ≡ false }
    requires err_is_fresh { E.failed err.old ≡ false }
    ensures words { (app : _) × IsAbnfdApp app × (fault_of app (map string_bytes words.now) ≢ [] →
        RunIsRight (WordsState (fault_of app (map string_bytes words.now))) no_input
        (passed O.contents O.failed out.old out.new) (passed E.contents E.failed err.old err.new) (code_of result)) }
    ensures right { (app : _) × IsAbnfdApp app × (fault_of app (map string_bytes words.now) ≡ [] →
        RunIsRight (CompareAnswers (matches_of app (map string_bytes words.now))) no_input
        (passed O.contents O.failed out.old out.new) (passed E.contents E.failed err.old err.new) (code_of result)) }
{
    match parse_words(abnfd_command(rt.alloc()), words) {
        Ok(matches) => run_asked(rt, &matches, out, err),
        Err(error) => end_unready(rt.alloc(), &Unready::Words(error), out, err),
    }
}

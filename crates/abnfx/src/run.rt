//! The run of the program.
ghost use Rattle.std.specs.Prelude.{◌≡◌, ◌≢◌, [], false, map, string_bytes};
ghost use Rattle.std.specs.List.{flat_map};
ghost use Rattle.abnfx.specs.JoinAnswers.{FilesJoined, JoinAnswers, both_forms, both_lists, unread_stop, unread_text};
ghost use Rattle.abnfx.specs.JoinWords.{abnfx_app, paths_asked};
ghost use Rattle.clap.specs.Words.{fault_of, found_of, matches_of, rows_of};
ghost use Rattle.cli.specs.Parsing.{WordsState};
ghost use Rattle.toolrun.specs.Plan.{IsReportedAnd};
ghost use Rattle.toolrun.specs.Right.{RunIsRight};
ghost use Rattle.toolrun.specs.Status.{code_of};
ghost use Rattle.toolrun.specs.Stream.{no_input, passed};

use crate::command::{abnfx_command, form_of, lists_of};
use crate::join::{FormsAsked, run_join};
use crate::texts::{Unread, read_texts, sources_of};
use clap::ArgMatches;
use cli::{Unready, end_unready, is_given, parse_words};
use ruletable::{Sink, write_pieces};
use std::rt::Files;
use toolrun::{Status, Stop, close_run, end_run};

// Reports why nothing is joined, and ends.
fn end_reported<O: Sink, E: Sink>(
    pieces: &[&[u8]],
    status: Status,
    out: &mut O,
    err: &mut E,
) -> Status
    requires out_is_fresh { O.failed out.old ≡ false }
    requires err_is_fresh { E.failed err.old ≡ false }
    ensures right { RunIsRight (IsReportedAnd (flat_map (λ p. p.now) pieces.now) (Stop.Quiet status)) no_input
        (passed O.contents O.failed out.old out.new) (passed E.contents E.failed err.old err.new) (code_of result) }
{
    if write_pieces(err, pieces).is_err() {
        return close_run(out, err);
    }
    end_run(Ok(Stop::Quiet(status)), out, err)
}

// Ends a program that has not all texts.
fn end_unread<O: Sink, E: Sink>(why: &Unread<'_>, out: &mut O, err: &mut E) -> Status
    requires out_is_fresh { O.failed out.old ≡ false }
    requires err_is_fresh { E.failed err.old ≡ false }
    ensures right { RunIsRight (IsReportedAnd (unread_text why.now) (unread_stop why.now)) no_input
        (passed O.contents O.failed out.old out.new) (passed E.contents E.failed err.old err.new) (code_of result) }
{
    match why {
        Unread::Unreadable(path) => end_reported(
            &[b"cannot read ", path.as_bytes(), b"\n"],
            Status::Fault,
            out,
            err,
        ),
        Unread::TooLong(path) => end_reported(
            &[path.as_bytes(), b" longer than 16777216 bytes\n"],
            Status::Overlong,
            out,
            err,
        ),
        Unread::NoMemory => end_run(Ok(Stop::NoMemory), out, err),
    }
}

// Joins the texts of these files.
fn join_files<R: Files + AllocGlobal, O: Sink, E: Sink>(
    rt: &R,
    paths: &[&str],
    asked: FormsAsked,
    out: &mut O,
    err: &mut E,
) -> Status
    requires out_is_fresh { O.failed out.old ≡ false }
    requires err_is_fresh { E.failed err.old ≡ false }
    ensures right { RunIsRight (FilesJoined (map (λ p. p.now) paths.now) asked.lists asked.form asked.explains)
        no_input
        (passed O.contents O.failed out.old out.new) (passed E.contents E.failed err.old err.new) (code_of result) }
{
    let texts = match read_texts(rt, paths) {
        Ok(texts) => texts,
        Err(why) => return end_unread(&why, out, err),
    };
    match sources_of(rt.alloc(), &texts) {
        Ok(sources) => run_join(rt.alloc(), &sources, asked, out, err),
        Err(_) => end_run(Ok(Stop::NoMemory), out, err),
    }
}

// Reports that two forms exclude each other, and ends.
fn end_clash<O: Sink, E: Sink>(out: &mut O, err: &mut E) -> Status
    requires out_is_fresh { O.failed out.old ≡ false }
    requires err_is_fresh { E.failed err.old ≡ false }
    ensures right { RunIsRight (IsReportedAnd both_forms (Stop.Quiet Status.Refused)) no_input
        (passed O.contents O.failed out.old out.new) (passed E.contents E.failed err.old err.new) (code_of result) }
{
    let reported: [&[u8]; 2] = [
        b"error: the argument '-l' cannot be used with '-c'\n\nUsage: abnfx [OPTIONS] <TEXT>...\n\n",
        b"For more information, try '--help'.\n",
    ];
    end_reported(&reported, Status::Refused, out, err)
}

// Reports that two forms of lists exclude each other, and ends.
fn end_lists<O: Sink, E: Sink>(out: &mut O, err: &mut E) -> Status
    requires out_is_fresh { O.failed out.old ≡ false }
    requires err_is_fresh { E.failed err.old ≡ false }
    ensures right { RunIsRight (IsReportedAnd both_lists (Stop.Quiet Status.Refused)) no_input
        (passed O.contents O.failed out.old out.new) (passed E.contents E.failed err.old err.new) (code_of result) }
{
    let reported: [&[u8]; 2] = [
        b"error: the argument '--expand' cannot be used with '--expand-send'\n\n",
        b"Usage: abnfx [OPTIONS] <TEXT>...\n\nFor more information, try '--help'.\n",
    ];
    end_reported(&reported, Status::Refused, out, err)
}

// Joins the texts that the words name, in that form.
fn join_named<R: Files + AllocGlobal, O: Sink, E: Sink>(
    rt: &R,
    matches: &ArgMatches<'_>,
    asked: FormsAsked,
    out: &mut O,
    err: &mut E,
) -> Status
    requires out_is_fresh { O.failed out.old ≡ false }
    requires err_is_fresh { E.failed err.old ≡ false }
    ensures right { RunIsRight (FilesJoined (paths_asked (rows_of (found_of matches.now))) asked.lists asked.form
        asked.explains) no_input
        (passed O.contents O.failed out.old out.new) (passed E.contents E.failed err.old err.new) (code_of result) }
{
    match matches.get_strs("text") {
        Some(paths) => join_files(rt, paths, asked, out, err),
        None => join_files(rt, &[], asked, out, err),
    }
}

// Joins the texts that the words name, in the form that they ask for.
fn join_asked<R: Files + AllocGlobal, O: Sink, E: Sink>(
    rt: &R,
    matches: &ArgMatches<'_>,
    out: &mut O,
    err: &mut E,
) -> Status
    requires out_is_fresh { O.failed out.old ≡ false }
    requires err_is_fresh { E.failed err.old ≡ false }
    ensures right { RunIsRight (JoinAnswers (rows_of (found_of matches.now))) no_input
        (passed O.contents O.failed out.old out.new) (passed E.contents E.failed err.old err.new) (code_of result) }
{
    let Some(form) = form_of(matches) else {
        return end_clash(out, err);
    };
    let Some(lists) = lists_of(matches) else {
        return end_lists(out, err);
    };
    let asked = FormsAsked {
        form,
        lists,
        explains: is_given(matches, "explain"),
    };
    join_named(rt, matches, asked, out, err)
}

/// Runs the program, whose words are its own name and `[-c | -l] [-x] [--expand | --expand-send] TEXT..`: it joins the
/// texts of these files, as `run_join` says, in the forms that the words ask for.
///
/// - `-h`: the help on `out`, `Done`.
/// - Other words, or two flags that exclude each other: what is wrong with them on `err`, `Refused`, and nothing is
///   read.
/// - The first text that cannot be read: `cannot read` and its path, `Fault`; that is too long: its path and
///   `longer than 16777216 bytes`, `Overlong`. Nothing is joined.
/// - If an allocation fails: `out of memory`, `NoMemory`.
pub(crate) fn abnfx_main<R: Files + AllocGlobal, O: Sink, E: Sink>(
    rt: &R,
    words: &[String],
    out: &mut O,
    err: &mut E,
) -> Status
    requires out_is_fresh { O.failed out.old ≡ false }
    requires err_is_fresh { E.failed err.old ≡ false }
    ensures words { fault_of abnfx_app (map string_bytes words.now) ≢ [] →
        RunIsRight (WordsState (fault_of abnfx_app (map string_bytes words.now))) no_input
        (passed O.contents O.failed out.old out.new) (passed E.contents E.failed err.old err.new) (code_of result) }
    ensures right { fault_of abnfx_app (map string_bytes words.now) ≡ [] →
        RunIsRight (JoinAnswers (matches_of abnfx_app (map string_bytes words.now))) no_input
        (passed O.contents O.failed out.old out.new) (passed E.contents E.failed err.old err.new) (code_of result) }
{
    match parse_words(abnfx_command(rt.alloc()), words) {
        Ok(matches) => join_asked(rt, &matches, out, err),
        Err(error) => end_unready(rt.alloc(), &Unready::Words(error), out, err),
    }
}

//! The end of a program whose words were not parsed.
ghost use Rattle.std.specs.Prelude.{◌≡◌, ◌∷◌, ◌++◌, ℕ, List, [], IfOk, IfSome, codes, false, string_bytes};
ghost use Rattle.clap.specs.Words.{kind_of};
ghost use Rattle.clap.specs.declared.error.kind.ErrorKind.{ErrorKind as Kind};
ghost use Rattle.cli.specs.Inputs.{InputlessStates};
ghost use Rattle.cli.specs.Jobs.{ReportsOf};
ghost use Rattle.cli.specs.Parsing.{IsTextAlone, WordsState};
ghost use Rattle.toolrun.specs.Plan.{IsReportedAnd};
ghost use Rattle.toolrun.specs.Right.{RunIsRight};
ghost use Rattle.toolrun.specs.Status.{code_of};
ghost use Rattle.toolrun.specs.Stream.{no_input, passed};

use crate::input::Inputless;
use clap::error::ErrorKind;
use clap::{Command, Error};
use ruletable::{Sink, write_whole};
use std::alloc::{AllocError, Global};
use std::io;
use toolrun::{Status, Stop, close_run, end_run};

/// The message on a word that is not UTF-8.
const INVALID_UTF8: &str = "invalid UTF-8 was detected in one or more arguments";

/// The message on words of a run that name standard input twice.
const SHARED: &str = "the grammar and the input are both standard input\n";

/// Writes a text on the error output, and ends with this status.
fn report_fault<O: Sink, E: Sink>(text: &str, status: Status, out: &mut O, err: &mut E) -> Status
    requires out_is_fresh { O.failed out.old ≡ false }
    requires err_is_fresh { E.failed err.old ≡ false }
    ensures right { RunIsRight (IsReportedAnd text.now (Stop.Quiet status)) no_input
        (passed O.contents O.failed out.old out.new) (passed E.contents E.failed err.old err.new) (code_of result) }
{
    if write_whole(err, text.as_bytes()).is_err() {
        return close_run(out, err);
    }
    // the text says all
    end_run(Ok(Stop::Quiet(status)), out, err)
}

/// Writes the help on the output, and ends.
fn show_help<O: Sink, E: Sink>(text: &str, out: &mut O, err: &mut E) -> Status
    requires out_is_fresh { O.failed out.old ≡ false }
    requires err_is_fresh { E.failed err.old ≡ false }
    ensures right { RunIsRight (IsTextAlone text.now) no_input
        (passed O.contents O.failed out.old out.new) (passed E.contents E.failed err.old err.new) (code_of result) }
{
    match write_whole(out, text.as_bytes()) {
        Ok(()) => end_run(Ok(Stop::Quiet(Status::Done)), out, err),
        Err(fault) => end_run(Err(fault), out, err),
    }
}

/// Ends a program whose words were not parsed: the help that was asked for goes to `out`, and what is wrong with the
/// words to `err`. If an allocation fails, `out of memory`.
pub fn end_unparsed<O: Sink, E: Sink>(
    alloc: Global,
    error: &Error,
    out: &mut O,
    err: &mut E,
) -> Status
    requires out_is_fresh { O.failed out.old ≡ false }
    requires err_is_fresh { E.failed err.old ≡ false }
    ensures right { RunIsRight (WordsState (kind_of error.now ∷ [])) no_input
        (passed O.contents O.failed out.old out.new) (passed E.contents E.failed err.old err.new) (code_of result) }
    ensures stopped { kind_of error.now ≡ ErrorKind.OutOfMemory → ReportsOf Stop.NoMemory (O.contents out.old)
        (O.contents out.new) (O.failed out.new) (E.contents err.old) (E.contents err.new) (E.failed err.new)
        (code_of result) }
{
    if error.kind() == ErrorKind::OutOfMemory {
        return end_run(Ok(Stop::NoMemory), out, err);
    }
    let Ok(text) = format!(in alloc; "{error}") else {
        return end_run(Ok(Stop::NoMemory), out, err);
    };
    if error.use_stderr() {
        report_fault(text.as_str(), Status::Refused, out, err)
    } else {
        show_help(text.as_str(), out, err)
    }
}

/// Returns an error of this kind in the form of the errors of a parse by that command.
fn error_of(
    command: Result<Command<'_>, AllocError>,
    kind: ErrorKind,
    message: &str,
) -> Result<Error, AllocError>
    ensures kind { IfOk result (λ e. kind_of e ≡ kind) }
{
    match command {
        Ok(mut command) => command.error(kind, message),
        Err(fault) => Err(fault),
    }
}

/// Ends a program whose words have this error, or for which an allocation failed.
fn end_error<O: Sink, E: Sink>(
    alloc: Global,
    error: Result<Error, AllocError>,
    out: &mut O,
    err: &mut E,
) -> Status
    requires out_is_fresh { O.failed out.old ≡ false }
    requires err_is_fresh { E.failed err.old ≡ false }
    ensures { (kind : Kind) → IfOk error (λ e. kind_of e ≡ kind) → RunIsRight (WordsState (kind ∷ [])) no_input
        (passed O.contents O.failed out.old out.new) (passed E.contents E.failed err.old err.new) (code_of result) }
{
    match error {
        Ok(error) => end_unparsed(alloc, &error, out, err),
        Err(_) => end_run(Ok(Stop::NoMemory), out, err),
    }
}

/// Ends a program of that command, whose words are not all UTF-8 text: that is reported on `err`, `Refused`. If an
/// allocation fails, or failed for the command, `out of memory`, `NoMemory`.
pub fn refuse_invalid_utf8<O: Sink, E: Sink>(
    alloc: Global,
    command: Result<Command<'_>, AllocError>,
    out: &mut O,
    err: &mut E,
) -> Status
    requires out_is_fresh { O.failed out.old ≡ false }
    requires err_is_fresh { E.failed err.old ≡ false }
    ensures refused { RunIsRight (WordsState (ErrorKind.ValueValidation ∷ [])) no_input
        (passed O.contents O.failed out.old out.new) (passed E.contents E.failed err.old err.new) (code_of result) }
{
    let error = error_of(command, ErrorKind::ValueValidation, INVALID_UTF8);
    end_error(alloc, error, out, err)
}

/// Returns the message on a file of that name that the system cannot open for this reason; `None` if an allocation
/// fails.
fn unopened_text(alloc: Global, name: &str, fault: &io::Error) -> Option<String>
    ensures { IfSome result (λ text. (reason : List ℕ)
        × (string_bytes text ≡ codes "cannot read " ++ name.now ++ reason)) }
{
    let reason = format!(in alloc; ": {}\n", fault).ok()?;
    let mut text = String::new(alloc);
    text.push_str("cannot read ").ok()?;
    text.push_str(name).ok()?;
    text.push_str(reason.as_str()).ok()?;
    Some(text)
}

/// Ends a program whose input cannot be opened: `err` says why.
///
/// - `Unopened`: `cannot read`, the file's name and the reason of the system, `Fault`.
/// - `Shared`: `the grammar and the input are both standard input`, `Refused`.
/// - `NoMemory`, or an allocation fails: `out of memory`, `NoMemory`.
pub(crate) fn end_inputless<O: Sink, E: Sink>(
    alloc: Global,
    why: &Inputless<'_>,
    out: &mut O,
    err: &mut E,
) -> Status
    requires out_is_fresh { O.failed out.old ≡ false }
    requires err_is_fresh { E.failed err.old ≡ false }
    ensures { RunIsRight (InputlessStates why.now) no_input (passed O.contents O.failed out.old out.new)
        (passed E.contents E.failed err.old err.new) (code_of result) }
{
    match why {
        Inputless::Unopened(name, fault) => match unopened_text(alloc, name, fault) {
            Some(text) => report_fault(text.as_str(), Status::Fault, out, err),
            None => end_run(Ok(Stop::NoMemory), out, err),
        },
        Inputless::Shared => report_fault(SHARED, Status::Refused, out, err),
        Inputless::NoMemory => end_run(Ok(Stop::NoMemory), out, err),
    }
}

//! The runs of a program whose words name several files.
ghost use Rattle.std.specs.Prelude.{◌≡◌, ◌≢◌, ◌≤◌, ◌⊎◌, ◌∷◌, IfSome, None, Some, [], false, map, max, option_map};
ghost use Rattle.std.specs.Prelude.{string_bytes, true};
ghost use Rattle.clap.specs.Words.{App, fault_of, matches_of};
ghost use Rattle.cli.specs.FileRuns.{AllRun, AreFew, AreFewAsked, HasRunGrammar, HasRunOnInputs, HasRunSeveral};
ghost use Rattle.cli.specs.FileRuns.{IsGrammarRun, IsInMode, IsReportAs, IsRunOnInput, inputs_of as the_inputs};
ghost use Rattle.cli.specs.FileRuns.{is_plain as is_plain_asked, writes_as, writes_asked, writes_from};
ghost use Rattle.toolrun.specs.Status.{code_of};
ghost use Rattle.toolrun.specs.Stop.{message_of};
ghost use Rattle.toolrun.specs.Stream.{passed};
ghost use Rattle.toolrun.specs.declared.stop.Stop.TheVariants.{Unreadable};

use crate::fault::end_inputless;
use crate::held::{Manner, Origin, report_from, report_held, report_no_memory, run_held};
use crate::input::{is_shared, open_reader};
use crate::output::BufferedSink;
use crate::program::{Program, parse};
use crate::reading::read_grammar;
use crate::settings::{Asked, asked_of};
use clap::error::ErrorKind as WordsFault;
use feed::SourceOf;
use ruletable::Sink;
use std::alloc::Global;
use std::io;
use std::io::{ErrorKind, Read};
use std::rt::Files;
use toolrun::{Mode, Settings, Status};

/// The run of a grammar without an input.
#[derive(Drop)]
struct GrammarRun {
    /// The grammar's text.
    text: Vec<u8>,
    /// The messages.
    messages: Vec<u8>,
    /// The status.
    status: Status,
}

/// A grammar to judge inputs by, which no note rejects.
#[derive(Drop)]
struct CheckedJob<'a, O> {
    /// How the grammar is run.
    settings: Settings<'a, O>,
    /// The text of the grammar.
    text: Vec<u8>,
    /// The messages on it.
    messages: Vec<u8>,
    /// The manner in which messages are written.
    manner: Manner<'a>,
}

// Reports that a grammar cannot be read for this reason.
fn report_unread<E: Sink>(
    alloc: Global,
    origin: &Origin<'_, '_>,
    fault: &io::Error,
    err: &mut E,
) -> Status
    requires err_is_fresh { E.failed err.old ≡ false }
    ensures { IsReportAs (writes_from origin.now) (message_of Unreadable) 4
        (passed E.contents E.failed err.old err.new) (code_of result) }
{
    if fault.kind() == ErrorKind::OutOfMemory {
        return report_no_memory(err);
    }
    report_from(
        alloc,
        origin,
        b"cannot read the grammar\n",
        Status::Fault,
        err,
    )
}

// Runs the grammar in the file of that name without an input, and writes the messages.
fn run_grammar<'a, P: Program, R: Files + AllocGlobal, O: BufferedSink, E: Sink>(
    rt: &R,
    settings: &Settings<'_, P::Options>,
    manner: Manner<'a>,
    name: &'a str,
    out: &mut O,
    err: &mut E,
) -> GrammarRun
    requires out_is_fresh { O.failed out.old ≡ false }
    requires err_is_fresh { E.failed err.old ≡ false }
    ensures { HasRunGrammar (writes_as manner.entry) (λ text. P.states text settings.now) name.now result.text.items
        result.messages.items
        (passed O.contents O.failed out.old out.new) (passed E.contents E.failed err.old err.new)
        (code_of result.status) }
{
    let alloc = rt.alloc();
    let text = match read_grammar(rt, name) {
        Ok(text) => text,
        Err(fault) => {
            let origin = Origin {
                manner,
                name,
                text: &[],
            };
            let status = report_unread(alloc, &origin, &fault, err);
            return GrammarRun {
                text: Vec::new(alloc),
                messages: Vec::new(alloc),
                status,
            };
        }
    };
    let nothing: &[u8] = &[];
    let mut reader = SourceOf::new(nothing);
    let run = run_held::<P, _, O>(alloc, text.as_slice(), settings, &mut reader, out);
    let origin = Origin {
        manner,
        name,
        text: text.as_slice(),
    };
    let status = report_held(alloc, &origin, &[], &run, err);
    GrammarRun {
        text,
        messages: run.messages,
        status,
    }
}

// Returns the settings of a run on the input of that name.
fn settings_on<'a, O: Copy>(settings: &Settings<'a, O>, input: &'a str) -> Settings<'a, O>
    ensures same { IsInMode settings.now.mode settings.now result }
    ensures input { result.input ≡ input.entry }
{
    Settings {
        mode: settings.mode,
        limit: settings.limit,
        start: settings.start,
        input,
        explain: settings.explain,
        options: settings.options,
    }
}

// Runs a grammar on the input of that name, and writes the messages.
fn run_input<'a, P: Program, R: Files + AllocGlobal, S: Read + Drop, O: BufferedSink, E: Sink>(
    rt: &R,
    job: &CheckedJob<'a, P::Options>,
    name: &'a str,
    standard: &mut Option<S>,
    out: &mut O,
    err: &mut E,
) -> Status
    requires out_is_fresh { O.failed out.old ≡ false }
    requires err_is_fresh { E.failed err.old ≡ false }
    ensures { IsRunOnInput (writes_as job.now.manner) P.states job.now.text.items job.now.settings
        job.now.messages.items name.now
        (passed O.contents O.failed out.old out.new) (passed E.contents E.failed err.old err.new) (code_of result) }
{
    let alloc = rt.alloc();
    let settings = settings_on(&job.settings, name);
    match open_reader(rt, name, standard) {
        Ok(mut reader) => {
            let run = run_held::<P, _, O>(alloc, job.text.as_slice(), &settings, &mut reader, out);
            let origin = Origin {
                manner: job.manner,
                name,
                text: &[],
            };
            report_held(alloc, &origin, job.messages.as_slice(), &run, err)
        }
        Err(why) => end_inputless(alloc, &why, out, err),
    }
}

/// Returns the status with the greater code.
pub fn greater_status(one: Status, two: Status) -> Status
    ensures { code_of result ≡ max (code_of one) (code_of two) }
{
    if one.code() < two.code() { two } else { one }
}

// Returns whether no run follows one of that status.
fn is_over<O: Sink, E: Sink>(most: Status, out: &O, err: &E) -> bool
    ensures over { result ≡ true → (4 ≤ code_of most) ⊎ ((O.failed out.now ≡ true) ⊎ (E.failed err.now ≡ true)) }
    ensures open { result ≡ false → (O.failed out.now ≡ false) × (E.failed err.now ≡ false) }
{
    most.code() >= Status::Fault.code() || out.has_failed() || err.has_failed()
}

// Runs a grammar on the inputs of these names, in order. It ends where a writer fails, or a status is 4 or 5. Returns
// the greatest status.
fn run_inputs<'a, P: Program, R: Files + AllocGlobal, S: Read + Drop, O: BufferedSink, E: Sink>(
    rt: &R,
    job: &CheckedJob<'a, P::Options>,
    names: &[&'a str],
    mut standard: Option<S>,
    out: &mut O,
    err: &mut E,
) -> Status
    requires out_is_fresh { O.failed out.old ≡ false }
    requires err_is_fresh { E.failed err.old ≡ false }
    ensures { AllRun (IsRunOnInput (writes_as job.now.manner) P.states job.now.text.items job.now.settings
        job.now.messages.items) (map (λ s. s.now) names.now)
        (passed O.contents O.failed out.old out.new) (passed E.contents E.failed err.old err.new) (code_of result) }
{
    let mut most = Status::Done;
    for name in names {
        if is_over(most, out, err) {
            return most;
        }
        let status = run_input::<P, R, S, O, E>(rt, job, name, &mut standard, out, err);
        most = greater_status(most, status);
    }
    most
}

// Checks the grammar in the file, and runs it on the inputs of these names if nothing rejects it.
fn check_and_run<'a, P: Program, R: Files + AllocGlobal, S: Read + Drop, O: BufferedSink, E: Sink>(
    rt: &R,
    asked: Asked<'a, P::Options>,
    names: &[&'a str],
    standard: S,
    out: &mut O,
    err: &mut E,
) -> Status
    requires out_is_fresh { O.failed out.old ≡ false }
    requires err_is_fresh { E.failed err.old ≡ false }
    ensures { HasRunOnInputs (writes_asked P.language asked.entry) P.states asked.entry.settings asked.entry.path.now
        (map (λ s. s.now) names.now)
        (passed O.contents O.failed out.old out.new) (passed E.contents E.failed err.old err.new) (code_of result) }
{
    let mut settings = asked.settings;
    let manner = Manner {
        format: asked.format,
        syntax: P::syntax(),
        start: settings.start,
    };
    settings.mode = Mode::Check;
    let GrammarRun {
        text,
        messages,
        status,
    } = run_grammar::<P, R, O, E>(rt, &settings, manner, asked.path, out, err);
    if status.code() > 0 {
        return status;
    }
    if is_over(status, out, err) {
        return status;
    }
    settings.mode = Mode::Run;
    let job = CheckedJob {
        settings,
        text,
        messages,
        manner,
    };
    // a grammar that is standard input has taken it
    let standard = if asked.path == "-" {
        None
    } else {
        Some(standard)
    };
    run_inputs::<P, R, S, O, E>(rt, &job, names, standard, out, err)
}

// Runs the grammar that the words name first, and those in the files of these names, without an input, in order. It
// ends where a writer fails, or a status is 4 or 5. Returns the greatest status.
fn run_grammars<P: Program, R: Files + AllocGlobal, O: BufferedSink, E: Sink>(
    rt: &R,
    asked: &Asked<'_, P::Options>,
    names: &[&str],
    out: &mut O,
    err: &mut E,
) -> Status
    requires out_is_fresh { O.failed out.old ≡ false }
    requires err_is_fresh { E.failed err.old ≡ false }
    ensures { AllRun (IsGrammarRun (writes_asked P.language asked.now) (λ text. P.states text asked.now.settings))
        (asked.now.path.now ∷ map (λ s. s.now) names.now)
        (passed O.contents O.failed out.old out.new) (passed E.contents E.failed err.old err.new) (code_of result) }
{
    let settings = &asked.settings;
    let manner = Manner {
        format: asked.format,
        syntax: P::syntax(),
        start: settings.start,
    };
    let mut most = run_grammar::<P, R, O, E>(rt, settings, manner, asked.path, out, err).status;
    for name in names {
        if is_over(most, out, err) {
            return most;
        }
        let run = run_grammar::<P, R, O, E>(rt, settings, manner, name, out, err);
        most = greater_status(most, run.status);
    }
    most
}

// Returns whether one run serves, if few files are named: messages are lines of text, or no input is left.
fn is_plain<O>(asked: &Asked<'_, O>) -> bool
    ensures { result ≡ is_plain_asked asked.now.format asked.now.settings.mode (Some asked.now.path.now)
        (option_map (λ s. s.now) asked.now.file) }
{
    asked.format.is_text() || is_shared(asked)
}

// Returns whether so few files are named that one run reads them.
fn are_few(mode: Mode, names: &[&str]) -> bool
    ensures few { result ≡ true → AreFew mode (map (λ s. s.now) names.now) }
    ensures several { result ≡ false → AreFew mode (map (λ s. s.now) names.now) → ⊥ }
{
    match mode {
        Mode::Run => names.len() < 2,
        Mode::Check | Mode::Print => names.is_empty(),
    }
}

// Returns the names of the inputs; that of standard input if there is none.
fn inputs_of<'a, 'b>(names: &'b [&'a str]) -> &'b [&'a str]
    ensures { map (λ s. s.now) result.now ≡ the_inputs (map (λ s. s.now) names.entry.now) }
{
    if names.is_empty() { &["-"] } else { names }
}

/// Runs a program whose words name several files, or ask for findings. `None` if something is wrong with the words, or
/// if they ask for text and name at most one input of a run, or one grammar to check or print. So it is if they name
/// standard input for the grammar and the only input of a run.
///
/// - `-m run`: the grammar is checked first. Its messages are written once. If nothing rejects it, each file is an
///   input of its own, in order, and the settings name it. `-` is standard input, which is empty where it is named
///   again.
/// - Other modes: each file is a grammar.
/// - The name of the file, a colon and a space stand before each line of messages that no space begins. Findings are
///   written in their form.
/// - A file that cannot be read ends the run: a message on `err`, `Fault`. So does a writer that fails, and a status of
///   4 or 5. Else the status is the greatest one.
/// - If an allocation for messages fails: `out of memory`, `NoMemory`.
pub fn run_several<P: Program, R: Files + AllocGlobal, S: Read + Drop, O: BufferedSink, E: Sink>(
    rt: &R,
    words: &[String],
    standard: S,
    out: &mut O,
    err: &mut E,
) -> Option<Status>
    requires out_is_fresh { O.failed out.old ≡ false }
    requires err_is_fresh { E.failed err.old ≡ false }
    ensures none { result ≡ None → (out.new ≡ out.old) × (err.new ≡ err.old) × ((app : App) × P.is_app app
        × ((fault_of app (map string_bytes words.now) ≢ []) ⊎ AreFewAsked (matches_of app
        (map string_bytes words.now)))) }
    ensures some { IfSome result (λ status. (app : App) × P.is_app app
        × HasRunSeveral P.language P.asks P.states (matches_of app (map string_bytes words.now))
        (passed O.contents O.failed out.old out.new) (passed E.contents E.failed err.old err.new) (code_of status)) }
{
    let matches = match parse::<P, String>(rt.alloc(), words) {
        Ok(matches) => matches,
        Err(error) if error.kind() == WordsFault::OutOfMemory => return Some(report_no_memory(err)),
        Err(_) => return None,
    };
    let asked = asked_of::<P>(&matches);
    let names = matches.get_strs("file").unwrap_or(&[]);
    let mode = asked.settings.mode;
    if is_plain(&asked) && are_few(mode, names) {
        return None;
    }
    if mode == Mode::Run {
        return Some(check_and_run::<P, R, S, O, E>(
            rt,
            asked,
            inputs_of(names),
            standard,
            out,
            err,
        ));
    }
    Some(run_grammars::<P, R, O, E>(rt, &asked, names, out, err))
}

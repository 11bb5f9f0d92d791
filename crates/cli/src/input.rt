//! The input of a program: standard input, or the file that its words name.
ghost use Rattle.std.specs.Prelude.{◌≡◌, IfErr, IfOk, MatchResult, Some, false, map, option_map, string_bytes, true};
ghost use Rattle.clap.specs.Words.{App};
ghost use Rattle.cli.specs.Inputs.{InputlessStates, IsInputOf, IsUnopened, are_shared, file_of, rest_of, shared_of};
ghost use Rattle.cli.specs.declared.input.Inputless.{Inputless as Why};
ghost use Rattle.toolrun.specs.Right.{RunIsRight};
ghost use Rattle.toolrun.specs.Status.{code_of};
ghost use Rattle.toolrun.specs.Stream.{no_input, passed};

use crate::fault::end_inputless;
use crate::program::Program;
use crate::settings::{Asked, read_words};
use clap::error::ErrorKind as WordsFault;
use feed::{Source, SourceOf};
use ruletable::Sink;
use std::io::{BufReader, ErrorKind, Read};
use std::rt::Files;
use std::{fs, io};
use toolrun::{Mode, Status, Stop, end_run};

/// An input of a program.
#[derive(Drop)]
pub enum Input<S, F> {
    /// Standard input.
    Standard(S),
    /// The file that the words name.
    Named(F),
    /// No bytes.
    Empty,
}

impl<S: Read, F: Read> Read for Input<S, F> {
    ghost remaining = { rest_of S.remaining F.remaining };

    fn read(&mut self, buf: &mut [u8]) -> io::Result<usize> {
        match self {
            Input::Standard(reader) => reader.read(buf),
            Input::Named(reader) => reader.read(buf),
            Input::Empty => Ok(0),
        }
    }
}

/// Why a program has no input.
#[derive(Drop)]
pub enum Inputless<'a> {
    /// The system cannot open the file of that name, for this reason.
    Unopened(&'a str, io::Error),
    /// The words name standard input for the grammar and for the input of a run.
    Shared,
    /// An allocation failed.
    NoMemory,
}

/// Opens the file of that name.
fn open_named<'a, R: Files>(rt: &R, name: &'a str) -> Result<R::File, Inputless<'a>>
    ensures { IfErr result (λ why. IsUnopened name.entry.now why) }
{
    match fs::open(rt, name) {
        Ok(file) => Ok(file),
        Err(fault) if fault.kind() == ErrorKind::OutOfMemory => Err(Inputless::NoMemory),
        Err(fault) => Err(Inputless::Unopened(name, fault)),
    }
}

/// Returns whether the words name standard input for the grammar and for the first input of a run.
pub(crate) fn is_shared<O>(asked: &Asked<'_, O>) -> bool
    ensures { result ≡ are_shared asked.now.settings.mode (Some asked.now.path.now)
        (option_map (λ s. s.now) asked.now.file) }
{
    let is_standard = match asked.file {
        Some(name) => name == "-",
        None => true,
    };
    is_standard && asked.path == "-" && asked.settings.mode == Mode::Run
}

/// Returns the input that the words ask for. It is `standard` if the words name no file for it, or name it `-`, or if
/// something is wrong with the words; else the file, opened.
///
/// # Errors
/// - `Unopened` if the file cannot be opened.
/// - `Shared` if the words of a run name standard input for the grammar too.
/// - `NoMemory` if an allocation fails.
fn open_input<'a, P: Program, R: Files + AllocGlobal, S: Drop>(
    rt: &R,
    words: &'a [String],
    standard: S,
) -> Result<Input<S, R::File>, Inputless<'a>>
    ensures { (app : App) × P.is_app app × MatchResult result
        (λ input. IsInputOf standard (file_of app (map string_bytes words.entry.now)) input
        × (shared_of app (map string_bytes words.entry.now) ≡ false))
        (λ why. why ≡ Why.Shared → shared_of app (map string_bytes words.entry.now) ≡ true) }
{
    let asked = match read_words::<P, String>(rt.alloc(), words) {
        Ok(asked) => asked,
        Err(error) => {
            if error.kind() == WordsFault::OutOfMemory {
                return Err(Inputless::NoMemory);
            }
            return Ok(Input::Standard(standard));
        }
    };
    if is_shared(&asked) {
        return Err(Inputless::Shared);
    }
    let Some(name) = asked.file else {
        return Ok(Input::Standard(standard));
    };
    if name == "-" {
        return Ok(Input::Standard(standard));
    }
    let file = open_named(rt, name)?;
    Ok(Input::Named(file))
}

/// Opens the input of a program, which reads ahead: a buffer spares a system call for each line or unit. It is
/// `standard` if the words name no file for it, or name it `-`, or if something is wrong with the words.
///
/// # Errors
/// The status of a program that has no input; `err` says why:
/// - The file cannot be opened: `cannot read`, its name and the reason of the system, `Fault`.
/// - The words of a run name standard input for the grammar too: a message, `Refused`.
/// - An allocation fails: `out of memory`, `NoMemory`.
pub fn open_source<P: Program, R: Files + AllocGlobal, S: Read + Drop, O: Sink, E: Sink>(
    rt: &R,
    words: &[String],
    standard: S,
    out: &mut O,
    err: &mut E,
) -> Result<SourceOf<BufReader<Input<S, R::File>>>, Status>
    requires out_is_fresh { O.failed out.old ≡ false }
    requires err_is_fresh { E.failed err.old ≡ false }
    ensures ready { IfOk result (λ source. (⟦<SourceOf<BufReader<Input<S, R::File>>> as Source>⟧.failed source ≡ false)
        × (⟦<SourceOf<BufReader<Input<S, R::File>>> as Source>⟧.ended source ≡ false)
        × (out.new ≡ out.old) × (err.new ≡ err.old)) }
    ensures shared { (app : App) × P.is_app app
        × IfOk result (λ _. shared_of app (map string_bytes words.now) ≡ false) }
    ensures ended { IfErr result (λ status. (why : Why) × ((app : App) × P.is_app app
        × (why ≡ Why.Shared → shared_of app (map string_bytes words.now) ≡ true))
        × RunIsRight (InputlessStates why) no_input (passed O.contents O.failed out.old out.new)
        (passed E.contents E.failed err.old err.new) (code_of status)) }
{
    let input = match open_input::<P, R, S>(rt, words, standard) {
        Ok(input) => input,
        Err(why) => {
            return Err(end_inputless(rt.alloc(), &why, out, err));
        }
    };
    match BufReader::new(rt.alloc(), input) {
        Ok(ahead) => Ok(SourceOf::new(ahead)),
        Err(_) => Err(end_run(Ok(Stop::NoMemory), out, err)),
    }
}

/// Returns a reader of the input of that name, which reads ahead. `-` names standard input, which is taken; it is empty
/// where it has been taken before. Fails if the file cannot be opened or an allocation fails.
pub(crate) fn open_reader<'a, R: Files + AllocGlobal, S: Read + Drop>(
    rt: &R,
    name: &'a str,
    standard: &mut Option<S>,
) -> Result<SourceOf<BufReader<Input<S, R::File>>>, Inputless<'a>>
    ensures ready { IfOk result (λ source. (⟦<SourceOf<BufReader<Input<S, R::File>>> as Source>⟧.failed source ≡ false)
        × (⟦<SourceOf<BufReader<Input<S, R::File>>> as Source>⟧.ended source ≡ false)) }
    ensures named { IfErr result (λ why. IsUnopened name.entry.now why) }
{
    let input = if name == "-" {
        match standard.take() {
            Some(reader) => Input::Standard(reader),
            None => Input::Empty,
        }
    } else {
        Input::Named(open_named(rt, name)?)
    };
    match BufReader::new(rt.alloc(), input) {
        Ok(ahead) => Ok(SourceOf::new(ahead)),
        Err(_) => Err(Inputless::NoMemory),
    }
}

//! Reads the job of a program: the settings in its words, and its grammar.
ghost use Rattle.std.specs.Prelude.{◌≡◌, ◌≢◌, MatchResult, [], false, map, string_bytes};
ghost use Rattle.clap.specs.Words.{App, Kinds, fault_of, matches_of};
ghost use Rattle.cli.specs.Asked.{Ask};
ghost use Rattle.cli.specs.Jobs.{IsStopOf, ReportsOf};
ghost use Rattle.cli.specs.Parsing.{IsUnready, WordsState};
ghost use Rattle.toolrun.specs.Right.{RunIsRight};
ghost use Rattle.toolrun.specs.Status.{code_of};
ghost use Rattle.toolrun.specs.Stream.{no_input, passed};

use crate::fault::end_unparsed;
use crate::program::Program;
use crate::settings::{Asked, read_words};
use clap::Error;
use lexer::MAX_GRAMMAR;
use ruletable::Sink;
use std::alloc::Global;
use std::io::{ErrorKind, Read};
use std::rt::Files;
use std::{fs, io};
use toolrun::{Settings, Status, Stop, end_run};

/// The job of a program.
#[derive(Drop)]
pub struct Job<'a, O> {
    /// How the grammar is run.
    pub settings: Settings<'a, O>,
    /// The text of the grammar.
    pub grammar: Vec<u8>,
}

/// Why a program has no job.
#[derive(Drop)]
pub enum Unready {
    /// Its words were not parsed.
    Words(Error),
    /// Its grammar cannot be read.
    Unreadable,
    /// An allocation for its grammar failed.
    NoMemory,
}

/// The path of standard input, which `-` names.
const STANDARD: &str = "/dev/stdin";

/// Reads a grammar's file: one byte more than a grammar may have is enough to show that it is too long. `-` names
/// standard input.
pub fn read_grammar<R: Files + AllocGlobal>(rt: &R, path: &str) -> io::Result<Vec<u8>> {
    let path = if path == "-" { STANDARD } else { path };
    let mut bytes = Vec::new(rt.alloc());
    fs::open(rt, path)?
        .take(MAX_GRAMMAR as u64 + 1)
        .read_to_end(&mut bytes)?;
    Ok(bytes)
}

/// Reads the words of a program, and then the grammar's file.
pub fn read_job<'a, P: Program, R: Files + AllocGlobal>(
    rt: &R,
    words: &'a [String],
) -> Result<Job<'a, P::Options>, Unready>
    ensures job { (app : App) × P.is_app app × MatchResult result
        (λ job. (fault_of app (map string_bytes words.entry.now) ≡ []) ×
        ((path : _) × (file : _) × (format : _) × Ask P.asks (matches_of app (map string_bytes words.entry.now))
        (record { settings = job.settings; path = path; file = file; format = format })))
        (IsUnready (fault_of app (map string_bytes words.entry.now))) }
{
    let Asked {
        settings,
        path,
        file: _,
        format: _,
    } = match read_words::<P, String>(rt.alloc(), words) {
        Ok(asked) => asked,
        Err(error) => return Err(Unready::Words(error)),
    };
    match read_grammar(rt, path) {
        Ok(grammar) => Ok(Job { settings, grammar }),
        Err(fault) if fault.kind() == ErrorKind::OutOfMemory => Err(Unready::NoMemory),
        Err(_) => Err(Unready::Unreadable),
    }
}

/// Ends a program that has no job: the help that was asked for goes to `out`, and what is wrong to `err`.
pub fn end_unready<O: Sink, E: Sink>(
    alloc: Global,
    why: &Unready,
    out: &mut O,
    err: &mut E,
) -> Status
    requires out_is_fresh { O.failed out.old ≡ false }
    requires err_is_fresh { E.failed err.old ≡ false }
    ensures words { (kinds : Kinds) → IsUnready kinds why.now → kinds ≢ [] → RunIsRight (WordsState kinds) no_input
        (passed O.contents O.failed out.old out.new) (passed E.contents E.failed err.old err.new) (code_of result) }
    ensures stopped { (stop : _) → IsStopOf why.now stop → ReportsOf stop (O.contents out.old) (O.contents out.new)
        (O.failed out.new) (E.contents err.old) (E.contents err.new) (E.failed err.new) (code_of result) }
{
    match why {
        Unready::Words(error) => end_unparsed(alloc, error, out, err),
        Unready::Unreadable => end_run(Ok(Stop::Unreadable), out, err),
        Unready::NoMemory => end_run(Ok(Stop::NoMemory), out, err),
    }
}

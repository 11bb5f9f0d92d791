//! A program, and the words of its command line.
ghost use Rattle.std.specs.Prelude.{◌≡◌, IfOk, ℕ, List, false, map, true};
ghost use Rattle.clap.specs.Built.{IsParsedFrom};
ghost use Rattle.clap.specs.Words.{App, Row, app_of, found_of, is_simple, is_simple_and_free, rows_of};
ghost use Rattle.clap.specs.declared.parser.matches.ArgMatches.{ArgMatches as Matches};
ghost use Rattle.cli.specs.Asked.{AreWhole};
ghost use Rattle.cli.specs.Parsing.{IsParsedBy, Parses};
ghost use Rattle.findings.specs.declared.messages.Syntax.{Syntax as GrammarSyntax};
ghost use Rattle.toolrun.specs.Input.{Input};
ghost use Rattle.toolrun.specs.Reply.{Reply};
ghost use Rattle.toolrun.specs.Right.{RunIsRight};
ghost use Rattle.toolrun.specs.Status.{code_of};
ghost use Rattle.toolrun.specs.Stream.{passed};
ghost use Rattle.toolrun.specs.declared.settings.Settings.{Settings as AllSettings};

use crate::output::BufferedSink;
use clap::{ArgMatches, Command, Error};
use feed::Source;
use findings::Syntax;
use ruletable::Sink;
use std::alloc::{AllocError, Global};
use std::convert::AsStr;
use toolrun::{Settings, Status};

/// A program that runs grammars of a language.
pub trait Program {
    /// The settings of the language alone.
    type Options: Copy + Drop;

    /// The program's command, as a parse reads it.
    ghost is_app: { App → Type 0 };

    /// Which settings of the language alone the matches of words ask for.
    ghost asks: { List Row → Self.Options → Type 0 };

    /// Which notes, and which reply after them, are stated for a grammar's text, settings and an input.
    ghost states: { List ℕ → AllSettings Self.Options → Input → List ℕ → Reply → Type 0 };

    /// The syntax of the grammars.
    ghost language: { GrammarSyntax };

    /// Returns the syntax of the grammars.
    fn syntax() -> Syntax
        ensures { result ≡ language };

    /// Returns the command. `AllocError` if an allocation fails.
    fn command<'a>(alloc: Global) -> Result<Command<'a>, AllocError>
        ensures app { (app : App) × is_app app × IfOk result (λ c. app_of c ≡ app) };

    /// Returns the options of the language that the words give, and the defaults elsewhere.
    fn options(matches: &ArgMatches<'_>) -> Self::Options
        ensures { asks (rows_of (found_of matches.now)) result };

    /// Runs a grammar's text on what a reader gives.
    fn run<I: Source, O: BufferedSink, E: Sink>(
        alloc: Global,
        grammar: &[u8],
        settings: &Settings<'_, Self::Options>,
        reader: &mut I,
        out: &mut O,
        err: &mut E,
    ) -> Status
        requires reader_is_fresh { I.failed reader.old ≡ false }
        requires reader_is_open { I.ended reader.old ≡ false }
        requires out_is_fresh { O.failed out.old ≡ false }
        requires err_is_fresh { E.failed err.old ≡ false }
        ensures right { RunIsRight (states grammar.now settings.now) (passed I.remaining I.failed reader.old reader.new)
            (passed O.contents O.failed out.old out.new) (passed E.contents E.failed err.old err.new)
            (code_of result) };

    /// Says that the command is a simple one, and no argument has a rule on another: its matches are a function of the
    /// words, and so is what is wrong with them. Says that words in which nothing is wrong give a limit and a grammar.
    /// It does nothing.
    fn follows()
        ensures simple { (app : App) → is_app app → is_simple app ≡ true }
        ensures free { (app : App) → is_app app → is_simple_and_free app ≡ true }
        ensures whole { (m : Matches) → IsParsedBy is_app m → AreWhole (found_of m) };
}

/// Parses words by a command, the program's name first.
///
/// The error holds the help that was asked for, or what is wrong with the words. It is `OutOfMemory` if an allocation
/// fails, or failed for the command.
pub fn parse_words<'a, S: AsStr>(
    command: Result<Command<'a>, AllocError>,
    words: &'a [S],
) -> Result<ArgMatches<'a>, Error>
    ensures parses { (app : App) → IfOk command.entry (λ c. app_of c ≡ app) → is_simple app ≡ true →
        is_simple_and_free app ≡ true → Parses app (map S.text words.entry.now) result }
    ensures parsed { (app : App) → IfOk command.entry (λ c. app_of c ≡ app) →
        IfOk result (λ m. (c : _) × (app_of c ≡ app) × IsParsedFrom c m) }
{
    match command {
        Ok(command) => command.try_get_matches_from(words),
        Err(fault) => Err(fault.into()),
    }
}

/// Parses the words of a program's command line, its name first. The error is that of `parse_words`.
pub fn parse<'a, P: Program, S: AsStr>(
    alloc: Global,
    words: &'a [S],
) -> Result<ArgMatches<'a>, Error>
    ensures parses { (app : App) × P.is_app app × Parses app (map S.text words.entry.now) result }
    ensures parsed { IfOk result (IsParsedBy P.is_app) }
{
    P::follows();
    parse_words(P::command(alloc), words)
}

//! The command of the program.
ghost use Rattle.findings.specs.declared.messages.Syntax.TheVariants.{Peg};
ghost use Rattle.pegi.specs.PegiCommand.{AsksPegi, IsPegiApp};
ghost use Rattle.pegrun.specs.Answers.{States};

use clap::{ArgMatches, Command};
use cli::{BufferedSink, Parameter, Program, budget_of, is_given, tool_command};
use feed::Source;
use findings::Syntax;
use pegrun::{PegOptions, PegSettings, PrintStyle, run_peg};
use ruletable::Sink;
use std::alloc::{AllocError, Global};
use toolrun::Status;

/// The text of the help.
const HELP: &str =
    "Run a grammar in the syntax of peg(1) on files or standard input, and print its actions in order

Usage: pegi [OPTIONS] <GRAMMAR> [FILE]...

Arguments:
  <GRAMMAR>  The file of the grammar, at most 1048576 bytes
  [FILE]...  The files of inputs, or further grammars to check or print [default: standard input]

Grammar:
  -m, --mode <MODE>  Choose what to do with the grammar [default: run] [possible values: run, check, print]
  -s, --rule <RULE>  Start from this rule [default: the first rule]

Input and output:
  -l, --limit <N>      Look at no more than N bytes, or Nk, NM, in a unit, from 1 to 16777216 [default: 65536]
  -b, --budget <N>     Print no more than N bytes in a unit, from 1 to 4294967295 [default: 4294967295, any number]
  -1, --whole          Take the input as one unit, up to its end
      --line-buffered  Run units at line feeds, before more input is read
  -r, --raw            Print actions verbatim
      --escapes        Replace escapes in actions by their bytes
  -x, --explain        Explain messages in more lines
  -f, --format <FORM>  Choose the form of messages [default: text] [possible values: text, gcc, json]

Other options:
  -h, --help     Print this help
      --version  Print the version

Exit status:
  0  all input was taken, or nothing was refused
  1  no match at some byte
  2  the grammar or the arguments are refused
  3  a unit is longer than N bytes, or prints more
  4  a read or write error, or a file cannot be read
  5  out of memory

Example:
  pegi username.peg letter.txt";

/// The options of the program alone.
static OWN: [Parameter; 6] = [
    Parameter::Number("budget", 'b', 4_294_967_295, "4294967295"),
    Parameter::Flag("raw", 'r'),
    Parameter::Flag("whole", '1'),
    Parameter::LongFlag("escapes"),
    Parameter::LongFlag("line-buffered"),
    Parameter::Choice("format", 'f', "FORM", &["text", "gcc", "json"], "text"),
];

/// The program `pegi [-m MODE] [-l N] [-s RULE] [-b N] [-r] [-1] [--escapes] [--line-buffered] [-x] [-f FORM] GRAMMAR
/// [FILE]..`.
pub(crate) struct Pegi;

impl Program for Pegi {
    type Options = PegOptions;

    ghost is_app = { IsPegiApp };

    ghost asks = { AsksPegi };

    ghost states = { States };

    ghost language = { Peg };

    fn syntax() -> Syntax {
        Syntax::Peg
    }

    fn command<'a>(alloc: Global) -> Result<Command<'a>, AllocError> {
        tool_command(alloc, "pegi", HELP, OWN.as_slice())
    }

    fn options(matches: &ArgMatches<'_>) -> PegOptions {
        PegOptions {
            style: PrintStyle {
                raw: is_given(matches, "raw"),
                escapes: is_given(matches, "escapes"),
            },
            whole: is_given(matches, "whole"),
            budget: budget_of(matches, "budget"),
            line_buffered: is_given(matches, "line-buffered"),
        }
    }

    fn run<I: Source, O: BufferedSink, E: Sink>(
        alloc: Global,
        grammar: &[u8],
        settings: &PegSettings<'_>,
        reader: &mut I,
        out: &mut O,
        err: &mut E,
    ) -> Status {
        out.write_through(settings.options.line_buffered);
        run_peg(alloc, grammar, settings, reader, out, err)
    }

    fn follows() {}
}

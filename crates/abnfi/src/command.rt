//! The command of the program.
ghost use Rattle.std.specs.Prelude.{◌≡◌, codes};
ghost use Rattle.abnfi.specs.AbnfiCommand.{AsksAbnfi, IsAbnfiApp, printed_named};
ghost use Rattle.abnfrun.specs.AbnfAnswers.{AbnfStates};
ghost use Rattle.clap.specs.Words.{first_value, found_of};
ghost use Rattle.findings.specs.declared.messages.Syntax.TheVariants.{Abnf};

use abnfrun::{AbnfOptions, AbnfSettings, Printed, run_abnf};
use clap::{ArgMatches, Command};
use cli::{BufferedSink, Parameter, Program, budget_of, is_given, letters_of, tool_command};
use feed::Source;
use findings::Syntax;
use ruletable::Sink;
use std::alloc::{AllocError, Global};
use toolrun::Status;

/// The text of the help.
const HELP: &str =
    "Judge each line of files or standard input by an ABNF grammar (RFC 5234, RFC 7405): yes or no

Usage: abnfi [OPTIONS] <GRAMMAR> [FILE]...

Arguments:
  <GRAMMAR>  The file of the grammar, at most 1048576 bytes
  [FILE]...  The files of inputs, or further grammars to check or print [default: standard input]

Grammar:
  -m, --mode <MODE>  Choose what to do with the grammar [default: run] [possible values: run, check, print]
  -s, --rule <RULE>  Judge by this rule [default: the first rule]

Input:
  -l, --limit <N>       Take lines of at most N bytes, or Nk, NM, from 1 to 16777216 [default: 65536]
  -u, --letters <MODE>  Take bytes or code points of UTF-8 as letters [default: bytes] [possible values: bytes, utf8]
  -z, --null-data       Cut the input at NUL bytes in place of line feeds
  -k, --keep-ends       Judge each line with its line feed, or its NUL byte
  -b, --budget <N>      Keep at most N items for a line, from 1 to 4294967295, which is no limit [default: 4294967295]

Output:
  -p, --print <WHAT>   Choose what to print [default: answers] [possible values: answers, derived, refused, count, none]
  -H, --with-filename  Print the name of the input before each line
  -n, --line-number    Print the number of each line before it
  -q, --quiet          Print nothing, and end at the first refused line
      --line-buffered  Answer each line before more input is read
  -w, --viable         Write how far a refused line goes: no N
  -x, --explain        Explain messages in more lines
  -f, --format <FORM>  Choose the form of messages [default: text] [possible values: text, gcc, json]

Other options:
  -h, --help     Print this help
      --version  Print the version

Exit status:
  0  all lines are yes, or nothing was refused
  1  some line is no
  2  the grammar or the arguments are refused
  3  a line is longer than N bytes, or needs more than N items
  4  a read or write error, or a file cannot be read
  5  out of memory

Example:
  abnfi date.abnf dates.txt";

/// The options of the program alone.
static OWN: [Parameter; 11] = [
    Parameter::Choice("letters", 'u', "MODE", &["bytes", "utf8"], "bytes"),
    Parameter::Flag("viable", 'w'),
    Parameter::Flag("null-data", 'z'),
    Parameter::Choice(
        "print",
        'p',
        "WHAT",
        &["answers", "derived", "refused", "count", "none"],
        "answers",
    ),
    Parameter::Flag("with-filename", 'H'),
    Parameter::Flag("line-number", 'n'),
    Parameter::Flag("keep-ends", 'k'),
    Parameter::Flag("quiet", 'q'),
    Parameter::LongFlag("line-buffered"),
    Parameter::Number("budget", 'b', 4_294_967_295, "4294967295"),
    Parameter::Choice("format", 'f', "FORM", &["text", "gcc", "json"], "text"),
];

fn printed_of(matches: &ArgMatches<'_>) -> Printed
    ensures { result ≡ printed_named (first_value (found_of matches.now) (codes "print")) }
{
    match matches.get_str("print") {
        Some(name) if name == "derived" => Printed::Derived,
        Some(name) if name == "refused" => Printed::Refused,
        Some(name) if name == "count" => Printed::Count,
        Some(name) if name == "none" => Printed::Nothing,
        _ => Printed::Answers,
    }
}

/// The program `abnfi [-m MODE] [-l N] [-s RULE] [-u MODE] [-p WHAT] [-H] [-n] [-w] [-z] [-k] [-q] [--line-buffered]
/// [-b N] [-x] [-f FORM] GRAMMAR [FILE]..`.
pub(crate) struct Abnfi;

impl Program for Abnfi {
    type Options = AbnfOptions;

    ghost is_app = { IsAbnfiApp };

    ghost asks = { AsksAbnfi };

    ghost states = { AbnfStates };

    ghost language = { Abnf };

    fn syntax() -> Syntax {
        Syntax::Abnf
    }

    fn command<'a>(alloc: Global) -> Result<Command<'a>, AllocError> {
        tool_command(alloc, "abnfi", HELP, OWN.as_slice())
    }

    fn options(matches: &ArgMatches<'_>) -> AbnfOptions {
        AbnfOptions {
            letters: letters_of(matches),
            viable: is_given(matches, "viable"),
            nul: is_given(matches, "null-data"),
            keeps: is_given(matches, "keep-ends"),
            printed: printed_of(matches),
            named: is_given(matches, "with-filename"),
            numbered: is_given(matches, "line-number"),
            quiet: is_given(matches, "quiet"),
            line_buffered: is_given(matches, "line-buffered"),
            budget: budget_of(matches, "budget"),
        }
    }

    fn run<I: Source, O: BufferedSink, E: Sink>(
        alloc: Global,
        grammar: &[u8],
        settings: &AbnfSettings<'_>,
        reader: &mut I,
        out: &mut O,
        err: &mut E,
    ) -> Status {
        out.write_through(settings.options.line_buffered);
        run_abnf(alloc, grammar, settings, reader, out, err)
    }

    fn follows() {}
}

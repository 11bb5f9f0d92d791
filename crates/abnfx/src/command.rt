//! The command line.
ghost use Rattle.std.specs.Prelude.{◌≡◌, IfOk};
ghost use Rattle.abnfx.specs.JoinWords.{abnfx_app, form_asked, lists_asked};
ghost use Rattle.clap.specs.Words.{app_of, found_of, rows_of};

use abnftexts::{JoinForm, ListForm};
use clap::{ArgMatches, Command};
use cli::{Parameter, is_given, program_command};
use std::alloc::{AllocError, Global};

/// The text of the help.
const HELP: &str = "Join the grammars in ABNF (RFC 5234, RFC 7405) that texts of RFCs give

Usage: abnfx [OPTIONS] <TEXT>...

Arguments:
  <TEXT>...  The texts of RFCs, each at most 16777216 bytes

Output:
  -c, --canonical  Write the canonical text of the grammar
  -l, --list       List the rules, and what becomes of each
  -x, --explain    Explain why rules are no ABNF

Lists of RFC 9110 (#element):
      --expand       Write lists out as recipients accept them
      --expand-send  Write lists out as senders write them

Other options:
  -h, --help     Print this help
      --version  Print the version

Exit status:
  0  the grammar is written
  1  a rule is no ABNF, a name has two definitions, or no text gives a rule
  2  the grammar is too long, or the arguments are refused
  3  a text is longer than 16777216 bytes
  4  a write error, or a text cannot be read
  5  out of memory

Example:
  abnfx rfc3339.txt > date.abnf";

/// The options and operands.
static PARAMETERS: [Parameter; 6] = [
    Parameter::Flag("canonical", 'c'),
    Parameter::Flag("list", 'l'),
    Parameter::Flag("explain", 'x'),
    Parameter::LongFlag("expand"),
    Parameter::LongFlag("expand-send"),
    Parameter::Operands("text", "TEXT", true),
];

/// Returns the command `abnfx [-c | -l] [-x] [--expand | --expand-send] TEXT..`, or an error if an allocation fails.
pub(crate) fn abnfx_command<'a>(alloc: Global) -> Result<Command<'a>, AllocError>
    ensures app { IfOk result (λ c. app_of c ≡ abnfx_app) }
{
    program_command(alloc, "abnfx", HELP, PARAMETERS.as_slice())
}

/// Returns the form that the words ask for; `None` where they ask for two.
pub(crate) fn form_of(matches: &ArgMatches<'_>) -> Option<JoinForm>
    ensures { result ≡ form_asked (rows_of (found_of matches.now)) }
{
    let is_canonical = is_given(matches, "canonical");
    if is_given(matches, "list") {
        return if is_canonical {
            None
        } else {
            Some(JoinForm::Listed)
        };
    }
    Some(if is_canonical {
        JoinForm::Canonical
    } else {
        JoinForm::Plain
    })
}

/// Returns the form of lists that the words ask for, or none; `None` where they ask for two.
pub(crate) fn lists_of(matches: &ArgMatches<'_>) -> Option<Option<ListForm>>
    ensures { result ≡ lists_asked (rows_of (found_of matches.now)) }
{
    let receives = is_given(matches, "expand");
    if is_given(matches, "expand-send") {
        return if receives {
            None
        } else {
            Some(Some(ListForm::Send))
        };
    }
    Some(if receives {
        Some(ListForm::Receive)
    } else {
        None
    })
}

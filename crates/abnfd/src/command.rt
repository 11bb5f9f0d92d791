//! The command line.
ghost use Rattle.std.specs.Prelude.{◌≡◌, IfOk, codes, option_copied};
ghost use Rattle.abnfd.specs.CompareWords.{IsAbnfdApp, all_asked, explain_asked, is_shared, new_rule_found};
ghost use Rattle.abnfd.specs.CompareWords.{is_standard_input as is_standard, symbols_asked};
ghost use Rattle.clap.specs.Words.{app_of, first_of, first_value, found_of, rows_of};

use crate::compared::CompareSettings;
use clap::{ArgMatches, Command};
use cli::{Parameter, is_given, letters_of, program_command};
use std::alloc::{AllocError, Global};

/// The text of the help.
const HELP: &str = "Compare the lines that a rule of one ABNF grammar derives with those of another

Usage: abnfd [OPTIONS] <OLD> <NEW>

Arguments:
  <OLD>  The file of the old grammar, at most 1048576 bytes
  <NEW>  The file of the new grammar, at most 1048576 bytes

Grammar:
  -s, --rule <RULE>      Compare this rule of both grammars [default: the first rule]
  -t, --new-rule <RULE>  Compare this rule of NEW [default: that of -s]
  -a, --all              Compare all rules that both grammars define, by name

Comparison:
  -u, --letters <MODE>  Take bytes or code points of UTF-8 as letters [default: bytes] [possible values: bytes, utf8]
  -b, --budget <N>      Search at most N pairs of states, from 1 to 4294967295 [default: 1000000]
  -x, --explain         Explain why the other rule rejects a line

Other options:
  -h, --help     Print this help
      --version  Print the version

Exit status, with -a the greatest of all rules:
  0  same: both rules derive the same lines
  1  differ: a line is derived by one of them alone
  2  a grammar or the arguments are refused
  3  not known: the budget was met
  4  a write error, or a file cannot be read
  5  out of memory

Example:
  abnfd -s date old.abnf new.abnf";

/// The options and operands.
static PARAMETERS: [Parameter; 8] = [
    Parameter::Text("rule", 's', "RULE"),
    Parameter::Text("new-rule", 't', "RULE"),
    Parameter::Flag("all", 'a'),
    Parameter::Number("budget", 'b', 4_294_967_295, "1000000"),
    Parameter::Operand("old", "OLD", true),
    Parameter::Operand("new", "NEW", true),
    Parameter::Choice("letters", 'u', "MODE", &["bytes", "utf8"], "bytes"),
    Parameter::Flag("explain", 'x'),
];

/// Returns the command `abnfd [-s RULE] [-t RULE] [-a] [-b N] [-u MODE] [-x] OLD NEW`, or an error if an allocation
/// fails.
pub(crate) fn abnfd_command<'a>(alloc: Global) -> Result<Command<'a>, AllocError>
    ensures { (app : _) × IsAbnfdApp app × IfOk result (λ c. app_of c ≡ app) }
{
    program_command(alloc, "abnfd", HELP, PARAMETERS.as_slice())
}

fn new_rule_of<'a>(matches: &ArgMatches<'a>) -> Option<&'a str>
    ensures { option_copied result ≡ new_rule_found (first_value (found_of matches.now) (codes "new-rule"))
        (first_value (found_of matches.now) (codes "rule")) }
{
    match matches.get_str("new-rule") {
        Some(rule) => Some(rule),
        None => matches.get_str("rule"),
    }
}

/// Returns how the words ask to compare.
pub(crate) fn settings_of<'a>(matches: &ArgMatches<'a>) -> CompareSettings<'a>
    ensures all { result.all ≡ all_asked (rows_of (found_of matches.now)) }
    ensures explain { result.explain ≡ explain_asked (rows_of (found_of matches.now)) }
    ensures old_rule { option_copied result.old_rule ≡ first_value (found_of matches.now) (codes "rule") }
    ensures new_rule { option_copied result.new_rule ≡ new_rule_found (first_value (found_of matches.now)
        (codes "new-rule")) (first_value (found_of matches.now) (codes "rule")) }
    ensures letters { result.letters ≡ symbols_asked (rows_of (found_of matches.now)) }
{
    CompareSettings {
        all: is_given(matches, "all"),
        explain: is_given(matches, "explain"),
        old_rule: matches.get_str("rule"),
        new_rule: new_rule_of(matches),
        letters: letters_of(matches),
        budget: matches.get_one::<u32>("budget").unwrap_or(1_000_000) as usize,
    }
}

// Returns whether an operand names standard input.
fn is_standard_input(matches: &ArgMatches<'_>, id: &str) -> bool
    ensures { result ≡ is_standard (first_of id.now (rows_of (found_of matches.now))) }
{
    match matches.get_str(id) {
        Some(name) => name == "-",
        None => false,
    }
}

/// Returns whether the words name standard input for both grammars.
pub(crate) fn are_shared(matches: &ArgMatches<'_>) -> bool
    ensures { result ≡ is_shared (rows_of (found_of matches.now)) }
{
    is_standard_input(matches, "old") && is_standard_input(matches, "new")
}

//! The command line.
ghost use Rattle.std.specs.Prelude.{◌≡◌, ◌∷◌, [], codes, false, IfOk};
ghost use Rattle.abnfg.specs.ListWords.{AskLines, IsAbnfgApp, IsSeedOf, mode_of_name, seed_rule};
ghost use Rattle.clap.specs.Words.{app_of, first_value, found_of, one_of, rows_of, rule_of};
ghost use Rattle.cli.specs.Command.{with_rules};

use crate::lines::{ListMode, ListSettings};
use clap::{Arg, ArgAction, ArgMatches, Command, value_parser};
use cli::{Parameter, is_given, letters_of, number_of, program_command};
use std::alloc::{AllocError, Global};

/// The text of the help.
const HELP: &str =
    "List lines that a rule of an ABNF grammar (RFC 5234, RFC 7405) derives, or near ones that it does not

Usage: abnfg [OPTIONS] <GRAMMAR>

Arguments:
  <GRAMMAR>  The file of the grammar, at most 1048576 bytes

Grammar:
  -s, --rule <RULE>  List lines of this rule [default: the first rule]

Lines:
  -m, --mode <MODE>     Choose which lines to list [default: all] [possible values: all, cover, miss, random]
  -l, --limit <N>       List lines of at most N symbols, from 1 to 16777216 [default: 256]
  -c, --count <N>       List at most N lines, from 1 to 4294967295 [default: 1000]
  -a, --alike           List lines of mode `all` with the first alone of symbols that no set distinguishes
  -e, --edges           Also list lines of mode `miss` by wrong symbols next to those that can follow
  -g, --seed <SEED>     Draw lines of mode `random` by this number, from 0 to 18446744073709551615 [default: 1]
  -u, --letters <MODE>  Take bytes or code points of UTF-8 as symbols [default: bytes] [possible values: bytes, utf8]
  -x, --explain         Explain why lines of mode `miss` are rejected, or report the goals of mode `cover`
  -z, --null-data       End lines with NUL bytes in place of line feeds

Other options:
  -h, --help     Print this help
      --version  Print the version

Exit status:
  0  lines are listed
  1  there is no such line
  2  the grammar or the arguments are refused
  3  too many stacks: more lines may follow
  4  a write error, or the grammar's file cannot be read
  5  out of memory

Example:
  abnfg -c 20 date.abnf";

/// The options and operands but for the seed.
static PARAMETERS: [Parameter; 10] = [
    Parameter::Text("rule", 's', "RULE"),
    Parameter::Number("limit", 'l', 16_777_216, "256"),
    Parameter::Number("count", 'c', 4_294_967_295, "1000"),
    Parameter::Flag("null-data", 'z'),
    Parameter::Flag("alike", 'a'),
    Parameter::Flag("edges", 'e'),
    Parameter::Flag("explain", 'x'),
    Parameter::Operand("grammar", "GRAMMAR", true),
    Parameter::Choice("letters", 'u', "MODE", &["bytes", "utf8"], "bytes"),
    Parameter::Choice(
        "mode",
        'm',
        "MODE",
        &["all", "cover", "miss", "random"],
        "all",
    ),
];

// Returns the option `-g SEED`, whose value is a number of 64 bits. `AllocError` if an allocation fails.
fn seed_arg<'a>(alloc: Global) -> Result<Arg<'a>, AllocError>
    ensures { IfOk result (λ a. (rule_of a ≡ seed_rule) × (a.global ≡ false)) }
{
    let arg = Arg::new(alloc, "seed").short('g').alias("seed")?;
    Ok(
        arg.value_name("SEED")
            .action(ArgAction::Set)
            .value_parser(value_parser!(u64))
            .default_value("1"),
    )
}

// Adds the seed to a command. `AllocError` if an allocation fails.
fn add_seed<'a>(command: Command<'a>, alloc: Global) -> Result<Command<'a>, AllocError>
    ensures { IfOk result (λ c. app_of c ≡ with_rules (app_of command.entry) (seed_rule ∷ [])) }
{
    command.arg(seed_arg(alloc)?)
}

/// Returns the command `abnfg [-a] [-e] [-m MODE] [-l N] [-c N] [-g SEED] [-s RULE] [-u MODE] [-x] [-z] GRAMMAR`, or
/// an error if an allocation fails.
pub(crate) fn abnfg_command<'a>(alloc: Global) -> Result<Command<'a>, AllocError>
    ensures { (app : _) × IsAbnfgApp app × IfOk result (λ c. app_of c ≡ app) }
{
    let command = program_command(alloc, "abnfg", HELP, PARAMETERS.as_slice())?;
    add_seed(command, alloc)
}

// Returns the mode that the words ask for.
fn mode_of(matches: &ArgMatches<'_>) -> ListMode
    ensures { result ≡ mode_of_name (first_value (found_of matches.now) (codes "mode")) }
{
    match matches.get_str("mode") {
        Some(name) if name == "cover" => ListMode::Cover,
        Some(name) if name == "miss" => ListMode::Miss,
        Some(name) if name == "random" => ListMode::Random,
        _ => ListMode::All,
    }
}

// Returns the seed that the words give.
fn seed_of(matches: &ArgMatches<'_>) -> u64
    ensures { IsSeedOf (one_of (codes "seed") (rows_of (found_of matches.now))) result }
{
    matches.get_one::<u64>("seed").unwrap_or(1)
}

/// Returns which lines the words ask for.
pub(crate) fn settings_of<'a>(matches: &ArgMatches<'a>) -> ListSettings<'a>
    ensures { AskLines (rows_of (found_of matches.now)) result }
{
    ListSettings {
        mode: mode_of(matches),
        rule: matches.get_str("rule"),
        letters: letters_of(matches),
        limit: number_of(matches, "limit", 256),
        count: number_of(matches, "count", 1000),
        nul: is_given(matches, "null-data"),
        alike: is_given(matches, "alike"),
        edges: is_given(matches, "edges"),
        explain: is_given(matches, "explain"),
        seed: seed_of(matches),
    }
}

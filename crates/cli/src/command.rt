//! The commands of the programs, from tables of their options and operands.
ghost use Rattle.std.specs.Prelude.{◌≡◌, IfOk, false, map};
ghost use Rattle.clap.specs.Words.{app_of, rule_of, with_rule};
ghost use Rattle.cli.specs.Command.{AreModes, choice_rule, flag_rule, long_flag_rule, number_rule, operand_rule};
ghost use Rattle.cli.specs.Command.{operands_rule, option_rule, parameter_rule, program_app, tool_app, value_rule};
ghost use Rattle.cli.specs.Command.{with_rules};

use clap::builder::ValueParser;
use clap::{Arg, ArgAction, Command};
use std::alloc::{AllocError, Global};

/// The version of the programs. `--version` writes the program's name before it.
const VERSION: &str = "(Fanquber) 1.2";

/// An option or an operand of a program. Its id comes first, which is the long name of an option too.
#[derive(Clone, Copy)]
pub enum Parameter<'a> {
    /// A flag of this letter.
    Flag(&'a str, char),
    /// A flag without a letter.
    LongFlag(&'a str),
    /// An option of this letter, whose value is any text. Messages call the value by the name that follows.
    Text(&'a str, char, &'a str),
    /// An option of this letter, whose value is one of the texts, and the last text where it is not given. Messages
    /// call the value by the name before the texts.
    Choice(&'a str, char, &'a str, &'a [&'a str], &'a str),
    /// An option of this letter, whose value is a number from 1 to the greatest, and that of the text where it is not
    /// given.
    Number(&'a str, char, u32, &'a str),
    /// An operand, which messages call by the name that follows. It is required if the flag is set.
    Operand(&'a str, &'a str, bool),
    /// Any number of operands, which messages call by the name that follows. One is required if the flag is set.
    Operands(&'a str, &'a str, bool),
}

/// The options and operands of both tools.
static TOOL: [Parameter; 6] = [
    Parameter::Choice("mode", 'm', "MODE", &["run", "check", "print"], "run"),
    Parameter::Number("limit", 'l', 16_777_216, "65536"),
    Parameter::Text("rule", 's', "RULE"),
    Parameter::Flag("explain", 'x'),
    Parameter::Operand("grammar", "GRAMMAR", true),
    Parameter::Operands("file", "FILE", false),
];

/// Returns an option that has its id as a long name too. `AllocError` if an allocation fails.
///
/// The name is an alias: messages name the option by its letter.
fn option_arg<'a>(alloc: Global, id: &'a str, letter: char) -> Result<Arg<'a>, AllocError>
    ensures { IfOk result (λ a. (rule_of a ≡ option_rule id.entry.now letter) × (a.global ≡ false)) }
{
    Arg::new(alloc, id).short(letter).alias(id)
}

/// Returns a flag of this letter. `AllocError` if an allocation fails.
fn flag_arg<'a>(alloc: Global, id: &'a str, letter: char) -> Result<Arg<'a>, AllocError>
    ensures { IfOk result (λ a. (rule_of a ≡ flag_rule id.entry.now letter) × (a.global ≡ false)) }
{
    let arg = option_arg(alloc, id, letter)?;
    Ok(
        arg.action(ArgAction::SetTrue)
            .value_parser(ValueParser::Bool),
    )
}

/// Returns a flag without a letter.
fn long_flag_arg<'a>(alloc: Global, id: &'a str) -> Arg<'a>
    ensures rule { rule_of result ≡ long_flag_rule id.entry.now }
    ensures global { result.global ≡ false }
{
    Arg::new(alloc, id)
        .long(id)
        .action(ArgAction::SetTrue)
        .value_parser(ValueParser::Bool)
}

/// Returns an option of this letter, with a value of this name. `AllocError` if an allocation fails.
fn value_arg<'a>(
    alloc: Global,
    id: &'a str,
    letter: char,
    value: &'a str,
) -> Result<Arg<'a>, AllocError>
    ensures { IfOk result (λ a. (rule_of a ≡ value_rule id.entry.now letter) × (a.global ≡ false)) }
{
    let arg = option_arg(alloc, id, letter)?;
    Ok(arg.value_name(value))
}

/// Returns an option of this letter, whose value is one of the texts, and the last text where it is not given.
/// `AllocError` if an allocation fails.
fn choice_arg<'a>(
    alloc: Global,
    id: &'a str,
    letter: char,
    value: &'a str,
    names: &'a [&'a str],
    default: &'a str,
) -> Result<Arg<'a>, AllocError>
    ensures { IfOk result (λ a. (rule_of a ≡ choice_rule id.entry.now letter names.entry default.entry.now)
        × (a.global ≡ false)) }
{
    let arg = value_arg(alloc, id, letter, value)?;
    Ok(
        arg.value_parser(ValueParser::Names(names))
            .default_value(default),
    )
}

/// Returns an option of this letter, whose value is a number from 1 to the greatest, and that of the text where it is
/// not given. `AllocError` if an allocation fails.
fn number_arg<'a>(
    alloc: Global,
    id: &'a str,
    letter: char,
    greatest: u32,
    default: &'a str,
) -> Result<Arg<'a>, AllocError>
    ensures { IfOk result (λ a. (rule_of a ≡ number_rule id.entry.now letter greatest default.entry.now)
        × (a.global ≡ false)) }
{
    let arg = value_arg(alloc, id, letter, "N")?;
    Ok(
        arg.action(ArgAction::Set)
            .value_parser(ValueParser::Signed(1, greatest as i64))
            .default_value(default),
    )
}

/// Returns an operand of this name, and whether it is required.
fn operand_arg<'a>(alloc: Global, id: &'a str, value: &'a str, is_required: bool) -> Arg<'a>
    ensures rule { rule_of result ≡ operand_rule id.entry.now is_required }
    ensures global { result.global ≡ false }
{
    Arg::new(alloc, id)
        .value_name(value)
        .action(ArgAction::Set)
        .required(is_required)
}

/// Returns the argument of any number of operands of this name, and whether one is required.
fn operands_arg<'a>(alloc: Global, id: &'a str, value: &'a str, is_required: bool) -> Arg<'a>
    ensures rule { rule_of result ≡ operands_rule id.entry.now is_required }
    ensures global { result.global ≡ false }
{
    operand_arg(alloc, id, value, is_required)
        .action(ArgAction::Append)
        .num_args(1..)
}

/// Returns the argument of a parameter. `AllocError` if an allocation fails.
fn arg_of<'a>(alloc: Global, parameter: Parameter<'a>) -> Result<Arg<'a>, AllocError>
    ensures { IfOk result (λ a. (rule_of a ≡ parameter_rule parameter.entry) × (a.global ≡ false)) }
{
    match parameter {
        Parameter::Flag(id, letter) => flag_arg(alloc, id, letter),
        Parameter::LongFlag(id) => Ok(long_flag_arg(alloc, id)),
        Parameter::Text(id, letter, value) => value_arg(alloc, id, letter, value),
        Parameter::Choice(id, letter, value, names, default) => {
            choice_arg(alloc, id, letter, value, names, default)
        }
        Parameter::Number(id, letter, greatest, default) => {
            number_arg(alloc, id, letter, greatest, default)
        }
        Parameter::Operand(id, value, is_required) => {
            Ok(operand_arg(alloc, id, value, is_required))
        }
        Parameter::Operands(id, value, is_required) => {
            Ok(operands_arg(alloc, id, value, is_required))
        }
    }
}

/// Adds a parameter. `AllocError` if an allocation fails.
fn add_parameter<'a>(
    command: Command<'a>,
    alloc: Global,
    parameter: Parameter<'a>,
) -> Result<Command<'a>, AllocError>
    ensures { IfOk result (λ c. app_of c ≡ with_rule (app_of command.entry) (parameter_rule parameter.entry)) }
{
    let arg = arg_of(alloc, parameter)?;
    command.arg(arg)
}

/// Adds these parameters, in order. `AllocError` if an allocation fails.
fn add_parameters<'a>(
    mut command: Command<'a>,
    alloc: Global,
    parameters: &'a [Parameter<'a>],
) -> Result<Command<'a>, AllocError>
    ensures { IfOk result (λ c. app_of c ≡
        with_rules (app_of command.entry) (map parameter_rule parameters.entry.now)) }
{
    for parameter in parameters {
        command = add_parameter(command, alloc, *parameter)?;
    }
    Ok(command)
}

/// Returns the command of a program that has these parameters, and `--version`. `-h` writes the help. `AllocError` if
/// an allocation fails.
pub fn program_command<'a>(
    alloc: Global,
    name: &'a str,
    help: &'a str,
    parameters: &'a [Parameter<'a>],
) -> Result<Command<'a>, AllocError>
    ensures { IfOk result (λ c. app_of c ≡ program_app name.entry.now (map parameter_rule parameters.entry.now)) }
{
    // peg(1) has `-V`
    let version = Arg::new(alloc, "version")
        .long("version")
        .action(ArgAction::Version);
    let command = Command::new(alloc, name)
        .override_help(help)
        .version(VERSION)
        .disable_version_flag(true)
        .arg(version)?;
    add_parameters(command, alloc, parameters)
}

/// Returns the command of a tool: that of both, `[-m MODE] [-l N] [-s RULE] [-x] GRAMMAR [FILE]..`, and its own
/// parameters. `AllocError` if an allocation fails.
pub fn tool_command<'a>(
    alloc: Global,
    name: &'a str,
    help: &'a str,
    own: &'a [Parameter<'a>],
) -> Result<Command<'a>, AllocError>
    ensures { (modes : _) × AreModes modes
        × IfOk result (λ c. app_of c ≡ tool_app modes name.entry.now (map parameter_rule own.entry.now)) }
{
    let command = program_command(alloc, name, help, TOOL.as_slice())?;
    add_parameters(command, alloc, own)
}

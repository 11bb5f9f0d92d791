//! The settings that the words ask for.
ghost use Rattle.std.specs.Prelude.{◌≡◌, ◌≤◌, MatchResult, Some, [], codes, map, option_map};
ghost use Rattle.clap.specs.Words.{App, HasKind, fault_of, first_of, first_value, found_of, matches_of, one_text};
ghost use Rattle.clap.specs.Words.{rows_of};
ghost use Rattle.cli.specs.Asked.{Ask, IsLimitOf, explained_in, format_named, input_named, is_text, mode_named};
ghost use Rattle.cli.specs.Parsing.{IsParsedBy};

use crate::program::{Program, parse};
use crate::values::is_given;
use clap::{ArgMatches, Error};
use findings::FindingForm;
use std::alloc::Global;
use std::convert::AsStr;
use toolrun::{DEFAULT_LIMIT, MAX_LIMIT, Mode, Settings};

fn mode_of(matches: &ArgMatches<'_>) -> Mode
    ensures { result ≡ mode_named (first_value (found_of matches.now) (codes "mode")) }
{
    match matches.get_str("mode") {
        Some(name) if name == "check" => Mode::Check,
        Some(name) if name == "print" => Mode::Print,
        _ => Mode::Run,
    }
}

fn limit_of(matches: &ArgMatches<'_>) -> usize
    ensures value { IsLimitOf (one_text (found_of matches.now) (codes "limit")) result }
    ensures low { 1 ≤ result }
    ensures high { result ≤ 16777216 }
{
    match matches.get_one::<u32>("limit") {
        Some(limit) => (limit as usize).clamp(1, MAX_LIMIT),
        None => DEFAULT_LIMIT,
    }
}

fn input_of<'a>(matches: &ArgMatches<'a>) -> &'a str
    ensures { result.now ≡ input_named (first_value (found_of matches.now) (codes "file")) }
{
    match matches.get_str("file") {
        Some(name) => name,
        None => "-",
    }
}

/// The form in which a program writes messages.
#[derive(Clone, Copy)]
pub enum Format {
    /// Lines of text.
    Text,
    /// Findings in some form.
    Findings(FindingForm),
}

impl Format {
    // Returns whether it is that of lines of text.
    pub(crate) fn is_text(self) -> bool
        ensures { result ≡ is_text self }
    {
        match self {
            Format::Text => true,
            Format::Findings(_) => false,
        }
    }
}

// Returns the form of that name; lines of text if no other form has it.
fn format_of_name(name: &str) -> Format
    ensures { result ≡ format_named (Some name.now) }
{
    if name == "gcc" {
        return Format::Findings(FindingForm::Gcc);
    }
    if name == "json" {
        return Format::Findings(FindingForm::Json);
    }
    Format::Text
}

fn format_of(matches: &ArgMatches<'_>) -> Format
    ensures { result ≡ format_named (first_of (codes "format") (rows_of (found_of matches.now))) }
{
    match matches.get_str("format") {
        Some(name) => format_of_name(name),
        None => Format::Text,
    }
}

/// Returns the settings that the words ask for, and the defaults elsewhere.
pub fn settings_of<'a, P: Program>(matches: &ArgMatches<'a>) -> Settings<'a, P::Options>
    ensures mode { result.mode ≡ mode_named (first_value (found_of matches.now) (codes "mode")) }
    ensures limit { IsLimitOf (one_text (found_of matches.now) (codes "limit")) result.limit }
    ensures start { option_map (λ s. s.now) result.start ≡ first_value (found_of matches.now) (codes "rule") }
    ensures input { result.input.now ≡ input_named (first_value (found_of matches.now) (codes "file")) }
    ensures explain { result.explain ≡ explained_in (rows_of (found_of matches.now)) }
    ensures options { P.asks (rows_of (found_of matches.now)) result.options }
{
    Settings {
        mode: mode_of(matches),
        limit: limit_of(matches),
        start: matches.get_str("rule"),
        input: input_of(matches),
        explain: is_given(matches, "explain") || !format_of(matches).is_text(),
        options: P::options(matches),
    }
}

/// A command line, as its words ask.
#[derive(Drop)]
pub struct Asked<'a, O> {
    /// How the grammar is run.
    pub settings: Settings<'a, O>,
    /// The file of the grammar.
    pub path: &'a str,
    /// The first file of an input, if one is named.
    pub file: Option<&'a str>,
    /// The form of messages.
    pub format: Format,
}

/// Returns what the words of these matches ask for.
pub(crate) fn asked_of<'a, P: Program>(matches: &ArgMatches<'a>) -> Asked<'a, P::Options>
    requires { IsParsedBy P.is_app matches.now }
    ensures { Ask P.asks (rows_of (found_of matches.now)) result }
{
    P::follows();
    Asked {
        settings: settings_of::<P>(matches),
        path: matches.get_str("grammar").unwrap(),
        file: matches.get_str("file"),
        format: format_of(matches),
    }
}

/// Reads the words of a program's command line, its name first.
///
/// The error is that of `parse`.
pub fn read_words<'a, P: Program, S: AsStr>(
    alloc: Global,
    words: &'a [S],
) -> Result<Asked<'a, P::Options>, Error>
    ensures asked { (app : App) × P.is_app app × MatchResult result
        (λ a. (fault_of app (map S.text words.entry.now) ≡ []) ×
        Ask P.asks (matches_of app (map S.text words.entry.now)) a)
        (HasKind (fault_of app (map S.text words.entry.now))) }
{
    match parse::<P, S>(alloc, words) {
        Ok(matches) => Ok(asked_of::<P>(&matches)),
        Err(error) => Err(error),
    }
}

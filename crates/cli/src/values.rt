//! The values that the words give to the options of the programs.
ghost use Rattle.std.specs.Prelude.{◌≡◌, codes};
ghost use Rattle.clap.specs.Words.{first_of, found_of, one_of, rows_of};
ghost use Rattle.cli.specs.Asked.{IsBudgetOf, IsNumberOf, alphabet_named, is_flagged};

use clap::ArgMatches;
use ruletable::Alphabet;

/// Returns whether the words give a flag.
pub fn is_given(matches: &ArgMatches<'_>, id: &str) -> bool
    ensures { result ≡ is_flagged (first_of id.now (rows_of (found_of matches.now))) }
{
    match matches.get_str(id) {
        Some(text) => text == "true",
        None => false,
    }
}

/// Returns the number that the words give to an option, or else the default.
pub fn number_of(matches: &ArgMatches<'_>, id: &str, default: u32) -> u32
    ensures { IsNumberOf default (one_of id.now (rows_of (found_of matches.now))) result }
{
    matches.get_one::<u32>(id).unwrap_or(default)
}

/// Returns the budget that the words give to an option; `None` for the greatest number of 32 bits, its default.
pub fn budget_of(matches: &ArgMatches<'_>, id: &str) -> Option<usize>
    ensures { IsBudgetOf (one_of id.now (rows_of (found_of matches.now))) result }
{
    let budget = number_of(matches, id, u32::MAX);
    if budget == u32::MAX {
        return None;
    }
    Some(budget as usize)
}

/// Returns the alphabet of lines that the words ask for by `-u`.
pub fn letters_of(matches: &ArgMatches<'_>) -> Alphabet
    ensures { result ≡ alphabet_named (first_of (codes "letters") (rows_of (found_of matches.now))) }
{
    match matches.get_str("letters") {
        Some(name) if name == "utf8" => Alphabet::Utf8,
        _ => Alphabet::Bytes,
    }
}

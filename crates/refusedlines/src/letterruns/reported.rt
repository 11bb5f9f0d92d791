//! The terms of ABNF for runs of symbols.
ghost use Rattle.std.specs.Prelude.{◌≡◌, ◌≤◌, ◌++◌, if◌then◌else◌, option_to_list, IfOk, IfSome, OnOk};
ghost use Rattle.refusedlines.specs.CoreSymbols.{core_of};
ghost use Rattle.refusedlines.specs.ReportedLetters.{
  has_letter,
  is_printed,
  is_short,
  is_single,
  other_case,
  reported_letter,
};
ghost use Rattle.refusedlines.specs.ReportedLetters.{reported_letters, reported_other, reported_plain, reported_run};

use crate::letterruns::core_rule::{CoreRule, core_of};
use crate::letterruns::run::LetterRun;
use ruletable::{Alphabet, Memory};
use std::alloc::Global;

/// A term of ABNF for symbols.
#[derive(Clone, Copy)]
pub enum ReportedLetters {
    /// In quotes: this symbol, or if it is one of US-ASCII's A to Z, either case of it.
    Quoted(u8),
    /// In quotes after `%s`: this letter of US-ASCII, and not its other case.
    Exactly(u8),
    /// By its number.
    Numbered(u32),
    /// The symbols from the first to the last, by their numbers.
    Through(LetterRun),
    /// The symbols of a core rule, by its name.
    Named(CoreRule),
    /// In quotes, and by its number.
    Printed(char),
}

// Code points that terminals show: letters of Latin, Greek, Cyrillic, the kana, ideographs and Hangul.
static PRINTED: [LetterRun; 10] = [
    LetterRun {
        first: 0xA1,
        last: 0xAC,
    },
    LetterRun {
        first: 0xAE,
        last: 0x2FF,
    },
    LetterRun {
        first: 0x391,
        last: 0x3A1,
    },
    LetterRun {
        first: 0x3A3,
        last: 0x3FF,
    },
    LetterRun {
        first: 0x400,
        last: 0x482,
    },
    LetterRun {
        first: 0x48A,
        last: 0x52F,
    },
    LetterRun {
        first: 0x3041,
        last: 0x3096,
    },
    LetterRun {
        first: 0x30A1,
        last: 0x30FA,
    },
    LetterRun {
        first: 0x4E00,
        last: 0x9FFF,
    },
    LetterRun {
        first: 0xAC00,
        last: 0xD7A3,
    },
];

// Whether a run has one or two symbols.
fn is_short(run: LetterRun) -> bool
    ensures { result ≡ is_short run }
{
    run.last.saturating_sub(run.first) <= 1 || (run.first == 0xD7FF && run.last == 0xE000)
}

// Whether a symbol is one of a run of one or two.
fn is_single(runs: &[LetterRun], letter: u32) -> bool
    ensures { result ≡ is_single runs.now letter }
{
    for run in runs {
        if is_short(*run) && run.first <= letter && letter <= run.last {
            return true;
        }
    }
    false
}

// The other case of a letter of US-ASCII.
fn other_case(letter: u32) -> Option<u32>
    ensures value { result ≡ other_case letter }
    ensures ascii { IfSome result (λ _. letter ≤ 122) }
{
    if 65 <= letter && letter <= 90 {
        return Some(letter + 32);
    }
    if 97 <= letter && letter <= 122 {
        return Some(letter - 32);
    }
    None
}

// Whether a symbol is one of some run.
fn has_letter(runs: &[LetterRun], letter: u32) -> bool
    ensures { result ≡ has_letter runs.now letter }
{
    runs.iter()
        .any(|run| run.first <= letter && letter <= run.last)
}

// Returns the character for a code point that terminals show.
fn printed(alphabet: Alphabet, letter: u32) -> Option<char>
    ensures { result ≡ (if is_printed alphabet letter then Some letter else None) }
{
    match alphabet {
        Alphabet::Bytes => None,
        Alphabet::Utf8 => {
            if letter >= 0xD800 || !has_letter(&PRINTED, letter) {
                return None;
            }
            char::from_u32(letter)
        }
    }
}

// Returns the term for a symbol that is no core rule.
fn reported_other(alphabet: Alphabet, letter: u32) -> ReportedLetters
    ensures { result ≡ reported_other alphabet letter }
{
    if 33 <= letter && letter <= 126 {
        return ReportedLetters::Quoted(letter as u8);
    }
    match printed(alphabet, letter) {
        Some(shown) => ReportedLetters::Printed(shown),
        None => ReportedLetters::Numbered(letter),
    }
}

// Returns the term for a symbol that has no other case.
fn reported_plain(alphabet: Alphabet, letter: u32) -> ReportedLetters
    ensures { result ≡ reported_plain alphabet letter (core_of letter) }
{
    match core_of(letter) {
        Some(rule) => ReportedLetters::Named(rule),
        None => reported_other(alphabet, letter),
    }
}

// Returns the term for a single symbol; nothing if the term for its other case has it too.
fn reported_letter(alphabet: Alphabet, runs: &[LetterRun], letter: u32) -> Option<ReportedLetters>
    ensures { result ≡ reported_letter alphabet runs.now letter }
{
    let Some(other) = other_case(letter) else {
        return Some(reported_plain(alphabet, letter));
    };
    if !is_single(runs, other) {
        return Some(ReportedLetters::Exactly(letter as u8));
    }
    if letter < other {
        return Some(ReportedLetters::Quoted(letter as u8));
    }
    None
}

// Adds the term for a single symbol.
fn add_letter(
    alphabet: Alphabet,
    runs: &[LetterRun],
    letter: u32,
    reported: &mut Vec<ReportedLetters>,
) -> Result<(), Memory>
    ensures { OnOk result (reported.new.items ≡ reported.old.items ++ option_to_list
        (reported_letter alphabet runs.now letter)) }
{
    if let Some(one) = reported_letter(alphabet, runs, letter) {
        reported.push(one)?;
    }
    Ok(())
}

// Adds the terms for one of the runs.
fn add_run(
    alphabet: Alphabet,
    runs: &[LetterRun],
    run: LetterRun,
    reported: &mut Vec<ReportedLetters>,
) -> Result<(), Memory>
    ensures { OnOk result (reported.new.items ≡ reported.old.items ++ reported_run alphabet runs.now run) }
{
    if !is_short(run) {
        reported.push(ReportedLetters::Through(run))?;
        return Ok(());
    }
    add_letter(alphabet, runs, run.first, reported)?;
    if run.first < run.last {
        add_letter(alphabet, runs, run.last, reported)?;
    }
    Ok(())
}

/// Returns the terms for the symbols of some runs, in their order. One or two symbols of a run are single, and more
/// have one term. A single symbol of US-ASCII has one term with its other case, if that is single too. `Memory` if an
/// allocation fails.
pub fn reported_letters(
    alloc: Global,
    alphabet: Alphabet,
    runs: &[LetterRun],
) -> Result<Vec<ReportedLetters>, Memory>
    ensures { IfOk result (λ reported. reported.items ≡ reported_letters alphabet runs.now) }
{
    let mut reported = Vec::new(alloc);
    for run in runs {
        add_run(alphabet, runs, *run, &mut reported)?;
    }
    Ok(reported)
}

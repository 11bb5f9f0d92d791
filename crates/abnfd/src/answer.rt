//! The answer to a comparison: its text, and its status.
ghost use Rattle.std.specs.Prelude.{◌≡◌, ◌++◌, IfOk, OnOk};
ghost use Rattle.abnfd.specs.ComparisonText.{alone_text, comparison_text as the_text, sides_text, verdict_between};
ghost use Rattle.abnfd.specs.ComparisonText.{verdict_status as the_status};

use crate::quoted::push_quoted;
use diagnostics::push_number;
use rulelines::{Alone, Comparison};
use ruletable::{Alphabet, Memory};
use std::alloc::Global;
use toolrun::Status;

/// The relation of two rules, as far as it is known.
#[derive(Clone, Copy)]
pub(crate) enum LinesVerdict {
    /// They derive the same lines.
    Same,
    /// One derives a line that the other does not.
    Differ,
    /// Neither is known.
    NotKnown,
}

// Returns the relation of two rules.
fn verdict_of(found: &Comparison) -> LinesVerdict
    ensures { result ≡ verdict_between found.now.old_alone found.now.new_alone }
{
    match &found.old_alone {
        Alone::First(_) => LinesVerdict::Differ,
        Alone::Never => match &found.new_alone {
            Alone::First(_) => LinesVerdict::Differ,
            Alone::Never => LinesVerdict::Same,
            _ => LinesVerdict::NotKnown,
        },
        _ => match &found.new_alone {
            Alone::First(_) => LinesVerdict::Differ,
            _ => LinesVerdict::NotKnown,
        },
    }
}

/// Returns the status of a comparison: `Done` if both rules derive the same lines, `NoMatch` if one derives a line
/// that the other does not, and `Overlong`, whose code is 3, if neither is known.
pub(crate) fn comparison_status(found: &Comparison) -> Status
    ensures { result ≡ the_status (verdict_between found.now.old_alone found.now.new_alone) }
{
    match verdict_of(found) {
        LinesVerdict::Same => Status::Done,
        LinesVerdict::Differ => Status::NoMatch,
        LinesVerdict::NotKnown => Status::Overlong,
    }
}

// Adds what is known of the lines that one rule alone derives.
fn push_alone(
    alloc: Global,
    alphabet: Alphabet,
    alone: &Alone,
    out: &mut Vec<u8>,
) -> Result<(), Memory>
    ensures { OnOk result (out.new.items ≡ out.old.items ++ alone_text alphabet alone.now) }
{
    match alone {
        Alone::First(line) => push_quoted(alloc, alphabet, line.as_slice(), out),
        Alone::Never => {
            out.extend_from_slice(b"none")?;
            Ok(())
        }
        Alone::NeverUpTo(most) => {
            out.extend_from_slice(b"none of at most ")?;
            push_number(out, *most)?;
            out.extend_from_slice(b" letters")?;
            Ok(())
        }
        Alone::Unknown => {
            out.extend_from_slice(b"not known")?;
            Ok(())
        }
    }
}

// Adds a line for each rule, with what it alone derives.
fn push_sides(
    alloc: Global,
    alphabet: Alphabet,
    found: &Comparison,
    out: &mut Vec<u8>,
) -> Result<(), Memory>
    ensures { OnOk result (out.new.items ≡ out.old.items ++ sides_text alphabet found.now) }
{
    out.extend_from_slice(b"< ")?;
    push_alone(alloc, alphabet, &found.old_alone, out)?;
    out.extend_from_slice(b"\n> ")?;
    push_alone(alloc, alphabet, &found.new_alone, out)?;
    out.extend_from_slice(b"\n")?;
    Ok(())
}

// Adds the text of a comparison.
fn push_comparison(
    alloc: Global,
    alphabet: Alphabet,
    found: &Comparison,
    out: &mut Vec<u8>,
) -> Result<(), Memory>
    ensures { OnOk result (out.new.items ≡ out.old.items ++ the_text alphabet found.now) }
{
    match verdict_of(found) {
        LinesVerdict::Same => {
            out.extend_from_slice(b"same\n")?;
            Ok(())
        }
        LinesVerdict::Differ => {
            out.extend_from_slice(b"differ\n")?;
            push_sides(alloc, alphabet, found, out)
        }
        LinesVerdict::NotKnown => {
            out.extend_from_slice(b"not known\n")?;
            push_sides(alloc, alphabet, found, out)
        }
    }
}

/// Returns the text of a comparison: `same`, or else `differ` or `not known` and a line for each rule. `Memory` if an
/// allocation fails.
pub(crate) fn comparison_text(
    alloc: Global,
    alphabet: Alphabet,
    found: &Comparison,
) -> Result<Vec<u8>, Memory>
    ensures { IfOk result (λ text. text.items ≡ the_text alphabet found.now) }
{
    let mut text = Vec::new(alloc);
    push_comparison(alloc, alphabet, found, &mut text)?;
    Ok(text)
}

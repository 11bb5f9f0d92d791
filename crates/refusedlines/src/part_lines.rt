//! The lines of the parts that can come next where a line is rejected.
ghost use Rattle.std.specs.Prelude.{◌≡◌, ◌≤◌, ◌++◌, length, option_map, take, None, OnOk};
ghost use Rattle.std.specs.List.{flat_map};
ghost use Rattle.diagnostics.specs.FirstBytes.{fact_line};
ghost use Rattle.refusedlines.specs.RefusedText.{only_part, part_lines, restates, expected_by, expected_rest};
ghost use Rattle.ruletable.specs.Rules.{names_of};

use crate::part_texts::TextSet;
use diagnostics::{push_line, push_more};
use ruletable::Memory;

// How many parts have a line.
const SHOWN_PARTS: usize = 16;

// Returns whether the text of a part begins with that of the symbols, and with ` in ` or ` of ` after it.
fn restates(symbols: &[u8], part: &[u8]) -> bool
    ensures { result ≡ restates symbols.now part.now }
{
    match part.strip_prefix(symbols) {
        Some(rest) => rest.starts_with(b" in ") || rest.starts_with(b" of "),
        None => false,
    }
}

/// Returns of the texts of parts the only one, if it restates that of the symbols.
pub(crate) fn only_part<'a>(symbols: &[u8], parts: &'a TextSet) -> Option<&'a [u8]>
    ensures { option_map (λ part. part.now) result ≡ only_part symbols.now (names_of parts.now) }
{
    if parts.len() != 1 {
        return None;
    }
    let part = parts.name(0);
    if restates(symbols, part) {
        Some(part)
    } else {
        None
    }
}

// Returns the text of the symbols, or that of the part in their place.
fn expected_by<'a>(symbols: &'a [u8], only: Option<&'a [u8]>) -> &'a [u8]
    ensures { result.now ≡ expected_by symbols.entry.now (option_map (λ part. part.now) only.entry) }
{
    match only {
        Some(part) => part,
        None => symbols,
    }
}

/// Adds what is expected: the symbols, or the part in their place, and then the words for the end.
///
/// # Errors
/// `Memory` if an allocation fails.
pub(crate) fn push_expected(
    symbols: &[u8],
    only: Option<&[u8]>,
    ended: &[u8],
    out: &mut Vec<u8>,
) -> Result<(), Memory>
    ensures { OnOk result (out.new.items ≡ out.old.items
        ++ expected_rest symbols.now (option_map (λ part. part.now) only.entry) ended.now) }
{
    out.extend_from_slice(expected_by(symbols, only))?;
    out.extend_from_slice(ended)?;
    out.extend_from_slice(b"\n")?;
    Ok(())
}

// Adds a line of each of the first texts.
fn push_first(parts: &TextSet, count: usize, out: &mut Vec<u8>) -> Result<(), Memory>
    requires { count ≤ length parts.now.rules }
    ensures { OnOk result (out.new.items ≡ out.old.items ++ flat_map fact_line (take count (names_of parts.now))) }
{
    for id in 0..count {
        push_line(out, parts.name(id))?;
    }
    Ok(())
}

// Adds a line of each of the first parts, and how many more there are.
fn push_shown(parts: &TextSet, out: &mut Vec<u8>) -> Result<(), Memory>
    ensures { OnOk result (out.new.items ≡ out.old.items ++ part_lines None (names_of parts.now)) }
{
    let shown = parts.len().min(SHOWN_PARTS);
    push_first(parts, shown, out)?;
    push_more(out, parts.len() - shown)
}

/// Adds the lines of the parts, unless one is reported in place of the symbols.
///
/// # Errors
/// `Memory` if an allocation fails.
pub(crate) fn push_part_lines(
    only: Option<&[u8]>,
    parts: &TextSet,
    out: &mut Vec<u8>,
) -> Result<(), Memory>
    ensures { OnOk result (out.new.items ≡ out.old.items
        ++ part_lines (option_map (λ part. part.now) only.entry) (names_of parts.now)) }
{
    match only {
        Some(_) => Ok(()),
        None => push_shown(parts, out),
    }
}

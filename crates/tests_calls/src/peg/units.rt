//! Units by the packrat matcher, and how many evaluations they begin.

use crate::fields::{Fields, Text};
use gramcheck::{SoundPeg, check_peg};
use packrat::Packrat;
use pegmatch::{Matcher, Unit};
use pegread::read_peg;
use std::alloc::Global;

// Returns the grammar of a text, ready to run from its first rule.
fn sound(alloc: Global, text: &[u8]) -> Option<SoundPeg> {
    let peg = read_peg(alloc, text).ok()?;
    check_peg(alloc, peg, None).ok()?.sound
}

// Adds a word and a number.
fn add_number(word: &[u8], number: u128, out: &mut Text) {
    out.add(word);
    out.add_number(number);
}

// Adds what a unit is, how many bytes it takes, and how many evaluations were begun.
fn add_unit(unit: Unit, out: &mut Text) {
    match unit {
        Unit::Took { end, begun } => {
            add_number(b"took ", end as u128, out);
            add_number(b" begun ", begun, out);
        }
        Unit::Failed { begun } => add_number(b"failed begun ", begun, out),
        Unit::Need => out.add(b"need"),
    }
    out.add(b";");
}

// Adds the unit of the window in a field.
fn add_matched(
    alloc: Global,
    matcher: &mut Packrat,
    fields: &Fields,
    at: usize,
    out: &mut Text,
) -> Option<()> {
    let peg = sound(alloc, fields.text(1))?;
    let window = fields.text(at);
    let more = fields.is(0, b"more") && !window.is_empty();
    add_unit(matcher.match_unit(&peg, window, more).ok()?, out);
    Some(())
}

/// `units MODE | GRAMMAR | WINDOW ..`: the unit of each window, and how many evaluations were begun, by one matcher.
/// In mode `more` more bytes follow a window, and in mode `all` none.
pub(crate) fn units_of(alloc: Global, fields: &Fields, out: &mut Text) -> Option<()> {
    let mut matcher = Packrat::new(alloc);
    for at in 2..fields.len() {
        add_matched(alloc, &mut matcher, fields, at, out)?;
    }
    Some(())
}

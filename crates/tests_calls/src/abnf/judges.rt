//! Item sets and automata, by the first rule of a grammar.

use crate::fields::{Fields, Text};
use abnfcheck::{SoundAbnf, check_abnf};
use abnfread::read_abnf;
use earley::{Chart, judge};
use flatgrammar::Flat;
use lazydfa::Automaton;
use lowering::lower;
use std::alloc::Global;

// The most symbols of a line.
const LIMIT: usize = 100_001;

// Returns the grammar of a text.
fn sound(alloc: Global, text: &[u8]) -> Option<SoundAbnf> {
    let abnf = read_abnf(alloc, text).ok()?;
    check_abnf(alloc, abnf, None).ok()?.sound
}

// Returns the flat grammar of a text.
fn flat(alloc: Global, text: &[u8]) -> Option<Flat> {
    let grammar = sound(alloc, text)?;
    lower(alloc, &grammar, LIMIT).ok()
}

/// `items GRAMMAR | LINE | SET ..`: whether a line is derived, and how many items each set has.
pub(crate) fn items_of(alloc: Global, fields: &Fields, out: &mut Text) -> Option<()> {
    let flat = flat(alloc, fields.text(0))?;
    let line = fields.text(1);
    if line.len() > flat.limit() {
        return None;
    }
    let mut chart = Chart::new(alloc);
    out.add_answer(judge(&mut chart, &flat, line).ok()?);
    for at in 2..fields.len() {
        out.add(b";");
        out.add_number(chart.items(fields.number(at)) as u128);
    }
    Some(())
}

// Returns an automaton in so much room; none if there is none.
fn automaton(alloc: Global, text: &[u8], room: usize) -> Option<Automaton> {
    let flat = flat(alloc, text)?;
    Automaton::with_room(alloc, &flat, room).ok()?
}

/// `automaton GRAMMAR | ROOM | LINE ..`: what an automaton in that room answers on each line, or `none`.
pub(crate) fn answers_of(alloc: Global, fields: &Fields, out: &mut Text) -> Option<()> {
    let Some(mut automaton) = automaton(alloc, fields.text(0), fields.number(1)) else {
        out.add(b"none");
        return Some(());
    };
    for at in 2..fields.len() {
        match automaton.judge(fields.text(at)).ok()? {
            Some(is_derived) => out.add_answer(is_derived),
            None => out.add(b"none"),
        }
        out.add(b";");
    }
    Some(())
}

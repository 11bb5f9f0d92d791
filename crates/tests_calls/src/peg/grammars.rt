//! Calls that read a grammar's text.

use crate::fields::{Fields, Text};
use lexer::tokens;
use pegread::{Kind, next_char, read_peg};
use ruletable::{LineRule, ReadFault, line_of};
use std::alloc::Global;

/// `next_char TEXT`: the number of the byte that the first character spells, a colon, and what follows it.
pub(crate) fn next_char_of(fields: &Fields, out: &mut Text) {
    match next_char(fields.text(0)) {
        Some((byte, rest)) => {
            out.add_number(u128::from(byte));
            out.add(b":");
            out.add(rest);
        }
        None => out.add(b"none"),
    }
}

// The name of a kind of token.
fn name_of(kind: Kind) -> &'static [u8] {
    match kind {
        Kind::Ident => b"Ident",
        Kind::Arrow => b"Arrow",
        Kind::Begin => b"Begin",
        Kind::EndCap => b"EndCap",
        Kind::Slash => b"Slash",
        Kind::Amp => b"Amp",
        Kind::Bang => b"Bang",
        Kind::Quest => b"Quest",
        Kind::Star => b"Star",
        Kind::Plus => b"Plus",
        Kind::Dot => b"Dot",
        Kind::LParen => b"LParen",
        Kind::RParen => b"RParen",
        Kind::Literal => b"Literal",
        Kind::Class => b"Class",
        Kind::Action => b"Action",
        Kind::Bad => b"Bad",
        Kind::End => b"End",
    }
}

/// `peg_tokens TEXT`: a line for each token, of its kind and its bytes.
pub(crate) fn tokens_of(fields: &Fields, out: &mut Text) {
    for token in tokens::<Kind>(fields.text(0)) {
        out.add(name_of(token.kind));
        out.add(b" ");
        out.add(token.slice);
        out.add(b"\n");
    }
}

/// `spans TEXT`: of each token the offsets of its first byte and of the byte after it.
pub(crate) fn spans_of(fields: &Fields, out: &mut Text) {
    for token in tokens::<Kind>(fields.text(0)) {
        out.add_number(token.span.start as u128);
        out.add(b"-");
        out.add_number(token.span.end as u128);
        out.add(b";");
    }
}

// A mark for a text that is read, or that is rejected on a line from 1 to 9.
fn mark_of(alloc: Global, text: &[u8]) -> &'static [u8] {
    match read_peg(alloc, text) {
        Ok(_) => b"R",
        Err(ReadFault::Syntax { line: 1 }) => b"1",
        Err(ReadFault::Syntax { line: 2 }) => b"2",
        Err(_) => b"?",
    }
}

/// `peg_prefixes TEXT`: for each prefix, the empty one first, `R` if it is read, or the line on which it is rejected.
pub(crate) fn prefixes_read(alloc: Global, fields: &Fields, out: &mut Text) {
    let text = fields.text(0);
    for size in 0..=text.len() {
        out.add(mark_of(alloc, text.get(..size).unwrap_or(text)));
    }
}

/// `peg_bytes`: the same for each text of one byte.
pub(crate) fn single_bytes_read(alloc: Global, out: &mut Text) {
    for byte in 0..=255u8 {
        out.add(mark_of(alloc, &[byte]));
    }
}

/// `line TEXT | OFFSET`: the line of an offset where LF alone ends one, and where CR LF and CR do too.
pub(crate) fn line_at(fields: &Fields, out: &mut Text) {
    let (text, at) = (fields.text(0), fields.number(1));
    out.add_number(line_of(text, at, LineRule::Lf) as u128);
    out.add(b" ");
    out.add_number(line_of(text, at, LineRule::Any) as u128);
}

//! Calls that read a grammar's text.

use crate::fields::{Fields, Text};
use abnfcheck::{derivation_is_decided, furthest_is_found, one_list_of_abnf_notes};
use abnfread::{AbnfKind, abnf_tokens, one_reading, one_tree, read_abnf};
use flatgrammar::items_at_most;
use lexer::tokens_make_up;
use lowering::items_decide;
use ruletable::ReadFault;
use std::alloc::Global;

// The name of a kind of token.
fn name_of(kind: AbnfKind) -> &'static [u8] {
    match kind {
        AbnfKind::Name => b"Name",
        AbnfKind::Is => b"Is",
        AbnfKind::Adds => b"Adds",
        AbnfKind::Slash => b"Slash",
        AbnfKind::LParen => b"LParen",
        AbnfKind::RParen => b"RParen",
        AbnfKind::LBrack => b"LBrack",
        AbnfKind::RBrack => b"RBrack",
        AbnfKind::Repeat => b"Repeat",
        AbnfKind::Text => b"Text",
        AbnfKind::Num => b"Num",
        AbnfKind::Prose => b"Prose",
        AbnfKind::Bad => b"Bad",
        AbnfKind::End => b"End",
    }
}

/// `abnf_tokens TEXT`: a line for each token: its kind and its bytes, after `gap` if a gap stands before it, and after
/// `first` if it is the first of its line.
pub(crate) fn tokens_of(fields: &Fields, out: &mut Text) {
    for marked in abnf_tokens(fields.text(0)) {
        if marked.gap {
            out.add(b"gap ");
        }
        if marked.first {
            out.add(b"first ");
        }
        out.add(name_of(marked.token.kind));
        out.add(b" ");
        out.add(marked.token.slice);
        out.add(b"\n");
    }
}

// Adds `R` for a text that is read, or the line of its syntax error.
fn add_mark(alloc: Global, text: &[u8], out: &mut Text) {
    match read_abnf(alloc, text) {
        Ok(_) => out.add(b"R"),
        Err(ReadFault::Syntax { line }) => out.add_number(line as u128),
        Err(_) => out.add(b"?"),
    }
}

/// `abnf_prefixes TEXT`: for each prefix, the empty one first, `R` if it is read, or the line on which it is rejected.
pub(crate) fn prefixes_read(alloc: Global, fields: &Fields, out: &mut Text) {
    let text = fields.text(0);
    for size in 0..=text.len() {
        add_mark(alloc, text.get(..size).unwrap_or(text), out);
    }
}

/// `abnf_bytes`: the same for each text of one byte.
pub(crate) fn single_bytes_read(alloc: Global, out: &mut Text) {
    for byte in 0..=255u8 {
        add_mark(alloc, &[byte], out);
    }
}

/// `abnf_laws`: they return.
pub(crate) fn laws() {
    one_tree();
    one_reading();
    tokens_make_up::<AbnfKind>();
    derivation_is_decided();
    furthest_is_found();
    one_list_of_abnf_notes();
    items_decide();
    items_at_most();
}

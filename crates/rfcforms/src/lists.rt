//! Lists in grammars (RFC 9110, section 5.6.1).

mod element;
mod list;
mod mark;
mod number;
mod written;

pub use written::{ListForm, expanded_text, one_expansion, text_parts};

//! Writes the canonical text of grammars in ABNF (RFC 5234, RFC 7405).
#![tactic(auto)]

mod position;
mod print;
mod terminal;

pub use print::{is_abnf_read_back, print_abnf, print_elem};

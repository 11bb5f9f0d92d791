//! Writes the canonical text of a grammar in the syntax of peg(1), and explains faults of such texts.
#![tactic(auto)]

mod faults;
mod position;
mod print;
mod print_bytes;

pub use faults::{MAX_FAULTS, explain_faults, name_defined, nothing_left_out, one_explanation};
pub use print::{is_read_back, print_expr, print_member, print_peg};
pub use print_bytes::{print_literal, print_set};

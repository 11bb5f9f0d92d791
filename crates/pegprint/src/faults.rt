//! Explains the faults of a grammar's text in the syntax of peg(1).

mod all_faults;
mod deciding_token;
mod explain;
mod laws;
mod mistakes;
mod phrases;
mod rule_lines;
mod stand;

pub use all_faults::{MAX_FAULTS, explain_faults};
pub use laws::{nothing_left_out, one_explanation};
pub use rule_lines::name_defined;

//! Lines that assign values, and are no rules: test vectors, statements of programs.
#![tactic(auto)]

mod grounded;
mod hex;
mod line;
mod run;
mod sketch;
mod words;

pub use run::{are_values, is_no_abnf};
pub use sketch::{RuleSketch, SeenRule, rule_sketch};

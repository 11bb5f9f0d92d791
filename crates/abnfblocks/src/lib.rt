//! The rules of ABNF among the lines of a text.
#![tactic(auto)]

mod ends;
mod found;
mod look;
mod reading;
mod rfctext;
mod rule;
mod rule_line;

pub use found::{RuleSearch, find_rules, one_finding};
pub use rfctext::{
    LineKind, TextLine, is_blank, one_masking, read_lines, source_text, without_mark,
};
pub use rule::{blank_count, joined_text};
pub use rule_line::margin;

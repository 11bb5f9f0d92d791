//! The lines of rules: those that one of two rules derives alone, and those of one rule in order.
#![tactic(auto)]

mod alone;
mod comparison;
mod cuts;
mod list;
mod miss;
mod pairs;
mod samples;
mod search;
mod text;

pub use alone::Alone;
pub use comparison::{Comparison, compare};
pub use list::{Lines, Lots, NextLine};
pub use miss::{MissSet, Misses};
pub use text::line_bytes;

//! The lines that a rule derives, in order.

mod firsts;
pub(crate) mod keys;
mod lines;
mod listed;
mod lots;
mod over;
mod random;
mod search;
pub(crate) mod starts;
mod table;

pub use lines::{Lines, NextLine};
pub use lots::Lots;

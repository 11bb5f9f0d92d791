//! Lines that a rule does not derive, by the first prefix of each state.

mod lines;
mod prefixes;
mod search;
pub(crate) mod symbols;
mod wrong;

pub use lines::Misses;
pub use prefixes::MissSet;

//! Calls of the libraries of peg(1)'s language.

pub(crate) mod grammars;
pub(crate) mod laws;
pub(crate) mod units;

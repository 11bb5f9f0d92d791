//! Calls of the libraries of ABNF.

pub(crate) mod grammars;
pub(crate) mod judges;
pub(crate) mod symbols;

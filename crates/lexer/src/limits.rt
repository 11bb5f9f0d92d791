//! The limits of a grammar's text.

/// How many bytes a grammar's text may have.
pub const MAX_GRAMMAR: usize = 1048576;

/// How many brackets of a grammar may be open at once.
pub const MAX_OPEN: usize = 200;

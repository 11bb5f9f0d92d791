//! The pairs of a node and a position that the start rule's outcome asks for: the evaluations of a packrat matcher.

mod laws;

pub use laws::visits_are_within;

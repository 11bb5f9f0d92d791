//! Hints on the grammar of a text in the syntax of peg(1): which alternatives are never taken, which actions hold
//! definitions, and which captures end that begin nowhere.

mod alternatives;
mod ends;
mod held;
mod hints;
mod known;
mod laws;
mod leaves;
mod lines;
mod marks;
mod reported;
mod why;

pub use laws::{never_taken, one_text_of_hints};
pub use lines::MAX_HINTS;
pub use reported::peg_hints;

//! Explains why no unit of an input goes on: where it fails farthest, and what was expected there.

mod explain;
mod laws;
mod lines;
mod node_texts;
mod order;
mod position;
mod uses;

pub use explain::{FailureSearch, explain_long_unit};
pub use laws::{fails_so_in_input, one_no_match};
pub use lines::MAX_EXPECTED;
pub use position::TextPosition;

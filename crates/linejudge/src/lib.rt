//! The lines of an input: each is judged, and the answers are written in turn.
#![tactic(auto)]

mod answers;
mod batch;
mod line;
mod line_loop;
mod printed;
mod reached;

pub use answers::{Answer, Judge, NoAnswer};
pub use line::{Line, LineForm, next_line};
pub use line_loop::run_lines;
pub use printed::Printed;
pub use reached::{LinePosition, MAX_REPORTED};

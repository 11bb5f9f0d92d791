//! Runs a sound grammar at the front of a window, and prints what a success prints.
#![tactic(auto)]

mod compare;
mod escapes;
mod event;
mod laws;
mod leaves;
mod matcher;
mod style;
mod visits;
mod writing;

pub use event::Kept;
pub use laws::{answer_stands, need_stands, one_answer};
pub use leaves::{Tried, match_any, match_bytes, match_set};
pub use matcher::{Matcher, ReplayFault, Unit};
pub use style::PrintStyle;
pub use visits::visits_are_within;
pub use writing::{Capture, NO_CAPTURE, capture_after, write_event};

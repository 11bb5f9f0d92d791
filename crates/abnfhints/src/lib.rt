//! Hints on grammars in ABNF: what is allowed, and most likely not meant.
#![tactic(auto)]

mod barren;
mod hinted;
mod hints;
mod laws;
mod line_end;
mod lineless;
mod marks;
mod numbers;
mod reversed;
mod without;

pub use hinted::Hinted;
pub use hints::{MAX_HINTS, abnf_hints, one_text_of_abnf_hints};
pub use laws::no_name_left_out;
pub use line_end::LineEnd;

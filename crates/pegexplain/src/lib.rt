//! Explains notes on a grammar in the syntax of peg(1), and finds hints.
#![tactic(auto)]

mod hints;
mod laws;
mod left_lines;
mod left_notes;
mod left_uses;
mod loops;
mod meant;
mod notes;
mod nulls;
mod positions;
mod skipped;
mod sure;
mod ways;

pub use hints::{MAX_HINTS, never_taken, one_text_of_hints, peg_hints};
pub use laws::no_name_left_out;
pub use left_lines::{MAX_STEPS, push_steps};
pub use left_notes::MAX_WAYS;
pub use left_uses::left_rows;
pub use notes::{explain_peg_note, one_note_explanation};
pub use positions::{PegPositions, PegSigns, PegText, peg_positions, read_peg_text};
pub use ways::left_way;

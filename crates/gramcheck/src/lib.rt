//! Grammars that can be run.
#![tactic(auto)]

mod analysis;
mod check;
mod laws;
mod left;
mod loops;
mod notes;
mod nullable;
mod printing;
mod ranked;
mod ranked_laws;
mod sound;
mod uses;

pub use analysis::left_recursive_rules;
pub use check::{Checked, check_peg, judge_peg};
pub use laws::{
    events_rise, events_rise_of_start, longer_input, longer_input_of_start, one_outcome,
    one_outcome_of_start, shorter_input, shorter_input_of_start, silent_leaves_no_event,
    some_outcome, some_outcome_of_start,
};
pub use notes::{one_list_of_notes, redefinitions};
pub use nullable::nullable_rules;
pub use ranked::RankedNodes;
pub use ranked_laws::{
    exactly_one_outcome, exactly_one_outcome_of_start, ranks_fall, some_outcome_of_ranked,
};
pub use sound::SoundPeg;

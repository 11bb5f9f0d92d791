//! Explains where a unit does not match: the machine that finds the farthest failures, and the lines that report them.
#![tactic(auto)]

mod explain;
mod farthest;
mod tasks;

pub use explain::{
    FailureSearch, TextPosition, explain_long_unit, fails_so_in_input, one_no_match,
};
pub use farthest::{
    Farthest, LastUnit, UnitSearch, Visit, failing_leaf_stops, farthest_failure,
    farthest_is_within, farthest_or_none, one_farthest, reported_unit, same_on_longer, stops_fail,
};

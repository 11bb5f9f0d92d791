//! The machine that evaluates a unit once more and keeps its farthest failing comparisons, with frames of its own in
//! place of recursion.

mod frames;
mod kept;
mod machine;
mod runs;
mod steps;

pub(crate) use kept::KeptFailures;
pub(crate) use machine::FailureMachine;

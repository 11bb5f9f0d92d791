//! Whole runs of both tools over memory.
#![tactic(auto)]

mod buffer;
mod buffer_run;
mod buffer_sink;
mod bytes;
mod ghost_bytes;
mod opened_run;
mod outputs;
mod planned_run;
mod sink_run;
mod whole_run;

pub use buffer::lay;
pub use buffer_run::{BufferOutputs, abnf_into_buffers, peg_into_buffers, run_opened_into};
pub use buffer_sink::BufferSink;
pub use ghost_bytes::GhostBytes;
pub use opened_run::run_opened;
pub use outputs::Outputs;
pub use planned_run::run_plan;
pub use sink_run::run_plan_into;
pub use whole_run::{abnf_in_memory, peg_in_memory};

//! The run of a tool for a language of grammars: it plans from a grammar's text, performs the plan on an input, and
//! ends.
#![tactic(auto)]

mod ending;
mod finish;
mod first;
mod language;
mod notes;
mod opening;
mod plan;
mod reported;
mod settings;
mod status;
mod stop;
mod tool;

pub use ending::{Ending, ReportedRefusals, plain_ending};
pub use finish::{close as close_run, conclude as conclude_run, finish as end_run};
pub use first::write_first;
pub use language::{Checked, Language, ReadText};
pub use opening::{Opened, open};
pub use plan::{First, Plan, Task, plan_of};
pub use settings::{DEFAULT_LIMIT, MAX_LIMIT, Mode, Settings};
pub use status::Status;
pub use stop::{NOT_EXPLAINED, Stop};
pub use tool::{act as act_on, run_tool};

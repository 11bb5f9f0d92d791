//! The peg tool: it reads a grammar, checks or prints it or runs it on an input, and answers on two writers.
#![tactic(auto)]

mod attempt;
mod byte_units;
mod draft;
mod engine;
mod laws;
mod line_unit;
mod open_law;
mod opened;
mod options;
mod passed;
mod past;
mod peg_language;
mod ready;
mod run;
mod unit;

pub use feed::{Broken, Source, SourceOf};
pub use laws::{explanations_change_no_answer, one_reply, one_statement};
pub use open_law::runs_as_a_run;
pub use opened::{OpenedPeg, PegRunner, open_peg};
pub use options::{PegOptions, PegSettings};
pub use peg_language::PegLanguage;
pub use pegmatch::PrintStyle;
pub use ready::ReadyPeg;
pub use run::run_peg;
pub use toolrun::{DEFAULT_LIMIT, MAX_LIMIT, Mode, Settings, Status, Stop, close_run, end_run};

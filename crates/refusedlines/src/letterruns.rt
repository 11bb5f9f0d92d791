//! Runs of symbols: merged to the maximal ones of a set, and written as in ABNF.

mod core_rule;
mod joined;
mod merged;
mod pieces;
mod reported;
mod reported_text;
mod run;

pub use core_rule::CoreRule;
pub use merged::{merge_runs, runs_are_one};
pub use pieces::symbol_pieces;
pub use reported::{ReportedLetters, reported_letters};
pub use reported_text::symbols_text;
pub use run::LetterRun;

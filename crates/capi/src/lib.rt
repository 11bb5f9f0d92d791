//! Runs both tools over memory, opens grammars once, compares grammars and lists lines, with settings and buffers as C
//! has them. The crate `fanquber_c` exports each call.
#![tactic(auto)]

mod alone;
mod answer;
mod asked;
mod calls;
mod compare_call;
mod compared;
mod front;
mod grammar;
mod judge;
mod judge_box;
mod judge_calls;
mod lines_calls;
mod lines_slot;
mod listing;
mod listing_box;
mod loose;
mod opening;
mod reported;
mod result;
mod runner;
mod runner_box;
mod runner_calls;
mod runs;
mod slot;
mod windows;

pub use alone::CAlone;
pub use answer::CAnswer;
pub use asked::{BAD_SETTINGS, CSettings};
pub use calls::{abnf, peg, peg_windows};
pub use compare_call::{CComparison, compare};
pub use judge::CJudge;
pub use judge_box::JudgeBox;
pub use judge_calls::{abnf_close, abnf_judge, abnf_open};
pub use lines_calls::{lines_close, lines_next, lines_open};
pub use lines_slot::CLines;
pub use listing::{CLine, LineList, Listing};
pub use listing_box::ListingBox;
pub use result::CResult;
pub use runner::Runner;
pub use runner_box::RunnerBox;
pub use runner_calls::{peg_close, peg_open, peg_run};
pub use slot::CRunner;
pub use windows::CWindow;

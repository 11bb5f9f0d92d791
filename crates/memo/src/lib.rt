//! The memo table of an evaluation: the log of its keys, and what a few stored keys imply. It knows nothing of
//! grammars.
#![tactic(auto)]

mod entry;
mod found;
mod index;
mod key_log;
mod narrow;
mod task;

pub use found::Found;
pub use key_log::{Given, KeyLog, Stored};
pub use task::{MatchTask, PackedTask};

//! Readers with a flag, and a window that slides over one.
#![tactic(auto)]

mod feed;
mod held;
mod source;

pub use feed::Feed;
pub use held::{Flow, Held};
pub use source::{Broken, Source, SourceOf};

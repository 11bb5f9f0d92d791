//! Lines that a rule of an ABNF grammar derives and that reach each goal of its rules, and the goals that none reaches.
#![tactic(auto)]

mod bounds;
mod context;
mod cover;
mod made;
mod missed;
mod named;
mod needed;
mod rule_contexts;
mod rule_words;
mod short;
mod sites;
mod symbols;
mod way;
mod ways;
mod words;

pub use bounds::LineBounds;
pub use cover::{Cover, CoverLine, cover_lines};
pub use way::{CoverGoal, GoalWay};

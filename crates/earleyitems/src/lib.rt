//! Judges lines by flat grammars, item by item.
#![tactic(auto)]

mod chart;
mod earley_set;
mod fill;
mod item;
mod items;
mod postdot;
mod predictions;
mod scan;
mod set_dots;
mod sets;
mod waiters;

pub use chart::{ItemChart, judge_within};

//! A lazily built automaton that judges lines of bytes by a flat grammar.
#![tactic(auto)]

mod automaton;
mod awaited;
mod budget;
mod cache;
mod chains;
mod close;
mod conts;
mod cuts;
mod expected;
mod fill;
mod glide;
mod kernels;
mod memo;
mod prune;
mod run;
mod spines;
mod states;
mod suffixes;
mod transition;
mod transitions;
mod walks;

pub use automaton::Automaton;
pub use cuts::StateCut;
pub use expected::Expected;
pub use states::States;

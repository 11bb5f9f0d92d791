//! The events that successes leave, kept so that one part may stand in many: each is written once, and shared
//! from then on.

mod event_log;
mod link;
mod replay;
mod shared;
mod silence;
mod take;
mod waiting;
mod walk;

pub use event_log::EventLog;

//! Findings in grammars and inputs, in the form in which editors read them.
#![tactic(auto)]

mod faults;
mod finding;
mod form;
mod gcc;
mod json_lines;
mod judged;
mod lines;
mod messages;
mod notes;
mod numbers;
mod rejected;
mod related;
mod sorts;
mod units;
mod words;

pub use form::FindingForm;
pub use messages::{FindingManner, Syntax, finding_messages};

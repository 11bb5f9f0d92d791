//! The numbered nodes of a grammar, which of them are keys of a packrat matcher, and what one byte decides of them.
#![tactic(auto)]

mod apart;
mod bodies;
mod by_byte;
mod byte_tables;
mod choice_table;
mod cut;
mod foresight;
mod keys;
mod namers;
mod node;
mod number;
mod predictive;
mod run_table;
mod settled;
mod template;
mod widths;

pub use bodies::body_of;
pub use by_byte::{ByteVerdict, Decided, MarkedNodes, decide, one_verdict};
pub use byte_tables::{ByteTables, find_tables};
pub use choice_table::{ChoiceTable, Skip};
pub use cut::{Cut, cut_grammar};
pub use keys::{Keys, find_keys, is_key_from, mark_or};
pub use node::Node;
pub use run_table::{Run, RunTable, StopByte};
pub use template::{Put, Slot, Template, Templates, cut_templates};

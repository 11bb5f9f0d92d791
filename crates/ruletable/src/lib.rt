//! The common part of both grammar tools: writers, rules by name, sets of bytes, lines and faults, and the symbols of
//! lines.
#![tactic(auto)]

mod alphabet;
mod byte_set;
mod fault;
mod letter;
mod lines;
mod memory;
mod note;
mod number;
mod point;
mod runs;
mod sink;
mod span;
mod table;
mod utf8;

pub use alphabet::Alphabet;
pub use byte_set::ByteSet;
pub use fault::{ReadFault, write_fault};
pub use letter::Letter;
pub use lines::{LineRule, line_of};
pub use memory::Memory;
pub use note::{Note, NoteKind, write_note};
pub use number::write_number;
pub use point::CodePoint;
pub use runs::{Runs, union_of_runs};
pub use sink::{Sink, SinkOf, WriteFault, write_pieces, write_whole};
pub use span::Span;
pub use table::{Defined, NameCase, RuleTable};
pub use utf8::{decode, utf8_is_decided, utf8_len};

//! Reads grammars in ABNF (RFC 5234, RFC 7405).
#![tactic(auto)]

mod appendix;
mod definition;
mod elem;
mod indent;
mod kind;
mod lexicon;
mod marked;
mod marks;
mod node;
mod number;
mod read;
mod reader;
mod scan;
mod table;
mod words;

pub use appendix::core_rules;
pub use definition::Definition;
pub use elem::Elem;
pub use kind::AbnfKind;
pub use marked::abnf_tokens;
pub use marks::{AbnfTokenIter, MarkedToken};
pub use number::{MAX_REPEAT, MAX_VALUE};
pub use read::{KeptAbnf, one_reading, one_tree, read_abnf, read_definitions, read_kept_abnf};
pub use table::{Abnf, begun_body};

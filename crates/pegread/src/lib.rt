//! Reads grammars in the syntax of peg(1).
#![tactic(auto)]

mod class;
mod escape;
mod expr;
mod kind;
mod lexicon;
mod lexing;
mod literal;
mod node;
mod read;
mod reader;
mod spelling_laws;
mod token_lists;
mod words;

pub use class::class_set;
pub use escape::next_char;
pub use expr::{Expr, Peg};
pub use kind::Kind;
pub use lexer::{MAX_GRAMMAR, MAX_OPEN};
pub use literal::literal_bytes;
pub use read::{KeptPeg, one_reading, one_tree, read_kept_peg, read_peg};
pub use spelling_laws::{
    spells_one_char, spells_one_class, spells_one_literal, spells_some_char, spells_some_class,
    spells_some_literal,
};
pub use token_lists::are_marked;

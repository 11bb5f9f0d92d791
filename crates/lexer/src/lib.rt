//! Cuts a text into tokens of the kinds of some language, and collects the bodies of its definitions.
#![tactic(auto)]

mod body;
mod byte_slices;
mod kind;
mod limits;
mod node;
mod token_iter;
mod token_lists;

pub use body::{Body, choice};
pub use byte_slices::{after_byte, inside};
pub use kind::Kind;
pub use limits::{MAX_GRAMMAR, MAX_OPEN};
pub use node::Node;
pub use token_iter::{Token, TokenIter};
pub use token_lists::{have_tokens, keep, one_list, tokens, tokens_make_up};

//! Parts of diagnostics: messages of faults, lines of text with a caret below them, the positions that notes name, and
//! near names.
#![tactic(auto)]

mod fault_messages;
mod near;
mod noteplaces;
mod picture;

pub use fault_messages::fault_message;
pub use near::{is_early, push_meant};
pub use noteplaces::{
    Head, Mention, MentionKind, Positions, Sign, Signs, UseForm, add_number, explain_note,
    first_mention, first_prose, mention_lines, numbers_of, positions_by, positions_of, push_more,
    used_form,
};
pub use picture::{
    Fact, LineAround, find_fact, is_utf16, line_around, point_facts, push_cut, push_fact,
    push_line, push_number, push_phrases, push_picture, push_position, push_shown,
};

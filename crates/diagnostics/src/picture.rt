//! Pieces of a text as a terminal shows them: shown bytes, lines with a caret, lists of phrases, facts of first bytes.

mod around;
mod caret;
mod code_points;
mod facts;
mod phrase_list;
mod shown;

pub use around::{LineAround, line_around};
pub use caret::{MAX_SHOWN, push_picture, push_position};
pub use code_points::{is_utf16, point_facts};
pub use facts::{Fact, find_fact, push_fact, push_line};
pub use phrase_list::push_phrases;
pub use shown::{MAX_CUT, push_cut, push_number, push_shown};

//! The lines of an RFC's text, and those of them that are no page furniture.

mod before;
mod fence;
mod kept;
mod line_kind;
mod line_tests;
mod masked;
mod tag;
mod text_line;
mod xml_text;

pub(crate) use kept::bare_len;
pub use kept::without_mark;
pub use line_kind::LineKind;
pub use line_tests::is_blank;
pub use masked::{one_masking, read_lines};
pub use text_line::TextLine;
pub use xml_text::source_text;

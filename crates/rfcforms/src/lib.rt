//! Forms in which the texts of RFCs hold ABNF.
#![tactic(auto)]

mod lists;
mod parts;
mod xml;

pub use lists::{ListForm, expanded_text, one_expansion, text_parts};
pub use parts::{items_after, items_before};
pub use xml::{Holder, MARK, Region, is_xml, marked_text};

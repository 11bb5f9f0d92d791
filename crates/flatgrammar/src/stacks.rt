//! Laws of stacks of dotted rules.

mod laws;

pub use laws::{a_letter_leads_on, stacks_decide, suffixes_are_moved, walks_find_old_items};

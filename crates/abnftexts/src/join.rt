//! Joins the rules that several texts give: decides which are the same, which yield to others, and in what order they
//! are printed.

mod by_name;
mod fate;
mod given;
mod key;
mod leaves;
mod linked;
mod only_prose;
mod order;
mod same;

pub(crate) use by_name::{Listed, numbers_by_name};
pub use fate::{Fate, find_fates};
pub use given::GivenRule;
pub(crate) use leaves::is_same_folded;
pub use linked::linked_reading;
pub use only_prose::is_only_prose;
pub use order::{Clash, find_clashes, find_order};
pub use same::is_same_element;

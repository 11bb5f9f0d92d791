//! Lowers grammars in ABNF to flat grammars, as they are or without what derives nothing.
#![tactic(auto)]

mod item_laws;
mod letter_law;
mod lower_elem;
mod lowered;
mod pruned;
mod sources;
mod viable_lowered;

pub use item_laws::items_decide;
pub use letter_law::values_are_letters;
pub use lowered::{lower, lower_rules};
pub use sources::more_marks;
pub use viable_lowered::{lower_viable, productive_rules};

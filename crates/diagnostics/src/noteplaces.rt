//! Where a grammar's text defines its rules and what their bodies mention, and the lines that explain notes by that.

mod explained;
mod forms;
mod heads;
mod kept;
mod laws;
mod lines;
mod lines_of_kind;
mod mentions;
mod name_index;
mod number_lists;
mod positions;
mod prose;
mod sign;
mod uses;

pub use explained::{explain_note, positions_by, positions_of};
pub use forms::UseForm;
pub use heads::Head;
pub use laws::first_mention;
pub use lines::push_more;
pub use lines_of_kind::mention_lines;
pub use mentions::{Mention, MentionKind};
pub use number_lists::{add_number, numbers_of};
pub use positions::Positions;
pub use prose::first_prose;
pub use sign::{Sign, Signs};
pub use uses::used_form;

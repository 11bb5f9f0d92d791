//! Names by id, and sets of ids. The names of a grammar get ids, ids get marks, and marked ids give notes. Least sets
//! over numbers: what comes in by needs, what steps reach, and which numbers are on cycles. And distances by steps, and
//! shortest chains of steps from one number.
//!
//! A table of rows gives each number the numbers that its steps lead to. Of the shortest chains to a number the library
//! returns one: before each number of it stands the least one that is a step nearer.
#![tactic(auto)]

mod backs;
mod chains;
mod cycles;
mod distances;
mod id_marks;
mod laws;
mod marked_notes;
mod marks;
mod needs;
mod owned;
mod reach;
mod rounds;
mod rows;
mod used_names;

pub use chains::{Chains, chains_from};
pub use cycles::{Cycles, on_cycle};
pub use id_marks::{marks_at, opposites};
pub use laws::{one_chain, one_way_back};
pub use marked_notes::{note_marked, note_undefined};
pub use marks::{mark, marks_of, some_marked};
pub use needs::{Need, are_needs_within, derive, least};
pub use owned::{OwnedNeed, borrowed_needs, slices};
pub use reach::reached;
pub use rows::{are_below, are_within};
pub use used_names::{add_name, add_use, names_of_rules};

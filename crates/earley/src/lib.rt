//! Judges lines by item sets: item by item, and where the sets are dense by rows of bits.
#![tactic(auto)]

mod awaited;
mod chart;
mod dot_table;
mod row;
mod row_chart;
mod row_dots;
mod row_fill;
mod row_index;
mod row_set;
mod row_sets;
mod row_step;
mod verdict;
mod words;

pub use awaited::awaited_at;
pub use chart::{Chart, judge, judge_few};
pub use row::BitRow;
pub use row_set::{RowSet, empty_rows};
pub use verdict::{viable, viable_few};

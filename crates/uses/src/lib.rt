//! Small callers of the libraries. Each shows how a function is called, and what a proof of one's own has from its
//! contract.
#![tactic(auto)]

mod abnf_caller;
mod abnf_print_caller;
mod check_caller;
mod cycle_caller;
mod feed_caller;
mod join_caller;
mod judge_caller;
mod line_caller;
mod open_caller;
mod packrat_caller;
mod point_caller;
mod print_caller;
mod run_caller;
mod table_caller;
mod token_caller;
mod tree_caller;
mod unit_caller;

pub use abnf_caller::{count_abnf_rules, load_abnf};
pub use abnf_print_caller::canonical_abnf;
pub use check_caller::load_peg;
pub use cycle_caller::comes_back;
pub use feed_caller::holds_line;
pub use join_caller::grammar_in;
pub use judge_caller::derives;
pub use line_caller::{Comments, answer_comments};
pub use open_caller::{answer_both, run_both};
pub use packrat_caller::print_once;
pub use point_caller::count_points;
pub use print_caller::{canonical_text, read_again};
pub use run_caller::{are_all_derived, are_both_taken, is_all_taken};
pub use table_caller::{add_rule, word_bytes};
pub use token_caller::count_tokens;
pub use tree_caller::{count_rules, is_choice, some_choice};
pub use unit_caller::{match_text, print_text};

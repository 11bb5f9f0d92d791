//! Checks grammars in ABNF.
#![tactic(auto)]

mod abnf_check;
mod abnf_notes;
mod aim;
mod alike;
mod copies;
mod counts;
mod decided_law;
mod joined;
mod name_ids;
mod name_marks;
mod notes_law;
mod nullable_marks;
mod productive_marks;
mod prose;
mod reached_names;
mod rule_marks;
mod sound_abnf;
mod table_marks;

pub use abnf_check::{Checked, JudgedAbnf, check_abnf, judge_abnf};
pub use alike::new_symbols;
pub use copies::{copied_rules, reached_grammar, unrolled_grammar};
pub use counts::are_rules_within;
pub use decided_law::{derivation_is_decided, furthest_is_found};
pub use joined::AllRules;
pub use notes_law::one_list_of_abnf_notes;
pub use nullable_marks::nullable_rules;
pub use productive_marks::productive;
pub use reached_names::{ChainEnds, NameChains, name_chains, one_name_chain};
pub use sound_abnf::SoundAbnf;
pub use table_marks::{productive_rules, sound_rules};

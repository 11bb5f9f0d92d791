//! Explains a line that a grammar's judged rule does not derive: by the symbols that can follow its longest viable
//! prefix, and the parts of rules that can come next.
#![tactic(auto)]

mod explained;
mod following;
mod letterruns;
mod part_lines;
mod part_texts;
mod parts;
mod pruned;
mod read_letters;
mod refusal;

pub use explained::{Explainer, explain_refused, nothing_can_stand, refusal_is_one};
pub use following::{Following, find_following, following_is_one};
pub use letterruns::{
    CoreRule, LetterRun, ReportedLetters, merge_runs, reported_letters, runs_are_one,
    symbol_pieces, symbols_text,
};
pub use part_texts::{elem_text, rule_name};
pub use pruned::PrunedGrammar;
pub use refusal::{LineUnit, RefusedLine, unit_word};

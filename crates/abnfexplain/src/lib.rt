//! Explains a fault of a grammar's text in ABNF, and notes on its grammar.
#![tactic(auto)]

mod abnf_decide;
mod abnf_explain;
mod abnf_mistakes;
mod abnf_phrases;
mod abnf_stand;
mod all_faults;
mod chain_lines;
mod large;
mod laws;
mod notes;
mod rule_lines;

pub use abnf_decide::fault_token;
pub use abnf_explain::explain_abnf_fault;
pub use all_faults::{MAX_FAULTS, explain_abnf_faults};
pub use chain_lines::{MAX_LAST, push_chain};
pub use laws::{nothing_left_out_of_abnf, one_explanation_of_abnf, one_explanation_of_abnf_faults};
pub use notes::{
    AbnfSigns, AbnfText, abnf_positions, one_note_explanation_of_abnf, read_abnf_text,
};

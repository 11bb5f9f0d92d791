//! The ABNF tool: it reads a grammar, checks or prints it or judges lines by it, and answers on two writers.
#![tactic(auto)]

mod abnf_language;
mod abnf_positions;
mod abnf_run;
mod engines;
mod factored;
mod hints;
mod laws;
mod line_judge;
mod loops;
mod note_positions;
mod open_law;
mod opened;
mod options;

pub use abnf_language::AbnfLanguage;
pub use abnf_positions::AbnfPositions;
pub use abnf_run::run_abnf;
pub use feed::{Broken, Source, SourceOf};
pub use laws::{explanations_change_no_answer, one_reply_of_abnf, one_statement_of_abnf};
pub use linejudge::{Answer, NoAnswer, Printed};
pub use open_law::answers_as_a_run;
pub use opened::{AbnfJudge, OpenedAbnf, open_abnf};
pub use options::{AbnfOptions, AbnfSettings};
pub use ruletable::Alphabet;
pub use toolrun::{DEFAULT_LIMIT, MAX_LIMIT, Mode, Settings, Status, Stop, close_run, end_run};

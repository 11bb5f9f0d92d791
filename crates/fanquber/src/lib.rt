//! The door to both tools: their runs, their command lines, and what these take and give.
//! It has nothing of its own; each item comes from the crate that proves it.
#![tactic(auto)]

pub use abnfrun::{
    AbnfLanguage, AbnfOptions, AbnfSettings, Alphabet, Printed, one_reply_of_abnf,
    one_statement_of_abnf, run_abnf,
};
pub use cli::{
    Asked, Job, Program, Unready, end_unready, end_without_memory, parse, read_job, read_words,
    refuse_invalid_utf8, settings_of, start_program, tool_main, words_of,
};
pub use feed::{Broken, Feed, Flow, Held, Source, SourceOf};
pub use pegrun::{
    PegLanguage, PegOptions, PegSettings, PrintStyle, one_reply, one_statement, run_peg,
};
pub use ruletable::{Sink, SinkOf, WriteFault};
pub use toolrun::{
    Checked, DEFAULT_LIMIT, Ending, Language, MAX_LIMIT, Mode, Settings, Status, Stop, close_run,
    conclude_run, end_run, plain_ending, run_tool,
};

//! The command lines of the programs: what the words ask for, the run of a program whose language is given, and the end
//! of a program that has nothing to run.
#![tactic(auto)]

mod command;
mod fault;
mod held;
mod input;
mod output;
mod program;
mod reading;
mod settings;
mod several;
mod sizes;
mod start;
mod tool;
mod values;

pub use command::{Parameter, program_command, tool_command};
pub use fault::refuse_invalid_utf8;
pub use input::{Input, Inputless, open_source};
pub use output::{BufferedSink, Output};
pub use program::{Program, parse, parse_words};
pub use reading::{Job, Unready, end_unready, read_grammar, read_job};
pub use settings::{Asked, Format, read_words, settings_of};
pub use several::{greater_status, run_several};
pub use sizes::plain_words;
pub use start::{end_without_memory, start_program, words_of};
pub use tool::tool_main;
pub use values::{budget_of, is_given, letters_of, number_of};

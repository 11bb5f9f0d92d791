//! Joins the grammars in ABNF that texts of RFCs give.
#![tactic(auto)]

mod command;
mod flags;
mod join;
mod reports;
mod run;
mod texts;

use crate::command::abnfx_command;
use crate::flags::flag_words;
use crate::run::abnfx_main;
use cli::{end_without_memory, start_program};
use std::process::ExitCode;

fn main(rt: HostRuntime) -> ExitCode {
    start_program(
        &rt,
        rt.stdout(),
        rt.stderr(),
        abnfx_command,
        |words, out, err| {
            let Ok(words) = flag_words(rt.alloc(), words) else {
                return end_without_memory(&rt);
            };
            ExitCode::from(abnfx_main(&rt, words.as_slice(), out, err).code())
        },
    )
}

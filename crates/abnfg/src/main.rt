//! Lists the lines that a rule of a grammar in ABNF derives.
#![tactic(auto)]

mod command;
mod covered;
mod goal_texts;
mod grammar;
mod lines;
mod refusals;
mod run;
mod source;

use crate::command::abnfg_command;
use crate::run::abnfg_main;
use cli::start_program;
use std::process::ExitCode;

fn main(rt: HostRuntime) -> ExitCode {
    start_program(
        &rt,
        rt.stdout(),
        rt.stderr(),
        abnfg_command,
        |words, out, err| ExitCode::from(abnfg_main(&rt, words, out, err).code()),
    )
}

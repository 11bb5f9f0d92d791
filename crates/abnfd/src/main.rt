//! Compares the lines that rules of two grammars in ABNF derive.
#![tactic(auto)]

mod alike;
mod answer;
mod by_name;
mod command;
mod compared;
mod files;
mod quoted;
mod refusals;
mod run;
mod side;

use crate::command::abnfd_command;
use crate::run::abnfd_main;
use cli::start_program;
use std::process::ExitCode;

fn main(rt: HostRuntime) -> ExitCode {
    start_program(
        &rt,
        rt.stdout(),
        rt.stderr(),
        abnfd_command,
        |words, out, err| ExitCode::from(abnfd_main(&rt, words, out, err).code()),
    )
}

//! Runs a grammar in the syntax of peg(1) on files or on its standard input.
#![tactic(auto)]

mod command;
mod run;

use crate::command::Pegi;
use crate::run::pegi_main;
use cli::{Program, end_without_memory, open_source, plain_words, run_several, start_program};
use std::process::ExitCode;

fn main(rt: HostRuntime) -> ExitCode {
    start_program(
        &rt,
        rt.stdout(),
        rt.stderr(),
        |alloc| Pegi::command(alloc),
        |words, out, err| {
            let Ok(words) = plain_words(rt.alloc(), words) else {
                return end_without_memory(&rt);
            };
            let words = words.as_slice();
            let several = run_several::<Pegi, HostRuntime, _, _, _>(
                &rt,
                words,
                rt.stdin(),
                out,
                err,
            );
            if let Some(status) = several {
                return ExitCode::from(status.code());
            }
            match open_source::<Pegi, HostRuntime, _, _, _>(&rt, words, rt.stdin(), out, err) {
                Ok(mut reader) => ExitCode::from(pegi_main(
                    &rt,
                    words,
                    &mut reader,
                    out,
                    err,
                ).code()),
                Err(status) => ExitCode::from(status.code()),
            }
        },
    )
}

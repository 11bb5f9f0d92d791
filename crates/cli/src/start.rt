//! The start of a program: its words and the sinks of its output.
ghost use Rattle.std.specs.Prelude.{◌≡◌, false};

use crate::fault::refuse_invalid_utf8;
use crate::output::Output;
use clap::Command;
use ruletable::{Sink, SinkOf};
use std::alloc::{AllocError, Global};
use std::io::{BufWriter, ErrorKind, Write};
use std::process::ExitCode;
use std::rt::Env;
use std::{env, io};
use toolrun::Status;

/// Returns the program's words, its own name first.
pub fn words_of(rt: &(impl Env + AllocGlobal)) -> io::Result<Vec<String>> {
    Ok(env::args(rt)?.collect(rt.alloc())?)
}

/// Ends a program where an allocation for its words or for the buffers of its streams failed.
pub fn end_without_memory(rt: &impl Eprint) -> ExitCode {
    let _ = rt.eprintln("out of memory");
    ExitCode::from(Status::NoMemory.code())
}

/// Starts a program: passes its words, a buffered sink over `output` and a sink over `errors` to `run`, and returns its
/// result.
///
/// - If a word is not UTF-8 text: what is wrong with the words on `errors`, `Refused`, and `run` is not called.
/// - If an allocation for the words or the buffer fails: `out of memory`, `NoMemory`, and `run` is not called.
pub fn start_program<'a, R, O, E, C, F>(
    rt: &R,
    output: O,
    errors: E,
    command: C,
    run: F,
) -> ExitCode
where
    R: Env + Eprint + AllocGlobal,
    O: Write + Drop,
    E: Write + Drop,
    C: FnOnce(Global) -> Result<Command<'a>, AllocError>,
    F: FnOnce(&[String], &mut Output<O>, &mut SinkOf<E>) -> ExitCode,
    requires command { C.IsAlwaysCallable command }
    requires run { (words : _) (out : _) (err : _) → ⟦<Output<O> as Sink>⟧.failed out.now ≡ false →
        ⟦<SinkOf<E> as Sink>⟧.failed err.now ≡ false → F.pre run words out err }
{
    let Ok(buffered) = BufWriter::new(rt.alloc(), output) else {
        return end_without_memory(rt);
    };
    let mut out = Output::new(buffered);
    let mut err = SinkOf::new(errors);
    match words_of(rt) {
        Ok(words) => run(words.as_slice(), &mut out, &mut err),
        Err(fault) if fault.kind() == ErrorKind::OutOfMemory => end_without_memory(rt),
        Err(_) => {
            let status = refuse_invalid_utf8(rt.alloc(), command(rt.alloc()), &mut out, &mut err);
            ExitCode::from(status.code())
        }
    }
}

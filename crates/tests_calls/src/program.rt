//! A program that runs the rows of its standard input.

use crate::fields::Text;
use crate::rows::{Calls, run_rows};
use std::io;
use std::io::{Read, Write};

// Writes what the rows gave.
fn write_found<R: Print>(rt: &R, found: &Text) -> io::Result<()> {
    match found.whole() {
        Some(text) => io::writer(rt).write_all(text),
        None => io::writer(rt).write_all(b"out of memory\n"),
    }
}

/// Runs the rows that stand on standard input, and writes what `run_rows` returns.
pub fn run_input<R: Input + Print + AllocGlobal, C: Calls>(rt: &R, calls: &C) -> io::Result<()> {
    let mut text = Vec::new(rt.alloc());
    let mut reader = rt.reader();
    reader.read_to_end(&mut text)?;
    match run_rows(rt.alloc(), calls, &text) {
        Some(found) => write_found(rt, &found),
        None => io::writer(rt).write_all(
            b"no rows: out of memory, or the first line is indented\n",
        ),
    }
}

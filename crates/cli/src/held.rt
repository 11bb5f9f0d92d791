//! Runs whose messages are held, and then written with a name before their lines, or as findings.
ghost use Rattle.std.specs.Prelude.{◌≡◌, ◌++◌, IfOk, OnOk, Some, [], false, not, true};
ghost use Rattle.cli.specs.FileRuns.{IsReportAs, IsReportedText, lines_named as the_lines, name_before};
ghost use Rattle.cli.specs.FileRuns.{own_messages, writes_from};
ghost use Rattle.toolrun.specs.Right.{RunIsRight};
ghost use Rattle.toolrun.specs.Status.{code_of};
ghost use Rattle.toolrun.specs.Stop.{message_of};
ghost use Rattle.toolrun.specs.Stream.{passed};
ghost use Rattle.toolrun.specs.declared.stop.Stop.TheVariants.{NoMemory};

use crate::output::BufferedSink;
use crate::program::Program;
use crate::settings::Format;
use feed::Source;
use findings::{FindingManner, Syntax, finding_messages};
use ruletable::{Memory, Sink, SinkOf, write_whole};
use std::alloc::Global;
use toolrun::{Settings, Status};

/// The manner in which messages are written.
#[derive(Clone, Copy)]
pub(crate) struct Manner<'a> {
    /// Their form.
    pub(crate) format: Format,
    /// The syntax of grammars.
    pub(crate) syntax: Syntax,
    /// The name of the start rule, if one is given.
    pub(crate) start: Option<&'a str>,
}

/// What messages are about.
#[derive(Clone, Copy)]
pub(crate) struct Origin<'a, 'b> {
    /// The manner in which they are written.
    pub(crate) manner: Manner<'a>,
    /// The name of the file.
    pub(crate) name: &'a str,
    /// The text of the grammar; empty for those on an input.
    pub(crate) text: &'b [u8],
}

/// A run, and its messages.
#[derive(Drop)]
pub(crate) struct HeldRun {
    /// The status.
    pub(crate) status: Status,
    /// The messages.
    pub(crate) messages: Vec<u8>,
    /// Whether these are all; else an allocation for them failed.
    pub(crate) held_all: bool,
}

/// Runs a grammar's text on what a reader gives, and holds the messages.
pub(crate) fn run_held<P: Program, I: Source, O: BufferedSink>(
    alloc: Global,
    grammar: &[u8],
    settings: &Settings<'_, P::Options>,
    reader: &mut I,
    out: &mut O,
) -> HeldRun
    requires reader_is_fresh { I.failed reader.old ≡ false }
    requires reader_is_open { I.ended reader.old ≡ false }
    requires out_is_fresh { O.failed out.old ≡ false }
    ensures { RunIsRight (P.states grammar.now settings.now)
        (passed I.remaining I.failed reader.old reader.new) (passed O.contents O.failed out.old out.new)
        (record { old = Some []; new = Some result.messages.items; was = false; failed = not result.held_all })
        (code_of result.status) }
{
    let mut messages = SinkOf::new(Vec::new(alloc));
    let status = P::run(alloc, grammar, settings, reader, out, &mut messages);
    let held_all = !messages.has_failed();
    HeldRun {
        status,
        messages: messages.into_inner(),
        held_all,
    }
}

// Adds the name before a byte, if a line that no space begins has it at its front.
fn push_name(name: &str, starts: bool, byte: u8, text: &mut Vec<u8>) -> Result<(), Memory>
    ensures { OnOk result (text.new.items ≡ text.old.items ++ name_before name.now starts byte) }
{
    if starts && byte != b' ' {
        text.extend_from_slice(name.as_bytes())?;
        text.extend_from_slice(b": ")?;
    }
    Ok(())
}

// Returns a text with the name before each line that no space begins. `Memory` if an allocation fails.
fn lines_named(alloc: Global, name: &str, messages: &[u8]) -> Result<Vec<u8>, Memory>
    ensures { IfOk result (λ text. text.items ≡ the_lines name.now true messages.now) }
{
    let mut text = Vec::new(alloc);
    let mut starts = true;
    for byte in messages {
        push_name(name, starts, *byte, &mut text)?;
        text.push(*byte)?;
        starts = *byte == b'\n';
    }
    Ok(text)
}

// Returns the messages without these first ones.
fn own_of<'a>(first: &[u8], messages: &'a [u8]) -> &'a [u8]
    ensures { result.now ≡ own_messages first.now messages.entry.now }
{
    messages.strip_prefix(first).unwrap_or(messages)
}

/// Reports that an allocation failed.
pub(crate) fn report_no_memory<E: Sink>(err: &mut E) -> Status
    requires err_is_fresh { E.failed err.old ≡ false }
    ensures reported { IsReportedText (message_of NoMemory) (passed E.contents E.failed err.old err.new) }
    ensures status { code_of result ≡ 5 }
{
    let _ = write_whole(err, b"out of memory\n");
    Status::NoMemory
}

// Returns messages as they are written: with the name before each line that no space begins, or as findings. `Memory`
// if an allocation fails.
fn written_text(alloc: Global, origin: &Origin<'_, '_>, messages: &[u8]) -> Result<Vec<u8>, Memory>
    ensures { IfOk result (λ text. text.items ≡ writes_from origin.now messages.now) }
{
    let manner = origin.manner;
    match manner.format {
        Format::Text => lines_named(alloc, origin.name, messages),
        Format::Findings(form) => {
            let asked = FindingManner {
                form,
                syntax: manner.syntax,
                start: manner.start,
            };
            finding_messages(alloc, asked, origin.name, origin.text, messages)
        }
    }
}

/// Writes messages, after a run of that status. Returns the status, or that of a fault where the writer failed and that
/// is greater; `NoMemory` if an allocation fails.
pub(crate) fn report_from<E: Sink>(
    alloc: Global,
    origin: &Origin<'_, '_>,
    messages: &[u8],
    status: Status,
    err: &mut E,
) -> Status
    requires err_is_fresh { E.failed err.old ≡ false }
    ensures { IsReportAs (writes_from origin.now) messages.now (code_of status)
        (passed E.contents E.failed err.old err.new) (code_of result) }
{
    let Ok(text) = written_text(alloc, origin, messages) else {
        return report_no_memory(err);
    };
    match write_whole(err, text.as_slice()) {
        Ok(()) => status,
        Err(_) => status.at_least_fault(),
    }
}

/// Writes the messages of a run but for these first ones.
pub(crate) fn report_held<E: Sink>(
    alloc: Global,
    origin: &Origin<'_, '_>,
    first: &[u8],
    run: &HeldRun,
    err: &mut E,
) -> Status
    requires err_is_fresh { E.failed err.old ≡ false }
    ensures { IsReportAs (writes_from origin.now) (own_messages first.now run.now.messages.items)
        (code_of run.now.status) (passed E.contents E.failed err.old err.new) (code_of result) }
{
    if !run.held_all {
        return report_no_memory(err);
    }
    let own = own_of(first, run.messages.as_slice());
    report_from(alloc, origin, own, run.status, err)
}

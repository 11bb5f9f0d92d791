//! The output for the lines of an input, and at its end.
ghost use Rattle.std.specs.Prelude.{◌≡◌, ◌++◌, ℕ, List, IsTrue, OnOk, codes, decimal, false};
ghost use Rattle.ruletable.specs.Writing.{Flags, Writes};
ghost use Rattle.linejudge.specs.InputLines.{answer_text, count_text, ended_line, is_line_printed, printed_last};
ghost use Rattle.linejudge.specs.InputLines.{name_text, number_text, printed_line, shown_text};
ghost use Rattle.linejudge.specs.declared.answers.Answer.{Answer};

use crate::answers::{Answer, is_yes};
use crate::line::LineForm;
use crate::reached::LinePosition;
use itoa::Buffer;
use ruletable::{Memory, Sink, WriteFault, write_pieces};

/// The output for the lines of an input.
#[derive(Clone, Copy)]
pub enum Printed {
    /// The answer to each line.
    Answers,
    /// The lines that are derived.
    Derived,
    /// The lines that are rejected.
    Refused,
    /// How many lines are derived, and how many rejected, at the end of the input.
    Count,
    /// Nothing.
    Nothing,
}

/// Returns whether something is printed for a line with that answer.
#[inline(always)]
fn is_printed(printed: Printed, said: Answer) -> bool
    ensures { result ≡ is_line_printed printed said }
{
    match printed {
        Printed::Answers => true,
        Printed::Derived => is_yes(said),
        Printed::Refused => !is_yes(said),
        Printed::Count => false,
        Printed::Nothing => false,
    }
}

/// Adds some bytes, a number and some more bytes. `Memory` if an allocation fails.
fn push_number(before: &[u8], n: usize, after: &[u8], text: &mut Vec<u8>) -> Result<(), Memory>
    ensures { OnOk result (text.new.items ≡ text.old.items ++ (before.now ++ decimal n ++ after.now)) }
{
    let mut buffer = Buffer::new();
    text.extend_from_slice(before)?;
    text.extend_from_slice(buffer.format(n).as_bytes())?;
    text.extend_from_slice(after)?;
    Ok(())
}

/// Adds the line of an answer. `Memory` if an allocation fails.
#[inline(always)]
fn push_answer(said: Answer, text: &mut Vec<u8>) -> Result<(), Memory>
    ensures { OnOk result (text.new.items ≡ text.old.items ++ answer_text said) }
{
    match said {
        Answer::Yes => Ok(text.extend_from_slice(b"yes\n")?),
        Answer::No => Ok(text.extend_from_slice(b"no\n")?),
        Answer::NoAfter(n) => push_number(b"no ", n, b"\n", text),
    }
}

/// Adds what was judged of a line, and the line's end, if the end is no part of it. `Memory` if an allocation fails.
fn push_bytes(form: LineForm<'_>, line: &[u8], text: &mut Vec<u8>) -> Result<(), Memory>
    ensures { OnOk result (text.new.items ≡ text.old.items ++ ended_line form.entry line.now) }
{
    text.extend_from_slice(line)?;
    if !form.keeps {
        text.push(form.end)?;
    }
    Ok(())
}

/// Adds a name and a colon, if a name is given. `Memory` if an allocation fails.
#[inline(always)]
fn push_name(name: Option<&str>, text: &mut Vec<u8>) -> Result<(), Memory>
    ensures { OnOk result (text.new.items ≡ text.old.items ++ name_text name.entry) }
{
    if let Some(name) = name {
        text.extend_from_slice(name.as_bytes())?;
        text.push(b':')?;
    }
    Ok(())
}

/// Adds the number of a line and a colon, if lines are numbered. `Memory` if an allocation fails.
#[inline(always)]
fn push_head(numbered: bool, number: usize, text: &mut Vec<u8>) -> Result<(), Memory>
    ensures { OnOk result (text.new.items ≡ text.old.items ++ number_text numbered number) }
{
    if numbered {
        return push_number(b"", number, b":", text);
    }
    Ok(())
}

/// Adds what is printed after name and number: the answer, or the line and its end. `Memory` if an allocation fails.
#[inline(always)]
fn push_shown(
    form: LineForm<'_>,
    line: &[u8],
    said: Answer,
    text: &mut Vec<u8>,
) -> Result<(), Memory>
    ensures { OnOk result (text.new.items ≡ text.old.items ++ shown_text form.entry form.entry.printed line.now said) }
{
    match form.printed {
        Printed::Answers => push_answer(said, text),
        Printed::Derived => push_bytes(form, line, text),
        Printed::Refused => push_bytes(form, line, text),
        Printed::Count => Ok(()),
        Printed::Nothing => Ok(()),
    }
}

/// Returns whether the answer to a line is all that is printed for it, and a run goes on after each answer.
pub(crate) fn has_plain_answers(form: LineForm<'_>) -> bool
    ensures plain { IsTrue result → (number : ℕ) (line : List ℕ) (said : Answer) →
        printed_line form.entry number line said ≡ answer_text said }
    ensures goes { IsTrue result → form.entry.stops ≡ false }
{
    match form.printed {
        Printed::Answers => form.name.is_none() && !form.numbered && !form.stops,
        Printed::Derived | Printed::Refused | Printed::Count | Printed::Nothing => false,
    }
}

/// Adds what is printed for a line of that number with that answer; with `is_plain`, that is the answer. `Memory` if an
/// allocation fails.
#[inline(always)]
pub(crate) fn push_if_plain(
    is_plain: bool,
    form: LineForm<'_>,
    number: usize,
    line: &[u8],
    said: Answer,
    text: &mut Vec<u8>,
) -> Result<(), Memory>
    requires plain { IsTrue is_plain → printed_line form number line.now said ≡ answer_text said }
    ensures { OnOk result (text.new.items ≡ text.old.items ++ printed_line form.entry number line.now said) }
{
    if is_plain {
        return push_answer(said, text);
    }
    push_line(form, number, line, said, text)
}

/// Adds what is printed for a line of that number with that answer. `Memory` if an allocation fails.
pub(crate) fn push_line(
    form: LineForm<'_>,
    number: usize,
    line: &[u8],
    said: Answer,
    text: &mut Vec<u8>,
) -> Result<(), Memory>
    ensures { OnOk result (text.new.items ≡ text.old.items ++ printed_line form.entry number line.now said) }
{
    if !is_printed(form.printed, said) {
        return Ok(());
    }
    push_name(form.name, text)?;
    push_head(form.numbered, number, text)?;
    push_shown(form, line, said, text)
}

/// Writes a name and a colon, if a name is given.
fn write_name<O: Sink>(name: Option<&str>, out: &mut O) -> Result<(), WriteFault>
    requires { O.failed out.old ≡ false }
    ensures bytes { Writes (O.contents out.old) (O.contents out.new) (name_text name.entry) result }
    ensures flag { Flags (O.failed out.old) (O.failed out.new) result }
{
    match name {
        Some(name) => write_pieces(out, &[name.as_bytes(), b":"]),
        None => Ok(()),
    }
}

/// Writes how many lines before a position were derived, and how many rejected.
fn write_count<O: Sink>(at: LinePosition, out: &mut O) -> Result<(), WriteFault>
    requires { O.failed out.old ≡ false }
    ensures bytes { Writes (O.contents out.old) (O.contents out.new) (count_text at) result }
    ensures flag { Flags (O.failed out.old) (O.failed out.new) result }
{
    let mut derived = Buffer::new();
    let mut refused = Buffer::new();
    let pieces: [&[u8]; 4] = [
        derived
            .format(at.count.saturating_sub(at.refused))
            .as_bytes(),
        b" derived, ",
        refused.format(at.refused).as_bytes(),
        b" refused\n",
    ];
    write_pieces(out, &pieces)
}

/// Writes a name, if one is given, and then the counts of lines before a position.
fn write_named_count<O: Sink>(
    name: Option<&str>,
    at: LinePosition,
    out: &mut O,
) -> Result<(), WriteFault>
    requires { O.failed out.old ≡ false }
    ensures bytes { Writes (O.contents out.old) (O.contents out.new) (name_text name.entry ++ count_text at) result }
    ensures flag { Flags (O.failed out.old) (O.failed out.new) result }
{
    match write_name(name, out) {
        Ok(()) => write_count(at, out),
        Err(fault) => Err(fault),
    }
}

/// Writes what is printed at the end of an input, after the lines before a position.
pub(crate) fn write_end<O: Sink>(
    form: LineForm<'_>,
    at: LinePosition,
    out: &mut O,
) -> Result<(), WriteFault>
    requires { O.failed out.old ≡ false }
    ensures bytes { Writes (O.contents out.old) (O.contents out.new) (printed_last form.entry.name
        form.entry.printed at) result }
    ensures flag { Flags (O.failed out.old) (O.failed out.new) result }
{
    match form.printed {
        Printed::Answers => Ok(()),
        Printed::Derived => Ok(()),
        Printed::Refused => Ok(()),
        Printed::Count => write_named_count(form.name, at, out),
        Printed::Nothing => Ok(()),
    }
}

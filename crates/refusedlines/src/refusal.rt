//! The lines that explain a rejected line or record.
ghost use Rattle.std.specs.Prelude.{◌≡◌, ◌==◌, ◌+◌, ◌<◌, ◌≤◌, ◌^◌, ◌++◌, codes, decimal, drop, length, take, OnOk};
ghost use Rattle.std.specs.List.{position_or_len};
ghost use Rattle.diagnostics.specs.LinesAround.{bytes_before};
ghost use Rattle.refusedlines.specs.RefusedText.{
  at_record,
  at_text,
  end_text,
  line_in_record,
  line_picture,
  none_of,
  record_end,
  record_expected,
  record_fault,
  refused_at as the_position,
  reported_expected,
  unit_text,
  unit_word as the_word,
};
ghost use Rattle.ruletable.specs.Rules.{names_of};

use crate::following::Following;
use crate::letterruns::{LetterRun, symbols_text};
use crate::part_lines::{only_part, push_expected, push_part_lines};
use crate::part_texts::TextSet;
use diagnostics::{LineAround, push_cut, push_number, push_picture};
use ruletable::{Alphabet, LineRule, Memory, line_of};
use std::alloc::Global;

/// What is rejected.
#[derive(Clone, Copy)]
pub enum LineUnit {
    /// A line. Its symbols are numbered.
    Line,
    /// A record. Its lines are numbered, which end with LF, and the symbols in each of them.
    Record,
}

/// A line or a record that is rejected, with its number.
#[derive(Clone, Copy)]
pub struct RefusedLine<'a> {
    /// Which of them it is.
    pub unit: LineUnit,
    /// Its bytes, without its end.
    pub bytes: &'a [u8],
    /// Its number, from 1.
    pub number: usize,
}

/// Where a line is rejected.
#[derive(Clone, Copy)]
pub(crate) enum RefusedAt {
    /// At the symbol with that number, from 1.
    Letter(usize),
    /// At bytes that are not UTF-8, where the symbol with that number would stand.
    NoText(usize),
    /// At its end.
    End,
}

/// The explanation of a rejected line.
#[derive(Drop)]
pub(crate) struct Refusal {
    /// The alphabet of the line.
    pub(crate) alphabet: Alphabet,
    /// Where it is rejected, by its symbols.
    pub(crate) at: RefusedAt,
    /// After how many of its bytes it is rejected.
    pub(crate) position: usize,
    /// In which column of its last line, by symbols from 1.
    pub(crate) column: usize,
    /// The symbols that can follow there.
    pub(crate) following: Following,
    /// The texts of the parts that can come next there.
    pub(crate) parts: TextSet,
}

/// Returns where a line is rejected: after so many of its symbols, of which there are that many, before bytes that are
/// not UTF-8 or the end.
pub(crate) fn refused_at(after: usize, letters: usize, torn: bool) -> RefusedAt
    requires { after + 1 < 2 ^ 64 }
    ensures { result ≡ the_position after letters torn }
{
    if after < letters {
        RefusedAt::Letter(after + 1)
    } else if torn {
        RefusedAt::NoText(after + 1)
    } else {
        RefusedAt::End
    }
}

// Adds the number of a symbol, and the text after it.
fn push_letter(n: usize, reported: &[u8], out: &mut Vec<u8>) -> Result<(), Memory>
    ensures { OnOk result (out.new.items ≡ out.old.items ++ (codes ", letter " ++ (decimal n ++ reported.now))) }
{
    out.extend_from_slice(b", letter ")?;
    push_number(out, n)?;
    out.extend_from_slice(reported)?;
    Ok(())
}

// Adds where the line with that number is rejected.
fn push_at(number: usize, at: RefusedAt, out: &mut Vec<u8>) -> Result<(), Memory>
    ensures { OnOk result (out.new.items ≡ out.old.items ++ at_text number at) }
{
    out.extend_from_slice(b"line ")?;
    push_number(out, number)?;
    match at {
        RefusedAt::Letter(n) => push_letter(n, b": expected ", out)?,
        RefusedAt::NoText(n) => push_letter(n, b": not UTF-8, expected ", out)?,
        RefusedAt::End => out.extend_from_slice(b" ends too early: expected ")?,
    }
    Ok(())
}

// Adds a picture of a position of a line, if the line is not empty.
fn push_line_picture(line: &[u8], before: usize, out: &mut Vec<u8>) -> Result<(), Memory>
    requires { before ≤ length line.now }
    ensures { OnOk result (out.new.items ≡ out.old.items ++ line_picture line.now before) }
{
    if line.is_empty() {
        return Ok(());
    }
    push_picture(out, LineAround { line, before })
}

// Returns the words for the end of a line, after the symbols that can follow.
fn end_words(runs: &[LetterRun], ends: bool) -> &'static [u8]
    ensures { result.now ≡ end_text runs.now ends }
{
    if !ends {
        return b"";
    }
    if runs.is_empty() {
        return b"the end of the line";
    }
    b" or the end of the line"
}

// Adds what is expected at a position of a line, a picture of the position, and the parts.
fn push_lines(
    alloc: Global,
    line: RefusedLine<'_>,
    refusal: &Refusal,
    out: &mut Vec<u8>,
) -> Result<(), Memory>
    requires { refusal.now.position ≤ length line.bytes.now }
    ensures { OnOk result (out.new.items ≡ out.old.items ++ reported_expected refusal.now.alphabet line.entry.number
        line.entry.bytes.now refusal.now.at refusal.now.position refusal.now.following.runs.items
        refusal.now.following.ends (names_of refusal.now.parts)) }
{
    let runs = refusal.following.runs.as_slice();
    let text = symbols_text(alloc, refusal.alphabet, runs)?;
    let symbols = text.as_slice();
    let only = only_part(symbols, &refusal.parts);
    push_at(line.number, refusal.at, out)?;
    push_expected(symbols, only, end_words(runs, refusal.following.ends), out)?;
    push_line_picture(line.bytes, refusal.position, out)?;
    push_part_lines(only, &refusal.parts, out)
}

// Returns what is reported of a record after the position where it is rejected.
fn fault_words(at: RefusedAt) -> &'static [u8]
    ensures { result.now ≡ record_fault at }
{
    match at {
        RefusedAt::Letter(_) => b": expected ",
        RefusedAt::NoText(_) => b": not UTF-8, expected ",
        RefusedAt::End => b" ends too early: expected ",
    }
}

// Adds where the record with that number is rejected: after these of its bytes, in that column.
fn push_at_record(
    number: usize,
    before: &[u8],
    column: usize,
    at: RefusedAt,
    out: &mut Vec<u8>,
) -> Result<(), Memory>
    ensures { OnOk result (out.new.items ≡ out.old.items ++ at_record number before.now column at) }
{
    out.extend_from_slice(b"record ")?;
    push_number(out, number)?;
    out.extend_from_slice(b", line ")?;
    push_number(out, line_of(before, before.len(), LineRule::Lf))?;
    out.extend_from_slice(b", column ")?;
    push_number(out, column)?;
    out.extend_from_slice(fault_words(at))?;
    Ok(())
}

// Returns what is reported of the end of a record, after the symbols that can follow.
fn record_end_words(runs: &[LetterRun], ends: bool) -> &'static [u8]
    ensures { result.now ≡ record_end runs.now ends }
{
    if !ends {
        return b"";
    }
    if runs.is_empty() {
        return b"the end of the record";
    }
    b" or the end of the record"
}

// Returns how many bytes stand after the last LF, or in all.
fn count_after_lf(bytes: &[u8]) -> usize
    ensures before { result ≡ bytes_before LineRule.Lf bytes.now }
    ensures within { result ≤ length bytes.now }
{
    let mut size = 0;
    let mut rest = bytes;
    while let Some((last, front)) = rest.split_last() {
        if *last == b'\n' {
            break;
        }
        rest = front;
        size += 1;
    }
    size
}

// Returns how many bytes stand before the first LF, or in all.
fn count_to_lf(bytes: &[u8]) -> usize
    ensures count { result ≡ position_or_len (λ b. b == 10) bytes.now }
    ensures within { result ≤ length bytes.now }
{
    let mut size = 0;
    let mut rest = bytes;
    while let Some((first, tail)) = rest.split_first() {
        if *first == b'\n' {
            break;
        }
        rest = tail;
        size += 1;
    }
    size
}

// Adds a picture of a position of a record: of the line there, if it is not empty.
fn push_record_picture(bytes: &[u8], position: usize, out: &mut Vec<u8>) -> Result<(), Memory>
    requires { position ≤ length bytes.now }
    ensures { OnOk result (out.new.items ≡ out.old.items ++ line_picture (line_in_record bytes.now position)
        (bytes_before LineRule.Lf (take position bytes.now))) }
{
    let before = count_after_lf(&bytes[..position]);
    let after = count_to_lf(&bytes[position..]);
    push_line_picture(&bytes[position - before..position + after], before, out)
}

// Adds what is expected at a position of a record, a picture of the position, and the parts.
fn push_record(
    alloc: Global,
    line: RefusedLine<'_>,
    refusal: &Refusal,
    out: &mut Vec<u8>,
) -> Result<(), Memory>
    requires { refusal.now.position ≤ length line.bytes.now }
    ensures { OnOk result (out.new.items ≡ out.old.items ++ record_expected refusal.now.alphabet line.entry.number
        line.entry.bytes.now refusal.now.at refusal.now.position refusal.now.column
        refusal.now.following.runs.items refusal.now.following.ends (names_of refusal.now.parts)) }
{
    let runs = refusal.following.runs.as_slice();
    let text = symbols_text(alloc, refusal.alphabet, runs)?;
    let symbols = text.as_slice();
    let only = only_part(symbols, &refusal.parts);
    let before = &line.bytes[..refusal.position];
    push_at_record(line.number, before, refusal.column, refusal.at, out)?;
    push_expected(
        symbols,
        only,
        record_end_words(runs, refusal.following.ends),
        out,
    )?;
    push_record_picture(line.bytes, refusal.position, out)?;
    push_part_lines(only, &refusal.parts, out)
}

/// Returns the word for what is rejected, and a space.
pub fn unit_word(unit: LineUnit) -> &'static [u8]
    ensures { result.now ≡ the_word unit }
{
    match unit {
        LineUnit::Line => b"line ",
        LineUnit::Record => b"record ",
    }
}

// Adds that the rule of that name derives nothing, for what is rejected.
fn push_none(name: &[u8], line: RefusedLine<'_>, out: &mut Vec<u8>) -> Result<(), Memory>
    ensures { OnOk result (out.new.items ≡ out.old.items ++ none_of line.entry.unit line.entry.number name.now) }
{
    out.extend_from_slice(unit_word(line.unit))?;
    push_number(out, line.number)?;
    out.extend_from_slice(b": rule '")?;
    push_cut(out, name)?;
    out.extend_from_slice(b"' derives nothing\n")?;
    Ok(())
}

/// Adds the lines that explain a rejected line or record: the symbols that are expected where it is rejected, a picture
/// of that position, if the line there is not empty, and the parts that can come next. If nothing can follow there,
/// they report that the rule of that name derives nothing. The position must be within the line.
pub(crate) fn push_refusal(
    alloc: Global,
    name: &[u8],
    line: RefusedLine<'_>,
    refusal: &Refusal,
    out: &mut Vec<u8>,
) -> Result<(), Memory>
    requires { refusal.now.position ≤ length line.bytes.now }
    ensures { OnOk result (out.new.items ≡ out.old.items ++ unit_text line.entry.unit refusal.now.alphabet name.now
        line.entry.number line.entry.bytes.now refusal.now.at refusal.now.position refusal.now.column
        refusal.now.following.runs.items refusal.now.following.ends (names_of refusal.now.parts)) }
{
    if refusal.following.runs.is_empty() && !refusal.following.ends {
        return push_none(name, line, out);
    }
    match line.unit {
        LineUnit::Line => push_lines(alloc, line, refusal, out),
        LineUnit::Record => push_record(alloc, line, refusal, out),
    }
}

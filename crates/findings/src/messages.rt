//! The messages of a run, as findings.
ghost use Rattle.std.specs.Prelude.{◌≡◌, ◌++◌, IfOk, OnOk, map, option_map};
ghost use Rattle.findings.specs.MessageFindings.{findings_asked, judged_in_syntax, message_text, messages_text};
ghost use Rattle.findings.specs.MessageFindings.{case_in_syntax, other_text, text_from_line};
ghost use Rattle.findings.specs.MessageFindings.{begins_message as begins_so, line_rule_in_syntax};
ghost use Rattle.findings.specs.NoteFindings.{grammar_at};

use crate::faults::{fault_of, push_fault};
use crate::form::FindingForm;
use crate::judged::first_rule_name;
use crate::lines::text_lines;
use crate::notes::{GrammarText, push_note};
use crate::rejected::{push_plain, push_rejected, rejected_of};
use crate::related::{explaining_count, is_explaining};
use crate::sorts::sort_of;
use crate::units::unit_of;
use ruletable::{LineRule, Memory, NameCase};
use std::alloc::Global;

/// The syntax of a grammar.
#[derive(Clone, Copy)]
pub enum Syntax {
    /// That of peg(1).
    Peg,
    /// ABNF.
    Abnf,
}

impl Syntax {
    // Returns which bytes end a line.
    fn line_rule(self) -> LineRule
        ensures { result ≡ line_rule_in_syntax self }
    {
        match self {
            Syntax::Peg => LineRule::Any,
            Syntax::Abnf => LineRule::Lf,
        }
    }

    // Returns how names compare.
    fn name_case(self) -> NameCase
        ensures { result ≡ case_in_syntax self }
    {
        match self {
            Syntax::Peg => NameCase::Exact,
            Syntax::Abnf => NameCase::Fold,
        }
    }

    // Returns the name of the judged rule, if only what that reaches rejects the grammar.
    fn judged<'a>(self, start: Option<&'a str>, lines: &[&'a [u8]]) -> Option<&'a [u8]>
        ensures { option_map (λ b. b.now) result
            ≡ judged_in_syntax self (option_map (λ s. s.now) start.entry) (map (λ l. l.now) lines.now) }
    {
        match (self, start) {
            (Syntax::Peg, _) => None,
            (Syntax::Abnf, Some(start)) => Some(start.as_bytes()),
            (Syntax::Abnf, None) => Some(first_rule_name(lines)),
        }
    }
}

// Adds what a message gives that is not on a grammar that reads.
fn push_other<'a>(
    alloc: Global,
    out: &mut Vec<u8>,
    grammar: &GrammarText<'_, '_>,
    head: &'a [u8],
    more: &[&'a [u8]],
) -> Result<(), Memory>
    ensures { OnOk result (out.new.items ≡ out.old.items ++ other_text (grammar_at grammar.now) head.now
        (map (λ l. l.now) more.now)) }
{
    if let Some(fault) = fault_of(head) {
        return push_fault(alloc, out, grammar, fault, more);
    }
    if let Some(rejected) = rejected_of(head) {
        return push_rejected(alloc, out, grammar.form, grammar.file, rejected);
    }
    match unit_of(head, more) {
        Some(unit) => push_rejected(alloc, out, grammar.form, grammar.file, unit),
        None => push_plain(out, grammar.file, head),
    }
}

// Adds what a message gives.
fn push_message<'a>(
    alloc: Global,
    out: &mut Vec<u8>,
    grammar: &GrammarText<'_, '_>,
    head: &'a [u8],
    more: &[&'a [u8]],
) -> Result<(), Memory>
    ensures { OnOk result (out.new.items ≡ out.old.items ++ message_text (grammar_at grammar.now) head.now
        (map (λ l. l.now) more.now)) }
{
    match sort_of(head) {
        Some(sort) => push_note(alloc, out, grammar, sort, head, more),
        None => push_other(alloc, out, grammar, head, more),
    }
}

// Returns whether a message begins with the line.
fn begins_message(line: &[u8]) -> bool
    ensures { result ≡ begins_so line.now }
{
    !line.is_empty() && !is_explaining(line)
}

// Adds what a line gives before those lines: if it begins a message, what that gives with those that explain it.
fn push_if_message<'a>(
    alloc: Global,
    out: &mut Vec<u8>,
    grammar: &GrammarText<'_, '_>,
    line: &'a [u8],
    after: &[&'a [u8]],
) -> Result<(), Memory>
    ensures { OnOk result (out.new.items ≡ out.old.items ++ text_from_line (grammar_at grammar.now) line.now
        (map (λ l. l.now) after.now)) }
{
    if begins_message(line) {
        return push_message(alloc, out, grammar, line, &after[..explaining_count(after)]);
    }
    Ok(())
}

// Adds what the messages in lines give.
fn push_messages(
    alloc: Global,
    out: &mut Vec<u8>,
    grammar: &GrammarText<'_, '_>,
    lines: &[&[u8]],
) -> Result<(), Memory>
    ensures { OnOk result (out.new.items ≡ out.old.items ++ messages_text (grammar_at grammar.now)
        (map (λ l. l.now) lines.now)) }
{
    let mut index = 0;
    for line in lines {
        index += 1;
        push_if_message(alloc, out, grammar, line, &lines[index..])?;
    }
    Ok(())
}

/// The manner in which messages are written as findings.
#[derive(Clone, Copy)]
pub struct FindingManner<'a> {
    /// The form.
    pub form: FindingForm,
    /// The syntax of grammars.
    pub syntax: Syntax,
    /// The name of the start rule, if one is given.
    pub start: Option<&'a str>,
}

/// Returns the messages of a run on a grammar or an input as findings. They must be explained.
///
/// - `Gcc`: each finding has a line `FILE:LINE:COLUMN: SEVERITY: MESSAGE [CODE]`. Each further position of it has a
///   line after that.
/// - `Json`: each finding has a line with an object (RFC 8259). Its members are `file`, `line`, `column`, `severity`,
///   `code`, `message` and `notes`, an array of further positions. Each of these has `line`, `column` and `message`.
///   U+FFFD replaces bytes that are not UTF-8.
/// - A message that is no finding has a line `FILE: MESSAGE`.
/// - The text of the grammar gives columns, and the rule that is judged; of an input it is empty.
///
/// # Errors
/// `Memory` if an allocation fails.
pub fn finding_messages<'a>(
    alloc: Global,
    manner: FindingManner<'a>,
    file: &'a str,
    text: &'a [u8],
    messages: &[u8],
) -> Result<Vec<u8>, Memory>
    ensures { IfOk result (λ out. out.items ≡ findings_asked manner.entry file.now text.now messages.now) }
{
    let lines = text_lines(alloc, text, manner.syntax.line_rule())?;
    let report = text_lines(alloc, messages, LineRule::Lf)?;
    let lines = lines.as_slice();
    let grammar = GrammarText {
        form: manner.form,
        file,
        lines,
        names: manner.syntax.name_case(),
        judged: manner.syntax.judged(manner.start, lines),
    };
    let mut out = Vec::new(alloc);
    push_messages(alloc, &mut out, &grammar, report.as_slice())?;
    Ok(out)
}

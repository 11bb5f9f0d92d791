//! The grammars that are compared, each with the messages on it.
ghost use Rattle.std.specs.Prelude.{◌≡◌, ◌++◌, ℕ, List, IfOk, IfSome, None, OnOk, map, option_copied};
ghost use Rattle.abnfcheck.specs.AbnfGrammar.{IsSoundGrammar};
ghost use Rattle.abnfd.specs.ComparedSides.{IsMadeOf, IsReadText, IsSideOf, side_notes as the_notes};
ghost use Rattle.ruletable.specs.Faults.{fault_text};
ghost use Rattle.ruletable.specs.Notes.{note_text, said_of};

use abnfcheck::{AllRules, JudgedAbnf, SoundAbnf, judge_abnf};
use abnfread::{Abnf, read_abnf};
use diagnostics::fault_message;
use ruletable::{Memory, Note, ReadFault, SinkOf, write_note};
use std::alloc::Global;

/// A grammar that is compared, and the messages on it.
#[derive(Drop)]
pub(crate) struct Side {
    /// The messages, each after the name of the side.
    pub(crate) reported: Vec<u8>,
    /// The grammar, unless it is rejected.
    pub(crate) grammar: Option<SoundAbnf>,
}

// Returns the line of a note. `Memory` if an allocation fails.
fn note_line(alloc: Global, note: &Note) -> Result<Vec<u8>, Memory>
    ensures { IfOk result (λ text. text.items ≡ note_text (said_of note.now)) }
{
    let mut text = SinkOf::new(Vec::new(alloc));
    match write_note(note, &mut text) {
        Ok(()) => Ok(text.into_inner()),
        Err(_) => Err(Memory),
    }
}

// Adds the line of a note after the name of its side.
fn push_note(alloc: Global, side: &[u8], note: &Note, out: &mut Vec<u8>) -> Result<(), Memory>
    ensures { OnOk result (out.new.items ≡ out.old.items ++ (side.now ++ note_text (said_of note.now))) }
{
    let line = note_line(alloc, note)?;
    out.extend_from_slice(side)?;
    out.extend_from_slice(line.as_slice())?;
    Ok(())
}

/// Returns the lines of notes, each after the name of their side. `Memory` if an allocation fails.
pub(crate) fn side_notes(alloc: Global, side: &[u8], notes: &[Note]) -> Result<Vec<u8>, Memory>
    ensures { IfOk result (λ text. text.items ≡ the_notes side.now (map said_of notes.now)) }
{
    let mut text = Vec::new(alloc);
    for note in notes {
        push_note(alloc, side, note, &mut text)?;
    }
    Ok(text)
}

// Returns the grammar of these rules and that judged one, unless there is none.
fn grammar_of(rules: AllRules, judged: Option<usize>) -> Option<SoundAbnf>
    requires { IfSome judged (λ id. IsSoundGrammar (record { rules = rules.rules; judged = id })) }
    ensures { IsMadeOf rules.rules judged result }
{
    match judged {
        Some(id) => Some(SoundAbnf::new(rules.rules, id)),
        None => None,
    }
}

// Checks a grammar that was read, by the rule of that name, or by its first rule. `Memory` if an allocation fails.
fn checked_side(alloc: Global, side: &[u8], abnf: Abnf, rule: Option<&str>) -> Result<Side, Memory>
    ensures { IfOk result (λ s. (text : List ℕ) → IsReadText text abnf
        → IsSideOf side.now text (option_copied rule.entry) s.reported.items s.grammar) }
{
    let JudgedAbnf { notes, all, judged } = judge_abnf(alloc, abnf, rule)?;
    let reported = side_notes(alloc, side, notes.as_slice())?;
    Ok(Side {
        reported,
        grammar: grammar_of(all, judged),
    })
}

/// Returns the message on a text that has a fault. `Memory` if an allocation fails.
pub(crate) fn faulty_text(alloc: Global, side: &[u8], fault: &ReadFault) -> Result<Vec<u8>, Memory>
    ensures { IfOk result (λ reported. reported.items ≡ side.now ++ fault_text fault.now) }
{
    let line = fault_message(alloc, fault)?;
    let mut reported = Vec::new(alloc);
    reported.extend_from_slice(side)?;
    reported.extend_from_slice(line.as_slice())?;
    Ok(reported)
}

// Returns the side of a text that has a fault. `Memory` if an allocation fails.
fn faulty_side(alloc: Global, side: &[u8], fault: &ReadFault) -> Result<Side, Memory>
    ensures { IfOk result (λ s. (s.reported.items ≡ side.now ++ fault_text fault.now) × (s.grammar ≡ None)) }
{
    let reported = faulty_text(alloc, side, fault)?;
    Ok(Side {
        reported,
        grammar: None,
    })
}

/// Reads and checks the text of a grammar that is compared by the rule of that name, or by its first rule. `side` names
/// the grammar, and stands before each message. `Memory` if an allocation fails.
pub(crate) fn open_side(
    alloc: Global,
    side: &[u8],
    text: &[u8],
    rule: Option<&str>,
) -> Result<Side, Memory>
    ensures { IfOk result (λ s. IsSideOf side.now text.now (option_copied rule.entry) s.reported.items s.grammar) }
{
    match read_abnf(alloc, text) {
        Ok(abnf) => checked_side(alloc, side, abnf, rule),
        Err(fault) => match fault {
            ReadFault::Memory => Err(Memory),
            _ => faulty_side(alloc, side, &fault),
        },
    }
}

//! Notes with what explains them.
ghost use Rattle.std.specs.Prelude.{◌≡◌, ◌++◌, ℕ, List, map, option_copied, OnOk, OnErr};
ghost use Rattle.ruletable.specs.Notes.{note_text, said_of};
ghost use Rattle.toolrun.specs.ReportedNotes.{IsHintedOf, IsReportedOf};

use crate::language::Language;
use crate::notes::line_of;
use crate::settings::Settings;
use ruletable::{Memory, Note};
use std::alloc::Global;

/// The text of notes with the lines that explain them.
#[derive(Drop)]
pub(crate) enum NoteText {
    /// All of them.
    Whole(Vec<u8>),
    /// The first ones, where an allocation failed.
    Part(Vec<u8>),
}

/// The text of notes with the lines that explain them, and then hints.
#[derive(Drop)]
pub(crate) enum HintText<R> {
    /// All of it, and the rules of the grammar.
    Whole(Vec<u8>, R),
    /// The first notes, where an allocation failed.
    Part(Vec<u8>),
}

/// Adds the line of a note, or nothing if an allocation fails.
fn push_note(alloc: Global, note: &Note, reported: &mut Vec<u8>) -> Result<(), Memory>
    ensures ok { OnOk result (reported.new.items ≡ reported.old.items ++ note_text (said_of note.now)) }
    ensures err { OnErr result (reported.new.items ≡ reported.old.items) }
{
    let line = line_of(alloc, note)?;
    reported.extend_from_slice(line.as_slice())?;
    Ok(())
}

/// Adds the lines that explain a note, or nothing if an allocation fails.
fn push_why<L: Language>(
    alloc: Global,
    positions: &L::Positions,
    start: Option<&str>,
    note: &Note,
    reported: &mut Vec<u8>,
) -> Result<(), Memory>
    ensures ok { OnOk result ((text : List ℕ) → L.are_positions text (option_copied start.entry) positions.now
        → (why : List ℕ)
        × L.explains_note text (option_copied start.entry) (said_of note.now) why
        × (reported.new.items ≡ reported.old.items ++ why)) }
    ensures err { OnErr result (reported.new.items ≡ reported.old.items) }
{
    let why = L::explain_note(alloc, positions, start, note)?;
    reported.extend_from_slice(why.as_slice())?;
    Ok(())
}

/// Returns notes, each with the lines that explain it by positions. Where an allocation fails, the first of them, the
/// last perhaps without.
fn reported_by<L: Language>(
    alloc: Global,
    positions: &L::Positions,
    start: Option<&str>,
    notes: &[Note],
) -> NoteText
    ensures { (text : List ℕ) → L.are_positions text (option_copied start.entry) positions.now
        → IsReportedOf (L.explains_note text (option_copied start.entry)) (map said_of notes.now) result }
{
    let mut reported = Vec::new(alloc);
    for note in notes {
        match push_note(alloc, note, &mut reported) {
            Ok(()) => {}
            Err(Memory) => return NoteText::Part(reported),
        }
        match push_why::<L>(alloc, positions, start, note, &mut reported) {
            Ok(()) => {}
            Err(Memory) => return NoteText::Part(reported),
        }
    }
    NoteText::Whole(reported)
}

/// Returns the notes on the grammar of a text, each with the lines that explain it, by where the text defines rules and
/// mentions them. Where an allocation fails, the first of them, the last perhaps without.
pub(crate) fn reported_notes<L: Language>(
    alloc: Global,
    found: L::TextPositions,
    start: Option<&str>,
    grammar: L::Grammar,
    notes: &[Note],
) -> NoteText
    requires { (text : List ℕ) × L.are_text_positions text found × L.is_read text grammar }
    ensures { (text : List ℕ) → L.are_text_positions text found → L.is_read text grammar
        → IsReportedOf (L.explains_note text (option_copied start.entry)) (map said_of notes.now) result }
{
    let Ok(checked) = L::check(alloc, grammar, start) else {
        return NoteText::Part(Vec::new(alloc));
    };
    match L::positions(alloc, found, checked.rules, start) {
        Ok(positions) => reported_by::<L>(alloc, &positions, start, notes),
        Err(Memory) => NoteText::Part(Vec::new(alloc)),
    }
}

/// Adds the hints on a grammar, or nothing if an allocation fails.
fn push_hints<L: Language>(
    alloc: Global,
    positions: &L::Positions,
    settings: &Settings<'_, L::Options>,
    reported: &mut Vec<u8>,
) -> Result<(), Memory>
    ensures ok { OnOk result ((text : List ℕ) → L.are_positions text (option_copied settings.now.start) positions.now
        → (hints : List ℕ) × L.are_hints text settings.now hints × (reported.new.items ≡ reported.old.items ++ hints)) }
    ensures err { OnErr result (reported.new.items ≡ reported.old.items) }
{
    let hints = L::hints(alloc, positions, settings)?;
    reported.extend_from_slice(hints.as_slice())?;
    Ok(())
}

/// Returns the notes on the grammar of a text, each with the lines that explain it, and then its hints, by where the
/// text defines rules and mentions them. It takes the text's rules, and returns them. Where an allocation fails, the
/// first notes, the last perhaps without its lines.
pub(crate) fn reported_hints<L: Language>(
    alloc: Global,
    found: L::TextPositions,
    settings: &Settings<'_, L::Options>,
    rules: L::Rules,
    notes: &[Note],
) -> HintText<L::Rules>
    requires { (text : List ℕ) × L.are_text_positions text found × L.are_rules text rules }
    ensures { (text : List ℕ) → L.are_text_positions text found → L.are_rules text rules
        → IsHintedOf (L.explains_note text (option_copied settings.now.start)) (L.are_hints text settings.now)
        (map said_of notes.now) rules result }
{
    let Ok(positions) = L::positions(alloc, found, rules, settings.start) else {
        return HintText::Part(Vec::new(alloc));
    };
    match reported_by::<L>(alloc, &positions, settings.start, notes) {
        NoteText::Part(reported) => HintText::Part(reported),
        NoteText::Whole(reported) => {
            let mut reported = reported;
            match push_hints::<L>(alloc, &positions, settings, &mut reported) {
                Ok(()) => HintText::Whole(reported, L::into_rules(positions)),
                Err(Memory) => HintText::Part(reported),
            }
        }
    }
}

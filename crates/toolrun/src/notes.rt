//! The notes on a grammar, on the error output.
ghost use Rattle.std.specs.Prelude.{◌≡◌, map, false, IfOk};
ghost use Rattle.ruletable.specs.Notes.{note_text, said_of};
ghost use Rattle.ruletable.specs.Writing.{Flags, Writes};
ghost use Rattle.toolrun.specs.NotesText.{notes_text};

use ruletable::{Memory, Note, Sink, SinkOf, WriteFault, write_note, write_whole};
use std::alloc::Global;

/// How many notes one write hands on: without a block of them each note would cost system calls.
const BLOCK: usize = 64;

/// Writes the lines of the notes in order, each by pieces.
fn write_lines<W: Sink>(notes: &[Note], w: &mut W) -> Result<(), WriteFault>
    requires { W.failed w.old ≡ false }
    ensures bytes { Writes (W.contents w.old) (W.contents w.new) (notes_text (map said_of notes.now)) result }
    ensures flag { Flags (W.failed w.old) (W.failed w.new) result }
{
    for note in notes {
        match write_note(note, w) {
            Ok(()) => {}
            Err(fault) => return Err(fault),
        }
    }
    Ok(())
}

/// Returns the lines of the notes in order. `Memory` if an allocation fails.
pub(crate) fn text_of(alloc: Global, notes: &[Note]) -> Result<Vec<u8>, Memory>
    ensures { IfOk result (λ text. text.items ≡ notes_text (map said_of notes.now)) }
{
    let mut text = SinkOf::new(Vec::new(alloc));
    match write_lines(notes, &mut text) {
        Ok(()) => Ok(text.into_inner()),
        Err(_) => Err(Memory),
    }
}

/// Returns the line of a note. `Memory` if an allocation fails.
pub(crate) fn line_of(alloc: Global, note: &Note) -> Result<Vec<u8>, Memory>
    ensures { IfOk result (λ text. text.items ≡ note_text (said_of note.now)) }
{
    let mut text = SinkOf::new(Vec::new(alloc));
    match write_note(note, &mut text) {
        Ok(()) => Ok(text.into_inner()),
        Err(_) => Err(Memory),
    }
}

/// Writes the lines of a block of notes at once, or by pieces if an allocation fails.
fn write_block<W: Sink>(alloc: Global, notes: &[Note], w: &mut W) -> Result<(), WriteFault>
    requires { W.failed w.old ≡ false }
    ensures bytes { Writes (W.contents w.old) (W.contents w.new) (notes_text (map said_of notes.now)) result }
    ensures flag { Flags (W.failed w.old) (W.failed w.new) result }
{
    match text_of(alloc, notes) {
        Ok(text) => write_whole(w, text.as_slice()),
        Err(Memory) => write_lines(notes, w),
    }
}

/// Writes the lines of the notes in order, a block of them by one write.
pub fn write_notes<W: Sink>(alloc: Global, notes: &[Note], w: &mut W) -> Result<(), WriteFault>
    requires { W.failed w.old ≡ false }
    ensures bytes { Writes (W.contents w.old) (W.contents w.new) (notes_text (map said_of notes.now)) result }
    ensures flag { Flags (W.failed w.old) (W.failed w.new) result }
{
    let mut rest = notes;
    while !rest.is_empty() {
        let (block, after) = rest.split_at(rest.len().min(BLOCK));
        match write_block(alloc, block, w) {
            Ok(()) => rest = after,
            Err(fault) => return Err(fault),
        }
    }
    Ok(())
}

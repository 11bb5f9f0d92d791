//! Notes on a grammar that reads.
ghost use Rattle.std.specs.Prelude.{◌≡◌, ◌++◌, false};
ghost use Rattle.ruletable.specs.Notes.{note_text, said_of, text_after, text_before};
ghost use Rattle.ruletable.specs.Writing.{Writes, Flags};

use crate::sink::{Sink, WriteFault, write_pieces};

/// The kinds of notes on a grammar, of both languages, in the order in which the notes of a grammar stand.
#[derive(Clone, Copy)]
pub enum NoteKind {
    /// A rule is defined more than once; its first definition stands.
    Redefined,
    /// A rule is extended before it is defined (ABNF).
    ExtendedEarly,
    /// A name is used that no rule has.
    Undefined,
    /// A rule holds prose (ABNF).
    Prose,
    /// A rule is not the start rule, and nothing names it.
    Unused,
    /// A rule may call itself before it has taken a byte (peg).
    LeftRecursion,
    /// A rule repeats what may take nothing (peg).
    Loop,
}

/// A note: a diagnostic on a grammar that reads.
#[derive(Drop)]
pub struct Note {
    /// The kind of the note.
    pub kind: NoteKind,
    /// The name of the rule, or the name that no rule has.
    pub name: Vec<u8>,
}

// Returns the text before the name.
fn before(kind: NoteKind) -> &'static [u8]
    ensures { result.now ≡ text_before kind }
{
    match kind {
        NoteKind::Prose => b"prose in rule '",
        NoteKind::LeftRecursion => b"possible infinite left recursion in rule '",
        NoteKind::Loop => b"possible infinite loop in rule '",
        _ => b"rule '",
    }
}

// Returns the text after the name, with its LF.
fn after(kind: NoteKind) -> &'static [u8]
    ensures { result.now ≡ text_after kind }
{
    match kind {
        NoteKind::Redefined => b"' redefined\n",
        NoteKind::ExtendedEarly => b"' extended before it is defined\n",
        NoteKind::Undefined => b"' used but not defined\n",
        NoteKind::Unused => b"' defined but not used\n",
        _ => b"'\n",
    }
}

/// Writes the note's line, with its LF. `WriteFault` if the writer fails; then a prefix of the line is written.
pub fn write_note<W: Sink>(note: &Note, w: &mut W) -> Result<(), WriteFault>
    requires { W.failed w.old ≡ false }
    ensures bytes { Writes (W.contents w.old) (W.contents w.new) (note_text (said_of note.now)) result }
    ensures flag { Flags (W.failed w.old) (W.failed w.new) result }
{
    write_named(before(note.kind), &note.name, after(note.kind), w)
}

// Writes the name with the texts before and after it.
fn write_named<W: Sink>(
    before: &[u8],
    name: &[u8],
    after: &[u8],
    w: &mut W,
) -> Result<(), WriteFault>
    requires { W.failed w.old ≡ false }
    ensures bytes { Writes (W.contents w.old) (W.contents w.new) (before.now ++ (name.now ++ after.now)) result }
    ensures flag { Flags (W.failed w.old) (W.failed w.new) result }
{
    let pieces: [&[u8]; 3] = [before, name, after];
    write_pieces(w, &pieces)
}

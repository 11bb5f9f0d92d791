//! A position after some lines, and the explanations of those that were rejected.
ghost use Rattle.std.specs.Prelude.{◌≡◌, ◌<◌, ◌+◌, ◌++◌, ◌^◌, [], true, false, IfOk, OnOk, OnErr};
ghost use Rattle.linejudge.specs.InputLines.{
  at_front,
  next_position as the_position,
  refused_by as count_of,
  status_after,
};
ghost use Rattle.linejudge.specs.LineRefusals.{unexplained_line};
ghost use Rattle.linejudge.specs.LineSteps.{HasRoom};

use crate::answers::Answer;
use itoa::Buffer;
use ruletable::Memory;
use std::alloc::Global;
use toolrun::{NOT_EXPLAINED, Status};

/// How many rejected lines are explained.
pub const MAX_REPORTED: usize = 16;

/// How many bytes the text of a batch has, or little more.
pub(crate) const BATCH: usize = 8192;

/// A position between two lines of an input.
#[derive(Clone, Copy)]
pub struct LinePosition {
    /// How many bytes stand before it.
    pub position: usize,
    /// How many lines stand before it.
    pub count: usize,
    /// How many of them were rejected.
    pub refused: usize,
}

/// How many bytes the line has at most that says that an explanation is missing, and the lines that explain a stop.
const ROOM: usize = 128;

/// The explanations of a run after some lines. Where explanations are asked for, `text` has room for the line that says
/// that one is missing, and `why` for the lines that explain a stop.
#[derive(Drop)]
pub struct Explanations {
    /// The explanations of the rejected lines, of at most the first `MAX_REPORTED`.
    pub text: Vec<u8>,
    /// The lines that explain the stop; empty before it.
    pub why: Vec<u8>,
    /// Whether an allocation failed in an explanation. After that nothing is explained.
    pub lacks: bool,
}

impl Explanations {
    /// Adds the lines that explain a rejected line, and keeps the room. `Memory` if an allocation fails; then nothing
    /// is added.
    pub(crate) fn add(&mut self, lines: &[u8]) -> Result<(), Memory>
        requires room { HasRoom self.old }
        requires whole { self.old.lacks ≡ false }
        ensures room { HasRoom self.new }
        ensures whole { self.new.lacks ≡ false }
        ensures ok { OnOk result (self.new.text.items ≡ self.old.text.items ++ lines.now) }
        ensures err { OnErr result (self.new.text.items ≡ self.old.text.items) }
    {
        self.text.reserve(lines.len() + ROOM)?;
        self.text.extend_from_slice(lines)?;
        Ok(())
    }

    /// Adds the line that says that an allocation failed in the explanation of the line of that number. It needs no
    /// memory.
    pub(crate) fn end_at(&mut self, number: usize)
        requires room { HasRoom self.old }
        requires whole { self.old.lacks ≡ false }
        ensures room { HasRoom self.new }
        ensures lacks { self.new.lacks ≡ true }
        ensures text { self.new.text.items ≡ self.old.text.items ++ unexplained_line number }
    {
        let mut digits = Buffer::new();
        self.text.extend_from_slice(b"line ").unwrap();
        self.text
            .extend_from_slice(digits.format(number).as_bytes())
            .unwrap();
        self.text.extend_from_slice(b": no\n").unwrap();
        self.text.extend_from_slice(NOT_EXPLAINED).unwrap();
        self.lacks = true;
    }
}

/// The state of a run after some lines: its position, the explanations so far, and two buffers that serve line after
/// line.
#[derive(Drop)]
pub struct Reached {
    /// The position after the last line.
    pub at: LinePosition,
    /// The explanations so far.
    pub reported: Explanations,
    /// The copy of a line that lies in two pieces.
    pub line: Vec<u8>,
    /// The output for a line, or for a batch of lines.
    pub text: Vec<u8>,
}

impl Reached {
    /// Returns the position before the first line. If explanations are asked for, there is room for them in place of
    /// the buffer for a batch, since no batch is judged then. `Memory` if an allocation fails.
    pub(crate) fn new(alloc: Global, asked: bool) -> Result<Reached, Memory>
        ensures { IfOk result (λ made. (made.at ≡ at_front) × (made.reported.text.items ≡ []) ×
            (made.reported.lacks ≡ false) × (asked ≡ true → HasRoom made.reported)) }
    {
        let (batch, room) = if asked { (0, ROOM) } else { (BATCH, 0) };
        let at = LinePosition {
            position: 0,
            count: 0,
            refused: 0,
        };
        let reported = Explanations {
            text: Vec::with_capacity(alloc, room)?,
            why: Vec::with_capacity(alloc, room)?,
            lacks: false,
        };
        Ok(Reached {
            at,
            reported,
            line: Vec::new(alloc),
            text: Vec::with_capacity(alloc, batch)?,
        })
    }
}

/// Returns how many lines an answer rejects.
fn refused_by(said: Answer) -> usize
    ensures { result ≡ count_of said }
{
    match said {
        Answer::Yes => 0,
        Answer::No => 1,
        Answer::NoAfter(_) => 1,
    }
}

impl LinePosition {
    /// Returns the position after a line that takes so many bytes.
    pub(crate) fn next_position(self, len: usize, said: Answer) -> LinePosition
        requires position { self.position + len < 2 ^ 64 }
        requires count { self.count + 1 < 2 ^ 64 }
        requires refused { self.refused + 1 < 2 ^ 64 }
        ensures { result ≡ the_position self len said }
    {
        LinePosition {
            position: self.position + len,
            count: self.count + 1,
            refused: self.refused + refused_by(said),
        }
    }

    /// Returns the status of a run that ends there.
    pub(crate) fn status(self) -> Status
        ensures { result ≡ status_after self.refused }
    {
        if self.refused == 0 {
            Status::Done
        } else {
            Status::NoMatch
        }
    }
}

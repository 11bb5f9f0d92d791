//! Writes what an action prints, as its template is cut.
ghost use Rattle.std.specs.Prelude.{◌≡◌, ◌≤◌, ◌++◌, length, slice_range, false};
ghost use Rattle.pegnodes.specs.Nodes.{shapes_of};
ghost use Rattle.gramcheck.specs.Outcome.{Event};
ghost use Rattle.pegnodes.specs.Slots.{put_text, put_in, AreSlots, IsCut};
ghost use Rattle.pegnodes.specs.Templates.{filled_piece, printed, Piece};
ghost use Rattle.ruletable.specs.Writing.{Writes, Flags};
ghost use Rattle.pegmatch.specs.KeptEvents.{StandsFor};
ghost use Rattle.pegmatch.specs.EventPrinting.{capture_by, event_text};
ghost use Rattle.pegmatch.specs.FirstPieces.{piece_of};
ghost use Rattle.pegmatch.specs.TemplateEscapes.{filled_escaped, printed_by, printed_escaped};

use crate::escapes::{FrontPiece, first_piece, trimmed_text};
use crate::event::Kept;
use crate::style::PrintStyle;
use gramcheck::SoundPeg;
use itoa::Buffer;
use pegnodes::{Node, Put, Slot, Template};
use ruletable::{Sink, WriteFault, write_whole};

// Writes bytes, if there are any.
fn write_some<W: Sink>(out: &mut W, bytes: &[u8]) -> Result<(), WriteFault>
    requires { W.failed out.old ≡ false }
    ensures bytes { Writes (W.contents out.old) (W.contents out.new) bytes.now result }
    ensures flag { Flags (W.failed out.old) (W.failed out.new) result }
{
    if bytes.is_empty() {
        return Ok(());
    }
    write_whole(out, bytes)
}

// Writes what is put in a slot.
fn write_put<W: Sink>(out: &mut W, put: Put, capture: &[u8]) -> Result<(), WriteFault>
    requires { W.failed out.old ≡ false }
    ensures bytes { Writes (W.contents out.old) (W.contents out.new) (put_text capture.now put) result }
    ensures flag { Flags (W.failed out.old) (W.failed out.new) result }
{
    match put {
        Put::Capture => write_some(out, capture),
        Put::Length => {
            let mut digits = Buffer::new();
            write_whole(out, digits.format(capture.len()).as_bytes())
        }
    }
}

// Writes the text before a slot, and what is put in the slot.
fn write_slot<W: Sink>(
    out: &mut W,
    before: &[u8],
    put: Put,
    capture: &[u8],
) -> Result<(), WriteFault>
    requires { W.failed out.old ≡ false }
    ensures bytes { Writes (W.contents out.old) (W.contents out.new) (before.now ++ put_text capture.now put) result }
    ensures flag { Flags (W.failed out.old) (W.failed out.new) result }
{
    match write_some(out, before) {
        Ok(()) => write_put(out, put, capture),
        Err(fault) => Err(fault),
    }
}

// Writes a text from one position to another, with the capture put in the slots between them.
fn write_slots<W: Sink>(
    out: &mut W,
    text: &[u8],
    from: usize,
    to: usize,
    slots: &[Slot],
    capture: &[u8],
) -> Result<(), WriteFault>
    requires order { AreSlots from slots.now to }
    requires within { to ≤ length text.now }
    requires out_is_fresh { W.failed out.old ≡ false }
    ensures bytes { Writes (W.contents out.old) (W.contents out.new)
        (put_in text.now capture.now from slots.now to) result }
    ensures flag { Flags (W.failed out.old) (W.failed out.new) result }
{
    let mut at = from;
    for slot in slots {
        match write_slot(out, &text[at..slot.from], slot.put, capture) {
            Ok(()) => at = slot.to,
            Err(fault) => return Err(fault),
        }
    }
    write_some(out, &text[at..to])
}

// Writes what an action without escapes prints: as it is where `raw`, else without blanks at its ends and with an LF.
fn write_plain_action<W: Sink>(
    out: &mut W,
    raw: bool,
    text: &[u8],
    cut: &Template,
    capture: &[u8],
) -> Result<(), WriteFault>
    requires cut { IsCut text.now cut.now }
    requires out_is_fresh { W.failed out.old ≡ false }
    ensures bytes { Writes (W.contents out.old) (W.contents out.new) (printed raw text.now capture.now) result }
    ensures flag { Flags (W.failed out.old) (W.failed out.new) result }
{
    if raw {
        return write_slots(out, text, 0, text.len(), &cut.slots, capture);
    }
    match write_slots(out, text, cut.from, cut.to, &cut.slots, capture) {
        Ok(()) => write_whole(out, b"\n"),
        Err(fault) => Err(fault),
    }
}

// Writes a run of word bytes, or what takes its position.
fn write_word<W: Sink>(out: &mut W, run: &[u8], capture: &[u8]) -> Result<(), WriteFault>
    requires { W.failed out.old ≡ false }
    ensures bytes { Writes (W.contents out.old) (W.contents out.new)
        (filled_piece capture.now (Piece.Word run.now)) result }
    ensures flag { Flags (W.failed out.old) (W.failed out.new) result }
{
    if run == b"yytext".as_slice() {
        return write_put(out, Put::Capture, capture);
    }
    if run == b"yyleng".as_slice() {
        return write_put(out, Put::Length, capture);
    }
    write_whole(out, run)
}

// Writes a piece of a template with escapes.
fn write_piece<W: Sink>(
    out: &mut W,
    piece: FrontPiece<'_>,
    capture: &[u8],
) -> Result<(), WriteFault>
    requires { W.failed out.old ≡ false }
    ensures bytes { Writes (W.contents out.old) (W.contents out.new)
        (filled_piece capture.now (piece_of piece.entry)) result }
    ensures flag { Flags (W.failed out.old) (W.failed out.new) result }
{
    match piece {
        FrontPiece::Word(run) => write_word(out, run, capture),
        FrontPiece::Other(byte) => write_whole(out, &[byte]),
    }
}

// Writes a text with its escapes replaced and the capture put in.
fn write_escaped<W: Sink>(out: &mut W, text: &[u8], capture: &[u8]) -> Result<(), WriteFault>
    requires { W.failed out.old ≡ false }
    ensures bytes { Writes (W.contents out.old) (W.contents out.new) (filled_escaped text.now capture.now) result }
    ensures flag { Flags (W.failed out.old) (W.failed out.new) result }
{
    let mut rest = text;
    while let Some((piece, after)) = first_piece(rest) {
        match write_piece(out, piece, capture) {
            Ok(()) => rest = after,
            Err(fault) => return Err(fault),
        }
    }
    Ok(())
}

// Writes what an action with escapes prints.
fn write_escaped_action<W: Sink>(
    out: &mut W,
    raw: bool,
    text: &[u8],
    capture: &[u8],
) -> Result<(), WriteFault>
    requires { W.failed out.old ≡ false }
    ensures bytes { Writes (W.contents out.old) (W.contents out.new)
        (printed_escaped raw text.now capture.now) result }
    ensures flag { Flags (W.failed out.old) (W.failed out.new) result }
{
    if !raw {
        return match write_escaped(out, trimmed_text(text), capture) {
            Ok(()) => write_whole(out, b"\n"),
            Err(fault) => Err(fault),
        };
    }
    write_escaped(out, text, capture)
}

// Writes what an action prints.
fn write_action<W: Sink>(
    out: &mut W,
    style: PrintStyle,
    text: &[u8],
    cut: &Template,
    capture: &[u8],
) -> Result<(), WriteFault>
    requires cut { IsCut text.now cut.now }
    requires out_is_fresh { W.failed out.old ≡ false }
    ensures bytes { Writes (W.contents out.old) (W.contents out.new) (printed_by style text.now capture.now) result }
    ensures flag { Flags (W.failed out.old) (W.failed out.new) result }
{
    if style.escapes {
        return write_escaped_action(out, style.raw, text, capture);
    }
    write_plain_action(out, style.raw, text, cut, capture)
}

/// The state of captures in a replay: the text that `yytext` is replaced by, and an open capture. Positions count bytes
/// from the front of the window.
#[derive(Clone, Copy)]
pub struct Capture {
    /// Where a capture was opened last, if one was.
    pub start: Option<usize>,
    /// Where the capture that closed last begins; 0 if none closed.
    pub from: usize,
    /// Where it ends; 0 if none closed.
    pub to: usize,
}

/// The empty capture, of which none was opened.
pub const NO_CAPTURE: Capture = Capture {
    start: None,
    from: 0,
    to: 0,
};

/// Returns the capture after an event.
pub fn capture_after(capture: Capture, event: Kept) -> Capture
    ensures { result ≡ capture_by capture event }
{
    match event {
        Kept::Opened(position) => Capture {
            start: Some(position),
            from: capture.from,
            to: capture.to,
        },
        Kept::Closed(position) => match capture.start {
            Some(from) => Capture {
                start: Some(from),
                from,
                to: position,
            },
            None => capture,
        },
        Kept::Acted(_) => capture,
    }
}

// Writes what an event prints, which is mostly an action.
#[inline(never)]
fn write_acted<W: Sink>(
    peg: &SoundPeg,
    window: &[u8],
    style: PrintStyle,
    event: Kept,
    capture: Capture,
    out: &mut W,
) -> Result<(), WriteFault>
    requires order { capture.from ≤ capture.to }
    requires within { capture.to ≤ length window.now }
    requires stands { (e : Event) × StandsFor (shapes_of peg.now.nodes) event e }
    requires out_is_fresh { W.failed out.old ≡ false }
    ensures bytes { (e : Event) → StandsFor (shapes_of peg.now.nodes) event e →
        Writes (W.contents out.old) (W.contents out.new)
        (event_text style e (slice_range window.now capture.from capture.to)) result }
    ensures flag { Flags (W.failed out.old) (W.failed out.new) result }
{
    match event {
        Kept::Acted(n) => match peg.node(n) {
            Node::Act(text) => {
                let captured = &window[capture.from..capture.to];
                write_action(out, style, text, peg.template(n), captured)
            }
            _ => unreachable!(),
        },
        _ => Ok(()),
    }
}

/// Writes what an event prints.
///
/// # Errors
/// If the writer failed; a prefix was written.
#[inline(always)]
pub fn write_event<W: Sink>(
    peg: &SoundPeg,
    window: &[u8],
    style: PrintStyle,
    event: Kept,
    capture: Capture,
    out: &mut W,
) -> Result<(), WriteFault>
    requires order { capture.from ≤ capture.to }
    requires within { capture.to ≤ length window.now }
    requires stands { (e : Event) × StandsFor (shapes_of peg.now.nodes) event e }
    requires out_is_fresh { W.failed out.old ≡ false }
    ensures bytes { (e : Event) → StandsFor (shapes_of peg.now.nodes) event e →
        Writes (W.contents out.old) (W.contents out.new)
        (event_text style e (slice_range window.now capture.from capture.to)) result }
    ensures flag { Flags (W.failed out.old) (W.failed out.new) result }
{
    match event {
        Kept::Acted(_) => write_acted(peg, window, style, event, capture, out),
        _ => Ok(()),
    }
}

//! Writes literals, classes and actions.
ghost use Rattle.std.specs.Prelude.{◌≡◌, ℕ, ◌||◌, ◌==◌, ◌+◌, ◌++◌, ◌∷◌, [], Bool, List, false};
ghost use Rattle.std.specs.List.{flat_map};
ghost use Rattle.ruletable.specs.Runs.{test_of};
ghost use Rattle.ruletable.specs.Writing.{Writes, Flags};
ghost use Rattle.pegprint.specs.Canon as canon;
ghost use Rattle.pegread.specs.Chars.{code};
ghost use Rattle.pegread.specs.Escapes.{letter_for as the_letter, is_unprintable as unprintable, written, escaped};
ghost use Rattle.pegread.specs.Escapes.{shown, run_text, runs_text, class_text};
ghost use Rattle.pegread.specs.Pattern as patterns;

use ruletable::{ByteSet, Sink, WriteFault, write_pieces, write_whole};

// Returns the letter that stands for a control byte after a backslash.
fn letter_for(b: u8) -> Option<u8>
    ensures { result ≡ the_letter b }
{
    match b {
        7 => Some(b'a'),
        8 => Some(b'b'),
        27 => Some(b'e'),
        12 => Some(b'f'),
        10 => Some(b'n'),
        13 => Some(b'r'),
        9 => Some(b't'),
        11 => Some(b'v'),
        _ => None,
    }
}

// Whether the byte is outside the printable ASCII.
fn is_unprintable(b: u8) -> bool
    ensures { result ≡ unprintable b }
{
    b < 32 || b > 126
}

// Writes a control byte by its letter; else by octal digits or after a backslash, where so it is to be; else as itself.
#[tactic(auto, unfolding(pegread::specs::Escapes::written))]
fn print_byte<W: Sink>(b: u8, as_octal: bool, marked: bool, w: &mut W) -> Result<(), WriteFault>
    requires { W.failed w.old ≡ false }
    ensures bytes { Writes (W.contents w.old) (W.contents w.new) (written b as_octal marked) result }
    ensures flag { Flags (W.failed w.old) (W.failed w.new) result }
{
    if let Some(letter) = letter_for(b) {
        return write_whole(w, &[b'\\', letter]);
    }
    if as_octal {
        return write_whole(
            w,
            &[b'\\', b'0' + b / 8 / 8, b'0' + b / 8 % 8, b'0' + b % 8],
        );
    }
    if marked {
        return write_whole(w, &[b'\\', b]);
    }
    write_whole(w, &[b])
}

// A byte of a literal.
fn print_escaped<W: Sink>(b: u8, w: &mut W) -> Result<(), WriteFault>
    requires { W.failed w.old ≡ false }
    ensures bytes { Writes (W.contents w.old) (W.contents w.new) (escaped b) result }
    ensures flag { Flags (W.failed w.old) (W.failed w.new) result }
{
    print_byte(b, is_unprintable(b), b == b'"' || b == b'\\', w)
}

// A member of a class.
fn print_shown<W: Sink>(b: u8, w: &mut W) -> Result<(), WriteFault>
    requires { W.failed w.old ≡ false }
    ensures bytes { Writes (W.contents w.old) (W.contents w.new) (shown b) result }
    ensures flag { Flags (W.failed w.old) (W.failed w.new) result }
{
    let as_octal = is_unprintable(b) || b == b'-' || b == b'^';
    let marked = b == b'[' || b == b'\\' || b == b']';
    print_byte(b, as_octal, marked, w)
}

// The bytes as they stand in a literal.
fn print_bytes<W: Sink>(bytes: &[u8], w: &mut W) -> Result<(), WriteFault>
    requires { W.failed w.old ≡ false }
    ensures bytes { Writes (W.contents w.old) (W.contents w.new) (flat_map escaped bytes.now) result }
    ensures flag { Flags (W.failed w.old) (W.failed w.new) result }
{
    for b in bytes {
        match print_escaped(*b, w) {
            Ok(()) => {}
            Err(fault) => return Err(fault),
        }
    }
    Ok(())
}

/// Writes a literal in its canonical text. Returns `WriteFault` where the writer fails; then a prefix of it is written.
pub fn print_literal<W: Sink>(bytes: &[u8], w: &mut W) -> Result<(), WriteFault>
    requires { W.failed w.old ≡ false }
    ensures bytes { Writes (W.contents w.old) (W.contents w.new) (canon.text_of (patterns.Pattern.Bytes bytes.now))
        result }
    ensures flag { Flags (W.failed w.old) (W.failed w.new) result }
{
    match write_whole(w, b"\"") {
        Ok(()) => {}
        Err(fault) => return Err(fault),
    }
    match print_bytes(bytes, w) {
        Ok(()) => write_whole(w, b"\""),
        Err(fault) => Err(fault),
    }
}

// Two members, with a mark between them.
fn print_both<W: Sink>(first: u8, mark: &[u8], last: u8, w: &mut W) -> Result<(), WriteFault>
    requires { W.failed w.old ≡ false }
    ensures bytes { Writes (W.contents w.old) (W.contents w.new) (shown first ++ (mark.now ++ shown last)) result }
    ensures flag { Flags (W.failed w.old) (W.failed w.new) result }
{
    match print_shown(first, w) {
        Ok(()) => {}
        Err(fault) => return Err(fault),
    }
    match write_whole(w, mark) {
        Ok(()) => print_shown(last, w),
        Err(fault) => Err(fault),
    }
}

// One byte as itself, two as both, more as the first, `-` and the last.
fn print_run<W: Sink>(first: u8, last: u8, w: &mut W) -> Result<(), WriteFault>
    requires { W.failed w.old ≡ false }
    ensures bytes { Writes (W.contents w.old) (W.contents w.new) (run_text (first, last)) result }
    ensures flag { Flags (W.failed w.old) (W.failed w.new) result }
{
    if first == last {
        return print_shown(first, w);
    }
    if u16::from(first) + 1 == u16::from(last) {
        return print_both(first, &[], last, w);
    }
    print_both(first, b"-", last, w)
}

// The runs of a set's members.
fn print_runs<W: Sink>(set: &ByteSet, w: &mut W) -> Result<(), WriteFault>
    requires { W.failed w.old ≡ false }
    ensures bytes { Writes (W.contents w.old) (W.contents w.new) (runs_text (test_of set.now)) result }
    ensures flag { Flags (W.failed w.old) (W.failed w.new) result }
{
    for (first, last) in set.runs() {
        match print_run(first, last, w) {
            Ok(()) => {}
            Err(fault) => return Err(fault),
        }
    }
    Ok(())
}

// Writes a class of these runs, after its opening mark.
fn print_class<W: Sink>(mark: &[u8], set: &ByteSet, w: &mut W) -> Result<(), WriteFault>
    requires { W.failed w.old ≡ false }
    ensures bytes { Writes (W.contents w.old) (W.contents w.new)
        (mark.now ++ (runs_text (test_of set.now) ++ code "]" ∷ [])) result }
    ensures flag { Flags (W.failed w.old) (W.failed w.new) result }
{
    match write_whole(w, mark) {
        Ok(()) => {}
        Err(fault) => return Err(fault),
    }
    match print_runs(set, w) {
        Ok(()) => write_whole(w, b"]"),
        Err(fault) => Err(fault),
    }
}

/// Writes a class in its canonical text: the ranges of its members, or of all other bytes after `^` if the byte 255 is
/// a member. Returns `WriteFault` where the writer fails; then a prefix of it is written.
pub fn print_set<W: Sink>(set: &ByteSet, w: &mut W) -> Result<(), WriteFault>
    requires { W.failed w.old ≡ false }
    ensures bytes { Writes (W.contents w.old) (W.contents w.new) (class_text (test_of set.now)) result }
    ensures flag { Flags (W.failed w.old) (W.failed w.new) result }
{
    if set.has(u8::MAX) {
        return print_class(b"[^", &set.complement(), w);
    }
    print_class(b"[", set, w)
}

pub(crate) fn print_action<W: Sink>(template: &[u8], w: &mut W) -> Result<(), WriteFault>
    requires { W.failed w.old ≡ false }
    ensures bytes { Writes (W.contents w.old) (W.contents w.new) (canon.text_of (patterns.Pattern.Act template.now))
        result }
    ensures flag { Flags (W.failed w.old) (W.failed w.new) result }
{
    write_pieces(w, &[b"{", template, b"}"])
}

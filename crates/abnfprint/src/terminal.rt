//! Writes texts and numbers.
ghost use Rattle.std.specs.Prelude.{◌≡◌, ◌<◌, ◌++◌, ◌∷◌, ◌==◌, [], cond, true, Some, None, false};
ghost use Rattle.std.specs.Fmt.{digit_glyph};
ghost use Rattle.ruletable.specs.Writing.{Writes, Flags};
ghost use Rattle.abnfread.specs.Element as element;
ghost use Rattle.abnfprint.specs.CanonicalAbnf as canon;

use ruletable::{Sink, WriteFault, write_number, write_pieces, write_whole};

// A text in quotes, with `%s` before it if its case counts.
pub(crate) fn print_text<W: Sink>(folds: bool, text: &[u8], w: &mut W) -> Result<(), WriteFault>
    requires { W.failed w.old ≡ false }
    ensures bytes { Writes (W.contents w.old) (W.contents w.new) (canon.text_of (element.Text folds text.now)) result }
    ensures flag { Flags (W.failed w.old) (W.failed w.new) result }
{
    if folds {
        write_pieces(w, &[b"\"", text, b"\""])
    } else {
        write_pieces(w, &[b"%s\"", text, b"\""])
    }
}

// A text in angle brackets.
pub(crate) fn print_prose<W: Sink>(text: &[u8], w: &mut W) -> Result<(), WriteFault>
    requires { W.failed w.old ≡ false }
    ensures bytes { Writes (W.contents w.old) (W.contents w.new) (canon.text_of (element.Prose text.now)) result }
    ensures flag { Flags (W.failed w.old) (W.failed w.new) result }
{
    write_pieces(w, &[b"<", text, b">"])
}

// The digit of a number below 16.
fn glyph(digit: u32) -> u8
    requires { digit < 16 }
    ensures { result ≡ digit_glyph true digit }
{
    if digit < 10 {
        b'0' + digit as u8
    } else {
        b'A' + (digit as u8 - 10)
    }
}

// Hexadecimal digits without leading zeros.
#[cycle(digits)]
fn print_digits<W: Sink>(value: u32, w: &mut W) -> Result<(), WriteFault>
    requires some { 0 < value }
    requires writer_is_fresh { W.failed w.old ≡ false }
    ensures bytes { Writes (W.contents w.old) (W.contents w.new) (canon.upper_digits value) result }
    ensures flag { Flags (W.failed w.old) (W.failed w.new) result }
{
    if value < 16 {
        return write_whole(w, &[glyph(value)]);
    }
    match print_digits(value / 16, w) {
        Ok(()) => write_whole(w, &[glyph(value % 16)]),
        Err(fault) => Err(fault),
    }
}

// A value in hexadecimal digits, at least two.
fn print_hexadecimal<W: Sink>(value: u32, w: &mut W) -> Result<(), WriteFault>
    requires { W.failed w.old ≡ false }
    ensures bytes { Writes (W.contents w.old) (W.contents w.new) (canon.hexadecimal value) result }
    ensures flag { Flags (W.failed w.old) (W.failed w.new) result }
{
    if value < 16 {
        return write_whole(w, &[b'0', glyph(value)]);
    }
    print_digits(value, w)
}

// The sign of a base, or of a further value, and a value.
fn print_marked<W: Sink>(mark: &[u8], value: u32, w: &mut W) -> Result<(), WriteFault>
    requires { W.failed w.old ≡ false }
    ensures bytes { Writes (W.contents w.old) (W.contents w.new) (mark.now ++ canon.hexadecimal value) result }
    ensures flag { Flags (W.failed w.old) (W.failed w.new) result }
{
    match write_whole(w, mark) {
        Ok(()) => print_hexadecimal(value, w),
        Err(fault) => Err(fault),
    }
}

// The dot before all values but the first.
fn dot_at(i: usize) -> &'static [u8]
    ensures { result.now ≡ cond (i == 0) [] (46 ∷ []) }
{
    if i == 0 { b"" } else { b"." }
}

// Values, with dots between.
pub(crate) fn print_values<W: Sink>(values: &[u32], w: &mut W) -> Result<(), WriteFault>
    requires { W.failed w.old ≡ false }
    ensures bytes { Writes (W.contents w.old) (W.contents w.new) (canon.text_of (element.Values values.now)) result }
    ensures flag { Flags (W.failed w.old) (W.failed w.new) result }
{
    match write_whole(w, b"%x") {
        Ok(()) => {}
        Err(fault) => return Err(fault),
    }
    for (i, value) in values.iter().enumerate() {
        match print_marked(dot_at(i), *value, w) {
            Ok(()) => {}
            Err(fault) => return Err(fault),
        }
    }
    Ok(())
}

// The ends of a range.
pub(crate) fn print_range<W: Sink>(low: u32, high: u32, w: &mut W) -> Result<(), WriteFault>
    requires { W.failed w.old ≡ false }
    ensures bytes { Writes (W.contents w.old) (W.contents w.new) (canon.text_of (element.Range low high)) result }
    ensures flag { Flags (W.failed w.old) (W.failed w.new) result }
{
    match print_marked(b"%x", low, w) {
        Ok(()) => print_marked(b"-", high, w),
        Err(fault) => Err(fault),
    }
}

// A number before the star, but for 0.
fn print_least<W: Sink>(least: u32, w: &mut W) -> Result<(), WriteFault>
    requires { W.failed w.old ≡ false }
    ensures bytes { Writes (W.contents w.old) (W.contents w.new) (canon.least_text least) result }
    ensures flag { Flags (W.failed w.old) (W.failed w.new) result }
{
    if least == 0 {
        return write_whole(w, &[]);
    }
    write_number(least as usize, w)
}

// A number before the star, but for 0, and the star.
fn print_star<W: Sink>(least: u32, w: &mut W) -> Result<(), WriteFault>
    requires { W.failed w.old ≡ false }
    ensures bytes { Writes (W.contents w.old) (W.contents w.new) (canon.repeat_text least None) result }
    ensures flag { Flags (W.failed w.old) (W.failed w.new) result }
{
    match print_least(least, w) {
        Ok(()) => write_whole(w, b"*"),
        Err(fault) => Err(fault),
    }
}

// One number if both are the same, else each on its side of the star.
fn print_bounds<W: Sink>(least: u32, most: u32, w: &mut W) -> Result<(), WriteFault>
    requires { W.failed w.old ≡ false }
    ensures bytes { Writes (W.contents w.old) (W.contents w.new) (canon.repeat_text least (Some most)) result }
    ensures flag { Flags (W.failed w.old) (W.failed w.new) result }
{
    if least == most {
        return write_number(least as usize, w);
    }
    match print_star(least, w) {
        Ok(()) => write_number(most as usize, w),
        Err(fault) => Err(fault),
    }
}

// How often an element is repeated.
pub(crate) fn print_repeat<W: Sink>(
    least: u32,
    most: Option<u32>,
    w: &mut W,
) -> Result<(), WriteFault>
    requires { W.failed w.old ≡ false }
    ensures bytes { Writes (W.contents w.old) (W.contents w.new) (canon.repeat_text least most) result }
    ensures flag { Flags (W.failed w.old) (W.failed w.new) result }
{
    match most {
        None => print_star(least, w),
        Some(most) => print_bounds(least, most, w),
    }
}

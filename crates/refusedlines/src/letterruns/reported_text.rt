//! The text of terms for symbols.
ghost use Rattle.std.specs.Prelude.{◌≡◌, ◌-◌, ◌<◌, ◌==◌, ◌++◌, [], true, if◌then◌else◌, codes, length, map, IfOk, OnOk};
ghost use Rattle.std.specs.Char.{encode_utf8};
ghost use Rattle.std.specs.Fmt.{digit_glyph};
ghost use Rattle.abnfprint.specs.CanonicalAbnf.{hexadecimal, upper_digits};
ghost use Rattle.refusedlines.specs.RefusedText.{more_text, pieces_text, slashed, symbols_text as the_text};
ghost use Rattle.refusedlines.specs.ReportedLetters.{reported_text};

use crate::letterruns::core_rule::core_name;
use crate::letterruns::pieces::symbol_pieces;
use crate::letterruns::reported::ReportedLetters;
use crate::letterruns::run::LetterRun;
use diagnostics::push_number;
use ruletable::{Alphabet, Memory};
use std::alloc::Global;

// How many pieces are reported in full.
const SHOWN_PIECES: usize = 16;

// Returns the digit of a number below 16.
fn hex_digit(digit: u32) -> u8
    requires { digit < 16 }
    ensures { result ≡ digit_glyph true digit }
{
    if digit < 10 {
        b'0' + digit as u8
    } else {
        b'A' + (digit as u8 - 10)
    }
}

// Adds hexadecimal digits without leading zeros.
#[cycle(digits)]
fn push_digits(value: u32, out: &mut Vec<u8>) -> Result<(), Memory>
    requires { 0 < value }
    ensures { OnOk result (out.new.items ≡ out.old.items ++ upper_digits value) }
{
    if value >= 16 {
        push_digits(value / 16, out)?;
    }
    out.push(hex_digit(value % 16))?;
    Ok(())
}

// Adds a number in hexadecimal digits, at least two.
fn push_hexadecimal(value: u32, out: &mut Vec<u8>) -> Result<(), Memory>
    ensures { OnOk result (out.new.items ≡ out.old.items ++ hexadecimal value) }
{
    if value < 16 {
        out.extend_from_slice(&[b'0', hex_digit(value)])?;
        return Ok(());
    }
    push_digits(value, out)
}

// Adds a character in quotes, and its number.
fn push_printed(shown: char, out: &mut Vec<u8>) -> Result<(), Memory>
    ensures { OnOk result (out.new.items ≡ out.old.items ++ (codes "\"" ++ (encode_utf8 shown ++ (codes "\" (%x"
        ++ (hexadecimal shown ++ codes ")"))))) }
{
    out.extend_from_slice(b"\"")?;
    let mut bytes = [0; 4];
    out.extend_from_slice(shown.encode_utf8(&mut bytes).as_bytes())?;
    out.extend_from_slice(b"\" (%x")?;
    push_hexadecimal(shown as u32, out)?;
    out.extend_from_slice(b")")?;
    Ok(())
}

// Adds the text of symbols.
fn push_reported(reported: ReportedLetters, out: &mut Vec<u8>) -> Result<(), Memory>
    ensures { OnOk result (out.new.items ≡ out.old.items ++ reported_text reported) }
{
    match reported {
        ReportedLetters::Quoted(letter) => out.extend_from_slice(&[b'"', letter, b'"'])?,
        ReportedLetters::Exactly(letter) => out.extend_from_slice(&[
            b'%', b's', b'"', letter, b'"',
        ])?,
        ReportedLetters::Numbered(letter) => {
            out.extend_from_slice(b"%x")?;
            push_hexadecimal(letter, out)?;
        }
        ReportedLetters::Through(run) => {
            out.extend_from_slice(b"%x")?;
            push_hexadecimal(run.first, out)?;
            out.extend_from_slice(b"-")?;
            push_hexadecimal(run.last, out)?;
        }
        ReportedLetters::Named(rule) => out.extend_from_slice(core_name(rule))?,
        ReportedLetters::Printed(shown) => push_printed(shown, out)?,
    }
    Ok(())
}

// Adds the mark before all texts but the first.
fn push_slash(i: usize, out: &mut Vec<u8>) -> Result<(), Memory>
    ensures { OnOk result (out.new.items ≡ out.old.items ++ (if i == 0 then [] else codes " / ")) }
{
    if i > 0 {
        out.extend_from_slice(b" / ")?;
    }
    Ok(())
}

// Adds the texts of symbols, with slashes between.
fn push_all(reported: &[ReportedLetters], out: &mut Vec<u8>) -> Result<(), Memory>
    ensures { OnOk result (out.new.items ≡ out.old.items ++ slashed (map reported_text reported.now)) }
{
    for (i, one) in reported.iter().enumerate() {
        push_slash(i, out)?;
        push_reported(*one, out)?;
    }
    Ok(())
}

// Adds how many pieces are left out, if there are any.
fn push_more(count: usize, out: &mut Vec<u8>) -> Result<(), Memory>
    ensures { OnOk result (out.new.items ≡ out.old.items ++ more_text count) }
{
    if count == 0 {
        return Ok(());
    }
    out.extend_from_slice(b" and ")?;
    push_number(out, count)?;
    out.extend_from_slice(b" more")?;
    Ok(())
}

// Adds the first pieces, and how many more there are.
fn push_pieces(all: &[ReportedLetters], out: &mut Vec<u8>) -> Result<(), Memory>
    ensures { OnOk result (out.new.items ≡ out.old.items ++ pieces_text all.now) }
{
    let shown = all.len().min(SHOWN_PIECES);
    push_all(&all[..shown], out)?;
    push_more(all.len().saturating_sub(SHOWN_PIECES), out)
}

/// Returns the text of the symbols of some runs: by the names of core rules (RFC 5234, appendix B.1) and as ABNF writes
/// them (section 2.3; RFC 7405, section 2.1), with slashes between.
///
/// # Errors
/// `Memory` if an allocation fails.
pub fn symbols_text(
    alloc: Global,
    alphabet: Alphabet,
    runs: &[LetterRun],
) -> Result<Vec<u8>, Memory>
    ensures { IfOk result (λ text. text.items ≡ the_text alphabet runs.now) }
{
    let all = symbol_pieces(alloc, alphabet, runs)?;
    let mut text = Vec::new(alloc);
    push_pieces(&all, &mut text)?;
    Ok(text)
}

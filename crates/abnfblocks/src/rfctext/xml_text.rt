//! The contents of an XML text, line by line.
ghost use Rattle.std.specs.Prelude.{◌≡◌, ◌++◌, ◌==◌, not, IfOk, OnOk};
ghost use Rattle.std.specs.List.{filter, flat_map, list_all};
ghost use Rattle.abnfblocks.specs.TextLines.{line_parts};
ghost use Rattle.abnfblocks.specs.MaskedLines.{ShowsText};
ghost use Rattle.abnfblocks.specs.XmlLines.{HoldsXml, is_void as void, shown_part, void_part};

use crate::rfctext::fence::has_byte;
use crate::rfctext::kept::cut_part;
use crate::rfctext::line_tests::is_blank;
use rfcforms::{MARK, marked_text};
use ruletable::Memory;
use std::alloc::Global;

// Whether the byte is blank, CR or a mark.
fn is_void(b: u8) -> bool
    ensures { result ≡ void b }
{
    is_blank(b) || b == b'\r' || b == MARK
}

// Whether all bytes are such.
fn are_void(part: &[u8]) -> bool
    ensures { result ≡ list_all void part.now }
{
    part.iter().all(|b| is_void(*b))
}

// Whether other bytes than contents stand in the line, and its contents are blank.
fn is_void_part(part: &[u8]) -> bool
    ensures { result ≡ void_part part.now }
{
    has_byte(part, MARK) && are_void(part)
}

// Adds the bytes of a line but its marks.
fn push_unmarked(out: &mut Vec<u8>, part: &[u8]) -> Result<(), Memory>
    ensures { OnOk result (out.new.items ≡ out.old.items ++ filter (λ b. not (b == 1)) part.now) }
{
    let mut rest = part;
    while let Some((first, tail)) = rest.split_first() {
        if *first != MARK {
            out.push(*first)?;
        }
        rest = tail;
    }
    Ok(())
}

// Adds the contents of a line, or `<`, and LF.
fn push_part(out: &mut Vec<u8>, part: &[u8]) -> Result<(), Memory>
    ensures { OnOk result (out.new.items ≡ out.old.items ++ shown_part part.now) }
{
    if is_void_part(part) {
        out.push(b'<')?;
    } else {
        push_unmarked(out, part)?;
    }
    out.push(b'\n')?;
    Ok(())
}

// Returns the text to read, of the lines of a text with marks.
fn shown_lines(alloc: Global, marked: &[u8]) -> Result<Vec<u8>, Memory>
    ensures { IfOk result (λ out. out.items ≡ flat_map shown_part (line_parts marked.now)) }
{
    let mut out = Vec::new(alloc);
    let mut rest = marked;
    while !rest.is_empty() {
        let parts = cut_part(rest);
        push_part(&mut out, parts.first)?;
        rest = parts.rest;
    }
    Ok(out)
}

// Returns the text that is read of an XML text.
fn xml_text(alloc: Global, text: &[u8]) -> Result<Vec<u8>, Memory>
    ensures { IfOk result (λ out. HoldsXml text.now out.items) }
{
    let marked = marked_text(alloc, text)?;
    shown_lines(alloc, &marked)
}

/// Returns the text that is read of a text, which is XML or not, as `of_xml` says.
///
/// Of an XML text each line has the contents of `<sourcecode>` and `<artwork>`, as `marked_text` finds them. A line
/// with other bytes and blank contents is `<`. Any other text is read as it is.
///
/// # Errors
/// `Memory` if an allocation fails.
pub fn source_text(alloc: Global, text: &[u8], of_xml: bool) -> Result<Vec<u8>, Memory>
    ensures { IfOk result (λ source. ShowsText of_xml text.now source.items) }
{
    if of_xml {
        return xml_text(alloc, text);
    }
    Ok(Vec::from_slice(alloc, text)?)
}

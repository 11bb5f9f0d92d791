//! The contents of an XML text.
ghost use Rattle.std.specs.Prelude.{◌≡◌, ◌++◌, map, IfOk, OnOk, List, ℕ};
ghost use Rattle.rfcforms.specs.XmlPieces.{MarksPieces, byte_marked, reads_references, piece_marked};

use crate::parts::{items_after, items_before};
use crate::xml::piece::{is_markup, piece_size, region_after};
use crate::xml::reference::referred_byte;
use crate::xml::region::Region;
use ruletable::Memory;
use std::alloc::Global;

/// The byte that stands for others which belong to no contents.
pub const MARK: u8 = 1;

// Returns the byte that stands for one which belongs to no contents.
fn marked_byte(b: u8) -> u8
    ensures { result ≡ byte_marked b }
{
    if b == b'\r' || b == b'\n' {
        return b;
    }
    MARK
}

// Adds the bytes that stand for those of a piece which belongs to no contents.
fn push_marks(out: &mut Vec<u8>, piece: &[u8]) -> Result<(), Memory>
    ensures { OnOk result (out.new.items ≡ out.old.items ++ map byte_marked piece.now) }
{
    let mut rest = piece;
    while let Some((first, tail)) = rest.split_first() {
        out.push(marked_byte(*first))?;
        rest = tail;
    }
    Ok(())
}

// Whether references to characters are read in the region.
fn reads_references_in(region: Region) -> bool
    ensures { result ≡ reads_references region }
{
    matches!(region, Region::Inside(_))
}

// Adds the bytes that stand for a piece in that region.
fn push_piece(out: &mut Vec<u8>, region: Region, piece: &[u8]) -> Result<(), Memory>
    ensures { OnOk result (out.new.items ≡ out.old.items ++ piece_marked region piece.now) }
{
    if is_markup(region, piece) {
        return push_marks(out, piece);
    }
    let byte = referred_byte(piece);
    if reads_references_in(region) && byte != 0 {
        return Ok(out.push(byte)?);
    }
    Ok(out.extend_from_slice(piece)?)
}

/// Returns an XML text with `MARK` for each byte that belongs to no contents, but for CR and LF.
///
/// Contents are those of `<sourcecode>` and `<artwork>` whose `type` is missing, empty or `abnf`, in any case. An
/// element that nothing closes ends with the text. Comments outside of these elements are skipped. Marks of CDATA
/// sections are no contents. Outside of CDATA the references `&lt;`, `&gt;`, `&amp;`, `&quot;`, `&apos;` and numbers of
/// %x20-7E (XML 1.0, sections 4.1 and 4.6) are one byte each.
///
/// # Errors
/// `Memory` if an allocation fails.
pub fn marked_text(alloc: Global, text: &[u8]) -> Result<Vec<u8>, Memory>
    ensures { IfOk result (λ out. MarksPieces Region.Outside text.now out.items) }
{
    let mut out = Vec::new(alloc);
    let mut region = Region::Outside;
    let mut rest = text;
    while !rest.is_empty() {
        let size = piece_size(region, rest);
        let piece = items_before(rest, size);
        push_piece(&mut out, region, piece)?;
        region = region_after(region, piece);
        rest = items_after(rest, size);
    }
    Ok(out)
}

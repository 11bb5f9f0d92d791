//! The pieces of an XML text.
ghost use Rattle.std.specs.Prelude.{◌≡◌, ◌+◌, ◌≤◌, ◌||◌, ◌==◌, not, length};
ghost use Rattle.std.specs.List.{prefix_len};
ghost use Rattle.rfcforms.specs.XmlPieces.{cdata_size as size_cdata, comment_left as left_of_comment};
ghost use Rattle.rfcforms.specs.XmlPieces.{inside_size as size_inside, is_markup as markup_is};
ghost use Rattle.rfcforms.specs.XmlPieces.{outside_size as size_outside, piece_size as size_of_piece, next_region};
ghost use Rattle.rfcforms.specs.XmlPieces.{run_size as size_of_run};

use crate::parts::items_after;
use crate::xml::reference::referred_byte;
use crate::xml::region::{Holder, Region};
use crate::xml::tag::{ends_holder, holder_at, opens_abnf, size_before, tag_size};

// Returns how many bytes stand before either byte, or in all.
fn run_size(text: &[u8], a: u8, b: u8) -> usize
    ensures size { result ≡ size_of_run a b text.now }
    ensures within { result ≤ length text.now }
{
    let mut size = 0;
    let mut rest = text;
    while let Some((first, tail)) = rest.split_first() {
        if *first == a || *first == b {
            break;
        }
        rest = tail;
        size += 1;
    }
    size
}

// Returns how many bytes a comment has from there on.
fn comment_left(text: &[u8]) -> usize
    ensures size { result ≡ left_of_comment text.now }
    ensures within { result ≤ length text.now + 3 }
{
    let mut size = 0;
    let mut rest = text;
    while let Some((_, tail)) = rest.split_first() {
        if rest.starts_with(b"-->") {
            return size + 3;
        }
        rest = tail;
        size += 1;
    }
    size
}

// Returns the length of the piece that begins the text, outside of elements that hold ABNF; 0 counts as one.
fn outside_size(text: &[u8]) -> usize
    ensures { result ≡ size_outside text.now }
{
    if text.starts_with(b"<!--") {
        return comment_left(items_after(text, 4)) + 4;
    }
    if holder_at(text).is_some() {
        return tag_size(text);
    }
    run_size(text, b'<', b'<')
}

// The same in such an element.
fn inside_size(text: &[u8], holder: Holder) -> usize
    ensures { result ≡ size_inside holder text.now }
{
    if text.starts_with(b"<![CDATA[") {
        return 9;
    }
    if ends_holder(text, holder) {
        return tag_size(text);
    }
    if referred_byte(text) != 0 {
        return size_before(text, b';') + 1;
    }
    run_size(text, b'<', b'&')
}

// The same in a CDATA section.
fn cdata_size(text: &[u8]) -> usize
    ensures { result ≡ size_cdata text.now }
{
    if text.starts_with(b"]]>") {
        return 3;
    }
    run_size(text, b']', b']')
}

/// Returns the length of the piece that begins the text in that region, in bytes, at least one.
pub(crate) fn piece_size(region: Region, text: &[u8]) -> usize
    ensures { result ≡ size_of_piece region text.now }
{
    let size = match region {
        Region::Outside => outside_size(text),
        Region::Inside(holder) => inside_size(text, holder),
        Region::Cdata(_) => cdata_size(text),
    };
    size.max(1)
}

/// Returns whether a piece in that region belongs to no contents.
pub(crate) fn is_markup(region: Region, piece: &[u8]) -> bool
    ensures { result ≡ markup_is region piece.now }
{
    match region {
        Region::Outside => true,
        Region::Inside(holder) => piece.starts_with(b"<![CDATA[") || ends_holder(piece, holder),
        Region::Cdata(_) => piece.starts_with(b"]]>"),
    }
}

// Returns the region after a piece outside of elements that hold ABNF.
fn after_outside(piece: &[u8]) -> Region
    ensures { result ≡ next_region Region.Outside piece.now }
{
    match holder_at(piece) {
        Some(holder) if opens_abnf(piece) => Region::Inside(holder),
        _ => Region::Outside,
    }
}

/// Returns the region after a piece in that region.
pub(crate) fn region_after(region: Region, piece: &[u8]) -> Region
    ensures { result ≡ next_region region piece.now }
{
    if !is_markup(region, piece) {
        return region;
    }
    match region {
        Region::Outside => after_outside(piece),
        Region::Inside(holder) if piece.starts_with(b"<![CDATA[") => Region::Cdata(holder),
        Region::Inside(_) => Region::Outside,
        Region::Cdata(holder) => Region::Inside(holder),
    }
}

//! Texts as code points, on the boundaries of UTF-8 (RFC 3629, sections 3 and 4).

use crate::fields::{Fields, Text};
use ruletable::{Letter, decode, utf8_len};
use std::alloc::Global;

/// `utf8 TEXT`: how many bytes the longest prefix has that is UTF-8; and the code points of the text, or `of more`.
pub(crate) fn points_of(alloc: Global, fields: &Fields, out: &mut Text) -> Option<()> {
    let text = fields.text(0);
    out.add_number(utf8_len(text) as u128);
    let mut points = Vec::new(alloc);
    if !decode(text, &mut points).ok()? {
        out.add(b" of more");
    }
    for point in &points {
        out.add(b" ");
        out.add_number(u128::from(point.value()));
    }
    Some(())
}

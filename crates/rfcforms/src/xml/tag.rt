//! Tags of XML.
ghost use Rattle.std.specs.Prelude.{◌≡◌, ◌≤◌, ◌==◌, not, length};
ghost use Rattle.std.specs.List.{prefix_len};
ghost use Rattle.rfcforms.specs.XmlTags.{tag_leads, begins_type as type_begins, closing_front, ends_name as name_ends};
ghost use Rattle.rfcforms.specs.XmlTags.{holder_at as holder_there, quoted_value, is_quote as quote_is};
ghost use Rattle.rfcforms.specs.XmlTags.{opens_abnf as abnf_opens, rest_after_quote, tag_length};
ghost use Rattle.rfcforms.specs.XmlTags.{type_of, type_value as value_of_type};

use crate::parts::{items_after, items_before};
use crate::xml::region::Holder;
use crate::xml::space::{after_white, begins_by, is_white};

// Whether a name in a tag can end before the text.
fn ends_name(text: &[u8]) -> bool
    ensures { result ≡ name_ends text.now }
{
    match text.first() {
        Some(b) => is_white(*b) || *b == b'/' || *b == b'>',
        None => false,
    }
}

// Whether the text begins with a tag that has that front.
fn begins_tag(text: &[u8], front: &[u8]) -> bool
    ensures { result ≡ tag_leads front.now text.now }
{
    text.starts_with(front) && ends_name(items_after(text, front.len()))
}

// Returns the element whose start tag begins the text.
pub(crate) fn holder_at(text: &[u8]) -> Option<Holder>
    ensures { result ≡ holder_there text.now }
{
    if begins_tag(text, b"<sourcecode") {
        return Some(Holder::Sourcecode);
    }
    if begins_tag(text, b"<artwork") {
        return Some(Holder::Artwork);
    }
    None
}

// Whether the text begins with the tag that ends the element.
pub(crate) fn ends_holder(text: &[u8], holder: Holder) -> bool
    ensures { result ≡ tag_leads (closing_front holder) text.now }
{
    match holder {
        Holder::Sourcecode => begins_tag(text, b"</sourcecode"),
        Holder::Artwork => begins_tag(text, b"</artwork"),
    }
}

// Whether the byte is a quote.
fn is_quote(b: u8) -> bool
    ensures { result ≡ quote_is b }
{
    b == b'"' || b == b'\''
}

// Returns the quote that is open after one more byte, or 0.
fn quote_after(quote: u8, b: u8) -> u8
    ensures { result ≡ rest_after_quote quote b }
{
    if quote == 0 {
        return if is_quote(b) { b } else { 0 };
    }
    if b == quote { 0 } else { quote }
}

// Returns how many bytes the tag has that begins the text.
pub(crate) fn tag_size(text: &[u8]) -> usize
    ensures size { result ≡ tag_length 0 text.now }
    ensures within { result ≤ length text.now }
{
    let mut quote = 0;
    let mut size = 0;
    let mut rest = text;
    while let Some((first, tail)) = rest.split_first() {
        if quote == 0 && *first == b'>' {
            return size + 1;
        }
        quote = quote_after(quote, *first);
        rest = tail;
        size += 1;
    }
    size
}

// Whether `type` and `=` begin the text.
fn begins_type(text: &[u8]) -> bool
    ensures { result ≡ type_begins text.now }
{
    text.starts_with(b"type") && begins_by(after_white(items_after(text, 4)), b'=')
}

// Returns how many bytes stand before that byte, or in all.
pub(crate) fn size_before(text: &[u8], byte: u8) -> usize
    ensures size { result ≡ prefix_len (λ b. not (b == byte)) text.now }
    ensures within { result ≤ length text.now }
{
    let mut size = 0;
    let mut rest = text;
    while let Some((first, tail)) = rest.split_first() {
        if *first == byte {
            break;
        }
        rest = tail;
        size += 1;
    }
    size
}

// Returns the bytes in the quotes that begin the text.
fn in_quotes(text: &[u8]) -> &[u8]
    ensures { result.now ≡ quoted_value text.now }
{
    match text.split_first() {
        Some((quote, rest)) if is_quote(*quote) => items_before(rest, size_before(rest, *quote)),
        _ => &[],
    }
}

// Returns the value of the attribute that begins the text.
fn type_value(text: &[u8]) -> &[u8]
    ensures { result.now ≡ value_of_type text.now }
{
    let sign = after_white(items_after(text, 4));
    in_quotes(after_white(items_after(sign, 1)))
}

// Returns the value of `type` in a tag, or nothing.
fn tag_type(tag: &[u8]) -> &[u8]
    ensures { result.now ≡ type_of tag.now }
{
    let mut quote = 0;
    let mut before = 0;
    let mut rest = tag;
    while let Some((first, tail)) = rest.split_first() {
        if quote == 0 && is_white(before) && begins_type(rest) {
            return type_value(rest);
        }
        quote = quote_after(quote, *first);
        before = *first;
        rest = tail;
    }
    &[]
}

// Whether the element that the tag begins holds ABNF.
pub(crate) fn opens_abnf(tag: &[u8]) -> bool
    ensures { result ≡ abnf_opens tag.now }
{
    if tag.ends_with(b"/>") {
        return false;
    }
    let name = tag_type(tag);
    name.is_empty() || name.eq_ignore_ascii_case(b"abnf")
}

//! White space of XML, and the first bytes of texts.
ghost use Rattle.std.specs.Prelude.{◌≡◌, ◌≤◌, length};
ghost use Rattle.std.specs.List.{prefix_len};
ghost use Rattle.rfcforms.specs.XmlTags.{byte_leads, begins_xml, rest_after_white, is_white as white};

// Whether the byte is white space.
pub(crate) fn is_white(b: u8) -> bool
    ensures { result ≡ white b }
{
    b == b' ' || b == b'\t' || b == b'\r' || b == b'\n'
}

// How many bytes of white space begin the text.
fn white_size(text: &[u8]) -> usize
    ensures size { result ≡ prefix_len white text.now }
    ensures within { result ≤ length text.now }
{
    let mut size = 0;
    let mut rest = text;
    while let Some((first, tail)) = rest.split_first() {
        if !is_white(*first) {
            break;
        }
        rest = tail;
        size += 1;
    }
    size
}

// Returns the text without the white space that begins it.
pub(crate) fn after_white(text: &[u8]) -> &[u8]
    ensures { result.now ≡ rest_after_white text.now }
{
    &text[white_size(text)..]
}

// Whether the byte begins the text.
pub(crate) fn begins_by(text: &[u8], byte: u8) -> bool
    ensures { result ≡ byte_leads byte text.now }
{
    match text.first() {
        Some(b) => *b == byte,
        None => false,
    }
}

/// Returns whether a text is read as XML: `<?xml`, `<rfc` or `<!DOCTYPE` begins it, perhaps after white space.
pub fn is_xml(text: &[u8]) -> bool
    ensures { result ≡ begins_xml text.now }
{
    let rest = after_white(text);
    rest.starts_with(b"<?xml") || rest.starts_with(b"<rfc") || rest.starts_with(b"<!DOCTYPE")
}

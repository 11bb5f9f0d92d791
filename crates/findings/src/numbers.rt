//! Numbers and quotes in messages.
ghost use Rattle.std.specs.Prelude.{◌≡◌, ◌≤◌, length, option_map};
ghost use Rattle.findings.specs.MessageParts.{after_number, distance_to_quote, number_continued, quoted_in, report_in};

/// The greatest number that is read.
const MAX_NUMBER: usize = 99_999_999;

/// A number in a message, and the bytes after it.
#[derive(Clone, Copy)]
pub(crate) struct LeadingNumber<'a> {
    /// The number.
    pub(crate) number: usize,
    /// The bytes after it.
    pub(crate) rest: &'a [u8],
}

/// Returns the number that begins the bytes, and those after it.
pub(crate) fn leading_number(bytes: &[u8]) -> LeadingNumber<'_>
    ensures number { result.number ≡ number_continued 0 bytes.entry.now }
    ensures rest { result.rest.now ≡ after_number bytes.entry.now }
{
    let mut number = 0;
    let mut rest = bytes;
    while let Some((first, tail)) = rest.split_first() {
        if !first.is_ascii_digit() {
            break;
        }
        number = (number * 10 + (*first - b'0') as usize).min(MAX_NUMBER);
        rest = tail;
    }
    LeadingNumber { number, rest }
}

/// Returns the number and what is reported after it, of a text that begins so, has a number there, and a colon then.
pub(crate) fn reported_after<'a>(text: &'a [u8], front: &[u8]) -> Option<LeadingNumber<'a>>
    ensures number { option_map (λ n. n.number) result
        ≡ option_map (λ n. n.number) (report_in front.now text.entry.now) }
    ensures report { option_map (λ n. n.rest.now) result
        ≡ option_map (λ n. n.report) (report_in front.now text.entry.now) }
{
    let begun = text.strip_prefix(front)?;
    let LeadingNumber { number, rest } = leading_number(begun);
    let rest = rest.strip_prefix(b": ")?;
    Some(LeadingNumber { number, rest })
}

// Returns how many bytes stand before the first quote.
fn quote_distance(bytes: &[u8]) -> usize
    ensures distance { result ≡ distance_to_quote bytes.now }
    ensures within { result ≤ length bytes.now }
{
    let mut size = 0;
    let mut rest = bytes;
    while let Some((first, tail)) = rest.split_first() {
        if *first == b'\'' {
            break;
        }
        rest = tail;
        size += 1;
    }
    size
}

/// Returns the bytes between the first quote and the next one.
pub(crate) fn quoted(text: &[u8]) -> &[u8]
    ensures { result.now ≡ quoted_in text.entry.now }
{
    let mut rest = text;
    while let Some((first, tail)) = rest.split_first() {
        if *first == b'\'' {
            return &tail[..quote_distance(tail)];
        }
        rest = tail;
    }
    rest
}

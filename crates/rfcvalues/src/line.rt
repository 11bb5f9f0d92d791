//! Lines that end as a statement of a program does.
ghost use Rattle.std.specs.Prelude.{◌≡◌, ◌∷◌, ℕ, List, length, suc};
ghost use Rattle.std.specs.List.{list_all};
ghost use Rattle.abnfread.specs.AbnfSlices.{is_prose as proses, is_quotable as quotes};
ghost use Rattle.rfcvalues.specs.StatementLines.{Outside, ends_by as is_ended_by, ends_statement as is_statement};
ghost use Rattle.rfcvalues.specs.StatementLines.{is_gap as gap, line_rest, semicolon_size as size_from};

use rfcforms::items_after;

/// What is known of the end of a line.
#[derive(Clone, Copy)]
pub(crate) struct LineRest {
    /// Whether it goes on with a text in quotes to its closing quote.
    closes_text: bool,
    /// Whether it goes on with prose to its `>`.
    closes_prose: bool,
    /// How many bytes it has from its first `;` on, if it begins in no text and no prose.
    outside: usize,
    /// The same if it begins in a text.
    in_text: usize,
    /// The same if it begins in prose.
    in_prose: usize,
}

/// Returns whether the byte is a space or a tab.
pub(crate) fn is_gap(b: u8) -> bool
    ensures { result ≡ gap b }
{
    b == b' ' || b == b'\t'
}

// Whether the byte may stand in quotes.
fn is_quotable(b: u8) -> bool
    ensures { result ≡ quotes b }
{
    b' ' <= b && b <= b'~' && b != b'"'
}

// Whether the byte may stand in prose.
fn is_prose(b: u8) -> bool
    ensures { result ≡ proses b }
{
    b' ' <= b && b <= b'~' && b != b'>'
}

// How many bytes a line of that size has from its first `;` on, where it has that byte before that rest.
fn size_outside(b: u8, size: usize, rest: LineRest) -> usize
    ensures { (bs : List ℕ) → rest ≡ line_rest bs → size ≡ suc (length bs) → result ≡ size_from Outside (b ∷ bs) }
{
    if b == b';' {
        size
    } else if b == b'"' && rest.closes_text {
        rest.in_text
    } else if b == b'<' && rest.closes_prose {
        rest.in_prose
    } else {
        rest.outside
    }
}

// What is known of a line of that size that has that byte before that rest.
fn with_byte(b: u8, size: usize, rest: LineRest) -> LineRest
    ensures { (bs : List ℕ) → rest ≡ line_rest bs → size ≡ suc (length bs) → result ≡ line_rest (b ∷ bs) }
{
    LineRest {
        closes_text: b == b'"' || (is_quotable(b) && rest.closes_text),
        closes_prose: b == b'>' || (is_prose(b) && rest.closes_prose),
        outside: size_outside(b, size, rest),
        in_text: if b == b'"' {
            rest.outside
        } else {
            rest.in_text
        },
        in_prose: if b == b'>' {
            rest.outside
        } else {
            rest.in_prose
        },
    }
}

// How many bytes a line has from its first `;` on that stands in no text and no prose; 0 if it has none.
fn semicolon_size(line: &[u8]) -> usize
    ensures { result ≡ size_from Outside line.now }
{
    let mut rest = LineRest {
        closes_text: false,
        closes_prose: false,
        outside: 0,
        in_text: 0,
        in_prose: 0,
    };
    let mut at = line.len();
    while at > 0 {
        at -= 1;
        rest = with_byte(line[at], line.len() - at, rest);
    }
    rest.outside
}

fn are_gaps(text: &[u8]) -> bool
    ensures { result ≡ list_all gap text.now }
{
    text.iter().all(|b| is_gap(*b))
}

// Whether only blanks stand after so many bytes of the line less one, and none before them.
fn ends_by(line: &[u8], size: usize) -> bool
    ensures { result ≡ is_ended_by line.now size }
{
    if size == 0 || size >= line.len() {
        return false;
    }
    let start = line.len() - size;
    are_gaps(items_after(line, start + 1)) && !is_gap(line[start - 1])
}

/// Returns whether a line ends as a statement of a program does.
///
/// Its first `;` that stands in no text and no prose must be its last byte but blanks. No blank may stand before it.
pub(crate) fn ends_statement(line: &[u8]) -> bool
    ensures { result ≡ is_statement line.now }
{
    ends_by(line, semicolon_size(line))
}

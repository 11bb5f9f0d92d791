//! Elements, of which the bodies of ABNF rules consist.

/// An element (RFC 5234, sections 2 to 4; RFC 7405).
#[derive(Drop)]
pub enum Elem {
    /// Matches a text. If `folds`, each US-ASCII letter of the text matches in either case.
    Text {
        folds: bool,
        text: Vec<u8>,
    },
    /// Matches these code points, in order.
    Values(Vec<u32>),
    /// Matches one code point from `low` to `high`.
    Range {
        low: u32,
        high: u32,
    },
    /// Matches all members, in order.
    Concat(Vec<Elem>),
    /// Matches one of the alternatives.
    Alt(Vec<Elem>),
    /// Matches the operand at least `least` times, and at most `most` times if there is a `most`.
    Rep {
        least: u32,
        most: Option<u32>,
        operand: Box<Elem>,
    },
    /// Matches the operand or nothing.
    Opt(Box<Elem>),
    /// Matches what the rule of that name matches, in either case.
    Name(Vec<u8>),
    /// Holds the text between the brackets of a prose description (RFC 5234, section 4, `prose-val`).
    Prose(Vec<u8>),
}

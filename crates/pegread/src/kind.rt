//! The kinds of tokens of a grammar of peg(1).

/// The kind of a token (peg(1) manual, "PEG GRAMMARS"). White space, which is space, tab, LF, CR and comments from `#`
/// to the end of the line, only separates tokens.
#[derive(Clone, Copy)]
pub enum Kind {
    /// A name: a letter or `_`, then letters, digits and `_`.
    Ident,
    /// `<-`, always where these two bytes begin a token.
    Arrow,
    /// `<` that no `-` follows.
    Begin,
    /// `>`.
    EndCap,
    /// `/`.
    Slash,
    /// `&`.
    Amp,
    /// `!`.
    Bang,
    /// `?`.
    Quest,
    /// `*`.
    Star,
    /// `+`.
    Plus,
    /// `.`.
    Dot,
    /// `(`.
    LParen,
    /// `)`.
    RParen,
    /// From a quote, single or double, to the next one of its kind that no backslash takes.
    Literal,
    /// From `[` to the next `]` that no backslash takes.
    Class,
    /// From `{` to the `}` that matches it, where every brace counts.
    Action,
    /// Bytes that begin no token, to the end of the text.
    Bad,
    /// The end of the text.
    End,
}

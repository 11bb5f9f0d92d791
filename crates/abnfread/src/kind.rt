//! The kinds of tokens of a grammar in ABNF.
ghost use Rattle.std.specs.Prelude.{◌≡◌};
ghost use Rattle.abnfread.specs.AbnfKinds.{is_repeat as repeats};

/// The kind of a token (RFC 5234, section 4).
#[derive(Clone, Copy)]
pub enum AbnfKind {
    /// A letter, then letters, digits and `-`.
    Name,
    /// `=` with no `/` after it.
    Is,
    /// `=/`.
    Adds,
    /// `/`.
    Slash,
    /// `(`.
    LParen,
    /// `)`.
    RParen,
    /// `[`.
    LBrack,
    /// `]`.
    RBrack,
    /// Digits, or `*` with digits before and after it, or none.
    Repeat,
    /// A text in quotes, with `%s` or `%i` before it, or neither.
    Text,
    /// `%`, a base, and numbers with dots between, or two with `-` between.
    Num,
    /// A text between `<` and `>`.
    Prose,
    /// Bytes that begin no token, to the end of the text.
    Bad,
    /// The end of the text.
    End,
}

/// Returns whether it is a repeat.
pub(crate) fn is_repeat(kind: AbnfKind) -> bool
    ensures { result ≡ repeats kind }
{
    matches!(kind, AbnfKind::Repeat)
}

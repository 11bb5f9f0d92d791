//! Tokens with marks.
ghost use Rattle.std.specs.Prelude.{◌≡◌, length};
ghost use Rattle.lexer.specs.TokenLists.{total_of};

use crate::indent::{begins_rule, indent_at};
use crate::kind::AbnfKind;
use lexer::{Kind, Token, TokenIter};

/// A token with its marks.
#[derive(Clone, Copy)]
pub struct MarkedToken<'a> {
    /// The token.
    pub token: Token<'a, AbnfKind>,
    /// White space stands directly before it.
    pub gap: bool,
    /// It is the first token of a line that begins a rule.
    pub first: bool,
}

/// An iterator over the tokens of a grammar's text with their marks. The last one is `End`.
///
/// A line begins a rule if its indent is at most that of the text's first token (RFC 5234, section 2.2). So the
/// iterator keeps that indent. White space stands before a token that does not begin where the last one ended.
#[derive(Drop)]
pub struct AbnfTokenIter<'a> {
    /// The whole text.
    text: &'a [u8],
    /// The tokens without marks.
    inner: TokenIter<'a, AbnfKind>,
    /// The indent of the first token, in bytes, if blanks alone stand before it in its line.
    margin: Option<usize>,
    /// Where the last token ended, in bytes from the front of the text.
    end: usize,
    ghost whole: { total_of inner ≡ length text.now },
}

impl<'a> AbnfTokenIter<'a> {
    pub(crate) fn new(text: &'a [u8], inner: TokenIter<'a, AbnfKind>, margin: Option<usize>) -> Self
        requires { total_of inner ≡ length text.now }
        ensures text { result.text.now ≡ text.now }
        ensures inner { result.inner ≡ inner.entry }
        ensures margin { result.margin ≡ margin }
        ensures end { result.end ≡ 0 }
    {
        AbnfTokenIter {
            text,
            inner,
            margin,
            end: 0,
        }
    }
}

impl<'a> Iterator for AbnfTokenIter<'a> {
    ghost use Rattle.abnfread.specs.MarkedIteration.{GivesFirst};
    ghost use Rattle.lexer.specs.TokenLists.{tokens_bound};

    type Item = MarkedToken<'a>;

    ghost next_gives = { GivesFirst };

    ghost remaining = { λ s. tokens_bound s.inner };

    fn next(&mut self) -> Option<MarkedToken<'a>> {
        let token = self.inner.next()?;
        let gap = token.span.start != self.end;
        let first = !token.kind.is_last()
            && begins_rule(self.margin, indent_at(self.text, token.span.start));
        self.end = token.span.end;
        Some(MarkedToken { token, gap, first })
    }
}

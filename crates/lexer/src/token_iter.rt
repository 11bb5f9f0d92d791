//! Cuts a text into tokens that lend slices of it.
ghost use Rattle.std.specs.Prelude.{◌+◌, ◌^◌, ◌<◌, length};

use crate::kind::Kind;
use ruletable::Span;
use std::marker::PhantomData;

/// A token, with its slice of the text.
#[derive(Clone, Copy)]
pub struct Token<'a, K> {
    /// The kind of the token.
    pub kind: K,
    /// The bytes of the token.
    pub slice: &'a [u8],
    /// The span of these bytes in the text.
    pub span: Span,
}

/// An iterator over the tokens of a text. The last one is the end. It takes a token when it is asked for one, so a text
/// needs no list of tokens.
#[derive(Drop)]
pub struct TokenIter<'a, K> {
    /// The bytes after the last token.
    pub(crate) rest: &'a [u8],
    /// Where these begin, in bytes from the front of the text.
    pub(crate) start: usize,
    /// Whether the end was given.
    pub(crate) ended: bool,
    /// The kinds of tokens, by type.
    pub(crate) kinds: PhantomData<K>,
    ghost fits: { start + length rest.now < 2 ^ 64 },
}

impl<'a, K: Kind> Iterator for TokenIter<'a, K> {
    ghost use Rattle.lexer.specs.TokenLists.{GivesFirst, tokens_bound};

    type Item = Token<'a, K>;

    ghost next_gives = { GivesFirst K.white K.first K.is_end };

    ghost remaining = { tokens_bound };

    fn next(&mut self) -> Option<Token<'a, K>> {
        if self.ended {
            return None;
        }
        K::are_cut();
        let text = K::after_white(self.rest);
        let (kind, rest) = K::first_token(text);
        let size = text.len() - rest.len();
        let start = self.start + (self.rest.len() - text.len());
        let end = start + size;
        self.rest = rest;
        self.start = end;
        self.ended = kind.is_last();
        Some(Token {
            kind,
            slice: &text[..size],
            span: Span { start, end },
        })
    }
}

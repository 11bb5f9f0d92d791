//! The first bytes of a text that begin no token.
ghost use Rattle.std.specs.Prelude.{◌≡◌};
ghost use Rattle.lexer.specs.TokenLists.{tok_of};
ghost use Rattle.rfcforms.specs.ListSearches.{HasMark, mark_after};

use abnfread::AbnfKind;
use lexer::{Token, tokens};

/// What stands before the first bytes that begin no token.
#[derive(Clone, Copy)]
pub(crate) enum MarkSearch {
    /// Only tokens so far. The last one ends there; if it is a repeat, it starts at `count`.
    Before { count: usize, end: usize },
    /// Bytes at `position` begin no token. A repeat from `count` on stands directly before them, or `count` is their
    /// position.
    Mark { count: usize, position: usize },
}

// The search after a token.
fn after_token(search: MarkSearch, token: Token<'_, AbnfKind>) -> MarkSearch
    ensures { result ≡ mark_after search (tok_of token.entry) }
{
    let MarkSearch::Before { count, end } = search else {
        return search;
    };
    match token.kind {
        AbnfKind::Bad => MarkSearch::Mark {
            count: if end == token.span.start {
                count
            } else {
                token.span.start
            },
            position: token.span.start,
        },
        AbnfKind::Repeat => MarkSearch::Before {
            count: token.span.start,
            end: token.span.end,
        },
        _ => MarkSearch::Before {
            count: token.span.end,
            end: token.span.end,
        },
    }
}

/// Finds the first bytes of a text that begin no token.
pub(crate) fn mark_in(text: &[u8]) -> MarkSearch
    ensures { HasMark text.now result }
{
    let mut search = MarkSearch::Before { count: 0, end: 0 };
    for token in tokens::<AbnfKind>(text) {
        search = after_token(search, token);
    }
    search
}

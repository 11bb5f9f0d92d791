//! The element of a list.
ghost use Rattle.std.specs.Prelude.{◌≡◌, ◌++◌, IfOk, OnOk};
ghost use Rattle.lexer.specs.TokenLists.{tok_of};
ghost use Rattle.rfcforms.specs.ListSearches.{HasElement, IsOnOneLine, element_after, element_begun, element_inner};
ghost use Rattle.rfcforms.specs.ListSearches.{token_joined};

use abnfread::AbnfKind;
use lexer::{MAX_OPEN, Token, tokens};
use ruletable::Memory;
use std::alloc::Global;

/// What is known of the element that begins a text.
#[derive(Clone, Copy)]
pub(crate) enum ElementSearch {
    /// No token came yet.
    Awaited,
    /// So many of its brackets are open.
    Inside(usize),
    /// It has so many bytes.
    Ends(usize),
    /// No element begins the text.
    Missing,
}

// The search after the first token of a text, which ends there.
fn after_first(kind: AbnfKind, end: usize) -> ElementSearch
    ensures { result ≡ element_begun kind end }
{
    match kind {
        AbnfKind::Name | AbnfKind::Text | AbnfKind::Num | AbnfKind::Prose => {
            ElementSearch::Ends(end)
        }
        AbnfKind::LParen | AbnfKind::LBrack => ElementSearch::Inside(1),
        _ => ElementSearch::Missing,
    }
}

// The search after a token that stands in so many brackets, and ends there.
fn after_inner(depth: usize, kind: AbnfKind, end: usize) -> ElementSearch
    ensures { result ≡ element_inner depth kind end }
{
    match kind {
        AbnfKind::LParen | AbnfKind::LBrack => {
            if depth < MAX_OPEN {
                ElementSearch::Inside(depth + 1)
            } else {
                ElementSearch::Missing
            }
        }
        AbnfKind::RParen | AbnfKind::RBrack => {
            if depth > 1 {
                ElementSearch::Inside(depth - 1)
            } else {
                ElementSearch::Ends(end)
            }
        }
        AbnfKind::Is | AbnfKind::Adds | AbnfKind::Bad | AbnfKind::End => ElementSearch::Missing,
        _ => ElementSearch::Inside(depth),
    }
}

// The search after a token.
fn after_token(search: ElementSearch, token: Token<'_, AbnfKind>) -> ElementSearch
    ensures { result ≡ element_after search (tok_of token.entry) }
{
    match search {
        ElementSearch::Awaited => {
            if token.span.start == 0 {
                after_first(token.kind, token.span.end)
            } else {
                ElementSearch::Missing
            }
        }
        ElementSearch::Inside(depth) => after_inner(depth, token.kind, token.span.end),
        _ => search,
    }
}

/// Finds the element that begins a text.
pub(crate) fn element_in(text: &[u8]) -> ElementSearch
    ensures { HasElement text.now result }
{
    let mut search = ElementSearch::Awaited;
    for token in tokens::<AbnfKind>(text) {
        search = after_token(search, token);
    }
    search
}

// Adds a token, and a space before it if it does not start there.
fn push_token(line: &mut Vec<u8>, at: usize, token: Token<'_, AbnfKind>) -> Result<(), Memory>
    ensures { OnOk result (line.new.items ≡ line.old.items ++ token_joined at (tok_of token.entry)) }
{
    if token.span.start == at {
        return Ok(line.extend_from_slice(token.slice)?);
    }
    line.push(b' ')?;
    Ok(line.extend_from_slice(token.slice)?)
}

/// Returns the tokens of a text on one line, with a space where bytes stand between two.
///
/// # Errors
/// `Memory` if an allocation fails.
pub(crate) fn on_one_line(alloc: Global, text: &[u8]) -> Result<Vec<u8>, Memory>
    ensures { IfOk result (λ line. IsOnOneLine text.now line.items) }
{
    let mut line = Vec::new(alloc);
    let mut at = 0;
    for token in tokens::<AbnfKind>(text) {
        push_token(&mut line, at, token)?;
        at = token.span.end;
    }
    Ok(line)
}

//! The token that decides that a text is no grammar in ABNF.
ghost use Rattle.std.specs.Prelude.{IfOk, List, MatchOption, ◌≡◌};
ghost use Rattle.lexer.specs.TokenLists.{Tok, tok_of};
ghost use Rattle.abnfread.specs.MarkedTokens.{AreTokens, marked_of};
ghost use Rattle.abnfexplain.specs.AbnfDecisions.{Decides, IsFaultToken, NoneDecides, fault_of, token_of};

use crate::abnf_stand::{Form, Position};
use crate::large::is_large;
use abnfread::{AbnfKind, MarkedToken, abnf_tokens};
use lexer::{MAX_OPEN, Token, have_tokens};
use ruletable::{Memory, ReadFault};
use std::alloc::Global;

/// The first token with which the tokens begin no grammar any more, and its surroundings.
#[derive(Drop)]
pub(crate) struct Refused<'a> {
    /// The position before the token.
    pub(crate) position: Position,
    /// The token.
    pub(crate) token: MarkedToken<'a>,
    /// The text's first token, if this is another one.
    pub(crate) origin: Option<MarkedToken<'a>>,
    /// The token before it.
    pub(crate) before: Option<MarkedToken<'a>>,
    /// The token before that one.
    pub(crate) earlier: Option<MarkedToken<'a>>,
}

/// The token that decides that a text is no grammar.
#[derive(Drop)]
pub(crate) enum Decision<'a> {
    Hopeless(Refused<'a>),
    /// It opens one bracket more than `MAX_OPEN`.
    TooDeep(MarkedToken<'a>),
    /// It is a number over its limit.
    TooLarge(MarkedToken<'a>),
}

impl<'a> Decision<'a> {
    /// Returns the token.
    pub(crate) fn token(&self) -> MarkedToken<'a>
        ensures { marked_of result ≡ token_of self.now }
    {
        match self {
            Decision::Hopeless(refused) => refused.token,
            Decision::TooDeep(token) | Decision::TooLarge(token) => *token,
        }
    }

    /// Returns the fault on that line.
    pub(crate) fn fault(&self, line: usize) -> ReadFault
        ensures { result ≡ fault_of self.now line }
    {
        match self {
            Decision::Hopeless(_) => ReadFault::Syntax { line },
            Decision::TooDeep(_) => ReadFault::Depth { line },
            Decision::TooLarge(_) => ReadFault::NumberTooLarge { line },
        }
    }
}

/// Returns the token of a text that decides that it is no grammar, if one does.
///
/// A text that is only too long may have none.
///
/// # Errors
/// `Memory` if an allocation fails.
pub fn fault_token(alloc: Global, text: &[u8]) -> Result<Option<Token<'_, AbnfKind>>, Memory>
    ensures { IfOk result (λ o. MatchOption o (NoneDecides text.now) (λ x. IsFaultToken text.now (tok_of x))) }
{
    have_tokens::<AbnfKind>(text);
    match deciding_token(alloc, text)? {
        Some(Decision::Hopeless(refused)) => Ok(Some(refused.token.token)),
        Some(Decision::TooDeep(token)) => Ok(Some(token.token)),
        Some(Decision::TooLarge(token)) => Ok(Some(token.token)),
        None => Ok(None),
    }
}

fn form_of(token: MarkedToken<'_>) -> Form
    ensures { result ≡ record { kind = token.entry.token.kind; gap = token.entry.gap; first = token.entry.first } }
{
    Form {
        kind: token.token.kind,
        gap: token.gap,
        first: token.first,
    }
}

/// Returns the token that decides, if the text is no grammar.
///
/// # Errors
/// `Memory` if an allocation fails.
pub(crate) fn deciding_token(alloc: Global, text: &[u8]) -> Result<Option<Decision<'_>>, Memory>
    requires { (ts : List (Tok AbnfKind)) × AreTokens text.now ts }
    ensures { IfOk result (λ o. MatchOption o (NoneDecides text.now) (λ d. Decides text.now d)) }
{
    let mut position = Position::start(alloc);
    let mut origin = None;
    let mut before = None;
    let mut earlier = None;
    for token in abnf_tokens(text) {
        let form = form_of(token);
        if !position.allows(form) {
            return Ok(Some(Decision::Hopeless(Refused {
                position,
                token,
                origin,
                before,
                earlier,
            })));
        }
        if is_large(token.token) {
            return Ok(Some(Decision::TooLarge(token)));
        }
        position.advance(form)?;
        if position.brackets.len() > MAX_OPEN {
            return Ok(Some(Decision::TooDeep(token)));
        }
        origin = Some(origin.unwrap_or(token));
        earlier = before;
        before = Some(token);
    }
    Ok(None)
}

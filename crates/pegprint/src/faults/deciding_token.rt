//! The token that decides that a text is no grammar.
ghost use Rattle.std.specs.Prelude.{◌≡◌, MatchOption};
ghost use Rattle.lexer.specs.TokenLists.{tok_of};
ghost use Rattle.pegprint.specs.PegDecisions.{Decides, NoneDecides, token_of};
ghost use Rattle.pegprint.specs.PegAllFaults.{DecidesAfter};

use crate::faults::stand::Position;
use lexer::{MAX_OPEN, Token, have_tokens, tokens};
use pegread::Kind;

/// The token that decides that a text is no grammar.
#[derive(Clone, Copy)]
pub(crate) enum Decision<'a> {
    /// It stands there, and with it the tokens begin no grammar any more.
    Hopeless(Position, Token<'a, Kind>),
    /// It opens one bracket more than `MAX_OPEN`.
    TooDeep(Token<'a, Kind>),
}

impl<'a> Decision<'a> {
    /// Returns the token.
    pub(crate) fn token(self) -> Token<'a, Kind>
        ensures { tok_of result ≡ token_of self.entry }
    {
        match self {
            Decision::Hopeless(_, token) | Decision::TooDeep(token) => token,
        }
    }
}

/// The token that decides that a text is no grammar, and where the one before it starts, if there is one.
#[derive(Clone, Copy)]
pub(crate) struct DecidingToken<'a> {
    /// The token.
    pub(crate) decision: Decision<'a>,
    /// Where the token before it starts, or 0.
    pub(crate) before: usize,
}

/// Returns the token that decides, if the text is no grammar.
pub(crate) fn deciding_token(text: &[u8]) -> Option<DecidingToken<'_>>
    ensures { MatchOption result (NoneDecides text.now) (λ d. Decides text.now d.decision
        × DecidesAfter text.now (token_of d.decision) d.before) }
{
    have_tokens::<Kind>(text);
    let mut position = Position::start();
    let mut before = 0;
    for token in tokens::<Kind>(text) {
        let Some(next) = position.after(token.kind) else {
            return Some(DecidingToken {
                decision: Decision::Hopeless(position, token),
                before,
            });
        };
        if next.depth > MAX_OPEN {
            return Some(DecidingToken {
                decision: Decision::TooDeep(token),
                before,
            });
        }
        position = next;
        before = token.span.start;
    }
    None
}

//! The definitions of a grammar's text.
ghost use Rattle.std.specs.Prelude.{◌≡◌, ◌≤◌, length, map, IfOk, MatchOption, None, option_map};
ghost use Rattle.lexer.specs.TokenLists.{AreTokens, tok_of};
ghost use Rattle.ruletable.specs.Lines.{line_at};
ghost use Rattle.diagnostics.specs.DefinitionHeads.{AreDefinitions, defined_at, signed_at};
ghost use Rattle.diagnostics.specs.Openings.{BeginsHead, opens};

use crate::noteplaces::sign::{Sign, Signs};
use lexer::{Kind, Token, tokens_make_up};
use ruletable::{LineRule, Memory, line_of};
use std::alloc::Global;

/// The head of a definition.
#[derive(Drop)]
pub struct Head {
    /// The name, as it is spelled.
    pub name: Vec<u8>,
    /// The line on which the name stands, from 1.
    pub line: usize,
    /// Whether it adds to a rule.
    pub adds: bool,
    /// Where the name stands in the text.
    pub start: usize,
}

/// A token with its role in the definitions.
#[derive(Clone, Copy)]
pub(crate) struct Signed<'a> {
    /// The role.
    pub(crate) sign: Sign,
    /// The bytes of the token.
    pub(crate) slice: &'a [u8],
    /// Where the token begins, in bytes from the front of the text.
    pub(crate) start: usize,
}

/// The first bytes of a definition.
#[derive(Clone, Copy)]
pub(crate) struct Opening<'a> {
    /// The name.
    pub(crate) name: &'a [u8],
    /// Where the name begins, in bytes from the front of the text.
    pub(crate) start: usize,
    /// Whether the definition adds to a rule.
    pub(crate) adds: bool,
}

// The definition that a token begins with the one before it.
pub(crate) fn opening_of<'a>(before: Option<Signed<'a>>, token: Signed<'a>) -> Option<Opening<'a>>
    ensures { MatchOption result (opens (option_map signed_at before.entry) (signed_at token.entry) ≡ None)
        (λ o. BeginsHead (option_map signed_at before.entry) (signed_at token.entry) o.name.now o.start o.adds) }
{
    let before = before?;
    let adds = match (before.sign, token.sign) {
        (Sign::Name, Sign::Defines) => false,
        (Sign::Name, Sign::Adds) => true,
        _ => return None,
    };
    Some(Opening {
        name: before.slice,
        start: before.start,
        adds,
    })
}

// The line of a byte, where the line of one before it is known.
pub(crate) fn line_after(
    text: &[u8],
    at: usize,
    line: usize,
    offset: usize,
    rule: LineRule,
) -> usize
    requires line { line ≡ line_at rule text.now at }
    requires order { at ≤ offset }
    requires within { offset ≤ length text.now }
    ensures { result ≡ line_at rule text.now offset }
{
    line + (line_of(&text[at..], offset - at, rule) - 1)
}

/// Returns the heads of the definitions of a text with these tokens, in order. `Memory` if an allocation fails.
pub(crate) fn heads_of<K: Kind, S: Signs<K>>(
    alloc: Global,
    text: &[u8],
    tokens: &[Token<'_, K>],
    rule: LineRule,
) -> Result<Vec<Head>, Memory>
    requires { AreTokens K.white K.first K.is_end (length text.now) text.now (map tok_of tokens.now) }
    ensures { IfOk result (λ heads. AreDefinitions K.white K.first K.is_end S.sign_of rule text.now
        (map defined_at heads.items)) }
{
    tokens_make_up::<K>();
    let mut heads = Vec::new(alloc);
    let mut at = 0;
    let mut line = 1;
    let mut before: Option<Signed<'_>> = None;
    for token in tokens {
        let signed = Signed {
            sign: S::sign(token.kind),
            slice: token.slice,
            start: token.span.start,
        };
        let opening = opening_of(before, signed);
        before = Some(signed);
        if let Some(opening) = opening {
            line = line_after(text, at, line, opening.start, rule);
            at = opening.start;
            let name = Vec::from_slice(alloc, opening.name)?;
            heads.push(Head {
                name,
                line,
                adds: opening.adds,
                start: opening.start,
            })?;
        }
    }
    Ok(heads)
}

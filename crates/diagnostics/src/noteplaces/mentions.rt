//! Mentions in the bodies of a grammar's rules: names, prose, repetitions, numbers and literals.
ghost use Rattle.std.specs.Prelude.{◌≡◌, ◌≤◌, ◌++◌, length, map, IfOk, OnOk, option_map};
ghost use Rattle.lexer.specs.TokenLists.{AreTokens, tok_of};
ghost use Rattle.ruletable.specs.Lines.{line_at};
ghost use Rattle.diagnostics.specs.BodyMentions.{AreMentions, is_kind as same_kind, mention_of, mentioned_at};
ghost use Rattle.diagnostics.specs.DefinitionHeads.{signed_at};

use crate::noteplaces::forms::{UseForm, form_at};
use crate::noteplaces::heads::{Signed, line_after, opening_of};
use crate::noteplaces::sign::{Sign, Signs};
use lexer::{Kind, Token, tokens_make_up};
use ruletable::{LineRule, Memory};
use std::alloc::Global;

/// The kind of a mention.
#[derive(Clone, Copy)]
pub enum MentionKind {
    /// A name that is used.
    Use,
    /// Prose.
    Prose,
    /// The mark after what is repeated.
    Repeat,
    /// Numbers.
    Number,
    /// A text in quotes.
    Literal,
}

/// A name that is used in a body, prose, the mark of a repetition, numbers, or a text in quotes.
#[derive(Drop)]
pub struct Mention {
    /// It as it is spelled.
    pub text: Vec<u8>,
    /// The line on which it stands, from 1.
    pub line: usize,
    /// Where the name of the definition stands in whose body it does.
    pub within: usize,
    /// Which of them it is.
    pub kind: MentionKind,
    /// What it is in other notations.
    pub form: UseForm,
}

/// Returns whether a mention is of a kind.
pub(crate) fn is_kind(kind: MentionKind, mention: &Mention) -> bool
    ensures { result ≡ same_kind kind mention.now.kind }
{
    mention.kind == kind
}

// Adds what a token of a text mentions in the body of the definition at a position, if it mentions anything.
fn push_mention(
    alloc: Global,
    found: &mut Vec<Mention>,
    text: &[u8],
    token: Signed<'_>,
    line: usize,
    within: Option<usize>,
) -> Result<(), Memory>
    requires { token.start ≤ length text.now }
    ensures { OnOk result (map mentioned_at found.new.items ≡ map mentioned_at found.old.items
        ++ mention_of text.now within line (signed_at token.entry)) }
{
    let Some(within) = within else {
        return Ok(());
    };
    let kind = match token.sign {
        Sign::Name => MentionKind::Use,
        Sign::Prose => MentionKind::Prose,
        Sign::Repeats => MentionKind::Repeat,
        Sign::Number => MentionKind::Number,
        Sign::Literal => MentionKind::Literal,
        Sign::Defines | Sign::Adds | Sign::Other => return Ok(()),
    };
    let form = form_at(text, token.start, token.slice);
    let text = Vec::from_slice(alloc, token.slice)?;
    found.push(Mention {
        text,
        line,
        within,
        kind,
        form,
    })?;
    Ok(())
}

/// Finds the mentions in the bodies of a text with these tokens, in order. `Memory` if an allocation fails.
pub(crate) fn mentions_of<K: Kind, S: Signs<K>>(
    alloc: Global,
    text: &[u8],
    tokens: &[Token<'_, K>],
    rule: LineRule,
) -> Result<Vec<Mention>, Memory>
    requires { AreTokens K.white K.first K.is_end (length text.now) text.now (map tok_of tokens.now) }
    ensures { IfOk result (λ found. AreMentions K.white K.first K.is_end S.sign_of rule text.now
        (map mentioned_at found.items)) }
{
    tokens_make_up::<K>();
    let mut found = Vec::new(alloc);
    let mut at = 0;
    let mut line = 1;
    let mut within: Option<usize> = None;
    let mut before: Option<Signed<'_>> = None;
    for token in tokens {
        let signed = Signed {
            sign: S::sign(token.kind),
            slice: token.slice,
            start: token.span.start,
        };
        let last = before;
        let opening = opening_of(last, signed);
        before = Some(signed);
        if let Some(last) = last {
            line = line_after(text, at, line, last.start, rule);
            at = last.start;
            match opening {
                Some(opening) => within = Some(opening.start),
                None => push_mention(alloc, &mut found, text, last, line, within)?,
            }
        }
    }
    Ok(found)
}

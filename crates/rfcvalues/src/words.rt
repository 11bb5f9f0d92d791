//! The words of a rule: its tokens after `=` or `=/`, up to the one with which it goes wrong.
ghost use Rattle.std.specs.Prelude.{◌≡◌, ◌==◌, map, IfOk};
ghost use Rattle.std.specs.List.{list_any};
ghost use Rattle.lexer.specs.TokenLists.{tok_of};
ghost use Rattle.rfcvalues.specs.RuleSketches.{AreRuleTokens, AreTokensBefore, rule_seen, wrong_byte as byte_of};
ghost use Rattle.rfcvalues.specs.RuleSketches.{has_mark, is_name_kind, names_among as names_in};
ghost use Rattle.rfcvalues.specs.RuleSketches.{end_marks as marks_at_end, is_adding as adds, is_marking as marks};
ghost use Rattle.rfcvalues.specs.RuleSketches.{is_odd as odd, is_opening as opens, is_starred as starred};

use crate::sketch::SeenRule;
use abnfexplain::fault_token;
use abnfread::AbnfKind;
use lexer::{MAX_GRAMMAR, Token, tokens};
use rfcforms::{items_after, items_before};
use ruletable::Memory;
use std::alloc::Global;

/// Where the words of a rule end.
#[derive(Clone, Copy)]
pub(crate) enum WordsEnd {
    /// With the rule.
    Whole,
    /// It is too long to read.
    TooLong,
    /// Before the token with which it goes wrong. If that begins no token, this is its first byte, else 0.
    Wrong(u8),
}

/// The tokens of a rule up to the end of its words.
#[derive(Drop)]
pub(crate) struct RuleTokens<'a> {
    /// Where they end.
    pub(crate) end: WordsEnd,
    /// Its name, `=` or `=/`, and the words.
    pub(crate) tokens: Vec<Token<'a, AbnfKind>>,
}

// The tokens of a text that begin before that position.
fn tokens_before(alloc: Global, text: &[u8], end: usize) -> Result<Vec<Token<'_, AbnfKind>>, Memory>
    ensures { IfOk result (λ found. AreTokensBefore text.now end (map tok_of found.items)) }
{
    let mut found = Vec::new(alloc);
    for token in tokens::<AbnfKind>(text) {
        if token.span.start < end {
            found.push(token)?;
        }
    }
    Ok(found)
}

// The first of the bytes that begin no token; 0 of a token.
fn wrong_byte(token: Token<'_, AbnfKind>) -> u8
    ensures { result ≡ byte_of (tok_of token.entry) }
{
    if matches!(token.kind, AbnfKind::Bad) {
        token.slice.first().copied().unwrap_or(0)
    } else {
        0
    }
}

/// Returns the tokens of a rule up to the end of its words.
///
/// # Errors
/// `Memory` if an allocation fails.
pub(crate) fn rule_tokens<'a>(alloc: Global, rule: SeenRule<'a>) -> Result<RuleTokens<'a>, Memory>
    ensures { IfOk result (λ it. AreRuleTokens (rule_seen rule.entry) it.end (map tok_of it.tokens.items)) }
{
    if rule.reads {
        let tokens = tokens_before(alloc, rule.text, rule.text.len())?;
        return Ok(RuleTokens {
            end: WordsEnd::Whole,
            tokens,
        });
    }
    if rule.text.len() > MAX_GRAMMAR {
        return Ok(RuleTokens {
            end: WordsEnd::TooLong,
            tokens: Vec::new(alloc),
        });
    }
    match fault_token(alloc, rule.text)? {
        Some(token) => {
            let tokens = tokens_before(alloc, rule.text, token.span.start)?;
            Ok(RuleTokens {
                end: WordsEnd::Wrong(wrong_byte(token)),
                tokens,
            })
        }
        None => {
            let tokens = tokens_before(alloc, rule.text, rule.text.len())?;
            Ok(RuleTokens {
                end: WordsEnd::Whole,
                tokens,
            })
        }
    }
}

fn has_star(slice: &[u8]) -> bool
    ensures { result ≡ list_any (λ b. b == 42) slice.now }
{
    slice.iter().any(|b| *b == b'*')
}

// Whether the token is a repeat with `*`.
fn is_starred(token: &Token<'_, AbnfKind>) -> bool
    ensures { result ≡ starred (tok_of token.now) }
{
    matches!(token.kind, AbnfKind::Repeat) && has_star(token.slice)
}

fn has_starred(words: &[Token<'_, AbnfKind>]) -> bool
    ensures { result ≡ list_any (λ x. starred (tok_of x)) words.now }
{
    words.iter().any(|x| is_starred(x))
}

fn is_adding(kind: AbnfKind) -> bool
    ensures { result ≡ adds kind }
{
    matches!(kind, AbnfKind::Adds)
}

fn has_adding(tokens: &[Token<'_, AbnfKind>]) -> bool
    ensures { result ≡ list_any (λ x. adds x.kind) tokens.now }
{
    tokens.iter().any(|x| is_adding(x.kind))
}

fn is_marking(kind: AbnfKind) -> bool
    ensures { result ≡ marks kind }
{
    matches!(
        kind,
        AbnfKind::Text | AbnfKind::Num | AbnfKind::Prose | AbnfKind::Slash
    )
}

fn has_marking(words: &[Token<'_, AbnfKind>]) -> bool
    ensures { result ≡ list_any (λ x. marks x.kind) words.now }
{
    words.iter().any(|x| is_marking(x.kind))
}

fn is_opening(kind: AbnfKind) -> bool
    ensures { result ≡ opens kind }
{
    matches!(kind, AbnfKind::LParen | AbnfKind::LBrack)
}

fn has_opening(words: &[Token<'_, AbnfKind>]) -> bool
    ensures { result ≡ list_any (λ x. opens x.kind) words.now }
{
    words.iter().any(|x| is_opening(x.kind))
}

// Whether the end of the words says that it is a rule, where a list is written out in it or not.
fn end_marks(has_list: bool, end: WordsEnd, words: &[Token<'_, AbnfKind>]) -> bool
    ensures { result ≡ marks_at_end has_list end (map tok_of words.now) }
{
    match end {
        WordsEnd::Whole => has_list || has_opening(words),
        WordsEnd::TooLong => true,
        WordsEnd::Wrong(b) => {
            b == b'|' || b == b'#' || b == b'"' || b == b'<' || b == b'%' || b == b'\''
        }
    }
}

impl RuleTokens<'_> {
    /// Returns whether a mark shows that it is a rule, where a list is written out in it or not.
    pub(crate) fn has_mark(&self, has_list: bool) -> bool
        ensures { result ≡ has_mark has_list self.now.end (map tok_of self.now.tokens.items) }
    {
        let words = items_after(&self.tokens, 2);
        if has_adding(items_before(&self.tokens, 2)) {
            return true;
        }
        if has_marking(words) {
            return true;
        }
        if has_starred(items_before(words, words.len().saturating_sub(1))) {
            return true;
        }
        end_marks(has_list, self.end, words)
    }
}

/// Returns whether a rule whose words these are is one text, or goes wrong, but not at `|` or `#`.
pub(crate) fn is_odd(end: WordsEnd, words: &[Token<'_, AbnfKind>]) -> bool
    ensures { result ≡ odd end (map tok_of words.now) }
{
    match end {
        WordsEnd::Whole => words.len() == 1 && matches!(words[0].kind, AbnfKind::Text),
        WordsEnd::TooLong => true,
        WordsEnd::Wrong(b) => b != b'|' && b != b'#',
    }
}

fn is_name(kind: AbnfKind) -> bool
    ensures { result ≡ is_name_kind kind }
{
    matches!(kind, AbnfKind::Name)
}

/// Returns the names among the words.
///
/// # Errors
/// `Memory` if an allocation fails.
pub(crate) fn names_among(
    alloc: Global,
    words: &[Token<'_, AbnfKind>],
) -> Result<Vec<Vec<u8>>, Memory>
    ensures { IfOk result (λ names. map (λ name. name.items) names.items ≡ names_in (map tok_of words.now)) }
{
    let mut names = Vec::new(alloc);
    for word in words {
        if is_name(word.kind) {
            let name = Vec::from_slice(alloc, word.slice)?;
            names.push(name)?;
        }
    }
    Ok(names)
}

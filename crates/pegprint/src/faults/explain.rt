//! Explanations of faults.
ghost use Rattle.std.specs.Prelude.{◌≡◌, ℕ, ◌≤◌, ◌++◌, List, true, length, codes, OnOk, IfOk};
ghost use Rattle.lexer.specs.TokenLists.{tok_of};
ghost use Rattle.lexer.specs.GrammarLimits.{max_grammar, max_open};
ghost use Rattle.diagnostics.specs.PhraseLists.{listed};
ghost use Rattle.diagnostics.specs.ReportedPhrases.{AreAllReported};
ghost use Rattle.pegread.specs.Reading.{IsFaultOf};
ghost use Rattle.pegprint.specs.PegDecisions.{NoneDecides};
ghost use Rattle.pegprint.specs.PegExpected.{phrases};
ghost use Rattle.pegprint.specs.PegExplained.{token_position, Why, Explains};
ghost use Rattle.pegprint.specs.PegMistakes.{mistake_reported};
ghost use Rattle.pegprint.specs.PegStands.{allows};
ghost use Rattle.pegread.specs.Tokens.{Tok, AreTokens};

use crate::faults::deciding_token::{Decision, deciding_token};
use crate::faults::mistakes::push_mistake;
use crate::faults::phrases::reported_phrases;
use crate::faults::stand::Position;
use diagnostics::{push_phrases, push_position};
use lexer::{Token, tokens_make_up};
use pegread::Kind;
use ruletable::{LineRule, Memory, ReadFault};
use std::alloc::Global;

// Adds where a token stands.
fn push_token_position(out: &mut Vec<u8>, text: &[u8], token: Token<'_, Kind>) -> Result<(), Memory>
    requires { token.span.start ≤ length text.now }
    ensures { OnOk result (out.new.items ≡ out.old.items ++ token_position text.now (tok_of token.entry)) }
{
    match token.kind {
        Kind::End => {
            out.extend_from_slice(b"  at the end of the text: ")?;
            Ok(())
        }
        _ => push_position(out, text, token.span.start, LineRule::Any),
    }
}

// Adds what can stand there.
fn push_expected(alloc: Global, out: &mut Vec<u8>, position: Position) -> Result<(), Memory>
    requires { position.depth ≤ max_open }
    ensures { OnOk result ((reported : List (List ℕ)) × AreAllReported (λ k. allows position k ≡ true) phrases reported
        × (out.new.items ≡ out.old.items ++ listed reported)) }
{
    let reported = reported_phrases(alloc, position)?;
    push_phrases(out, reported.as_slice())?;
    Ok(())
}

// The lines on a token that goes on no grammar.
fn hopeless_lines(
    alloc: Global,
    text: &[u8],
    position: Position,
    token: Token<'_, Kind>,
) -> Result<Vec<u8>, Memory>
    requires depth { position.depth ≤ max_open }
    requires within { token.span.start ≤ length text.now }
    ensures { IfOk result (λ v. (reported : List (List ℕ)) × AreAllReported
        (λ k. allows position k ≡ true) phrases reported
        × ((all : List Tok) → AreTokens (length text.now) text.now all
        → v.items ≡ token_position text.now (tok_of token.entry) ++ (codes "expected " ++ (listed reported
        ++ (codes "\n" ++ mistake_reported text.now all (tok_of token.entry)))))) }
{
    let mut out = Vec::new(alloc);
    push_token_position(&mut out, text, token)?;
    out.extend_from_slice(b"expected ")?;
    push_expected(alloc, &mut out, position)?;
    out.extend_from_slice(b"\n")?;
    push_mistake(&mut out, text, token)?;
    Ok(out)
}

// The lines on a bracket too many.
fn deep_lines(alloc: Global, text: &[u8], token: Token<'_, Kind>) -> Result<Vec<u8>, Memory>
    requires { token.span.start ≤ length text.now }
    ensures { IfOk result (λ v. v.items ≡ token_position text.now (tok_of token.entry)
        ++ codes "200 brackets are open before it\n") }
{
    let mut out = Vec::new(alloc);
    push_token_position(&mut out, text, token)?;
    out.extend_from_slice(b"200 brackets are open before it\n")?;
    Ok(out)
}

// The lines on the token that decides.
fn explain_token(alloc: Global, text: &[u8]) -> Result<Vec<u8>, Memory>
    requires within { length text.now ≤ max_grammar }
    requires decided { NoneDecides text.now → ⊥ }
    ensures { IfOk result (λ why. Why text.now why.items) }
{
    tokens_make_up::<Kind>();
    let Some(decided) = deciding_token(text) else {
        unreachable!()
    };
    match decided.decision {
        Decision::Hopeless(position, token) => hopeless_lines(alloc, text, position, token),
        Decision::TooDeep(token) => deep_lines(alloc, text, token),
    }
}

/// Returns the lines that explain the fault of a grammar's text: a picture of the token that decides, its column, what
/// can stand in its place, and the usual mistake that it shows. There are none if an allocation fails.
///
/// # Errors
/// `Memory` if an allocation fails.
pub(crate) fn explain_fault(alloc: Global, text: &[u8], fault: ReadFault) -> Result<Vec<u8>, Memory>
    requires { IsFaultOf text.now fault }
    ensures { IfOk result (λ why. Explains text.now fault why.items) }
{
    match fault {
        ReadFault::Memory => Ok(Vec::new(alloc)),
        ReadFault::TooLong => {
            Ok(Vec::from_slice(alloc, b"  a grammar has at most 1048576 bytes\n")?)
        }
        _ => explain_token(alloc, text),
    }
}

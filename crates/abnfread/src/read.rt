//! Reads a grammar's text.
ghost use Rattle.std.specs.Prelude.{◌≡◌, ◌≢◌, ℕ, ◌<◌, [], true, List, length, map, Err, IfOk, IfErr};
ghost use Rattle.std.specs.Prelude.{MatchResult};
ghost use Rattle.abnfread.specs.AbnfReader.{config_of, IsSaid, Takes};
ghost use Rattle.abnfread.specs.AbnfReading.{Reads, IsFaultOf};
ghost use Rattle.abnfread.specs.AbnfSays.{SayAll, SaysKind};
ghost use Rattle.abnfread.specs.AbnfSlices.{White, First};
ghost use Rattle.abnfread.specs.AbnfSpelling.{Grammar};
ghost use Rattle.abnfread.specs.AbnfTable.{IsTableOf, IsCoreTable};
ghost use Rattle.abnfread.specs.AbnfViews.{definitions_from};
ghost use Rattle.abnfread.specs.AbnfWords.{Said, Word};
ghost use Rattle.abnfread.specs.Element.{Definition as Read};
ghost use Rattle.abnfread.specs.MarkedTokens.{AreTokens, Marked, marked_of};
ghost use Rattle.lexer.specs.GrammarLimits.{max_grammar};
ghost use Rattle.lexer.specs.TokenLists.{Next, Tok, tok, tok_of};
ghost use Rattle.ruletable.specs.Lines.{line_at};
ghost use Rattle.ruletable.specs.declared.span.Span.{Span};

use crate::definition::Definition;
use crate::kind::{AbnfKind, is_repeat};
use crate::marked::abnf_tokens;
use crate::marks::MarkedToken;
use crate::number::NumberFault;
use crate::reader::{Reader, ReaderStop};
use crate::table::{Abnf, table_of};
use crate::words::said_in;
use lexer::{MAX_GRAMMAR, MAX_OPEN, Token, have_tokens, keep};
use ruletable::{LineRule, Memory, ReadFault, line_of};
use std::alloc::Global;

/// Reads a grammar in ABNF (RFC 5234, RFC 7405), and returns its definitions as they stand, in order. `=` may define a
/// name again, and `=/` may add to a name that nothing defines.
///
/// # Errors
/// Those of `read_abnf`.
pub fn read_definitions(alloc: Global, text: &[u8]) -> Result<Vec<Definition<'_>>, ReadFault>
    ensures found { IfOk result (λ ds. Reads text.now (definitions_from ds.items)) }
    ensures fault { IfErr result (λ f. IsFaultOf text.now f) }
{
    let mut kept = Vec::new(alloc);
    definitions_keeping(alloc, text, false, &mut kept)
}

// Reads the definitions of a text, and adds its tokens to the list if they are to be kept.
fn definitions_keeping<'a>(
    alloc: Global,
    text: &'a [u8],
    keeps: bool,
    kept: &mut Vec<Token<'a, AbnfKind>>,
) -> Result<Vec<Definition<'a>>, ReadFault>
    requires empty { kept.old.items ≡ [] }
    ensures found { IfOk result (λ ds. Reads text.now (definitions_from ds.items)) }
    ensures kept { IfOk result (λ _. keeps ≡ true → AreTokens text.now (map tok_of kept.new.items)) }
    ensures fault { IfErr result (λ f. IsFaultOf text.now f) }
{
    if text.len() > MAX_GRAMMAR {
        return Err(ReadFault::TooLong);
    }
    let mut reader = Reader::new(alloc);
    for token in abnf_tokens(text) {
        let at = token.token.span.start;
        keep(keeps, token.token, kept)?;
        match take_token(alloc, &mut reader, token) {
            Ok(()) => {
                if reader.open_brackets() > MAX_OPEN {
                    return Err(ReadFault::Depth {
                        line: line_in(text, at),
                    });
                }
            }
            Err(ReaderStop::Hopeless) => {
                return Err(ReadFault::Syntax {
                    line: line_in(text, at),
                });
            }
            Err(ReaderStop::TooLarge) => {
                return Err(ReadFault::NumberTooLarge {
                    line: line_in(text, at),
                });
            }
            Err(ReaderStop::Memory) => return Err(ReadFault::Memory),
        }
    }
    match reader.into_definitions() {
        Some(definitions) => Ok(definitions),
        None => unreachable!(),
    }
}

// Returns the line of a position of a text that is no grammar, where lines end with LF. It goes over the text's tokens,
// which says that there is a list of them.
fn line_in(text: &[u8], at: usize) -> usize
    ensures line { result ≡ line_at LineRule.Lf text.now at }
    ensures tokens { (ts : List (Tok AbnfKind)) × AreTokens text.now ts }
{
    have_tokens::<AbnfKind>(text);
    line_of(text, at, LineRule::Lf)
}

// Takes what a token says. A number over its limit is hopeless where no number goes on.
fn take_token<'a>(
    alloc: Global,
    reader: &mut Reader<'a>,
    token: MarkedToken<'a>,
) -> Result<(), ReaderStop>
    requires { IsSaid token.token.kind token.token.slice.now token.token.span }
    ensures { Takes (config_of reader.old) (marked_of token.entry) result reader.new }
{
    match said_in(alloc, token.token) {
        Ok(Some(said)) => reader.take(token.gap, token.first, said),
        Ok(None) => Err(ReaderStop::Hopeless),
        Err(NumberFault::TooLarge) => {
            if reader.takes_number(is_repeat(token.token.kind), token.gap, token.first) {
                Err(ReaderStop::TooLarge)
            } else {
                Err(ReaderStop::Hopeless)
            }
        }
        Err(NumberFault::Memory) => Err(ReaderStop::Memory),
    }
}

/// Reads a grammar in ABNF (RFC 5234, RFC 7405). Names compare without case. `=/` adds alternatives to a rule of the
/// file, or to the core rule of that name; else it begins a rule.
///
/// A rule's span is that of the name of its first definition. Where `=` defines a name again, the first definition
/// stands.
///
/// # Errors
/// - `TooLong`, before all else and whatever memory does, for a text of more than `MAX_GRAMMAR` bytes.
/// - Else the first token decides with which the text is no prefix of a grammar any more (`Syntax`), or which opens one
///   bracket more than `MAX_OPEN` at once (`Depth`), or which is a number over its limit (`NumberTooLarge`):
///   `MAX_REPEAT` in a repeat, `MAX_VALUE` in a terminal. The line is that of the token's first byte, where lines end
///   with LF.
/// - `Memory` if an allocation fails.
pub fn read_abnf(alloc: Global, text: &[u8]) -> Result<Abnf, ReadFault>
    ensures long { max_grammar < length text.now → result ≡ Err ReadFault.TooLong }
    ensures found { IfOk result (λ abnf. (definitions : List Read) × Reads text.now definitions
        × IsTableOf definitions abnf.rules abnf.redefined.items abnf.extended.items) }
    ensures only { (definitions : List Read) → Reads text.now definitions
        → MatchResult result (λ abnf. IsTableOf definitions abnf.rules abnf.redefined.items abnf.extended.items)
        (λ f. f ≡ ReadFault.Memory) }
    ensures core { IfOk result (λ abnf. IsCoreTable abnf.core) }
    ensures fault { IfErr result (λ f. IsFaultOf text.now f) }
{
    let definitions = read_definitions(alloc, text)?;
    match table_of(alloc, definitions) {
        Ok(abnf) => Ok(abnf),
        Err(Memory) => Err(ReadFault::Memory),
    }
}

/// A grammar as it was read, with the tokens of its text.
#[derive(Drop)]
pub struct KeptAbnf<'a> {
    /// The grammar.
    pub abnf: Abnf,
    /// The tokens, in order.
    pub tokens: Vec<Token<'a, AbnfKind>>,
}

/// Reads a grammar as `read_abnf` does, and keeps the tokens of its text, which is cut into them once.
///
/// # Errors
/// Those of `read_abnf`.
pub fn read_kept_abnf(alloc: Global, text: &[u8]) -> Result<KeptAbnf<'_>, ReadFault>
    ensures found { IfOk result (λ kept. (definitions : List Read) × Reads text.now definitions
        × IsTableOf definitions kept.abnf.rules kept.abnf.redefined.items kept.abnf.extended.items) }
    ensures core { IfOk result (λ kept. IsCoreTable kept.abnf.core) }
    ensures tokens { IfOk result (λ kept. AreTokens text.now (map tok_of kept.tokens.items)) }
    ensures fault { IfErr result (λ f. IsFaultOf text.now f) }
{
    let mut tokens = Vec::new(alloc);
    let definitions = definitions_keeping(alloc, text, true, &mut tokens)?;
    match table_of(alloc, definitions) {
        Ok(abnf) => Ok(KeptAbnf { abnf, tokens }),
        Err(Memory) => Err(ReadFault::Memory),
    }
}

/// Says that a bad token says nothing, every other token of a text says something, marked tokens say at most one list
/// of words, and words spell at most one list of definitions.
pub fn one_tree()
    ensures silent { (z : List ℕ) (p : Span) (s : Said) → SaysKind AbnfKind.Bad z p s → ⊥ }
    ensures says { (total : ℕ) (t r z : List ℕ) (k : AbnfKind) (p : Span) → Next White First total t (tok k z p) r
        → k ≢ AbnfKind.Bad → (s : Said) × SaysKind k z p s }
    ensures words { (ms : List Marked) (vs ws : List Word) → SayAll ms vs → SayAll ms ws → vs ≡ ws }
    ensures tree { (ws : List Word) → (a b : List Read) → Grammar ws a → Grammar ws b → a ≡ b }
{}

/// Says that a text spells at most one list of definitions or has at most one fault, and never both. Reading it may
/// also fail because an allocation fails.
pub fn one_reading()
    ensures definitions { (text : List ℕ) (a b : List Read) → Reads text a → Reads text b → a ≡ b }
    ensures no_fault { (text : List ℕ) (definitions : List Read) (fault : ReadFault) → IsFaultOf text fault
        → fault ≢ ReadFault.Memory → Reads text definitions → ⊥ }
    ensures one_fault { (text : List ℕ) (a b : ReadFault) → IsFaultOf text a → IsFaultOf text b → a ≢ ReadFault.Memory
        → b ≢ ReadFault.Memory → a ≡ b }
{}

//! Reads a grammar's text.
ghost use Rattle.std.specs.Prelude.{◌≡◌, ◌≢◌, ℕ, ◌<◌, ◌≤◌, [], true, List, length, map};
ghost use Rattle.std.specs.Prelude.{Err, IfOk, IfErr, MatchResult};
ghost use Rattle.ruletable.specs.declared.span.Span.{Span};
ghost use Rattle.pegread.specs.Definitions.{IsTableOf};
ghost use Rattle.pegread.specs.Machine as machine;
ghost use Rattle.pegread.specs.Marks.{IsCut};
ghost use Rattle.pegread.specs.Pattern.{Rule};
ghost use Rattle.pegread.specs.Reading.{Reads, IsFaultOf};
ghost use Rattle.pegread.specs.Spelling.{Grammar};
ghost use Rattle.pegread.specs.Steps.{config_of, rules_from, Takes};
ghost use Rattle.pegread.specs.Predicates.{hopeless_fault};
ghost use Rattle.lexer.specs.GrammarLimits.{max_grammar};
ghost use Rattle.lexer.specs.TokenLists.{tok, tok_of, kind_of};
ghost use Rattle.pegread.specs.Tokens.{AreTokens, Tok, Next};
ghost use Rattle.pegread.specs.Words.{Word, Says, SayAll};

use crate::expr::Peg;
use crate::kind::Kind;
use crate::reader::{Definition, Reader, ReaderStop};
use crate::token_lists::are_marked;
use crate::words::word_in;
use lexer::{MAX_GRAMMAR, MAX_OPEN, Token, have_tokens, keep, tokens};
use ruletable::{Defined, LineRule, Memory, NameCase, ReadFault, RuleTable, line_of};
use std::alloc::Global;

/// Reads a grammar in the syntax of the peg(1) manual, "PEG GRAMMARS".
///
/// A rule's span is that of its name. Where a name is defined again, its first definition stands, and `redefined` has
/// the id of its rule once for each further one.
///
/// # Errors
/// - `TooLong`, before all else and whatever memory does, for a text of more than `MAX_GRAMMAR` bytes.
/// - Else the first token decides with which the text is no prefix of a grammar any more, or which opens one bracket
///   more than `MAX_OPEN` at once: `Depth` for the latter, `CodePredicate` for an action right after `&`, and `Syntax`
///   for any other. The line is that of the token's first byte, where lines end with LF, CR LF or CR.
/// - `Memory` if an allocation fails.
pub fn read_peg(alloc: Global, text: &[u8]) -> Result<Peg, ReadFault>
    ensures long { max_grammar < length text.now → result ≡ Err ReadFault.TooLong }
    ensures found { IfOk result (λ peg. (definitions : List Rule) × Reads text.now definitions
        × IsTableOf definitions peg.rules peg.redefined.items) }
    ensures only { (definitions : List Rule) → Reads text.now definitions
        → MatchResult result (λ peg. IsTableOf definitions peg.rules peg.redefined.items) (λ f. f ≡ ReadFault.Memory) }
    ensures fault { IfErr result (λ f. IsFaultOf text.now f) }
{
    let mut kept = Vec::new(alloc);
    read_keeping(alloc, text, false, &mut kept)
}

/// A grammar as it was read, with the tokens of its text.
#[derive(Drop)]
pub struct KeptPeg<'a> {
    /// The grammar.
    pub peg: Peg,
    /// The tokens, in order.
    pub tokens: Vec<Token<'a, Kind>>,
}

/// Reads a grammar as `read_peg` does, and keeps the tokens of its text, which is cut into them once.
///
/// # Errors
/// Those of `read_peg`.
pub fn read_kept_peg(alloc: Global, text: &[u8]) -> Result<KeptPeg<'_>, ReadFault>
    ensures found { IfOk result (λ kept. (definitions : List Rule) × Reads text.now definitions
        × IsTableOf definitions kept.peg.rules kept.peg.redefined.items) }
    ensures tokens { IfOk result (λ kept. AreTokens (length text.now) text.now (map tok_of kept.tokens.items)) }
    ensures fault { IfErr result (λ f. IsFaultOf text.now f) }
{
    let mut tokens = Vec::new(alloc);
    let peg = read_keeping(alloc, text, true, &mut tokens)?;
    Ok(KeptPeg { peg, tokens })
}

// Reads a grammar, and adds the tokens of its text to the list if they are to be kept.
fn read_keeping<'a>(
    alloc: Global,
    text: &'a [u8],
    keeps: bool,
    kept: &mut Vec<Token<'a, Kind>>,
) -> Result<Peg, ReadFault>
    requires empty { kept.old.items ≡ [] }
    ensures long { max_grammar < length text.now → result ≡ Err ReadFault.TooLong }
    ensures found { IfOk result (λ peg. (definitions : List Rule) × Reads text.now definitions
        × IsTableOf definitions peg.rules peg.redefined.items) }
    ensures kept { IfOk result (λ _. keeps ≡ true → AreTokens (length text.now) text.now (map tok_of kept.new.items)) }
    ensures fault { IfErr result (λ f. IsFaultOf text.now f) }
{
    if text.len() > MAX_GRAMMAR {
        return Err(ReadFault::TooLong);
    }
    let mut reader = Reader::new(alloc);
    take_tokens(alloc, text, &mut reader, keeps, kept)?;
    let Some(definitions) = reader.into_definitions() else {
        unreachable!();
    };
    match peg_of(alloc, definitions) {
        Ok(peg) => Ok(peg),
        Err(Memory) => Err(ReadFault::Memory),
    }
}

// Takes the tokens of a text that is not too long, and adds them to the list if they are to be kept. Only a fault goes
// over them again.
fn take_tokens<'a>(
    alloc: Global,
    text: &'a [u8],
    reader: &mut Reader<'a>,
    keeps: bool,
    kept: &mut Vec<Token<'a, Kind>>,
) -> Result<(), ReadFault>
    requires within { length text.now ≤ max_grammar }
    requires fresh { config_of reader.old ≡ machine.start }
    requires empty { kept.old.items ≡ [] }
    ensures found { IfOk result (λ _. (rules : List Rule) × Reads text.now rules
        × (config_of reader.new ≡ machine.done rules)) }
    ensures kept { IfOk result (λ _. keeps ≡ true → AreTokens (length text.now) text.now (map tok_of kept.new.items)) }
    ensures fault { IfErr result (λ f. IsFaultOf text.now f) }
{
    are_marked();
    let mut before = None;
    for token in tokens::<Kind>(text) {
        let at = token.span.start;
        let kind = token.kind;
        keep(keeps, token, kept)?;
        match take_token(alloc, reader, token) {
            Ok(()) => {
                if reader.open_brackets() > MAX_OPEN {
                    have_tokens::<Kind>(text);
                    return Err(ReadFault::Depth {
                        line: line_of(text, at, LineRule::Any),
                    });
                }
                before = Some(kind);
            }
            Err(ReaderStop::Hopeless) => {
                have_tokens::<Kind>(text);
                return Err(hopeless(before, kind, line_of(text, at, LineRule::Any)));
            }
            Err(ReaderStop::Memory) => return Err(ReadFault::Memory),
        }
    }
    Ok(())
}

// Returns the fault of a token that no grammar goes on with, by its kind and by the kind of the token before it.
fn hopeless(before: Option<Kind>, kind: Kind, line: usize) -> ReadFault
    ensures { result ≡ hopeless_fault before kind line }
{
    match (before, kind) {
        (Some(Kind::Amp), Kind::Action) => ReadFault::CodePredicate { line },
        _ => ReadFault::Syntax { line },
    }
}

// Takes what a token says.
fn take_token<'a>(
    alloc: Global,
    reader: &mut Reader<'a>,
    token: Token<'a, Kind>,
) -> Result<(), ReaderStop>
    requires { IsCut token.kind token.slice.now }
    ensures { Takes (config_of reader.old) (tok_of token.entry) result reader.new }
{
    match word_in(alloc, token) {
        Ok(Some(word)) => reader.take(word),
        Ok(None) => Err(ReaderStop::Hopeless),
        Err(Memory) => Err(ReaderStop::Memory),
    }
}

// Makes the table of these definitions.
fn peg_of(alloc: Global, definitions: Vec<Definition<'_>>) -> Result<Peg, Memory>
    requires { 0 < length definitions.items }
    ensures { IfOk result (λ peg. IsTableOf (rules_from definitions.entry.items) peg.rules peg.redefined.items) }
{
    let mut rules = RuleTable::new(alloc, NameCase::Exact);
    let mut redefined = Vec::new(alloc);
    for definition in definitions {
        match rules.define(definition.name, definition.body, definition.span)? {
            Defined::Added(_) => {}
            Defined::Duplicate(id) => redefined.push(id)?,
        }
    }
    Ok(Peg { rules, redefined })
}

/// Says that a bad token says nothing, every other token of a text says a word, tokens say at most one list of words,
/// and words spell at most one grammar.
pub fn one_tree()
    ensures silent { (z : List ℕ) (p : Span) (w : Word) → Says (tok Kind.Bad z p) w → ⊥ }
    ensures says { (total : ℕ) (t r : List ℕ) (x : Tok) → Next total t x r → kind_of x ≢ Kind.Bad → (w : Word)
        × Says x w }
    ensures words { (ts : List Tok) (vs ws : List Word) → SayAll ts vs → SayAll ts ws → vs ≡ ws }
    ensures tree { (ws : List Word) → (a b : List Rule) → Grammar ws a → Grammar ws b → a ≡ b }
{}

/// Says that a text spells at most one list of definitions or has at most one fault, and never both; but an allocation
/// may fail in reading it.
pub fn one_reading()
    ensures definitions { (text : List ℕ) (a b : List Rule) → Reads text a → Reads text b → a ≡ b }
    ensures no_fault { (text : List ℕ) (definitions : List Rule) (fault : ReadFault) → IsFaultOf text fault
        → fault ≢ ReadFault.Memory → Reads text definitions → ⊥ }
    ensures one_fault { (text : List ℕ) (a b : ReadFault) → IsFaultOf text a → IsFaultOf text b → a ≢ ReadFault.Memory
        → b ≢ ReadFault.Memory → a ≡ b }
{}

//! Usual mistakes in a grammar's text.
ghost use Rattle.std.specs.Prelude.{◌≡◌, ◌++◌, List, length, map, drop, OnOk};
ghost use Rattle.std.specs.List.{list_any};
ghost use Rattle.lexer.specs.TokenLists.{tok_of};
ghost use Rattle.diagnostics.specs.FactRows.{row_of};
ghost use Rattle.pegread.specs.Tokens.{Tok, AreTokens};
ghost use Rattle.pegprint.specs.PegMistakes.{
  bad_rows,
  bad_reported,
  begins_label,
  is_label,
  mistake_reported,
  names_to,
};

use diagnostics::{Fact, facts, find_fact, is_utf16, point_facts, push_fact, push_line};
use lexer::{Token, tokens};
use pegread::Kind;
use ruletable::Memory;

// Curly quotes, the syntax of leg(1), and tokens without an end.
static BAD_FACTS: [Fact; 22] = facts![
    b"\xE2\x80\x98" => b"U+2018 is a curly quote: literals stand in ' or \"",
    b"\xE2\x80\x99" => b"U+2019 is a curly quote: literals stand in ' or \"",
    b"\xE2\x80\x9A" => b"U+201A is a curly quote: literals stand in ' or \"",
    b"\xE2\x80\x9B" => b"U+201B is a curly quote: literals stand in ' or \"",
    b"\xE2\x80\x9C" => b"U+201C is a curly quote: literals stand in ' or \"",
    b"\xE2\x80\x9D" => b"U+201D is a curly quote: literals stand in ' or \"",
    b"\xE2\x80\x9E" => b"U+201E is a curly quote: literals stand in ' or \"",
    b"\xE2\x80\x9F" => b"U+201F is a curly quote: literals stand in ' or \"",
    b"%{" => b"\"%{\", \"%}\", \"%%\" are of leg(1)",
    b"%}" => b"\"%{\", \"%}\", \"%%\" are of leg(1)",
    b"%%" => b"\"%{\", \"%}\", \"%%\" are of leg(1)",
    b"@" => b"\"@{ .. }\" is of leg(1)",
    b";" => b"\";\" is of leg(1): leave it out",
    b"=" => b"a rule is defined by \"<-\": \"=\" is of leg(1)",
    b"'" => b"the literal has no closing quote",
    b"\"" => b"the literal has no closing quote",
    b"[" => b"the class has no closing \"]\"",
    b"{" => b"the action has no closing \"}\"",
    b"\xE2\x86\x90" => b"a rule is defined by \"<-\"",
    b":" => b"a rule is defined by \"<-\"",
    b"|" => b"alternatives have \"/\" between them",
    b"-" => b"names hold letters, digits and \"_\"",
];

fn bad_facts() -> &'static [Fact]
    ensures { map row_of result.now ≡ bad_rows }
{
    &BAD_FACTS
}

// Returns whether bytes begin with `:` and what begins a name.
fn is_colon_name(z: &[u8]) -> bool
    ensures { result ≡ begins_label z.now }
{
    match z {
        [c, b, ..] => *c == b':' && (b.is_ascii_alphabetic() || *b == b'_'),
        _ => false,
    }
}

// Returns whether a token is a name that ends at an offset.
fn is_name_to(at: usize, token: Token<'_, Kind>) -> bool
    ensures { result ≡ names_to at (tok_of token.entry) }
{
    match token.kind {
        Kind::Ident => token.span.end == at,
        _ => false,
    }
}

// Returns whether a name that is not the text's first token ends at an offset.
fn has_name_to(text: &[u8], at: usize) -> bool
    ensures { (all : List Tok) → AreTokens (length text.now) text.now all
        → result ≡ list_any (names_to at) (drop 1 all) }
{
    let mut rest = tokens::<Kind>(text);
    if rest.next().is_none() {
        return false;
    }
    for token in rest {
        if is_name_to(at, token) {
            return true;
        }
    }
    false
}

// Returns whether a token begins with `:` and a name, right after a name that is not the text's first token.
fn is_leg_label(text: &[u8], token: Token<'_, Kind>) -> bool
    ensures { (all : List Tok) → AreTokens (length text.now) text.now all
        → result ≡ is_label all token.entry.span.start token.entry.slice.now }
{
    is_colon_name(token.slice) && has_name_to(text, token.span.start)
}

// Adds the line of a token that is none of peg(1).
fn push_bad(out: &mut Vec<u8>, text: &[u8], token: Token<'_, Kind>) -> Result<(), Memory>
    ensures { OnOk result ((all : List Tok) → AreTokens (length text.now) text.now all → out.new.items
        ≡ out.old.items ++ bad_reported text.now all token.entry.span.start token.entry.slice.now) }
{
    if is_utf16(text) {
        return push_line(out, b"the text is UTF-16, not UTF-8");
    }
    if is_leg_label(text, token) {
        return push_line(out, b"\"name:element\" is of leg(1)");
    }
    if let Some(reported) = find_fact(point_facts(), token.slice) {
        return push_line(out, reported);
    }
    push_fact(out, bad_facts(), token.slice)
}

/// Adds the line of the first mistake that the deciding token of a text shows, if it shows one.
///
/// `Memory` if an allocation fails.
pub(crate) fn push_mistake(
    out: &mut Vec<u8>,
    text: &[u8],
    token: Token<'_, Kind>,
) -> Result<(), Memory>
    ensures { OnOk result ((all : List Tok) → AreTokens (length text.now) text.now all
        → out.new.items ≡ out.old.items ++ mistake_reported text.now all (tok_of token.entry)) }
{
    match token.kind {
        Kind::Bad => push_bad(out, text, token),
        _ => Ok(()),
    }
}

//! Explanations of faults of a grammar in ABNF.
ghost use Rattle.std.specs.Prelude.{◌≡◌, ℕ, ◌≤◌, ◌++◌, ◌&&◌, List, Some, true, length, map, codes, OnOk, IfOk};
ghost use Rattle.std.specs.Option.{option_map};
ghost use Rattle.lexer.specs.GrammarLimits.{max_grammar};
ghost use Rattle.lexer.specs.TokenLists.{Tok};
ghost use Rattle.diagnostics.specs.FactRows.{row_of};
ghost use Rattle.diagnostics.specs.PhraseLists.{listed};
ghost use Rattle.diagnostics.specs.ReportedPhrases.{AreAllReported};
ghost use Rattle.abnfread.specs.AbnfReading.{IsFaultOf};
ghost use Rattle.abnfread.specs.MarkedTokens.{AreTokens, marked_of};
ghost use Rattle.abnfexplain.specs.AbnfDecisions.{Decides, NoneDecides};
ghost use Rattle.abnfexplain.specs.AbnfExpected.{phrases};
ghost use Rattle.abnfexplain.specs.AbnfExplained.{bad_rows, token_position, bad_fact, indent, line_fact, name_fact};
ghost use Rattle.abnfexplain.specs.AbnfExplained.{is_later_name as later_name, other_facts, token_facts};
ghost use Rattle.abnfexplain.specs.AbnfExplained.{Why, Explains};
ghost use Rattle.abnfexplain.specs.AbnfPositions.{position_allows};
ghost use Rattle.abnfexplain.specs.AbnfStands.{defines as defining};
ghost use Rattle.abnfread.specs.declared.marks.MarkedToken.{MarkedToken as Marks};

use crate::abnf_decide::{Decision, Refused, deciding_token};
use crate::abnf_mistakes::shown_mistake;
use crate::abnf_phrases::reported_phrases;
use crate::abnf_stand::Position;
use abnfread::{AbnfKind, MarkedToken};
use diagnostics::{
    Fact, facts, line_around, push_fact, push_line, push_number, push_phrases, push_position,
};
use lexer::tokens_make_up;
use ruletable::{LineRule, Memory, ReadFault};
use std::alloc::Global;

static BAD_FACTS: [Fact; 11] = facts![
    b"|" => b"alternatives have \"/\" between them",
    b":" => b"a rule is defined by \"=\"",
    b"_" => b"names hold letters, digits and \"-\"",
    b"#" => b"\"#\" is no part of ABNF in RFC 5234; lists of RFC 9110, section 5.6.1, are to be written out",
    b"'" => b"texts stand in double quotes",
    b"\"" => b"the text has no closing quote, or holds a byte that is not %x20-7E",
    b"<" => b"the prose has no closing \">\", or holds a byte that is not %x20-7E",
    b"%" => b"a number is %x, %d or %b and digits",
    b"{" => b"repetitions are written *(e)",
    b"+" => b"repetitions are written 1*e",
    b"?" => b"options are written [e]",
];

fn bad_facts() -> &'static [Fact]
    ensures { map row_of result.now ≡ bad_rows }
{
    &BAD_FACTS
}

// Adds where a token stands.
fn push_token_position(out: &mut Vec<u8>, text: &[u8], token: MarkedToken<'_>) -> Result<(), Memory>
    requires { token.token.span.start ≤ length text.now }
    ensures { OnOk result (out.new.items ≡ out.old.items ++ token_position text.now (marked_of token.entry)) }
{
    match token.token.kind {
        AbnfKind::End => {
            out.extend_from_slice(b"  at the end of the text: ")?;
            Ok(())
        }
        _ => push_position(out, text, token.token.span.start, LineRule::Lf),
    }
}

// Adds what the first bytes of a bad token show.
fn push_bad_fact(out: &mut Vec<u8>, token: MarkedToken<'_>) -> Result<(), Memory>
    ensures { OnOk result (out.new.items ≡ out.old.items ++ bad_fact (marked_of token.entry)) }
{
    match token.token.kind {
        AbnfKind::Bad => push_fact(out, bad_facts(), token.token.slice),
        _ => Ok(()),
    }
}

/// Returns how many bytes stand before the token on its line.
pub(crate) fn indent_of(text: &[u8], token: MarkedToken<'_>) -> usize
    requires { token.token.span.start ≤ length text.now }
    ensures { result ≡ indent text.now (marked_of token.entry) }
{
    line_around(text, token.token.span.start, LineRule::Lf).before
}

// Adds how the line of a token that begins a rule is indented.
fn push_line_fact(
    out: &mut Vec<u8>,
    text: &[u8],
    origin: Option<MarkedToken<'_>>,
    token: MarkedToken<'_>,
) -> Result<(), Memory>
    requires first { (o : Marks) → origin ≡ Some o → o.token.span.start ≤ length text.now }
    requires within { token.token.span.start ≤ length text.now }
    ensures { OnOk result (out.new.items ≡ out.old.items ++ line_fact text.now (option_map marked_of origin.entry)
        (marked_of token.entry)) }
{
    let Some(origin) = origin else {
        return Ok(());
    };
    if !token.first {
        return Ok(());
    }
    out.extend_from_slice(b"  its line begins a rule: it is indented by ")?;
    push_number(out, indent_of(text, token))?;
    out.extend_from_slice(b", the first by ")?;
    push_number(out, indent_of(text, origin))?;
    out.extend_from_slice(b"\n")?;
    Ok(())
}

fn is_later_name(token: MarkedToken<'_>) -> bool
    ensures { result ≡ later_name (marked_of token.entry) }
{
    matches!(token.token.kind, AbnfKind::Name) && !token.first
}

fn defines(kind: AbnfKind) -> bool
    ensures { result ≡ defining kind }
{
    matches!(kind, AbnfKind::Is | AbnfKind::Adds)
}

// Whether the token would define the name before it, which begins no rule.
fn defines_later_name(before: MarkedToken<'_>, token: MarkedToken<'_>) -> bool
    ensures { result ≡ (later_name (marked_of before.entry) && defining token.entry.token.kind) }
{
    is_later_name(before) && defines(token.token.kind)
}

// Adds how far rules may be indented, where a name that begins none would be defined.
fn push_name_fact(
    out: &mut Vec<u8>,
    text: &[u8],
    origin: Option<MarkedToken<'_>>,
    before: Option<MarkedToken<'_>>,
    token: MarkedToken<'_>,
) -> Result<(), Memory>
    requires { (o : Marks) → origin ≡ Some o → o.token.span.start ≤ length text.now }
    ensures { OnOk result (out.new.items ≡ out.old.items ++ name_fact text.now (option_map marked_of origin.entry)
        (option_map marked_of before.entry) (marked_of token.entry)) }
{
    let Some(origin) = origin else {
        return Ok(());
    };
    let Some(before) = before else {
        return Ok(());
    };
    if !defines_later_name(before, token) {
        return Ok(());
    }
    out.extend_from_slice(
        b"  the name before it does not begin a rule: rules are indented by at most ",
    )?;
    push_number(out, indent_of(text, origin))?;
    out.extend_from_slice(b"\n")?;
    Ok(())
}

// Adds what can stand there.
fn push_expected(alloc: Global, out: &mut Vec<u8>, position: &Position) -> Result<(), Memory>
    ensures { OnOk result ((reported : List (List ℕ)) × AreAllReported
        (λ k. position_allows position.now k ≡ true) phrases reported
        × (out.new.items ≡ out.old.items ++ listed reported)) }
{
    let reported = reported_phrases(alloc, position)?;
    push_phrases(out, reported.as_slice())?;
    Ok(())
}

// Adds what is reported of a token that shows no usual mistake.
fn push_other_facts(
    out: &mut Vec<u8>,
    text: &[u8],
    origin: Option<MarkedToken<'_>>,
    before: Option<MarkedToken<'_>>,
    token: MarkedToken<'_>,
) -> Result<(), Memory>
    requires first { (o : Marks) → origin ≡ Some o → o.token.span.start ≤ length text.now }
    requires within { token.token.span.start ≤ length text.now }
    ensures { OnOk result (out.new.items ≡ out.old.items ++ other_facts text.now (option_map marked_of origin.entry)
        (option_map marked_of before.entry) (marked_of token.entry)) }
{
    push_bad_fact(out, token)?;
    push_line_fact(out, text, origin, token)?;
    push_name_fact(out, text, origin, before, token)?;
    Ok(())
}

// Adds what is reported after what can stand there.
fn push_token_facts(out: &mut Vec<u8>, text: &[u8], refused: &Refused<'_>) -> Result<(), Memory>
    requires first { (o : Marks) → refused.now.origin ≡ Some o → o.token.span.start ≤ length text.now }
    requires within { refused.now.token.token.span.start ≤ length text.now }
    ensures { OnOk result (out.new.items ≡ out.old.items ++ token_facts text.now
        (option_map marked_of refused.now.origin) (option_map marked_of refused.now.earlier)
        (option_map marked_of refused.now.before) (marked_of refused.now.token)) }
{
    match shown_mistake(text, refused.earlier, refused.before, refused.token) {
        Some(reported) => push_line(out, reported),
        None => push_other_facts(out, text, refused.origin, refused.before, refused.token),
    }
}

// The lines on a token that goes on no grammar.
fn hopeless_lines(alloc: Global, text: &[u8], refused: &Refused<'_>) -> Result<Vec<u8>, Memory>
    requires first { (o : Marks) → refused.now.origin ≡ Some o → o.token.span.start ≤ length text.now }
    requires within { refused.now.token.token.span.start ≤ length text.now }
    ensures { IfOk result (λ v. (reported : List (List ℕ)) × AreAllReported
        (λ k. position_allows refused.now.position k ≡ true) phrases
        reported × (v.items ≡ token_position text.now (marked_of refused.now.token)
        ++ (codes "expected " ++ (listed reported
        ++ (codes "\n" ++ token_facts text.now (option_map marked_of refused.now.origin)
        (option_map marked_of refused.now.earlier) (option_map marked_of refused.now.before)
        (marked_of refused.now.token)))))) }
{
    let mut out = Vec::new(alloc);
    push_token_position(&mut out, text, refused.token)?;
    out.extend_from_slice(b"expected ")?;
    push_expected(alloc, &mut out, &refused.position)?;
    out.extend_from_slice(b"\n")?;
    push_token_facts(&mut out, text, refused)?;
    Ok(out)
}

// The line on a token that passes a limit.
fn limit_lines(
    alloc: Global,
    text: &[u8],
    token: MarkedToken<'_>,
    reported: &[u8],
) -> Result<Vec<u8>, Memory>
    requires { token.token.span.start ≤ length text.now }
    ensures { IfOk result (λ v. v.items ≡ token_position text.now (marked_of token.entry) ++ reported.now) }
{
    let mut out = Vec::new(alloc);
    push_token_position(&mut out, text, token)?;
    out.extend_from_slice(reported)?;
    Ok(out)
}

/// Returns the lines on the token that decides.
pub(crate) fn token_lines(
    alloc: Global,
    text: &[u8],
    decision: &Decision<'_>,
) -> Result<Vec<u8>, Memory>
    requires within { length text.now ≤ max_grammar }
    requires decides { Decides text.now decision.now }
    ensures { IfOk result (λ why. Why text.now why.items) }
{
    tokens_make_up::<AbnfKind>();
    match decision {
        Decision::Hopeless(refused) => hopeless_lines(alloc, text, refused),
        Decision::TooDeep(token) => {
            limit_lines(alloc, text, *token, b"200 brackets are open before it\n")
        }
        Decision::TooLarge(token) => limit_lines(alloc, text, *token, b"above 4294967295\n"),
    }
}

// The lines on the token of a text that decides.
fn explain_token(alloc: Global, text: &[u8]) -> Result<Vec<u8>, Memory>
    requires within { length text.now ≤ max_grammar }
    requires tokens { (ts : List (Tok AbnfKind)) × AreTokens text.now ts }
    requires decided { NoneDecides text.now → ⊥ }
    ensures { IfOk result (λ why. Why text.now why.items) }
{
    match deciding_token(alloc, text)? {
        Some(decision) => token_lines(alloc, text, &decision),
        None => unreachable!(),
    }
}

/// Returns the lines that explain the fault of a grammar's text. They show a picture of the token that decides, its
/// column, the tokens that can stand in its place, and facts on it and on the tokens before. There are none if an
/// allocation fails.
///
/// # Errors
/// `Memory` if an allocation fails.
pub fn explain_abnf_fault(alloc: Global, text: &[u8], fault: ReadFault) -> Result<Vec<u8>, Memory>
    requires { IsFaultOf text.now fault }
    ensures { IfOk result (λ why. Explains text.now fault why.items) }
{
    match fault {
        ReadFault::Memory => Ok(Vec::new(alloc)),
        ReadFault::TooLong => {
            Ok(Vec::from_slice(alloc, b"  a grammar has at most 1048576 bytes\n")?)
        }
        _ => explain_token(alloc, text),
    }
}

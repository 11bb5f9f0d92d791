//! Writes a grammar's canonical text.
ghost use Rattle.std.specs.Prelude.{◌≡◌, ◌≤◌, ◌++◌, ◌==◌, ℕ, cond, List, [], length, false};
ghost use Rattle.lexer.specs.GrammarLimits.{max_grammar};
ghost use Rattle.ruletable.specs.Writing.{Writes, Flags};
ghost use Rattle.pegprint.specs.Brackets.{wraps, around};
ghost use Rattle.pegprint.specs.Canon as canon;
ghost use Rattle.pegprint.specs.CanonMembers.{member_text};
ghost use Rattle.pegprint.specs.ReadBack.{IsRead, ReadsAs, ReadsFormed, ReadBack, SpansUnseen, PrintsItself};
ghost use Rattle.pegread.specs.PegViews.{pattern_of, patterns_of, rules_of};

use crate::position::{Context, is_wrapped};
use crate::print_bytes::{print_action, print_literal, print_set};
use pegread::{Expr, Peg};
use ruletable::{Sink, WriteFault, write_pieces, write_whole};

// An expression within another, in parentheses where it needs them.
#[cycle(printing)]
fn print_at<W: Sink>(e: &Expr, position: Context, w: &mut W) -> Result<(), WriteFault>
    requires { W.failed w.old ≡ false }
    ensures bytes { Writes (W.contents w.old) (W.contents w.new)
        (around (wraps position (pattern_of e.now)) (canon.text_of (pattern_of e.now))) result }
    ensures flag { Flags (W.failed w.old) (W.failed w.new) result }
{
    if !is_wrapped(e, position) {
        return print_expr(e, w);
    }
    match write_whole(w, b"(") {
        Ok(()) => {}
        Err(fault) => return Err(fault),
    }
    match print_expr(e, w) {
        Ok(()) => write_whole(w, b")"),
        Err(fault) => Err(fault),
    }
}

/// Writes an expression's canonical text as it stands in a sequence: in parentheses where it needs them. Returns
/// `WriteFault` where the writer fails; then a prefix of the text is written.
pub fn print_member<W: Sink>(e: &Expr, w: &mut W) -> Result<(), WriteFault>
    requires { W.failed w.old ≡ false }
    ensures bytes { Writes (W.contents w.old) (W.contents w.new)
        (member_text (pattern_of e.now)) result }
    ensures flag { Flags (W.failed w.old) (W.failed w.new) result }
{
    print_at(e, Context::Member, w)
}

// An operand and its suffix.
#[cycle(printing)]
fn print_suffixed<W: Sink>(operand: &Expr, mark: &[u8], w: &mut W) -> Result<(), WriteFault>
    requires { W.failed w.old ≡ false }
    ensures bytes { Writes (W.contents w.old) (W.contents w.new)
        (around (wraps Context.OfSuffix (pattern_of operand.now)) (canon.text_of (pattern_of operand.now)) ++ mark.now)
        result }
    ensures flag { Flags (W.failed w.old) (W.failed w.new) result }
{
    match print_at(operand, Context::OfSuffix, w) {
        Ok(()) => write_whole(w, mark),
        Err(fault) => Err(fault),
    }
}

// A prefix and its operand.
#[cycle(printing)]
fn print_prefixed<W: Sink>(
    mark: &[u8],
    operand: &Expr,
    position: Context,
    w: &mut W,
) -> Result<(), WriteFault>
    requires { W.failed w.old ≡ false }
    ensures bytes { Writes (W.contents w.old) (W.contents w.new)
        (mark.now ++ around (wraps position (pattern_of operand.now)) (canon.text_of (pattern_of operand.now))) result }
    ensures flag { Flags (W.failed w.old) (W.failed w.new) result }
{
    match write_whole(w, mark) {
        Ok(()) => print_at(operand, position, w),
        Err(fault) => Err(fault),
    }
}

/// Writes an expression's canonical text, as it stands as a rule's body. Returns `WriteFault` where the writer fails;
/// then a prefix of the text is written.
///
/// It takes no memory, and recurses no deeper than the expression.
#[cycle(printing)]
pub fn print_expr<W: Sink>(e: &Expr, w: &mut W) -> Result<(), WriteFault>
    requires { W.failed w.old ≡ false }
    ensures bytes { Writes (W.contents w.old) (W.contents w.new) (canon.text_of (pattern_of e.now)) result }
    ensures flag { Flags (W.failed w.old) (W.failed w.new) result }
{
    match e {
        Expr::Any => write_whole(w, b"."),
        Expr::Bytes(bytes) => print_literal(bytes, w),
        Expr::Set(members) => print_set(members, w),
        Expr::Name(name) => write_whole(w, name),
        Expr::Seq(members) => print_all(members, Context::Member, b" ", w),
        Expr::Choice(alternatives) => print_all(alternatives, Context::Alternative, b" / ", w),
        Expr::Star(operand) => print_suffixed(operand, b"*", w),
        Expr::Plus(operand) => print_suffixed(operand, b"+", w),
        Expr::Opt(operand) => print_suffixed(operand, b"?", w),
        Expr::And(operand) => print_prefixed(b"&", operand, Context::OfAmp, w),
        Expr::Not(operand) => print_prefixed(b"!", operand, Context::OfPrefix, w),
        Expr::Act(template) => print_action(template, w),
        Expr::Open => write_whole(w, b"<"),
        Expr::Close => write_whole(w, b">"),
    }
}

// Members or alternatives, with a mark between each two.
#[cycle(printing)]
fn print_all<W: Sink>(
    es: &[Expr],
    position: Context,
    mark: &[u8],
    w: &mut W,
) -> Result<(), WriteFault>
    requires { W.failed w.old ≡ false }
    ensures bytes { Writes (W.contents w.old) (W.contents w.new) (canon.joined position mark.now (patterns_of es.now))
        result }
    ensures flag { Flags (W.failed w.old) (W.failed w.new) result }
{
    for (i, e) in es.iter().enumerate() {
        match print_mark(i, mark, w) {
            Ok(()) => {}
            Err(fault) => return Err(fault),
        }
        match print_at(e, position, w) {
            Ok(()) => {}
            Err(fault) => return Err(fault),
        }
    }
    Ok(())
}

// The mark before all but the first.
fn print_mark<W: Sink>(i: usize, mark: &[u8], w: &mut W) -> Result<(), WriteFault>
    requires { W.failed w.old ≡ false }
    ensures bytes { Writes (W.contents w.old) (W.contents w.new) (cond (i == 0) [] mark.now) result }
    ensures flag { Flags (W.failed w.old) (W.failed w.new) result }
{
    if i == 0 {
        return write_whole(w, &[]);
    }
    write_whole(w, mark)
}

// A definition: the name, the arrow, the body and LF.
fn print_definition<W: Sink>(name: &[u8], body: &Expr, w: &mut W) -> Result<(), WriteFault>
    requires { W.failed w.old ≡ false }
    ensures bytes { Writes (W.contents w.old) (W.contents w.new) (canon.definition_text name.now (pattern_of body.now))
        result }
    ensures flag { Flags (W.failed w.old) (W.failed w.new) result }
{
    match write_pieces(w, &[name, b" <- "]) {
        Ok(()) => {}
        Err(fault) => return Err(fault),
    }
    match print_expr(body, w) {
        Ok(()) => write_whole(w, b"\n"),
        Err(fault) => Err(fault),
    }
}

/// Writes a grammar's canonical text: each rule in order, with no parentheses but those that it needs. Returns
/// `WriteFault` where the writer fails; then a prefix of the text is written.
///
/// The canonical text reads as the same rules, but for their spans, and as nothing else. This holds if the grammar was
/// read from some text that defines no name again, and the canonical text has at most `MAX_GRAMMAR` bytes.
///
/// It takes no memory, and recurses no deeper than the expressions.
pub fn print_peg<W: Sink>(peg: &Peg, w: &mut W) -> Result<(), WriteFault>
    requires { W.failed w.old ≡ false }
    ensures bytes { Writes (W.contents w.old) (W.contents w.new) (canon.grammar_text (rules_of peg.now.rules)) result }
    ensures flag { Flags (W.failed w.old) (W.failed w.new) result }
    ensures read_back { (source : List ℕ) → IsRead source peg.now.rules peg.now.redefined.items
        → length (canon.grammar_text (rules_of peg.now.rules)) ≤ max_grammar
        → ReadsAs (canon.grammar_text (rules_of peg.now.rules)) (rules_of peg.now.rules) }
{
    for id in 0..peg.rules.len() {
        match print_definition(peg.rules.name(id), peg.rules.body(id), w) {
            Ok(()) => {}
            Err(fault) => return Err(fault),
        }
    }
    Ok(())
}

/// Says the laws of canonical texts. What a text reads as, its canonical text reads as too, but for spans, and as
/// nothing else; no bracket is too many. The canonical text does not depend on spans, so that of a canonical text is
/// itself. And what a text reads as is formed: names are names, the braces of templates match, no sequence has one
/// member, and no choice fewer than two alternatives.
pub fn is_read_back()
    ensures read_back { ReadBack }
    ensures spans { SpansUnseen }
    ensures itself { PrintsItself }
    ensures formed { ReadsFormed }
{}

//! Writes a grammar's canonical text.
ghost use Rattle.std.specs.Prelude.{◌≡◌, ◌≤◌, ◌++◌, ◌∷◌, ◌==◌, ℕ, cond, List, [], length, false};
ghost use Rattle.lexer.specs.GrammarLimits.{max_grammar};
ghost use Rattle.ruletable.specs.Writing.{Writes, Flags};
ghost use Rattle.abnfread.specs.Element as element;
ghost use Rattle.abnfread.specs.AbnfViews.{element_of, elements_of, rules_of};
ghost use Rattle.abnfprint.specs.AbnfReadBack.{IsRead, ReadsAs, ReadsFormed, ReadBack, SpansUnseen, PrintsItself};
ghost use Rattle.abnfprint.specs.CanonicalAbnf as canon;

use crate::position::{Context, is_wrapped};
use crate::terminal::{print_prose, print_range, print_repeat, print_text, print_values};
use abnfread::{Abnf, Elem};
use ruletable::{Sink, WriteFault, write_pieces, write_whole};

// An element within another, in parentheses where it needs them.
#[cycle(printing)]
fn print_at<W: Sink>(e: &Elem, position: Context, w: &mut W) -> Result<(), WriteFault>
    requires { W.failed w.old ≡ false }
    ensures bytes { Writes (W.contents w.old) (W.contents w.new)
        (canon.around (canon.wraps position (element_of e.now)) (canon.text_of (element_of e.now))) result }
    ensures flag { Flags (W.failed w.old) (W.failed w.new) result }
{
    if is_wrapped(e, position) {
        print_between(b"(", e, b")", w)
    } else {
        print_elem(e, w)
    }
}

// An element between brackets.
#[cycle(printing)]
fn print_between<W: Sink>(
    before: &[u8],
    e: &Elem,
    after: &[u8],
    w: &mut W,
) -> Result<(), WriteFault>
    requires { W.failed w.old ≡ false }
    ensures bytes { Writes (W.contents w.old) (W.contents w.new)
        (before.now ++ (canon.text_of (element_of e.now) ++ after.now)) result }
    ensures flag { Flags (W.failed w.old) (W.failed w.new) result }
{
    match write_whole(w, before) {
        Ok(()) => {}
        Err(fault) => return Err(fault),
    }
    match print_elem(e, w) {
        Ok(()) => write_whole(w, after),
        Err(fault) => Err(fault),
    }
}

// How often, and the operand.
#[cycle(printing)]
fn print_repeated<W: Sink>(
    least: u32,
    most: Option<u32>,
    operand: &Elem,
    w: &mut W,
) -> Result<(), WriteFault>
    requires { W.failed w.old ≡ false }
    ensures bytes { Writes (W.contents w.old) (W.contents w.new)
        (canon.text_of (element.Rep least most (element_of operand.now))) result }
    ensures flag { Flags (W.failed w.old) (W.failed w.new) result }
{
    match print_repeat(least, most, w) {
        Ok(()) => print_at(operand, Context::Repeated, w),
        Err(fault) => Err(fault),
    }
}

/// Writes the canonical text of an element, as it stands as a rule's body: on one line, and with no parentheses but
/// those that it needs within. `WriteFault` if the writer fails; then a prefix of the text is written. It takes no
/// memory, and recurses no deeper than the element.
#[cycle(printing)]
pub fn print_elem<W: Sink>(e: &Elem, w: &mut W) -> Result<(), WriteFault>
    requires { W.failed w.old ≡ false }
    ensures bytes { Writes (W.contents w.old) (W.contents w.new) (canon.text_of (element_of e.now)) result }
    ensures flag { Flags (W.failed w.old) (W.failed w.new) result }
{
    match e {
        Elem::Text { folds, text } => print_text(*folds, text, w),
        Elem::Values(values) => print_values(values, w),
        Elem::Range { low, high } => print_range(*low, *high, w),
        Elem::Concat(members) => print_all(members, Context::Member, b" ", w),
        Elem::Alt(alternatives) => print_all(alternatives, Context::Alternative, b" / ", w),
        Elem::Rep {
            least,
            most,
            operand,
        } => print_repeated(*least, *most, operand, w),
        Elem::Opt(body) => print_between(b"[", body, b"]", w),
        Elem::Name(name) => write_whole(w, name),
        Elem::Prose(text) => print_prose(text, w),
    }
}

// Members or alternatives, with a mark between each two.
#[cycle(printing)]
fn print_all<W: Sink>(
    es: &[Elem],
    position: Context,
    mark: &[u8],
    w: &mut W,
) -> Result<(), WriteFault>
    requires { W.failed w.old ≡ false }
    ensures bytes { Writes (W.contents w.old) (W.contents w.new) (canon.joined position mark.now (elements_of es.now))
        result }
    ensures flag { Flags (W.failed w.old) (W.failed w.new) result }
{
    for (i, e) in es.iter().enumerate() {
        match print_mark(i, mark, w) {
            Ok(()) => {}
            Err(fault) => return Err(fault),
        }
        match print_at(e, position, w) {
            Ok(()) => {}
            Err(fault) => return Err(fault),
        }
    }
    Ok(())
}

// The mark before all but the first.
fn print_mark<W: Sink>(i: usize, mark: &[u8], w: &mut W) -> Result<(), WriteFault>
    requires { W.failed w.old ≡ false }
    ensures bytes { Writes (W.contents w.old) (W.contents w.new) (cond (i == 0) [] mark.now) result }
    ensures flag { Flags (W.failed w.old) (W.failed w.new) result }
{
    if i == 0 {
        return write_whole(w, &[]);
    }
    write_whole(w, mark)
}

// A definition: the name, ` = `, the body and LF.
fn print_definition<W: Sink>(name: &[u8], body: &Elem, w: &mut W) -> Result<(), WriteFault>
    requires { W.failed w.old ≡ false }
    ensures bytes { Writes (W.contents w.old) (W.contents w.new) (canon.definition_text name.now (element_of body.now))
        result }
    ensures flag { Flags (W.failed w.old) (W.failed w.new) result }
{
    match write_pieces(w, &[name, b" = "]) {
        Ok(()) => {}
        Err(fault) => return Err(fault),
    }
    match print_elem(body, w) {
        Ok(()) => write_whole(w, b"\n"),
        Err(fault) => Err(fault),
    }
}

/// Writes a grammar's canonical text: each of the file's rules in order by `=`, with all its alternatives, on one line,
/// and with no parentheses but those that it needs. Core rules that the file leaves alone aren't written. `WriteFault`
/// where the writer fails; then a prefix of the text is written.
///
/// Where the grammar was read from some text, and the canonical text has at most `MAX_GRAMMAR` bytes, that text reads
/// as the same rules, but for their spans, and as nothing else. It takes no memory, and recurses no deeper than the
/// elements.
pub fn print_abnf<W: Sink>(abnf: &Abnf, w: &mut W) -> Result<(), WriteFault>
    requires { W.failed w.old ≡ false }
    ensures bytes { Writes (W.contents w.old) (W.contents w.new) (canon.grammar_text (rules_of abnf.now.rules)) result }
    ensures flag { Flags (W.failed w.old) (W.failed w.new) result }
    ensures read_back { (source : List ℕ) → IsRead source abnf.now.rules abnf.now.redefined.items
        abnf.now.extended.items → length (canon.grammar_text (rules_of abnf.now.rules)) ≤ max_grammar
        → ReadsAs (canon.grammar_text (rules_of abnf.now.rules)) (rules_of abnf.now.rules) }
{
    for id in 0..abnf.rules.len() {
        match print_definition(abnf.rules.name(id), abnf.rules.body(id), w) {
            Ok(()) => {}
            Err(fault) => return Err(fault),
        }
    }
    Ok(())
}

/// Laws of canonical texts. The rules that a text reads as, their canonical text reads as too, but for spans, and as
/// nothing else; no bracket is too many, and no number too large. The canonical text has no spans, so that of
/// a canonical text is itself. And the rules that a text reads as are formed: names are names, texts and prose hold
/// what they may, no concatenation or alternation has fewer than two parts, and no number is over its limit.
pub fn is_abnf_read_back()
    ensures read_back { ReadBack }
    ensures spans { SpansUnseen }
    ensures itself { PrintsItself }
    ensures formed { ReadsFormed }
{}

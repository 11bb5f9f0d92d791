//! The text of hints.
ghost use Rattle.std.specs.Prelude.{◌≡◌, ◌++◌, ℕ, List, codes, map, IfOk, OnOk};
ghost use Rattle.std.specs.List.{flat_map};
ghost use Rattle.diagnostics.specs.MentionLines.{mention_lines_by};
ghost use Rattle.diagnostics.specs.ShownBytes.{cut};
ghost use Rattle.pegprint.specs.Canon.{text_of as canonical};
ghost use Rattle.pegread.specs.Pattern.{Bytes};
ghost use Rattle.pegread.specs.PegViews.{pattern_of};
ghost use Rattle.pegexplain.specs.CodeHints.{hidden_found, hint_found, literal_at};
ghost use Rattle.pegexplain.specs.PegHints.{
  ArePegHints,
  earlier_shown,
  hint_line,
  hint_reported,
  hints_reported,
  later_shown,
  literal_shown,
  rule_reported,
  shown_literal,
  text_or_empty,
};
ghost use Rattle.pegexplain.specs.PegNotes.{ArePegPositions};

use crate::PegPositions;
use crate::hints::alternatives::Hidden;
use crate::hints::ends::push_lone_ends;
use crate::hints::held::push_held_definitions;
use crate::hints::hints::{Hint, all_hints};
use crate::hints::known::{KnownRules, named_literal};
use crate::hints::lines::{MAX_HINTS, line_of};
use crate::hints::why::Why;
use crate::loops::text_of;
use diagnostics::{push_cut, push_more, push_number};
use pegprint::print_literal;
use pegread::Expr;
use ruletable::{Memory, RuleTable, SinkOf};
use std::alloc::Global;

// The canonical text of a literal.
fn literal_text(alloc: Global, bytes: &[u8]) -> Result<Vec<u8>, Memory>
    ensures { IfOk result (λ text. text.items ≡ canonical (Bytes bytes.now)) }
{
    let mut text = SinkOf::new(Vec::new(alloc));
    match print_literal(bytes, &mut text) {
        Ok(()) => Ok(text.into_inner()),
        Err(_) => Err(Memory),
    }
}

// Adds an expression.
fn push_expr(alloc: Global, out: &mut Vec<u8>, e: &Expr) -> Result<(), Memory>
    ensures { OnOk result (out.new.items ≡ out.old.items ++ cut (canonical (pattern_of e.now))) }
{
    let text = text_of(alloc, e)?;
    push_cut(out, text.as_slice())
}

// Adds a text, or that there is none.
fn push_text_or_empty(out: &mut Vec<u8>, text: &[u8]) -> Result<(), Memory>
    ensures { OnOk result (out.new.items ≡ out.old.items ++ text_or_empty text.now) }
{
    if text.is_empty() {
        out.extend_from_slice(b"an empty alternative")?;
        return Ok(());
    }
    push_cut(out, text)
}

// Adds a literal in parentheses.
fn push_in_parentheses(alloc: Global, out: &mut Vec<u8>, bytes: &[u8]) -> Result<(), Memory>
    ensures { OnOk result (out.new.items ≡ out.old.items ++ (codes " (" ++ (cut (canonical (Bytes bytes.now))
        ++ codes ")"))) }
{
    let text = literal_text(alloc, bytes)?;
    out.extend_from_slice(b" (")?;
    push_cut(out, text.as_slice())?;
    out.extend_from_slice(b")")?;
    Ok(())
}

// Adds the literal that a name stands for, if it stands for one.
fn push_literal(
    alloc: Global,
    out: &mut Vec<u8>,
    rules: &RuleTable<Expr>,
    e: &Expr,
) -> Result<(), Memory>
    ensures { OnOk result (out.new.items ≡ out.old.items ++ literal_shown (literal_at rules.now) (pattern_of e.now)) }
{
    let Expr::Name(name) = e else {
        return Ok(());
    };
    match named_literal(rules, name)? {
        Some(bytes) => push_in_parentheses(alloc, out, bytes),
        None => Ok(()),
    }
}

// Adds a literal, or a name and its literal.
fn push_shown_literal(
    alloc: Global,
    out: &mut Vec<u8>,
    rules: &RuleTable<Expr>,
    e: &Expr,
) -> Result<(), Memory>
    ensures { OnOk result (out.new.items ≡ out.old.items ++ shown_literal (literal_at rules.now) (pattern_of e.now)) }
{
    push_expr(alloc, out, e)?;
    push_literal(alloc, out, rules, e)
}

// Adds the later alternative.
fn push_later(
    alloc: Global,
    out: &mut Vec<u8>,
    rules: &RuleTable<Expr>,
    why: Why,
    e: &Expr,
) -> Result<(), Memory>
    ensures { OnOk result (out.new.items ≡ out.old.items
        ++ later_shown (literal_at rules.now) why (pattern_of e.now)) }
{
    match why {
        Why::NeverFails | Why::TakesAny => push_expr(alloc, out, e),
        Why::Prefix => push_shown_literal(alloc, out, rules, e),
    }
}

// Adds the alternative before it that is taken first, and why.
fn push_earlier(
    alloc: Global,
    out: &mut Vec<u8>,
    rules: &RuleTable<Expr>,
    why: Why,
    e: &Expr,
) -> Result<(), Memory>
    ensures { OnOk result (out.new.items ≡ out.old.items
        ++ earlier_shown (literal_at rules.now) why (pattern_of e.now)) }
{
    match why {
        Why::NeverFails => {
            let text = text_of(alloc, e)?;
            push_text_or_empty(out, text.as_slice())?;
            out.extend_from_slice(b", which cannot fail\n")?;
        }
        Why::TakesAny => {
            push_expr(alloc, out, e)?;
            out.extend_from_slice(b", which takes any byte\n")?;
        }
        Why::Prefix => {
            push_shown_literal(alloc, out, rules, e)?;
            out.extend_from_slice(b"\n")?;
        }
    }
    Ok(())
}

// Adds the line of two alternatives, if it is known.
fn push_line(
    alloc: Global,
    out: &mut Vec<u8>,
    rules: &RuleTable<Expr>,
    line: Option<usize>,
    hidden: Hidden<'_>,
) -> Result<(), Memory>
    ensures { OnOk result (out.new.items ≡ out.old.items
        ++ hint_line (literal_at rules.now) line (hidden_found hidden.entry)) }
{
    let Some(line) = line else {
        return Ok(());
    };
    out.extend_from_slice(b"  line ")?;
    push_number(out, line)?;
    out.extend_from_slice(b": ")?;
    push_later(alloc, out, rules, hidden.why, hidden.later)?;
    out.extend_from_slice(b" after ")?;
    push_earlier(alloc, out, rules, hidden.why, hidden.earlier)
}

// Adds what a hint reports of its rule.
fn push_rule(out: &mut Vec<u8>, rule: &[u8]) -> Result<(), Memory>
    ensures { OnOk result (out.new.items ≡ out.old.items ++ rule_reported rule.now) }
{
    out.extend_from_slice(b"alternative never taken in rule '")?;
    push_cut(out, rule)?;
    out.extend_from_slice(b"'\n")?;
    Ok(())
}

// Adds a hint.
fn push_hint(
    alloc: Global,
    out: &mut Vec<u8>,
    positions: &PegPositions,
    hint: Hint<'_>,
) -> Result<(), Memory>
    ensures { OnOk result (out.new.items ≡ out.old.items ++ hint_reported (literal_at positions.now.rules)
        (mention_lines_by positions.now.positions) (hint_found hint.entry)) }
{
    let line = line_of(alloc, positions, hint.rule, hint.body, hint.position)?;
    push_rule(out, hint.rule)?;
    push_line(alloc, out, &positions.rules, line, hint.hidden)?;
    Ok(())
}

// Adds hints.
fn push_hints(
    alloc: Global,
    out: &mut Vec<u8>,
    positions: &PegPositions,
    hints: &[Hint<'_>],
) -> Result<(), Memory>
    ensures { OnOk result (out.new.items ≡ out.old.items ++ flat_map (hint_reported (literal_at positions.now.rules)
        (mention_lines_by positions.now.positions)) (map hint_found hints.now)) }
{
    for hint in hints {
        push_hint(alloc, out, positions, *hint)?;
    }
    Ok(())
}

// Adds the first ones of hints, and how many more there are.
fn push_first_hints(
    alloc: Global,
    out: &mut Vec<u8>,
    positions: &PegPositions,
    hints: &[Hint<'_>],
) -> Result<(), Memory>
    ensures { OnOk result (out.new.items ≡ out.old.items ++ hints_reported (literal_at positions.now.rules)
        (mention_lines_by positions.now.positions) (map hint_found hints.now)) }
{
    let shown = hints.len().min(MAX_HINTS);
    push_hints(alloc, out, positions, &hints[..shown])?;
    push_more(out, hints.len() - shown)?;
    Ok(())
}

/// Returns the hints on a grammar. The first are on alternatives that are never taken. Nothing stands in an empty
/// alternative, and there is no hint on it. Any other one is never taken if one before it
///
/// - fails nowhere by its form,
/// - is `.`, and the later one takes a byte,
/// - or is a literal with which the later one begins. A name whose rule is a literal counts as that literal.
///
/// Of each of the first `MAX_HINTS` it reports the rule and both alternatives, with the line of the later one; then it
/// reports how many more there are. So it does of each line of an action, its first line left out, that begins a rule:
/// blanks, a name, blanks, and `<-`. So it does then of each `>` before which no `<` stands in its rule, outside
/// alternatives beside its own.
///
/// # Errors
/// `Memory` if an allocation fails.
pub fn peg_hints(alloc: Global, positions: &PegPositions) -> Result<Vec<u8>, Memory>
    ensures { IfOk result
        (λ lines. (text : List ℕ) → ArePegPositions text positions.now → ArePegHints text lines.items) }
{
    let known = KnownRules {
        rules: &positions.rules,
        nulls: &positions.nulls,
        sure: &positions.sure,
    };
    let hints = all_hints(alloc, known)?;
    let mut reported = Vec::new(alloc);
    push_first_hints(alloc, &mut reported, positions, &hints)?;
    push_held_definitions(alloc, &mut reported, positions)?;
    push_lone_ends(alloc, &mut reported, positions)?;
    Ok(reported)
}

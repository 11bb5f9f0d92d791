//! The line after a note on a rule that repeats what may take nothing.
ghost use Rattle.std.specs.Prelude.{◌≡◌, ◌++◌, Some, map, Option, IfOk, OnOk, option_map, slice_get, MatchOption};
ghost use Rattle.pegprint.specs.Canon.{text_of as canonical};
ghost use Rattle.pegread.specs.PegViews.{pattern_of, patterns_of};
ghost use Rattle.pegexplain.specs.NullTests.{IsLoopBy, null_mark_of};
ghost use Rattle.pegexplain.specs.PegLoops.{RepeatAt, repeat_line, repeat_reported, repeats_in, repeats_in_all};
ghost use Rattle.pegexplain.specs.FoundRepeats.{repeat_found};

use crate::nulls::is_loop;
use diagnostics::{push_cut, push_number};
use pegprint::print_expr;
use pegread::Expr;
use ruletable::{Memory, RuleTable, SinkOf};
use std::alloc::Global;

/// A repetition in a body.
#[derive(Clone, Copy)]
pub(crate) struct Repeat<'a> {
    /// Its index among the repetitions of the body.
    position: usize,
    /// The repetition.
    e: &'a Expr,
}

// Adds the repetitions in an expression, in the order of their marks.
#[cycle(repeating)]
fn add_repeats<'a>(e: &'a Expr, found: &mut Vec<&'a Expr>) -> Result<(), Memory>
    ensures { OnOk result (map (λ x. pattern_of x.now) found.new.items
        ≡ map (λ x. pattern_of x.now) found.old.items ++ repeats_in (pattern_of e.now)) }
{
    match e {
        Expr::Seq(members) => add_all_repeats(members, found),
        Expr::Choice(alternatives) => add_all_repeats(alternatives, found),
        Expr::Star(operand) | Expr::Plus(operand) => {
            add_repeats(operand, found)?;
            found.push(e)?;
            Ok(())
        }
        Expr::Opt(operand) | Expr::And(operand) | Expr::Not(operand) => add_repeats(operand, found),
        Expr::Any
        | Expr::Bytes(_)
        | Expr::Set(_)
        | Expr::Name(_)
        | Expr::Act(_)
        | Expr::Open
        | Expr::Close => Ok(()),
    }
}

// Adds those in each of them in turn.
#[cycle(repeating)]
fn add_all_repeats<'a>(members: &'a [Expr], found: &mut Vec<&'a Expr>) -> Result<(), Memory>
    ensures { OnOk result (map (λ x. pattern_of x.now) found.new.items
        ≡ map (λ x. pattern_of x.now) found.old.items ++ repeats_in_all (patterns_of members.now)) }
{
    for member in members {
        add_repeats(member, found)?;
    }
    Ok(())
}

// The first of the repetitions that repeats what may take nothing.
fn first_loop<'a>(
    rules: &RuleTable<Expr>,
    marks: &[bool],
    repeats: &[&'a Expr],
) -> Result<Option<Repeat<'a>>, Memory>
    ensures { IfOk result (λ found. IsLoopBy (null_mark_of rules.now marks.now)
        (map (λ x. pattern_of x.now) repeats.now) (option_map repeat_found found)) }
{
    for position in 0..repeats.len() {
        let e = repeats[position];
        if is_loop(rules, marks, e)? {
            return Ok(Some(Repeat { position, e }));
        }
    }
    Ok(None)
}

/// Returns the canonical text of an expression.
///
/// `Memory` if an allocation fails.
pub(crate) fn text_of(alloc: Global, e: &Expr) -> Result<Vec<u8>, Memory>
    ensures { IfOk result (λ text. text.items ≡ canonical (pattern_of e.now)) }
{
    let mut text = SinkOf::new(Vec::new(alloc));
    match print_expr(e, &mut text) {
        Ok(()) => Ok(text.into_inner()),
        Err(_) => Err(Memory),
    }
}

// Adds the line of a repetition whose mark stands on a line.
fn push_line(alloc: Global, out: &mut Vec<u8>, line: usize, e: &Expr) -> Result<(), Memory>
    ensures { OnOk result (out.new.items ≡ out.old.items ++ repeat_line (Some line) (pattern_of e.now)) }
{
    let text = text_of(alloc, e)?;
    out.extend_from_slice(b"  line ")?;
    push_number(out, line)?;
    out.extend_from_slice(b": ")?;
    push_cut(out, text.as_slice())?;
    out.extend_from_slice(b" repeats what may take nothing\n")?;
    Ok(())
}

// Adds the line of a repetition, if there is one, where the marks stand on these lines.
fn push_repeat(
    alloc: Global,
    out: &mut Vec<u8>,
    lines: &[usize],
    found: Option<Repeat<'_>>,
) -> Result<(), Memory>
    ensures { OnOk result (out.new.items
        ≡ out.old.items ++ repeat_reported lines.now (option_map repeat_found found.entry)) }
{
    let Some(found) = found else {
        return Ok(());
    };
    match lines.get(found.position) {
        Some(line) => push_line(alloc, out, *line, found.e),
        None => Ok(()),
    }
}

/// Adds the line of the first repetition in a body whose operand may take nothing. The marks of the body's repetitions
/// stand on the given lines. Marks of the rules say which of their bodies may take nothing.
///
/// `Memory` if an allocation fails.
pub(crate) fn push_first_loop(
    alloc: Global,
    out: &mut Vec<u8>,
    rules: &RuleTable<Expr>,
    marks: &[bool],
    body: &Expr,
    lines: &[usize],
) -> Result<(), Memory>
    ensures { OnOk result ((found : Option RepeatAt)
        × IsLoopBy (null_mark_of rules.now marks.now) (repeats_in (pattern_of body.now)) found
        × (out.new.items ≡ out.old.items ++ repeat_reported lines.now found)) }
{
    let mut repeats = Vec::new(alloc);
    add_repeats(body, &mut repeats)?;
    let found = first_loop(rules, marks, &repeats)?;
    push_repeat(alloc, out, lines, found)
}

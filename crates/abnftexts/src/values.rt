//! Lines that assign values.
ghost use Rattle.std.specs.Prelude.{◌≡◌, ◌<◌, ◌≤◌, ◌++◌, ◌&&◌, Bool, List, length, map, IfOk, OnOk};
ghost use Rattle.std.specs.List.{zip};
ghost use Rattle.abnfblocks.specs.TextLines.{numbered};
ghost use Rattle.abnfblocks.specs.FoundRules.{found_line};
ghost use Rattle.abnftexts.specs.RulesGathered.{both_given, entry_listed, rules_gathered};
ghost use Rattle.abnftexts.specs.TakenRules.{AddSketches, IsGroupSize, join_first, text_rows};
ghost use Rattle.abnftexts.specs.ValueRuns.{does_read, first_bytes as bytes_first, found_rules, last_found};
ghost use Rattle.abnftexts.specs.ValueRuns.{line_count, rule_number, run_given, run_reported, seen_at, stand_together};
ghost use Rattle.abnftexts.specs.ValueRuns.{value_entry, value_listed};
ghost use Rattle.rfcvalues.specs.RuleSketches.{IsSketch, SketchedRule, rule_sketched};

use crate::gathered::{Gathered, ListLine, RuleReport, WrittenText};
use crate::lists::first_changed;
use crate::own::margin_in;
use crate::reported::{number_at, push_position};
use abnfblocks::{RuleSearch, TextLine, blank_count, joined_text};
use diagnostics::push_number;
use rfcforms::{items_after, items_before};
use rfcvalues::{RuleSketch, SeenRule, rule_sketch};
use ruletable::Memory;
use std::alloc::Global;

// Where what is found begins among the lines, how many it has, and whether it reads.
#[derive(Clone, Copy)]
struct FoundLines {
    first: usize,
    count: usize,
    reads: bool,
}

fn lines_of(it: RuleSearch) -> FoundLines
    ensures { result ≡ record { first = found_line it; count = line_count it; reads = does_read it } }
{
    match it {
        RuleSearch::Rule { first, count } => FoundLines {
            first,
            count,
            reads: true,
        },
        RuleSearch::NotAbnf { first, count, .. } => FoundLines {
            first,
            count,
            reads: false,
        },
    }
}

// The first of these lines, if there is one.
fn first_bytes<'a>(lines: &[TextLine<'a>]) -> &'a [u8]
    ensures { result.now ≡ bytes_first (map numbered lines.now) }
{
    match lines.first() {
        Some(line) => line.bytes,
        None => b"",
    }
}

// What distinguishes what is found there from lines that assign values.
fn sketch_of(alloc: Global, rows: &WrittenText<'_>, it: RuleSearch) -> Result<RuleSketch, Memory>
    ensures { IfOk result (λ sketch. IsSketch
        (seen_at (map numbered rows.now.kept.items) (map numbered rows.now.lines.items) it) (rule_sketched sketch)) }
{
    let at = lines_of(it);
    let own = items_before(items_after(&rows.lines, at.first), at.count);
    let kept = items_before(items_after(&rows.kept, at.first), at.count);
    let text = joined_text(alloc, margin_in(own), own)?;
    let seen = SeenRule {
        first: first_bytes(own),
        text: &text,
        reads: at.reads,
        has_list: first_changed(kept, own) <= own.len(),
    };
    rule_sketch(alloc, seen)
}

/// Adds what distinguishes each rule of a text from lines that assign values.
///
/// # Errors
/// `Memory` if an allocation fails.
pub(crate) fn push_sketches(
    alloc: Global,
    sketches: &mut Vec<RuleSketch>,
    rows: &WrittenText<'_>,
    found: &[RuleSearch],
) -> Result<(), Memory>
    ensures { OnOk result (AddSketches (text_rows rows.now) found.now
        (map rule_sketched sketches.old.items) (map rule_sketched sketches.new.items)) }
{
    for it in found {
        let sketch = sketch_of(alloc, rows, *it)?;
        sketches.push(sketch)?;
    }
    Ok(())
}

// Whether only blank lines stand between what is found one after the other.
fn are_together(lines: &[TextLine<'_>], before: RuleSearch, it: RuleSearch) -> bool
    ensures { result ≡ stand_together (map numbered lines.now) before it }
{
    let own = lines_of(before);
    let after = items_after(items_after(lines, own.first), own.count);
    let between = lines_of(it).first.saturating_sub(own.first);
    between.saturating_sub(own.count) <= blank_count(after)
}

// Whether the first two of what is found are values of one run.
fn join_values(lines: &[TextLine<'_>], found: &[RuleSearch], values: &[bool]) -> bool
    ensures { (sketches : List SketchedRule) → length found.now ≤ length sketches
        → result ≡ join_first (map numbered lines.now) (found_rules found.now sketches values.now) }
{
    if found.len() < 2 {
        return false;
    }
    if values.len() < 2 {
        return false;
    }
    are_joined(
        values[0],
        values[1],
        are_together(lines, found[0], found[1]),
    )
}

fn are_joined(before: bool, is_value: bool, are_together: bool) -> bool
    ensures { result ≡ (before && is_value && are_together) }
{
    before && is_value && are_together
}

/// Returns how many of what is found are the first run of values, or 1 for a rule that is none.
pub(crate) fn run_size(lines: &[TextLine<'_>], found: &[RuleSearch], values: &[bool]) -> usize
    ensures group { (sketches : List SketchedRule) → 0 < length found.now → length found.now ≤ length sketches
        → length found.now ≤ length values.now
        → IsGroupSize (map numbered lines.now) found.now sketches values.now result }
    ensures some { 0 < length found.now → 0 < result }
    ensures within { result ≤ length found.now }
{
    for size in 1..found.len() {
        let front = items_after(found, size - 1);
        let joins = join_values(lines, front, items_after(values, size - 1));
        if !joins {
            return size;
        }
    }
    found.len()
}

// The number in the text of the first line of what is found.
fn number_of(rows: &WrittenText<'_>, it: RuleSearch) -> usize
    ensures { result ≡ rule_number (map numbered rows.now.lines.items) it }
{
    number_at(items_after(&rows.lines, lines_of(it).first), 1)
}

// The last of what is found, of which that stands first.
fn last_of(first: RuleSearch, others: &[RuleSearch]) -> RuleSearch
    ensures { result ≡ last_found first others.now }
{
    let mut last = first;
    for it in others {
        last = *it;
    }
    last
}

// Returns the message on a run of values.
fn run_message(alloc: Global, rows: &WrittenText<'_>, run: &[RuleSearch]) -> Result<Vec<u8>, Memory>
    ensures { IfOk result (λ message. message.items
        ≡ run_reported rows.now.name.now (map numbered rows.now.lines.items) run.now) }
{
    let mut message = Vec::new(alloc);
    let Some((first, others)) = run.split_first() else {
        return Ok(message);
    };
    let last = last_of(*first, others);
    push_position(&mut message, rows.name, number_of(rows, *first))?;
    message.extend_from_slice(b": no ABNF: ")?;
    push_number(&mut message, run.len())?;
    message.extend_from_slice(b" lines up to line ")?;
    push_number(&mut message, number_of(rows, last))?;
    message.extend_from_slice(b" assign values\n")?;
    Ok(message)
}

// Returns the line of the list on a value.
fn value_line(
    alloc: Global,
    rows: &WrittenText<'_>,
    it: RuleSearch,
    name: &[u8],
) -> Result<Vec<u8>, Memory>
    ensures { IfOk result (λ line. line.items
        ≡ value_listed rows.now.name.now (map numbered rows.now.lines.items) it name.now) }
{
    let mut line = Vec::new(alloc);
    push_position(&mut line, rows.name, number_of(rows, it))?;
    line.extend_from_slice(b": '")?;
    line.extend_from_slice(name)?;
    line.extend_from_slice(b"' assigns a value\n")?;
    Ok(line)
}

// Adds the lines of the list on a run of values.
fn push_values(
    alloc: Global,
    list: &mut Vec<ListLine>,
    rows: &WrittenText<'_>,
    run: &[RuleSearch],
    sketches: &[RuleSketch],
) -> Result<(), Memory>
    ensures { OnOk result (map entry_listed list.new.items ≡ map entry_listed list.old.items
        ++ map (λ p. value_entry rows.now.name.now (map numbered rows.now.lines.items) p.0 (rule_sketched p.1))
        (zip run.now sketches.now)) }
{
    for at in 0..run.len().min(sketches.len()) {
        let line = value_line(alloc, rows, run[at], &sketches[at].name)?;
        list.push(ListLine::Value(line))?;
    }
    Ok(())
}

/// Takes lines that assign values: adds their report, and their lines of the list.
///
/// # Errors
/// `Memory` if an allocation fails.
pub(crate) fn take_run(
    alloc: Global,
    gathered: &mut Gathered<'_>,
    rows: &WrittenText<'_>,
    run: &[RuleSearch],
    sketches: &[RuleSketch],
) -> Result<(), Memory>
    ensures { OnOk result ((marks : List Bool) → length run.now ≡ length sketches.now
        → length run.now ≤ length marks → rules_gathered gathered.new ≡ both_given (rules_gathered gathered.old)
        (run_given rows.now.name.now (map numbered rows.now.lines.items)
        (found_rules run.now (map rule_sketched sketches.now) marks))) }
{
    let message = run_message(alloc, rows, run)?;
    gathered.reported.push(RuleReport {
        message,
        lines: None,
    })?;
    push_values(alloc, &mut gathered.list, rows, run, sketches)
}

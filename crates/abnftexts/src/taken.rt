//! The rules that texts give.
ghost use Rattle.std.specs.Prelude.{◌≡◌, ◌≤◌, List, Option, length, map, IfOk, OnOk};
ghost use Rattle.abnfblocks.specs.TextLines.{numbered};
ghost use Rattle.abnftexts.specs.GivenRules.{text_rule};
ghost use Rattle.abnftexts.specs.RulesGathered.{NamedText, both_given, lines_placed, one_rule, reported_rule};
ghost use Rattle.abnftexts.specs.RulesGathered.{rules_gathered};
ghost use Rattle.abnftexts.specs.ShownTexts.{AreShown};
ghost use Rattle.abnftexts.specs.TakenRules.{AddsReport, AreTextRows, AreTextsFound, FindsShown, TakesFound};
ghost use Rattle.abnftexts.specs.TakenRules.{TakesGroup, TakesGroups, TakesRule, rule_count, text_found, text_rows};
ghost use Rattle.abnftexts.specs.TextRules.{AreSketches, GiveFound, GiveTexts, IsRuleReported, asks_lists, position_in};
ghost use Rattle.abnftexts.specs.TextRules.{rules_seen};
ghost use Rattle.rfcvalues.specs.RuleSketches.{rule_sketched};

use crate::gathered::{
    FoundText, Gathered, ListLine, RulePosition, RuleReport, ShownText, WrittenText,
};
use crate::join::GivenRule;
use crate::lists::{first_list, written_lines};
use crate::own::{margin_in, read_rule};
use crate::reported::{fault_message, list_message};
use crate::values::{push_sketches, run_size, take_run};
use abnfblocks::{
    RuleSearch, TextLine, blank_count, find_rules, joined_text, one_masking, read_lines,
};
use rfcforms::{ListForm, items_after, items_before};
use rfcvalues::{RuleSketch, are_values, is_no_abnf};
use ruletable::{Memory, ReadFault};
use std::alloc::Global;

// Adds a rule.
fn push_rule<'a>(
    gathered: &mut Gathered<'a>,
    position: RulePosition<'a>,
    rule: GivenRule,
) -> Result<(), Memory>
    ensures { OnOk result (rules_gathered gathered.new
        ≡ both_given (rules_gathered gathered.old) (one_rule (lines_placed position.entry) (text_rule rule))) }
{
    gathered.positions.push(position)?;
    gathered.rules.push(rule)?;
    gathered.list.push(ListLine::Rule)?;
    Ok(())
}

// Where the rule stands that has so many of these lines, the first ones as their text has them.
fn position_of<'a>(
    alloc: Global,
    name: &'a [u8],
    sources: &[TextLine<'a>],
    rest: &[TextLine<'a>],
    count: usize,
) -> Result<RulePosition<'a>, Memory>
    ensures { IfOk result (λ position. lines_placed position
        ≡ position_in name.now (map numbered sources.now) (map numbered rest.now) count) }
{
    let own = items_before(rest, count);
    let lines = Vec::from_slice(alloc, own)?;
    let sources = Vec::from_slice(alloc, items_before(sources, count))?;
    let margin = margin_in(own);
    let text = joined_text(alloc, margin, own)?;
    Ok(RulePosition {
        name,
        margin,
        sources,
        lines,
        blanks: blank_count(items_after(rest, count)),
        comments: Vec::new(alloc),
        text,
    })
}

// Takes the rule that so many of these lines alone spell, the first ones as their text has them.
fn take_rule<'a>(
    alloc: Global,
    gathered: &mut Gathered<'a>,
    name: &'a [u8],
    sources: &[TextLine<'a>],
    rest: &[TextLine<'a>],
    count: usize,
) -> Result<(), Memory>
    ensures { OnOk result (TakesRule name.now (map numbered sources.now) (map numbered rest.now) count
        (rules_gathered gathered.old) (rules_gathered gathered.new)) }
{
    let position = position_of(alloc, name, sources, rest, count)?;
    // Lines that spell a definition have no fault but `Memory`.
    let Some(rule) = read_rule(alloc, &position.text)? else {
        return Err(Memory);
    };
    push_rule(gathered, position, rule)?;
    Ok(())
}

// Returns the message on a rule that is no ABNF, where it has these lines and they have that fault. If that is asked,
// it is looked for lists.
fn rule_message(
    alloc: Global,
    asks: bool,
    name: &[u8],
    lines: &[TextLine<'_>],
    fault: ReadFault,
) -> Result<Vec<u8>, Memory>
    ensures { IfOk result (λ message. IsRuleReported asks name.now (map numbered lines.now) fault message.items) }
{
    match first_list(alloc, asks, lines)? {
        Some(n) => list_message(alloc, name, lines, n),
        None => fault_message(alloc, name, lines, fault),
    }
}

// Adds the report of such a rule.
fn push_no_rule(
    alloc: Global,
    reported: &mut Vec<RuleReport>,
    asks: bool,
    name: &[u8],
    lines: &[TextLine<'_>],
    fault: ReadFault,
) -> Result<(), Memory>
    ensures { OnOk result (AddsReport asks name.now (map numbered lines.now) fault
        (map reported_rule reported.old.items) (map reported_rule reported.new.items)) }
{
    let message = rule_message(alloc, asks, name, lines, fault)?;
    let own = joined_text(alloc, 0, lines)?;
    reported.push(RuleReport {
        message,
        lines: Some(own),
    })?;
    Ok(())
}

// Takes what is found there among the lines of a text.
fn take_each<'a>(
    alloc: Global,
    gathered: &mut Gathered<'a>,
    text: &WrittenText<'a>,
    found: &[RuleSearch],
) -> Result<(), Memory>
    ensures { OnOk result (TakesFound (text_rows text.now) found.now
        (rules_gathered gathered.old) (rules_gathered gathered.new)) }
{
    for it in found {
        match *it {
            RuleSearch::Rule { first, count } => {
                let sources = items_after(&text.kept, first);
                let rest = items_after(&text.lines, first);
                take_rule(alloc, gathered, text.name, sources, rest, count)?;
            }
            RuleSearch::NotAbnf {
                first,
                count,
                fault,
            } => {
                let lines = items_before(items_after(&text.lines, first), count);
                let reported = &mut gathered.reported;
                push_no_rule(alloc, reported, text.asks, text.name, lines, fault)?;
            }
        }
    }
    Ok(())
}

// Takes what is found there: a run of values, or a rule. It has these sketches.
fn take_group<'a>(
    alloc: Global,
    gathered: &mut Gathered<'a>,
    text: &WrittenText<'a>,
    group: &[RuleSearch],
    sketches: &[RuleSketch],
) -> Result<(), Memory>
    ensures { OnOk result (TakesGroup (text_rows text.now) group.now (map rule_sketched sketches.now)
        (rules_gathered gathered.old) (rules_gathered gathered.new)) }
{
    let is_none = is_no_abnf(alloc, sketches)?;
    if is_none {
        return take_run(alloc, gathered, text, group, sketches);
    }
    take_each(alloc, gathered, text, group)
}

// Takes what is found in a text. These are its sketches, and the marks of its values, and those of later texts.
fn take_found<'a>(
    alloc: Global,
    gathered: &mut Gathered<'a>,
    text: &FoundText<'a>,
    sketches: &[RuleSketch],
    values: &[bool],
) -> Result<(), Memory>
    ensures { OnOk result (TakesGroups (text_rows text.now.rows) text.now.found.items
        (map rule_sketched sketches.now) values.now (rules_gathered gathered.old) (rules_gathered gathered.new)) }
{
    let mut at = 0;
    while at < text.found.len() {
        let found = items_after(&text.found, at);
        let marks = items_after(values, at);
        let size = run_size(&text.rows.lines, found, marks);
        let group = items_before(found, size);
        let left = items_after(sketches, at);
        let own = items_before(left, size);
        take_group(alloc, gathered, &text.rows, group, own)?;
        at += size;
    }
    Ok(())
}

// A text with its lines, which are these.
fn with_lines<'a>(
    alloc: Global,
    text: &'a ShownText<'_>,
    kept: Vec<TextLine<'a>>,
) -> Result<WrittenText<'a>, Memory>
    ensures { IfOk result (λ rows. AreTextRows text.now (map numbered kept.entry.items) (text_rows rows)) }
{
    one_masking();
    match &text.written {
        Some(written) => {
            let lines = written_lines(alloc, &kept, written)?;
            Ok(WrittenText {
                name: text.name,
                kept,
                lines,
                asks: false,
            })
        }
        None => {
            let lines = Vec::from_slice(alloc, &kept)?;
            Ok(WrittenText {
                name: text.name,
                kept,
                lines,
                asks: true,
            })
        }
    }
}

// Finds the rules of a text.
fn found_text<'a>(alloc: Global, text: &'a ShownText<'_>) -> Result<FoundText<'a>, Memory>
    ensures { IfOk result (λ found. FindsShown text.now found) }
{
    let kept = read_lines(alloc, &text.bytes, text.of_xml)?;
    let rows = with_lines(alloc, text, kept)?;
    let found = find_rules(alloc, &rows.lines)?;
    Ok(FoundText { rows, found })
}

// Finds the rules of texts.
fn found_texts<'a>(alloc: Global, texts: &'a [ShownText<'_>]) -> Result<Vec<FoundText<'a>>, Memory>
    ensures { IfOk result (λ all. (lists : Option ListForm) (named : List NamedText)
        → AreShown lists named texts.now → AreTextsFound lists named all.items) }
{
    let mut all = Vec::new(alloc);
    for text in texts {
        let found = found_text(alloc, text)?;
        all.push(found)?;
    }
    Ok(all)
}

// The sketches of what is found in texts.
fn text_sketches(alloc: Global, texts: &[FoundText<'_>]) -> Result<Vec<RuleSketch>, Memory>
    ensures { IfOk result (λ sketches. AreSketches (rules_seen (map text_found texts.now))
        (map rule_sketched sketches.items)) }
{
    let mut sketches = Vec::new(alloc);
    for text in texts {
        push_sketches(alloc, &mut sketches, &text.rows, &text.found)?;
    }
    Ok(sketches)
}

// Takes what is found in texts. These are its sketches, and the marks of its values.
fn take_all<'a>(
    alloc: Global,
    texts: &[FoundText<'a>],
    sketches: &[RuleSketch],
    values: &[bool],
) -> Result<Gathered<'a>, Memory>
    ensures { IfOk result (λ gathered. (lists : Option ListForm) (named : List NamedText)
        → AreTextsFound lists named texts.now → rule_count texts.now ≤ length sketches.now
        → rule_count texts.now ≤ length values.now → GiveFound (asks_lists lists) (map text_found texts.now)
        (map rule_sketched sketches.now) values.now (rules_gathered gathered)) }
{
    let mut gathered = Gathered {
        positions: Vec::new(alloc),
        rules: Vec::new(alloc),
        reported: Vec::new(alloc),
        list: Vec::new(alloc),
    };
    let mut own = sketches;
    let mut marks = values;
    for text in texts {
        take_found(alloc, &mut gathered, text, own, marks)?;
        own = items_after(own, text.found.len());
        marks = items_after(marks, text.found.len());
    }
    Ok(gathered)
}

/// Takes the rules of texts, one text after another.
///
/// # Errors
/// `Memory` if an allocation fails.
pub(crate) fn take_texts<'a>(
    alloc: Global,
    texts: &'a [ShownText<'_>],
) -> Result<Gathered<'a>, Memory>
    ensures { IfOk result (λ gathered. (lists : Option ListForm) (named : List NamedText)
        → AreShown lists named texts.now → GiveTexts lists named (rules_gathered gathered)) }
{
    let all = found_texts(alloc, texts)?;
    let sketches = text_sketches(alloc, &all)?;
    let values = are_values(alloc, &sketches)?;
    take_all(alloc, &all, &sketches, &values)
}

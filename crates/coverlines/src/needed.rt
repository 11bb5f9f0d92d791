//! Lines that reach goals which no line before them reaches.
ghost use Rattle.std.specs.Prelude.{◌≡◌, ◌⊎◌, ◌↔◌, ◌<◌, ℕ, IfOk, IfSome, IsTrue, Contains, false, length, map, true};
ghost use Rattle.std.specs.List.{AllPairs};
ghost use Rattle.fixpoint.specs.NumberMarks.{IsMarked};
ghost use Rattle.fixpoint.specs.StepRows.{AreStepsWithin, slices_of};
ghost use Rattle.coverlines.specs.CoverLines.{ComesLater, Falls, line_items};
ghost use Rattle.coverlines.specs.KnownWords.{AreWords};
ghost use Rattle.coverlines.specs.NeededLines.{AddsNamedLines, AreBases, AreNamedWords, AreNeeded, AreRowIds};
ghost use Rattle.coverlines.specs.NeededLines.{HasWord, HaveIdsBelow, IsBaseLine, IsNamedWord, IsReachedIn};
ghost use Rattle.coverlines.specs.Sites.{stood_of};

use crate::context::LineContext;
use crate::cover::CoverLine;
use crate::rule_contexts::name_of;
use crate::sites::Site;
use crate::words::Words;
use fixpoint::{reached, slices};
use ruletable::Memory;
use std::alloc::Global;

/// A rule, and a list of which the list that is known of the rule is a part.
#[derive(Drop)]
struct RuleWord {
    id: usize,
    word: Vec<u32>,
}

/// The lists that are known of rules, as parts of those of other rules and of lines.
#[derive(Drop)]
struct Bases {
    /// Of each rule the rules that it gives their lists in its own.
    rows: Vec<Vec<usize>>,
    /// Rules, and shortest lines in which a name gives them their lists.
    lines: Vec<RuleWord>,
}

// Returns whether one of the lines is that list.
fn has_line(lines: &[CoverLine<'_>], line: &[u32]) -> bool
    ensures { IsTrue result ↔ Contains (line_items lines.now) line.now }
{
    for other in lines {
        if other.line.as_slice() == line {
            return true;
        }
    }
    false
}

// Returns the rule that a site names, and the list of the site around the one that is known of that rule, if there is
// one.
fn named_word(alloc: Global, words: &Words<'_>, site: &Site<'_>) -> Result<Option<RuleWord>, Memory>
    requires { AreWords words.now }
    ensures { IfOk result (λ found. IfSome found (IsNamedWord words.now (stood_of site.now))) }
{
    let Some(name) = name_of(site.elem) else {
        return Ok(None);
    };
    let Some(id) = words.rules.find(name)? else {
        return Ok(None);
    };
    let Some(known) = &words.known[id] else {
        return Ok(None);
    };
    let word = site.context.line(alloc, known)?;
    Ok(Some(RuleWord { id, word }))
}

// Returns the rules that sites name, each with its list.
fn named_words(
    alloc: Global,
    words: &Words<'_>,
    sites: &[Site<'_>],
) -> Result<Vec<RuleWord>, Memory>
    requires { AreWords words.now }
    ensures { IfOk result (λ found. AreNamedWords words.now (map stood_of sites.now) found.items) }
{
    let mut found = Vec::new(alloc);
    for site in sites {
        if let Some(named) = named_word(alloc, words, site)? {
            found.push(named)?;
        }
    }
    Ok(found)
}

// Returns the ids of the rules with that list.
fn ids_with(alloc: Global, named: &[RuleWord], word: &[u32]) -> Result<Vec<usize>, Memory>
    ensures { IfOk result (λ ids. (id : ℕ) → Contains ids.items id → HasWord named.now word.now id) }
{
    let mut ids = Vec::new(alloc);
    for one in named {
        if one.word.as_slice() == word {
            ids.push(one.id)?;
        }
    }
    Ok(ids)
}

// Returns the ids of the rules with the list that is known of a rule.
fn row_ids(
    alloc: Global,
    known: &Option<Vec<u32>>,
    named: &[RuleWord],
) -> Result<Vec<usize>, Memory>
    ensures { IfOk result (λ ids. AreRowIds known.now named.now ids.items) }
{
    match known {
        Some(word) => ids_with(alloc, named, word),
        None => Ok(Vec::new(alloc)),
    }
}

// Adds the rules, each with its list in a context, if there is one.
fn add_named_lines(
    alloc: Global,
    context: &Option<LineContext>,
    named: &[RuleWord],
    found: &mut Vec<RuleWord>,
) -> Result<(), Memory>
    ensures { IfOk result (λ _. AddsNamedLines context.now named.now found.old.items found.new.items) }
{
    let Some(context) = context else {
        return Ok(());
    };
    for one in named {
        let word = context.line(alloc, &one.word)?;
        found.push(RuleWord { id: one.id, word })?;
    }
    Ok(())
}

// Returns where the lists that are known of rules are parts of others.
fn rule_bases(
    alloc: Global,
    words: &Words<'_>,
    sites: &[Vec<Site<'_>>],
    contexts: &[Option<LineContext>],
) -> Result<Bases, Memory>
    requires words { AreWords words.now }
    requires sites { length sites.now ≡ length words.now.rules.now.rules }
    requires contexts { length contexts.now ≡ length words.now.rules.now.rules }
    ensures { IfOk result (AreBases words.now sites.now contexts.now) }
{
    let mut rows = Vec::new(alloc);
    let mut lines = Vec::new(alloc);
    for id in 0..sites.len() {
        let named = named_words(alloc, words, &sites[id])?;
        rows.push(row_ids(alloc, &words.known[id], &named)?)?;
        add_named_lines(alloc, &contexts[id], &named, &mut lines)?;
    }
    Ok(Bases { rows, lines })
}

// Returns whether a number is marked.
fn is_marked(marks: &[bool], id: usize) -> bool
    ensures { IsTrue result → IsMarked marks.now id }
{
    match marks.get(id) {
        Some(mark) => *mark,
        None => false,
    }
}

// Marks the numbers that other marks mark.
fn join_marks(marks: &mut Vec<bool>, more: &[bool])
    ensures count { length marks.new.items ≡ length marks.old.items }
    ensures marks { (id : ℕ) → IsMarked marks.new.items id → IsMarked marks.old.items id ⊎ IsMarked more.now id }
{
    for id in 0..marks.len() {
        if is_marked(more, id) {
            marks[id] = true;
        }
    }
}

// Marks the rules to which a line gives the list that is known of them.
fn mark_rules(
    alloc: Global,
    lines: &[RuleWord],
    steps: &[&[usize]],
    line: &[u32],
    marks: &mut Vec<bool>,
) -> Result<(), Memory>
    requires steps { AreStepsWithin (slices_of steps.now) }
    requires lines { HaveIdsBelow (length steps.now) lines.now }
    ensures count { length marks.new.items ≡ length marks.old.items }
    ensures marks { IfOk result (λ _. (id : ℕ) → IsMarked marks.new.items id
        → IsMarked marks.old.items id ⊎ IsReachedIn lines.now (slices_of steps.now) line.now id) }
{
    let roots = ids_with(alloc, lines, line)?;
    let more = reached(alloc, steps, &roots)?;
    join_marks(marks, &more);
    Ok(())
}

// Returns whether a line has in the context of its rule the list that is known of the rule.
fn is_base(
    alloc: Global,
    known: &[Option<Vec<u32>>],
    contexts: &[Option<LineContext>],
    line: &CoverLine<'_>,
) -> Result<bool, Memory>
    ensures { IfOk result (λ is. IsTrue is → IsBaseLine known.now contexts.now line.now) }
{
    let Some(Some(word)) = known.get(line.goal.rule) else {
        return Ok(false);
    };
    let Some(Some(context)) = contexts.get(line.goal.rule) else {
        return Ok(false);
    };
    let base = context.line(alloc, word)?;
    Ok(base.as_slice() == line.line.as_slice())
}

// Returns whether the lines that are kept reach the goal of a line: one of them is that line, or it gives the goal's
// rule the list that is known of it, and that reaches the goal.
fn is_reached(
    alloc: Global,
    words: &Words<'_>,
    contexts: &[Option<LineContext>],
    marks: &[bool],
    kept: &[CoverLine<'_>],
    line: &CoverLine<'_>,
) -> Result<bool, Memory>
    ensures yes { IfOk result (λ is. is ≡ true → Contains (line_items kept.now) line.now.line.items
        ⊎ (IsMarked marks.now line.now.goal.rule × IsBaseLine words.now.known.now contexts.now line.now)) }
    ensures no { IfOk result (λ is. is ≡ false → Contains (line_items kept.now) line.now.line.items → ⊥) }
{
    if has_line(kept, &line.line) {
        return Ok(true);
    }
    if !is_marked(marks, line.goal.rule) {
        return Ok(false);
    }
    is_base(alloc, words.known, contexts, line)
}

/// Returns the lines without those whose goals the lines before them reach, as far as the lists that are known of rules
/// show it.
pub(crate) fn needed_lines<'a>(
    alloc: Global,
    words: &Words<'_>,
    sites: &[Vec<Site<'_>>],
    contexts: &[Option<LineContext>],
    lines: &[CoverLine<'a>],
) -> Result<Vec<CoverLine<'a>>, Memory>
    requires words { AreWords words.now }
    requires sites { length sites.now ≡ length words.now.rules.now.rules }
    requires contexts { length contexts.now ≡ length words.now.rules.now.rules }
    requires order { AllPairs Falls lines.now }
    ensures order { IfOk result (λ kept. AllPairs ComesLater kept.items) }
    ensures kept { IfOk result (λ kept. AreNeeded words.now sites.now contexts.now lines.now kept.items) }
{
    let bases = rule_bases(alloc, words, sites, contexts)?;
    let steps = slices(alloc, &bases.rows)?;
    let mut marks = vec![in alloc; false; bases.rows.len()]?;
    let mut kept = Vec::new(alloc);
    for line in lines {
        if is_reached(alloc, words, contexts, &marks, &kept, line)? {
            continue;
        }
        mark_rules(alloc, &bases.lines, &steps, &line.line, &mut marks)?;
        let copy = Vec::from_slice(alloc, &line.line)?;
        kept.push(CoverLine {
            goal: line.goal,
            line: copy,
        })?;
    }
    Ok(kept)
}

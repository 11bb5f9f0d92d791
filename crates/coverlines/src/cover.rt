//! Lines that reach each goal.
ghost use Rattle.std.specs.Prelude.{◌≡◌, ◌∷◌, ◌<◌, ◌≤◌, List, [], IfOk, OnOk, length, map};
ghost use Rattle.std.specs.List.{AllPairs, AllWithin, HoldsAt};
ghost use Rattle.abnfread.specs.AbnfViews.{rules_of};
ghost use Rattle.abnfread.specs.Element.{Rule};
ghost use Rattle.coverlines.specs.CoverLines.{AddsFitting, AddsLines, AreGoalLines, Falls, IsCover};
ghost use Rattle.coverlines.specs.CoverLines.{MayAddLines};
ghost use Rattle.coverlines.specs.KnownWords.{AreKnownOf, AreWords};
ghost use Rattle.coverlines.specs.MissedGoals.{AreMissed};
ghost use Rattle.coverlines.specs.RuleContexts.{AreRuleSites};
ghost use Rattle.coverlines.specs.Sites.{stood_of};

use crate::bounds::LineBounds;
use crate::context::LineContext;
use crate::made::made_words;
use crate::missed::missed_goals;
use crate::needed::needed_lines;
use crate::rule_contexts::rule_contexts;
use crate::rule_words::rule_words;
use crate::sites::{Site, sites};
use crate::way::CoverGoal;
use crate::words::Words;
use abnfcheck::SoundAbnf;
use abnfread::Elem;
use ruletable::{Memory, NameCase, RuleTable};
use std::alloc::Global;

/// A line, and what some element does in a derivation of it.
#[derive(Drop)]
pub struct CoverLine<'a> {
    /// What the element does.
    pub goal: CoverGoal<'a>,
    /// The line.
    pub line: Vec<u32>,
}

/// Lines that reach each goal, and the goals that none reaches.
#[derive(Drop)]
pub struct Cover<'a> {
    /// The lines. Longer ones come first, and none comes twice.
    pub lines: Vec<CoverLine<'a>>,
    /// The goals that no line reaches, in the order of rules, and of the positions of elements in bodies.
    pub missed: Vec<CoverGoal<'a>>,
}

// Returns the sites in the body of each rule.
fn rule_sites<'a>(
    alloc: Global,
    rules: &'a RuleTable<Elem>,
    words: &Words<'_>,
) -> Result<Vec<Vec<Site<'a>>>, Memory>
    requires { AreWords words.now }
    ensures { IfOk result (λ all. AreKnownOf words.now (rules_of rules.now)
        → AreRuleSites words.now.bounds (rules_of rules.now) all.items) }
{
    let mut all = Vec::new(alloc);
    for id in 0..rules.len() {
        all.push(sites(alloc, words, rules.body(id))?)?;
    }
    Ok(all)
}

// Returns how many lines, the first ones, have at least so many symbols.
fn longer_count(lines: &[CoverLine<'_>], len: usize) -> usize
    ensures within { result ≤ length lines.now }
    ensures longer { AllWithin (λ line. len ≤ length line.line.items) lines.now 0 result }
    ensures next { result < length lines.now → HoldsAt (λ line. length line.line.items < len) lines.now result }
{
    for (i, line) in lines.iter().enumerate() {
        if line.line.len() < len {
            return i;
        }
    }
    lines.len()
}

// Adds a line after those that are as long, if it fits.
fn add_line<'a>(
    limit: usize,
    line: CoverLine<'a>,
    found: &mut Vec<CoverLine<'a>>,
) -> Result<(), Memory>
    requires { AllPairs Falls found.old.items }
    ensures order { OnOk result (AllPairs Falls found.new.items) }
    ensures added { IfOk result (λ _. AddsFitting limit line.entry found.old.items found.new.items) }
{
    if limit < line.line.len() {
        return Ok(());
    }
    let at = longer_count(found, line.line.len());
    found.insert(at, line)?;
    Ok(())
}

// Adds a line for each goal at a site.
fn add_site<'a>(
    alloc: Global,
    words: &Words<'_>,
    rule: usize,
    outer: &LineContext,
    site: &Site<'a>,
    found: &mut Vec<CoverLine<'a>>,
) -> Result<(), Memory>
    requires words { AreWords words.now }
    requires order { AllPairs Falls found.old.items }
    ensures order { OnOk result (AllPairs Falls found.new.items) }
    ensures added { IfOk result (λ _. (rules : List Rule) → AreKnownOf words.now rules
        → AddsLines words.now.bounds rules rule outer.now (stood_of site.now ∷ []) found.old.items found.new.items) }
{
    let context = outer.around(alloc, &site.context)?;
    let made = made_words(alloc, words, site.elem)?;
    for one in &made {
        let line = CoverLine {
            goal: CoverGoal {
                rule,
                elem: site.elem,
                way: one.way,
            },
            line: context.line(alloc, &one.word)?,
        };
        add_line(words.bounds.limit, line, found)?;
    }
    Ok(())
}

// Adds a line for each goal at the sites of a rule, if it has a context.
fn add_rule<'a>(
    alloc: Global,
    words: &Words<'_>,
    rule: usize,
    outer: &Option<LineContext>,
    sites: &[Site<'a>],
    found: &mut Vec<CoverLine<'a>>,
) -> Result<(), Memory>
    requires words { AreWords words.now }
    requires order { AllPairs Falls found.old.items }
    ensures order { OnOk result (AllPairs Falls found.new.items) }
    ensures added { IfOk result (λ _. (rules : List Rule) → AreKnownOf words.now rules
        → MayAddLines words.now.bounds rules rule outer.now (map stood_of sites.now) found.old.items found.new.items) }
{
    let Some(context) = outer else {
        return Ok(());
    };
    for site in sites {
        add_site(alloc, words, rule, context, site, found)?;
    }
    Ok(())
}

// Returns a line for each goal at the sites of all rules, in order.
fn goal_lines<'a>(
    alloc: Global,
    rules: &'a RuleTable<Elem>,
    words: &Words<'_>,
    sites: &[Vec<Site<'a>>],
    contexts: &[Option<LineContext>],
) -> Result<Vec<CoverLine<'a>>, Memory>
    requires words { AreWords words.now }
    requires sites { length sites.now ≡ length rules.now.rules }
    requires contexts { length contexts.now ≡ length rules.now.rules }
    ensures order { IfOk result (λ lines. AllPairs Falls lines.items) }
    ensures lines { IfOk result (λ lines. AreKnownOf words.now (rules_of rules.now)
        → AreGoalLines words.now.bounds (rules_of rules.now) contexts.now sites.now (length rules.now.rules)
        lines.items) }
{
    let mut found = Vec::new(alloc);
    for id in 0..rules.len() {
        add_rule(alloc, words, id, &contexts[id], &sites[id], &mut found)?;
    }
    Ok(found)
}

// Returns lines that reach each goal, and the goals that no line reaches.
fn cover_rules<'a>(
    alloc: Global,
    rules: &'a RuleTable<Elem>,
    judged: usize,
    bounds: LineBounds,
) -> Result<Cover<'a>, Memory>
    requires names { rules.now.names ≡ NameCase.Fold }
    requires judged { judged < length rules.now.rules }
    ensures lines { IfOk result (λ cover. IsCover bounds (rules_of rules.now) judged cover.lines.items) }
    ensures missed { IfOk result (λ cover. AreMissed bounds (rules_of rules.now) judged cover.missed.items) }
{
    let known = rule_words(alloc, rules, bounds)?;
    let words = Words {
        rules,
        known: known.as_slice(),
        bounds,
    };
    let sites = rule_sites(alloc, rules, &words)?;
    let contexts = rule_contexts(alloc, rules, bounds, &sites, judged)?;
    let missed = missed_goals(alloc, rules, &words, &contexts, judged)?;
    let found = goal_lines(alloc, rules, &words, &sites, &contexts)?;
    let lines = needed_lines(alloc, &words, &sites, &contexts, &found)?;
    Ok(Cover { lines, missed })
}

/// Returns lines that the judged rule of a grammar derives, and goals that none of its lines reaches.
///
/// One of the lines reaches each goal that some line of at most `limit` symbols reaches. Each of the lines is a
/// shortest one for some goal. A goal is missed if its rule can be reached from the judged one by names, and no line of
/// at most `limit` symbols reaches it.
///
/// # Errors
/// `Memory` if an allocation fails.
pub fn cover_lines<'a>(
    alloc: Global,
    grammar: &'a SoundAbnf,
    bounds: LineBounds,
) -> Result<Cover<'a>, Memory>
    ensures lines { IfOk result (λ cover. IsCover bounds (rules_of grammar.now.rules) grammar.now.judged
        cover.lines.items) }
    ensures missed { IfOk result (λ cover. AreMissed bounds (rules_of grammar.now.rules) grammar.now.judged
        cover.missed.items) }
{
    cover_rules(alloc, grammar.rules(), grammar.judged(), bounds)
}

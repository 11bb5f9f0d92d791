//! Shortest contexts of rules.
ghost use Rattle.std.specs.Prelude.{◌≡◌, ◌<◌, ◌≤◌, ◌↔◌, ℕ, List, IfOk, IsTrue, MatchOption, OnOk, length, map};
ghost use Rattle.abnfread.specs.AbnfViews.{element_of, rules_of};
ghost use Rattle.abnfread.specs.Element.{Name};
ghost use Rattle.coverlines.specs.Sites.{stood_of};
ghost use Rattle.coverlines.specs.RuleContexts.{AreContexts, AreSitesPassed, AreRuleSites, AreRulesPassed};
ghost use Rattle.coverlines.specs.RuleContexts.{AreShortestContexts, IsImproved, IsNamedIn, IsSiteOf, IsSiteStep};
ghost use Rattle.coverlines.specs.RuleContexts.{AreFirstContexts, AreSitesOf, IsFirstContext, context_cost, size_of};

use crate::bounds::LineBounds;
use crate::context::LineContext;
use crate::sites::Site;
use abnfread::Elem;
use ruletable::{Memory, NameCase, RuleTable};
use std::alloc::Global;

/// A rule that a site names, and its context there.
#[derive(Drop)]
struct Named {
    id: usize,
    context: LineContext,
}

// Returns whether a context is shorter than the one that is known, if any.
fn is_shorter(new: &LineContext, old: &Option<LineContext>) -> bool
    ensures { (limit : ℕ) → size_of new.now ≤ limit → (IsTrue result ↔ (size_of new.now < context_cost limit old.now)) }
{
    match old {
        Some(old) => new.len() < old.len(),
        None => true,
    }
}

// Sets the context of a rule to another one, if that is shorter and not too long, and returns whether it is.
fn improve(limit: usize, known: &mut Vec<Option<LineContext>>, id: usize, new: LineContext) -> bool
    requires { id < length known.old.items }
    ensures improved { IsImproved limit id new known.old.items known.new.items result }
    ensures count { length known.new.items ≡ length known.old.items }
{
    if limit < new.len() {
        return false;
    }
    if !is_shorter(&new, &known[id]) {
        return false;
    }
    known[id] = Some(new);
    true
}

/// Returns the name that an element is, if it is one.
pub(crate) fn name_of(e: &Elem) -> Option<&[u8]>
    ensures { MatchOption result ((name : List ℕ) → element_of e.now ≡ Name name → ⊥)
        (λ name. element_of e.now ≡ Name name.now) }
{
    match e {
        Elem::Name(name) => Some(name.as_slice()),
        Elem::Text { .. }
        | Elem::Values(_)
        | Elem::Range { .. }
        | Elem::Concat(_)
        | Elem::Alt(_)
        | Elem::Rep { .. }
        | Elem::Opt(_)
        | Elem::Prose(_) => None,
    }
}

// Returns the rule that a site names, and its context there, if that of the site's rule is known.
fn named_context(
    alloc: Global,
    rules: &RuleTable<Elem>,
    outer: &Option<LineContext>,
    site: &Site<'_>,
) -> Result<Option<Named>, Memory>
    requires { rules.now.names ≡ NameCase.Fold }
    ensures { IfOk result (IsNamedIn (rules_of rules.now) outer.now (stood_of site.now)) }
{
    let Some(outer) = outer else {
        return Ok(None);
    };
    let Some(name) = name_of(site.elem) else {
        return Ok(None);
    };
    let Some(id) = rules.find(name)? else {
        return Ok(None);
    };
    let context = outer.around(alloc, &site.context)?;
    Ok(Some(Named { id, context }))
}

// Looks for a shorter context of the rule that a site names, and returns whether there is one.
fn improve_at(
    alloc: Global,
    rules: &RuleTable<Elem>,
    bounds: LineBounds,
    site: &Site<'_>,
    known: &mut Vec<Option<LineContext>>,
    id: usize,
) -> Result<bool, Memory>
    requires names { rules.now.names ≡ NameCase.Fold }
    requires count { length known.old.items ≡ length rules.now.rules }
    requires site { IsSiteOf bounds (rules_of rules.now) id (stood_of site.now) }
    ensures count { length known.new.items ≡ length known.old.items }
    ensures contexts { OnOk result ((judged : ℕ) → AreContexts bounds (rules_of rules.now) judged known.old.items
        → AreContexts bounds (rules_of rules.now) judged known.new.items) }
    ensures step { IfOk result (λ step. (judged : ℕ) → AreContexts bounds (rules_of rules.now) judged known.old.items
        → IsSiteStep bounds (rules_of rules.now) id (stood_of site.now) known.old.items known.new.items step) }
{
    match named_context(alloc, rules, &known[id], site)? {
        Some(Named { id, context }) => Ok(improve(bounds.limit, known, id, context)),
        None => Ok(false),
    }
}

// Looks for shorter contexts of the rules that a rule names, and returns whether there is one.
fn improve_named(
    alloc: Global,
    rules: &RuleTable<Elem>,
    bounds: LineBounds,
    sites: &[Site<'_>],
    known: &mut Vec<Option<LineContext>>,
    id: usize,
) -> Result<bool, Memory>
    requires names { rules.now.names ≡ NameCase.Fold }
    requires count { length known.old.items ≡ length rules.now.rules }
    requires sites { AreSitesOf bounds (rules_of rules.now) id (map stood_of sites.now) }
    ensures count { length known.new.items ≡ length known.old.items }
    ensures contexts { OnOk result ((judged : ℕ) → AreContexts bounds (rules_of rules.now) judged known.old.items
        → AreContexts bounds (rules_of rules.now) judged known.new.items) }
    ensures step { IfOk result (λ step. (judged : ℕ) → AreContexts bounds (rules_of rules.now) judged known.old.items
        → AreSitesPassed bounds (rules_of rules.now) id (map stood_of sites.now) known.old.items known.new.items
        step) }
{
    let mut improved = false;
    for site in sites {
        let step = improve_at(alloc, rules, bounds, site, known, id)?;
        improved = improved || step;
    }
    Ok(improved)
}

// Looks for shorter contexts of all rules, and returns whether there is one.
fn improve_all(
    alloc: Global,
    rules: &RuleTable<Elem>,
    bounds: LineBounds,
    sites: &[Vec<Site<'_>>],
    known: &mut Vec<Option<LineContext>>,
) -> Result<bool, Memory>
    requires names { rules.now.names ≡ NameCase.Fold }
    requires count { length known.old.items ≡ length rules.now.rules }
    requires sites { AreRuleSites bounds (rules_of rules.now) sites.now }
    ensures count { length known.new.items ≡ length known.old.items }
    ensures contexts { OnOk result ((judged : ℕ) → AreContexts bounds (rules_of rules.now) judged known.old.items
        → AreContexts bounds (rules_of rules.now) judged known.new.items) }
    ensures step { IfOk result (λ step. (judged : ℕ) → AreContexts bounds (rules_of rules.now) judged known.old.items
        → AreRulesPassed bounds (rules_of rules.now) sites.now (length sites.now) known.old.items known.new.items
        step) }
{
    let mut improved = false;
    for id in 0..sites.len() {
        let step = improve_named(alloc, rules, bounds, &sites[id], known, id)?;
        improved = improved || step;
    }
    Ok(improved)
}

// Returns the context that is known of a rule at first: the empty one of the judged rule.
fn first_context(alloc: Global, id: usize, judged: usize) -> Option<LineContext>
    ensures { IsFirstContext judged id result }
{
    if id == judged {
        Some(LineContext::empty(alloc))
    } else {
        None
    }
}

// Returns the contexts that are known of so many rules at first.
fn first_contexts(
    alloc: Global,
    count: usize,
    judged: usize,
) -> Result<Vec<Option<LineContext>>, Memory>
    ensures { IfOk result (AreFirstContexts judged count) }
{
    let mut known = Vec::new(alloc);
    for id in 0..count {
        known.push(first_context(alloc, id, judged))?;
    }
    Ok(known)
}

/// Returns of each rule a shortest context in which a derivation from the judged rule has it, if there is one.
pub(crate) fn rule_contexts(
    alloc: Global,
    rules: &RuleTable<Elem>,
    bounds: LineBounds,
    sites: &[Vec<Site<'_>>],
    judged: usize,
) -> Result<Vec<Option<LineContext>>, Memory>
    requires names { rules.now.names ≡ NameCase.Fold }
    requires judged { judged < length rules.now.rules }
    requires sites { AreRuleSites bounds (rules_of rules.now) sites.now }
    ensures { IfOk result (λ known. AreShortestContexts bounds (rules_of rules.now) judged known.items) }
{
    let mut known = first_contexts(alloc, rules.len(), judged)?;
    let mut improved = true;
    while improved {
        improved = improve_all(alloc, rules, bounds, sites, &mut known)?;
    }
    Ok(known)
}

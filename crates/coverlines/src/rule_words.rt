//! Shortest lists that rules derive.
ghost use Rattle.std.specs.Prelude.{◌≡◌, ◌<◌, ◌≤◌, ◌↔◌, ℕ, IfOk, IsTrue, OnOk, None, length, replicate};
ghost use Rattle.abnfread.specs.AbnfViews.{rules_of};
ghost use Rattle.coverlines.specs.KnownWords.{AreFound, ArePassed, AreShortestWords, IsStep, known_cost};

use crate::bounds::LineBounds;
use crate::words::{Words, shortest};
use abnfread::Elem;
use ruletable::{Memory, NameCase, RuleTable};
use std::alloc::Global;

// Returns whether a list is shorter than the one that is known, if any.
fn is_shorter(new: &[u32], old: &Option<Vec<u32>>) -> bool
    ensures { (limit : ℕ) → length new.now ≤ limit → (IsTrue result ↔ (length new.now < known_cost limit old.now)) }
{
    match old {
        Some(old) => new.len() < old.len(),
        None => true,
    }
}

// Looks for a shorter list of a rule by those that are known of all, and returns whether there is one.
fn improve(
    alloc: Global,
    rules: &RuleTable<Elem>,
    bounds: LineBounds,
    known: &mut Vec<Option<Vec<u32>>>,
    id: usize,
) -> Result<bool, Memory>
    requires names { rules.now.names ≡ NameCase.Fold }
    requires id { id < length rules.now.rules }
    requires known { AreFound bounds (rules_of rules.now) known.old.items }
    ensures found { OnOk result (AreFound bounds (rules_of rules.now) known.new.items) }
    ensures step { IfOk result (IsStep bounds (rules_of rules.now) id known.old.items known.new.items) }
{
    let words = Words {
        rules,
        known: known.as_slice(),
        bounds,
    };
    let Some(new) = shortest(alloc, &words, rules.body(id))? else {
        return Ok(false);
    };
    if !is_shorter(&new, &known[id]) {
        return Ok(false);
    }
    known[id] = Some(new);
    Ok(true)
}

// Looks for shorter lists of all rules, and returns whether there is one.
fn improve_all(
    alloc: Global,
    rules: &RuleTable<Elem>,
    bounds: LineBounds,
    known: &mut Vec<Option<Vec<u32>>>,
) -> Result<bool, Memory>
    requires names { rules.now.names ≡ NameCase.Fold }
    requires known { AreFound bounds (rules_of rules.now) known.old.items }
    ensures found { OnOk result (AreFound bounds (rules_of rules.now) known.new.items) }
    ensures passed { IfOk result (ArePassed bounds (rules_of rules.now) (length rules.now.rules) known.old.items
        known.new.items) }
{
    let mut improved = false;
    for id in 0..rules.len() {
        let step = improve(alloc, rules, bounds, known, id)?;
        improved = improved || step;
    }
    Ok(improved)
}

// Returns so many times nothing.
fn unknown(alloc: Global, count: usize) -> Result<Vec<Option<Vec<u32>>>, Memory>
    ensures { IfOk result (λ known. known.items ≡ replicate count None) }
{
    let mut known = Vec::new(alloc);
    for _ in 0..count {
        known.push(None)?;
    }
    Ok(known)
}

/// Returns of each rule a shortest list that it derives and that may be a line, if there is one.
pub(crate) fn rule_words(
    alloc: Global,
    rules: &RuleTable<Elem>,
    bounds: LineBounds,
) -> Result<Vec<Option<Vec<u32>>>, Memory>
    requires { rules.now.names ≡ NameCase.Fold }
    ensures { IfOk result (λ known. AreShortestWords bounds (rules_of rules.now) known.items) }
{
    let mut known = unknown(alloc, rules.len())?;
    let mut improved = true;
    while improved {
        improved = improve_all(alloc, rules, bounds, &mut known)?;
    }
    Ok(known)
}

//! The dotted rules of a closure that call or read.
ghost use Rattle.std.specs.Prelude.{◌≡◌, ◌≤◌, ◌↔◌, ◌∷◌, ◌++◌, ℕ, List, [], Some};
ghost use Rattle.std.specs.Prelude.{IsTrue, IfOk, IfSome, IfNone, OnOk, slice_get};
ghost use Rattle.flatgrammar.specs.Flat.{Has, Between, EitherCase};
ghost use Rattle.flatgrammar.specs.FlatViews.{set_of};
ghost use Rattle.flatgrammar.specs.ItemClosures.{closure_of, call_at, dots_of, Asks, AreAsks, Reads, ReadsAny, Picks};
ghost use Rattle.flatgrammar.specs.ItemClosures.{AreAdded, AreByLetter, AreEnds, lists_in, IsDotList};
ghost use Rattle.flatgrammar.specs.declared.closure.DottedRule.{DottedRule as TheRule};
ghost use Rattle.flatgrammar.specs.declared.tables.Tables.{Tables as TheTables};

use crate::closure::DottedRule;
use crate::flat_item::Item;
use crate::flat_node::{Ends, Node, Set, other_case, set_at, widened};
use crate::tables::{Tables, call, dots, sole_caller};
use ruletable::Memory;
use std::alloc::Global;

// Fewer dotted rules that read are walked without a table by letter.
const FEW: usize = 4;

// The ends of a range without a symbol.
const NO_ENDS: Ends = Ends {
    least: u32::MAX,
    greatest: 0,
};

/// A dotted rule that calls a target with a closure of its own.
#[derive(Clone, Copy)]
pub struct Ask {
    /// The dotted rule.
    pub dot: DottedRule,
    /// The target that it calls.
    pub target: usize,
    /// The step after the call.
    pub next: usize,
}

/// The dotted rules of a closure that matter in a set: those that call, and those that read.
#[derive(Drop)]
pub struct DotList {
    /// The dotted rules that call a target with a closure of its own.
    pub asks: Vec<Ask>,
    /// The dotted rules that may read a symbol.
    pub readers: Vec<DottedRule>,
    /// Of each symbol below 256 its readers; empty if at most four dotted rules read.
    pub by_letter: Vec<Vec<DottedRule>>,
    /// A range that has all symbols that are read.
    pub ends: Ends,
}

// Returns what a dotted rule asks for, if it calls a target with a closure of its own.
fn ask_of(flat: &Tables, dot: DottedRule) -> Option<Ask>
    ensures dot { IfSome result (λ ask. ask.dot ≡ dot) }
    ensures call { IfSome result (λ ask. call_at flat.now dot ≡ Some (ask.target, ask.next)) }
    ensures none { IfNone result (Asks flat.now dot → ⊥) }
{
    let item = Item {
        node: dot.node,
        step: dot.step,
        origin: 0,
    };
    let (target, next) = call(flat, item)?;
    match sole_caller(flat, target) {
        None => Some(Ask { dot, target, next }),
        Some(_) => None,
    }
}

// Returns whether a dotted rule may read a letter.
fn reads_any(flat: &Tables, dot: DottedRule) -> bool
    ensures { ReadsAny flat.now dot → IsTrue result }
{
    match flat.nodes.get(dot.node) {
        Some(Node::Letters(_)) => true,
        _ => false,
    }
}

// Returns the set of which a dotted rule reads a symbol; `None` if it reads none.
fn set_of_dot(flat: &Tables, dot: DottedRule) -> Option<&Set>
    ensures some { IfSome result (λ set. (c : ℕ) → Reads flat.now c dot ↔ Has (set_of set.now) c) }
    ensures none { IfNone result ((c : ℕ) → Reads flat.now c dot → ⊥) }
{
    set_at(flat.nodes.get(dot.node)?, dot.step)
}

// Returns what those ask for that call a target with a closure of its own.
fn asks_of(alloc: Global, flat: &Tables, from: &[DottedRule]) -> Result<Vec<Ask>, Memory>
    ensures picks { IfOk result (λ list. Picks (Asks flat.now) from.now (dots_of list.items)) }
    ensures report { IfOk result (λ list. AreAsks flat.now list.items) }
{
    let mut list = Vec::new(alloc);
    for dot in from {
        if let Some(ask) = ask_of(flat, *dot) {
            list.push(ask)?;
        }
    }
    Ok(list)
}

// Returns those that may read a letter.
fn readers_of(alloc: Global, flat: &Tables, from: &[DottedRule]) -> Result<Vec<DottedRule>, Memory>
    ensures { IfOk result (λ list. Picks (ReadsAny flat.now) from.now list.items) }
{
    let mut list = Vec::new(alloc);
    for dot in from {
        if reads_any(flat, *dot) {
            list.push(*dot)?;
        }
    }
    Ok(list)
}

// Returns the ends of a range that has the letters of other ends and those that a dotted rule reads.
fn widened_by(flat: &Tables, dot: DottedRule, ends: Ends) -> Ends
    ensures wider { (result.least ≤ ends.least) × (ends.greatest ≤ result.greatest) }
    ensures held { (c : ℕ) → Reads flat.now c dot → (result.least ≤ c) × (c ≤ result.greatest) }
{
    match flat.nodes.get(dot.node) {
        Some(node) => widened(node, dot.step, ends),
        None => ends,
    }
}

// Returns the ends of a range that has all letters that dotted rules read.
fn ends_of(flat: &Tables, from: &[DottedRule]) -> Ends
    ensures { AreEnds flat.now from.now result }
{
    let mut ends = NO_ENDS;
    for dot in from {
        ends = widened_by(flat, *dot, ends);
    }
    ends
}

// Returns an empty list for each letter below 256.
fn no_readers(alloc: Global) -> Result<Vec<Vec<DottedRule>>, Memory>
    ensures { IfOk result (λ lists. (flat : TheTables) → AreByLetter flat [] lists.items) }
{
    let mut lists = Vec::new(alloc);
    for _letter in 0..256 {
        lists.push(Vec::new(alloc))?;
    }
    Ok(lists)
}

// Adds a dotted rule to the lists of the letters from `low` to `high`.
fn add_range(
    dot: DottedRule,
    low: u32,
    high: u32,
    lists: &mut Vec<Vec<DottedRule>>,
) -> Result<(), Memory>
    ensures { OnOk result (AreAdded (Has (Between low high)) dot lists.old.items lists.new.items) }
{
    let end = lists.len().min(high as usize + 1);
    for value in low as usize..end {
        lists[value].push(dot)?;
    }
    Ok(())
}

// Adds a dotted rule to the lists of both cases of a letter.
fn add_both(dot: DottedRule, value: u32, lists: &mut Vec<Vec<DottedRule>>) -> Result<(), Memory>
    ensures { OnOk result (AreAdded (Has (EitherCase value)) dot lists.old.items lists.new.items) }
{
    add_range(dot, value, value, lists)?;
    let other = other_case(value);
    if other == value {
        return Ok(());
    }
    add_range(dot, other, other, lists)
}

// Adds a dotted rule to the lists of the letters that it reads.
fn add_reader(
    flat: &Tables,
    dot: DottedRule,
    lists: &mut Vec<Vec<DottedRule>>,
) -> Result<(), Memory>
    ensures { OnOk result ((dots : List TheRule) → AreByLetter flat.now dots lists.old.items
        → AreByLetter flat.now (dots ++ dot ∷ []) lists.new.items) }
{
    match set_of_dot(flat, dot) {
        Some(Set::Exactly(value)) => add_range(dot, *value, *value, lists),
        Some(Set::EitherCase(value)) => add_both(dot, *value, lists),
        Some(Set::Between { low, high }) => add_range(dot, *low, *high, lists),
        None => Ok(()),
    }
}

// Returns for each letter below 256 those that read it, or no list if there are few of them.
fn by_letter(
    alloc: Global,
    flat: &Tables,
    from: &[DottedRule],
) -> Result<Vec<Vec<DottedRule>>, Memory>
    ensures { IfOk result (λ lists. AreByLetter flat.now from.now lists.items) }
{
    if from.len() <= FEW {
        return Ok(Vec::new(alloc));
    }
    let mut lists = no_readers(alloc)?;
    for dot in from {
        add_reader(flat, *dot, &mut lists)?;
    }
    Ok(lists)
}

// Returns the lists of a closure.
fn list_of(alloc: Global, flat: &Tables, from: &[DottedRule]) -> Result<DotList, Memory>
    ensures { IfOk result (λ list. IsDotList flat.now from.now (lists_in (Some list))) }
{
    let asks = asks_of(alloc, flat, from)?;
    let readers = readers_of(alloc, flat, from)?;
    let ends = ends_of(flat, &readers);
    let by_letter = by_letter(alloc, flat, &readers)?;
    Ok(DotList {
        asks,
        readers,
        by_letter,
        ends,
    })
}

/// Returns of each closure its lists.
pub(crate) fn dot_lists(alloc: Global, flat: &Tables) -> Result<Vec<DotList>, Memory>
    ensures { IfOk result (λ lists. (h : ℕ) → IsDotList flat.now (closure_of flat.now h).dots
        (lists_in (slice_get lists.items h))) }
{
    let mut lists = Vec::new(alloc);
    for prediction in 0..flat.closures.len() {
        let list = list_of(alloc, flat, dots(flat, prediction))?;
        lists.push(list)?;
    }
    Ok(lists)
}

//! Closures of targets: where they and the nodes inlined into them begin.
ghost use Rattle.std.specs.Prelude.{◌≡◌, ◌↔◌, ◌⊎◌, ◌<◌, ℕ, Some, None, IfOk, length, slice_get};
ghost use Rattle.flatgrammar.specs.declared.closure.DottedRule as dots;
ghost use Rattle.flatgrammar.specs.declared.inlined.Inlined as inlined;
ghost use Rattle.flatgrammar.specs.Positions.{In};
ghost use Rattle.flatgrammar.specs.ItemClosures.{closure_in};
ghost use Rattle.flatgrammar.specs.Inlines.{inlined_at as the_inlined};
ghost use Rattle.flatgrammar.specs.PredictionClosures.{IsCalled, IsPast, Grows, BeginsAt, ArePredictionClosures};

use crate::closure::{DottedRule, ItemClosure};
use crate::flat_item::Item;
use crate::inlined::{Inlined, begin_steps, inlined_at, owner};
use crate::tables::{Tables, call, null, takes_letter};
use ruletable::Memory;
use std::alloc::Global;

// Adds the target that a dotted rule calls, unless it stands in the closure of another.
fn add_call(
    flat: &Tables,
    inlines: &[Option<Inlined>],
    dot: DottedRule,
    calls: &mut Vec<usize>,
) -> Result<(), Memory>
    ensures { IfOk result (λ _. (t : ℕ) → In t calls.new.items
        ↔ (In t calls.old.items ⊎ IsCalled flat.now inlines.now dot t)) }
{
    let item = Item {
        node: dot.node,
        step: dot.step,
        origin: 0,
    };
    let Some((target, _)) = call(flat, item) else {
        return Ok(());
    };
    match inlined_at(inlines, target) {
        Some(_) => Ok(()),
        None => {
            calls.push(target)?;
            Ok(())
        }
    }
}

// Adds the dotted rule after a call of a nullable target, unless it is the one that calls, or what is called has to
// take a letter.
fn add_pass(flat: &Tables, dot: DottedRule, passes: &mut Vec<DottedRule>) -> Result<(), Memory>
    ensures { IfOk result (λ _. (r : dots.DottedRule) → In r passes.new.items
        ↔ (In r passes.old.items ⊎ IsPast flat.now dot r)) }
{
    let item = Item {
        node: dot.node,
        step: dot.step,
        origin: 0,
    };
    let Some((target, next)) = call(flat, item) else {
        return Ok(());
    };
    if takes_letter(flat, item) || !null(flat, target) {
        return Ok(());
    }
    if next == dot.step {
        return Ok(());
    }
    passes.push(DottedRule {
        node: dot.node,
        step: next,
    })?;
    Ok(())
}

// Adds a dotted rule, and what it asks for.
fn add_dot(
    flat: &Tables,
    inlines: &[Option<Inlined>],
    dot: DottedRule,
    closure: &mut ItemClosure,
) -> Result<(), Memory>
    ensures { IfOk result (λ _. Grows flat.now inlines.now (λ p. p ≡ dot) (closure_in (Some closure.old))
        (closure_in (Some closure.new))) }
{
    closure.dots.push(dot)?;
    add_call(flat, inlines, dot, &mut closure.calls)?;
    add_pass(flat, dot, &mut closure.passes)?;
    Ok(())
}

// Adds where a node begins, and what it asks for there.
fn add_node(
    flat: &Tables,
    inlines: &[Option<Inlined>],
    node: usize,
    closure: &mut ItemClosure,
) -> Result<(), Memory>
    ensures { IfOk result (λ _. Grows flat.now inlines.now (BeginsAt flat.now node) (closure_in (Some closure.old))
        (closure_in (Some closure.new))) }
{
    for step in 0..begin_steps(flat, node) {
        add_dot(flat, inlines, DottedRule { node, step }, closure)?;
    }
    Ok(())
}

// Returns closures with nothing in them.
fn empty_closures(alloc: Global, count: usize) -> Result<Vec<ItemClosure>, Memory>
    ensures count { IfOk result (λ closures. length closures.items ≡ count) }
    ensures empty { IfOk result (λ closures. (h : ℕ) → closure_in (slice_get closures.items h) ≡ closure_in None) }
{
    let mut closures = Vec::new(alloc);
    for _ in 0..count {
        closures.push(ItemClosure {
            dots: Vec::new(alloc),
            calls: Vec::new(alloc),
            passes: Vec::new(alloc),
        })?;
    }
    Ok(closures)
}

/// Returns of each target its closure, and of each inlined node an empty one.
pub(crate) fn prediction_closures(
    alloc: Global,
    flat: &Tables,
    inlines: &[Option<Inlined>],
) -> Result<Vec<ItemClosure>, Memory>
    requires { (t : ℕ) (inlined : inlined.Inlined) → the_inlined inlines.now t ≡ Some inlined
        → inlined.prediction < length flat.now.nodes.items }
    ensures { IfOk result (λ closures. ArePredictionClosures flat.now inlines.now closures.items) }
{
    let mut closures = empty_closures(alloc, flat.nodes.len())?;
    for node in 0..flat.nodes.len() {
        let prediction = owner(inlines, node);
        add_node(flat, inlines, node, &mut closures[prediction])?;
    }
    Ok(closures)
}

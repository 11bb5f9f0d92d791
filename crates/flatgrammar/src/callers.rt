//! The callers of each node.
ghost use Rattle.std.specs.Prelude.{◌≡◌, ◌<◌, ℕ, Some, IfOk, length, slice_get};
ghost use Rattle.flatgrammar.specs.TableViews.{target_in};
ghost use Rattle.flatgrammar.specs.ItemClosures.{dot, call_at};
ghost use Rattle.flatgrammar.specs.Inlines.{allows, allows_in, StillAllow, AreCallers};

use crate::closure::DottedRule;
use crate::flat_item::Item;
use crate::flat_node::{call_count, turned};
use crate::tables::{Tables, call};
use ruletable::Memory;
use std::alloc::Global;

/// The callers of a node.
#[derive(Clone, Copy)]
pub(crate) enum Caller {
    /// No dotted rule.
    Nobody,
    /// This dotted rule alone.
    One(DottedRule),
    /// Several dotted rules, or a repetition.
    Many,
}

// Returns what calls a node that one more dotted rule calls.
fn with_dot(caller: Caller, dot: DottedRule) -> Caller
    ensures old { (n k : ℕ) → allows caller n k → allows result n k }
    ensures new { allows result dot.node dot.step }
{
    match caller {
        Caller::Nobody => Caller::One(dot),
        _ => Caller::Many,
    }
}

// Notes that a dotted rule calls a target.
fn mark(callers: &mut [Caller], target: usize, dot: DottedRule)
    ensures count { length callers.new ≡ length callers.old }
    ensures still { StillAllow callers.old callers.new }
    ensures here { allows_in (slice_get callers.new target) dot.node dot.step }
{
    if target < callers.len() {
        let caller = with_dot(callers[target], dot);
        callers[target] = caller;
    }
}

// Notes that any dotted rules call a target.
fn mark_many(callers: &mut [Caller], target: usize)
    ensures count { length callers.new ≡ length callers.old }
    ensures still { StillAllow callers.old callers.new }
    ensures here { (n k : ℕ) → allows_in (slice_get callers.new target) n k }
{
    if target < callers.len() {
        callers[target] = Caller::Many;
    }
}

// Notes what a dotted rule calls.
fn mark_position(flat: &Tables, node: usize, step: usize, callers: &mut [Caller])
    ensures count { length callers.new ≡ length callers.old }
    ensures still { StillAllow callers.old callers.new }
    ensures here { (t l : ℕ) → call_at flat.now (dot node step) ≡ Some (t, l)
        → allows_in (slice_get callers.new t) node step }
{
    let item = Item {
        node,
        step,
        origin: 0,
    };
    if let Some((target, _)) = call(flat, item) {
        mark(callers, target, DottedRule { node, step });
    }
}

// Notes what the first dotted rules of a node call.
fn mark_positions(flat: &Tables, node: usize, count: usize, callers: &mut [Caller])
    ensures count { length callers.new ≡ length callers.old }
    ensures still { StillAllow callers.old callers.new }
    ensures here { (k t l : ℕ) → k < count → call_at flat.now (dot node k) ≡ Some (t, l)
        → allows_in (slice_get callers.new t) node k }
{
    for step in 0..count {
        mark_position(flat, node, step, callers);
    }
}

// Notes that the iterations of a repetition call the target of its operand.
fn mark_iterations(flat: &Tables, operand: usize, callers: &mut [Caller])
    ensures count { length callers.new ≡ length callers.old }
    ensures still { StillAllow callers.old callers.new }
    ensures here { (t l m n k : ℕ) → target_in (slice_get flat.now.targets.items operand) m ≡ Some (t, l)
        → allows_in (slice_get callers.new t) n k }
{
    if let Some(Some(target)) = flat.targets.get(operand) {
        mark_many(callers, *target);
    }
}

// Notes what a node calls.
fn mark_node(flat: &Tables, node: usize, callers: &mut [Caller])
    ensures count { length callers.new ≡ length callers.old }
    ensures still { StillAllow callers.old callers.new }
    ensures here { (k t l : ℕ) → call_at flat.now (dot node k) ≡ Some (t, l)
        → allows_in (slice_get callers.new t) node k }
{
    if let Some(at) = flat.nodes.get(node) {
        mark_positions(flat, node, call_count(at), callers);
        if let Some(operand) = turned(at) {
            mark_iterations(flat, operand, callers);
        }
    }
}

/// Returns the callers of each node. `Memory` if an allocation fails.
pub(crate) fn find_callers(alloc: Global, flat: &Tables) -> Result<Vec<Caller>, Memory>
    ensures { IfOk result (λ callers. AreCallers flat.now callers.items) }
{
    let mut callers = Vec::new(alloc);
    callers.resize(flat.nodes.len(), Caller::Nobody)?;
    for node in 0..flat.nodes.len() {
        mark_node(flat, node, &mut callers);
    }
    Ok(callers)
}

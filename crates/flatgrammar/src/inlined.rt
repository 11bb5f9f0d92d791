//! Inlined nodes: one dotted rule alone calls each, where another node begins.
ghost use Rattle.std.specs.Prelude.{◌≡◌, ◌↔◌, ℕ, Some, IsTrue, IfOk, IfSome};
ghost use Rattle.flatgrammar.specs.ItemClosures.{dot, begin_count, call_at};
ghost use Rattle.flatgrammar.specs.TableViews.{start_target as the_whole};
ghost use Rattle.flatgrammar.specs.Inlines.{inlined_at as the_inlined, owner_in, allows, IsInlined, AreInlines};

use crate::callers::{Caller, find_callers};
use crate::flat_item::Item;
use crate::flat_node::begins;
use crate::tables::{Tables, call, start_target};
use ruletable::Memory;
use std::alloc::Global;

/// The only call site of an inlined node. It stands where its own node begins, so the callee is predicted with it.
#[derive(Clone, Copy)]
pub struct Inlined {
    /// The target whose closure has the call site.
    pub prediction: usize,
    /// The node of the call site.
    pub node: usize,
    /// The step of the call.
    pub step: usize,
    /// The step after the call.
    pub next: usize,
}

/// Returns the number of steps at which a node begins: those from 0 on.
pub fn begin_steps(flat: &Tables, node: usize) -> usize
    ensures { result ≡ begin_count flat.now node }
{
    match flat.nodes.get(node) {
        Some(node) => begins(node),
        None => 0,
    }
}

/// Returns the only call site of a node, if the node is inlined.
pub(crate) fn inlined_at(inlines: &[Option<Inlined>], node: usize) -> Option<Inlined>
    ensures { result ≡ the_inlined inlines.now node }
{
    match inlines.get(node) {
        Some(inlined) => *inlined,
        None => None,
    }
}

/// Returns the target whose closure has a node.
pub(crate) fn owner(inlines: &[Option<Inlined>], node: usize) -> usize
    ensures { result ≡ owner_in inlines.now node }
{
    match inlined_at(inlines, node) {
        Some(inlined) => inlined.prediction,
        None => node,
    }
}

// Returns whether a target is the augmented start's.
fn is_whole(flat: &Tables, target: usize) -> bool
    ensures { IsTrue result ↔ (the_whole flat.now ≡ Some target) }
{
    match start_target(flat) {
        Some(whole) => whole == target,
        None => false,
    }
}

// Returns the dotted rule that alone calls a node, if the node can stand in the closure of another.
fn inlined_of(
    flat: &Tables,
    caller: Caller,
    inlines: &[Option<Inlined>],
    node: usize,
) -> Option<Inlined>
    requires { (n k l : ℕ) → call_at flat.now (dot n k) ≡ Some (node, l) → allows caller n k }
    ensures { IfSome result (λ inlined. IsInlined flat.now inlines.now node inlined) }
{
    let Caller::One(position) = caller else {
        return None;
    };
    let item = Item {
        node: position.node,
        step: position.step,
        origin: 0,
    };
    let Some((target, next)) = call(flat, item) else {
        return None;
    };
    let prediction = owner(inlines, position.node);
    if target == node
        && node < position.node
        && prediction < flat.nodes.len()
        && position.step < begin_steps(flat, position.node)
        && next != position.step
        && !is_whole(flat, node)
    {
        Some(Inlined {
            prediction,
            node: position.node,
            step: position.step,
            next,
        })
    } else {
        None
    }
}

/// Returns of each inlined node its only call site, and `None` of other nodes. `Memory` if an allocation fails.
pub(crate) fn find_inlines(alloc: Global, flat: &Tables) -> Result<Vec<Option<Inlined>>, Memory>
    ensures { IfOk result (λ inlines. AreInlines flat.now inlines.items) }
{
    let callers = find_callers(alloc, flat)?;
    let mut inlines = Vec::new(alloc);
    inlines.resize(callers.len(), None)?;
    let mut node = callers.len();
    while node > 0 {
        node -= 1;
        let inlined = inlined_of(flat, callers[node], &inlines, node);
        inlines[node] = inlined;
    }
    Ok(inlines)
}

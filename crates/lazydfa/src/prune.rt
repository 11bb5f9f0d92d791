//! Stacks that others dominate, which are left out of a closure.
ghost use Rattle.std.specs.Prelude.{◌≡◌, ◌≤◌, ℕ, Option, IsTrue, IfOk, length, Contains};
ghost use Rattle.flatgrammar.specs.Flat.{Dot, Rep, top};
ghost use Rattle.flatgrammar.specs.FlatViews.{node_of};
ghost use Rattle.flatgrammar.specs.NodeSteps.{flat_of};
ghost use Rattle.lazydfa.specs.Conts.{AreOlder, stack_of};
ghost use Rattle.lazydfa.specs.Domination.{Dominates, IsAhead, IsPruned, IsTopTaken};

use crate::chains::HashChains;
use crate::close::cont_at;
use crate::conts::{Cont, Conts};
use crate::transition::Closure;
use flatgrammar::{Node, Tables};
use ruletable::Memory;
use std::alloc::Global;

/// How many dotted rules of a stack are compared.
const DEPTH: usize = 64;

/// With how many stacks of a chain a stack is compared.
const COMPARED: usize = 32;

// Returns whether a node is a repetition that may end after both counts.
fn ends_at_both(node: &Node, few: usize, many: usize) -> bool
    ensures { IsTrue result → (least : ℕ) × (most : Option ℕ) × (operand : ℕ) ×
        (node_of node.now ≡ Rep least most operand) × (least ≤ few) × (few ≤ many) × (many ≤ top least most) }
{
    match node {
        Node::Rep {
            least,
            most: Some(most),
            operand: _,
        } => *least as usize <= few && few <= many && many <= *most as usize,
        _ => false,
    }
}

// Returns whether a dotted rule is that of another, or stands in the same repetition after fewer iterations, which are
// enough.
fn is_ahead(tables: &Tables, cont: Cont, other: Cont) -> bool
    ensures { IsTrue result → IsAhead (flat_of tables.now) (Dot.at cont.node cont.step) (Dot.at other.node other.step) }
{
    if cont.node != other.node {
        return false;
    }
    if cont.step == other.step {
        return true;
    }
    match tables.nodes.get(cont.node) {
        Some(node) => ends_at_both(node, cont.step, other.step),
        None => false,
    }
}

// Returns whether a stack dominates another, as far as they are compared.
fn dominates(tables: &Tables, conts: &Conts, over: usize, under: usize) -> bool
    requires over { over ≤ length conts.now.items.items }
    requires under { under ≤ length conts.now.items.items }
    requires older { AreOlder conts.now.items.items }
    ensures { IsTrue result → Dominates (flat_of tables.now) (stack_of conts.now.items.items over)
        (stack_of conts.now.items.items under) }
{
    let mut id = over;
    let mut other = under;
    for _ in 0..DEPTH {
        if id == other {
            return true;
        }
        if id == 0 || other == 0 {
            return false;
        }
        let cont = cont_at(conts, id);
        let below = cont_at(conts, other);
        if !is_ahead(tables, cont, below) {
            return false;
        }
        id = cont.next;
        other = below.next;
    }
    false
}

// Returns whether a continuation stands in a repetition that is counted, and may end there.
fn is_counted(tables: &Tables, cont: Cont) -> bool {
    match tables.nodes.get(cont.node) {
        Some(node) => ends_at_both(node, cont.step, cont.step),
        None => false,
    }
}

// Returns the hash of a stack without its counts, so that a stack and those that it dominates have the same.
fn hash_of_shape(tables: &Tables, conts: &Conts, top: usize) -> usize {
    let mut mixed = 0usize;
    let mut id = top;
    for _ in 0..DEPTH {
        let Some(at) = id.checked_sub(1) else {
            return mixed;
        };
        let Some(cont) = conts.items.get(at).copied() else {
            return mixed;
        };
        let step = if is_counted(tables, cont) {
            0
        } else {
            cont.step
        };
        mixed = mixed
            .wrapping_mul(0x9E37_79B9)
            .wrapping_add(cont.node)
            .wrapping_mul(0x85EB_CA6B)
            .wrapping_add(step);
        id = cont.next;
    }
    mixed
}

// Returns whether one of the tops in the chain of a hash dominates another top; the entry k + 1 is of top k.
fn is_dominated(
    tables: &Tables,
    conts: &Conts,
    kept: &[usize],
    chains: &HashChains,
    hash: usize,
    top: usize,
) -> bool
    requires within { (id : ℕ) → Contains kept.now id → id ≤ length conts.now.items.items }
    requires top { top ≤ length conts.now.items.items }
    requires older { AreOlder conts.now.items.items }
    ensures { IsTrue result → (other : ℕ) × Contains kept.now other × Dominates (flat_of tables.now)
        (stack_of conts.now.items.items other) (stack_of conts.now.items.items top) }
{
    let mut entry = chains.last(hash);
    for _ in 0..COMPARED {
        if entry == 0 || entry > kept.len() {
            return false;
        }
        if dominates(tables, conts, kept[entry - 1], top) {
            return true;
        }
        entry = chains.before(entry);
    }
    false
}

// Adds a top, unless one of those before dominates it. `Memory` if an allocation fails.
fn take_top(
    tables: &Tables,
    conts: &Conts,
    top: usize,
    kept: &mut Vec<usize>,
    chains: &mut HashChains,
) -> Result<(), Memory>
    requires within { (id : ℕ) → Contains kept.old.items id → id ≤ length conts.now.items.items }
    requires top { top ≤ length conts.now.items.items }
    requires older { AreOlder conts.now.items.items }
    ensures { IfOk result (λ done. IsTopTaken tables.now conts.now.items.items kept.old.items kept.new.items top) }
{
    let hash = hash_of_shape(tables, conts, top);
    if is_dominated(tables, conts, kept, chains, hash, top) {
        return Ok(());
    }
    kept.push(top)?;
    chains.add(hash)
}

// Returns tops in reverse order without those that an earlier one dominates. `Memory` if an allocation fails.
fn undominated(
    alloc: Global,
    tables: &Tables,
    conts: &Conts,
    tops: &[usize],
) -> Result<Vec<usize>, Memory>
    requires within { (id : ℕ) → Contains tops.now id → id ≤ length conts.now.items.items }
    requires older { AreOlder conts.now.items.items }
    ensures { IfOk result (λ kept. IsPruned tables.now conts.now.items.items tops.now kept.items) }
{
    let mut chains = HashChains::new(alloc);
    chains.restart(tops.len())?;
    let mut kept = Vec::new(alloc);
    for top in tops {
        take_top(tables, conts, *top, &mut kept, &mut chains)?;
    }
    kept.reverse();
    Ok(kept)
}

/// Returns a closure without tops that others dominate, if the grammar counts. `Memory` if an allocation fails.
pub(crate) fn prune(
    alloc: Global,
    tables: &Tables,
    conts: &Conts,
    counts: bool,
    closure: Closure,
) -> Result<Closure, Memory>
    requires within { (id : ℕ) → Contains closure.tops.items id → id ≤ length conts.now.items.items }
    requires older { AreOlder conts.now.items.items }
    ensures kept { IfOk result (λ kept. IsPruned tables.now conts.now.items.items closure.tops.items kept.tops.items) }
    ensures ended { IfOk result (λ kept. kept.ended ≡ closure.ended) }
{
    if !counts || closure.tops.len() < 2 {
        return Ok(closure);
    }
    let reversed = undominated(alloc, tables, conts, &closure.tops)?;
    let tops = undominated(alloc, tables, conts, &reversed)?;
    Ok(Closure {
        tops,
        ended: closure.ended,
    })
}

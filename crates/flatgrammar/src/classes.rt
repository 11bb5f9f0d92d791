//! Classes of symbols that each set of a grammar takes or rejects together.
ghost use Rattle.std.specs.Prelude.{◌≤◌, IfOk, map};
ghost use Rattle.std.specs.List.Sorted.{IsStrictlyIncreasing};
ghost use Rattle.flatgrammar.specs.Flat.{Flat, EitherCase};
ghost use Rattle.flatgrammar.specs.FlatViews.{node_of, nodes_of, set_of};
ghost use Rattle.flatgrammar.specs.NodeSteps.{flat_of};
ghost use Rattle.flatgrammar.specs.ClassBounds.{AreClasses, AreEndsAdded, AreLow, AreMoreBounds};
ghost use Rattle.flatgrammar.specs.ClassBounds.{AreNodesSplit, AreParted, AreSplit, HaveClasses, IsClassOf};
ghost use Rattle.flatgrammar.specs.ClassBounds.{IsNodeSplit, IsSplit};

use crate::bounds::{Bounds, add_bound, empty_bounds};
use crate::flat_node::other_case;
use crate::{Node, Set, Tables};
use ruletable::Memory;
use std::alloc::Global;

/// Classes of symbols that each set of a grammar takes or rejects together. A class is a range of numbers: it ends
/// before the first number of the next class.
#[derive(Drop)]
pub struct Classes {
    /// Of each number below 256 its class, so that bytes need no search.
    pub low: [u8; 256],
    /// Of each class its first number, in ascending order.
    pub samples: Vec<u32>,
}

// Adds the first number of a range and the one after its last. `Memory` if an allocation fails.
fn add_ends(low: u32, high: u32, bounds: &mut Bounds) -> Result<(), Memory>
    ensures { IfOk result (λ done. AreEndsAdded bounds.old.numbers.items bounds.new.numbers.items low high) }
{
    add_bound(low, bounds)?;
    if high < u32::MAX {
        add_bound(high + 1, bounds)?;
    }
    Ok(())
}

// Adds where both cases of a letter begin and end. `Memory` if an allocation fails.
fn add_cases(value: u32, bounds: &mut Bounds) -> Result<(), Memory>
    ensures more { IfOk result (λ done. AreMoreBounds bounds.old.numbers.items bounds.new.numbers.items) }
    ensures split { IfOk result (λ done. IsSplit bounds.new.numbers.items (EitherCase value)) }
{
    let other = other_case(value);
    add_ends(value, value, bounds)?;
    add_ends(other, other, bounds)?;
    Ok(())
}

// Adds where a set begins and ends. `Memory` if an allocation fails.
fn add_set(set: &Set, bounds: &mut Bounds) -> Result<(), Memory>
    ensures more { IfOk result (λ done. AreMoreBounds bounds.old.numbers.items bounds.new.numbers.items) }
    ensures split { IfOk result (λ done. IsSplit bounds.new.numbers.items (set_of set.now)) }
{
    match set {
        Set::Exactly(value) => add_ends(*value, *value, bounds),
        Set::EitherCase(value) => add_cases(*value, bounds),
        Set::Between { low, high } => add_ends(*low, *high, bounds),
    }
}

// Adds where sets begin and end. `Memory` if an allocation fails.
fn add_sets(sets: &[Set], bounds: &mut Bounds) -> Result<(), Memory>
    ensures more { IfOk result (λ done. AreMoreBounds bounds.old.numbers.items bounds.new.numbers.items) }
    ensures split { IfOk result (λ done. AreSplit bounds.new.numbers.items (map set_of sets.now)) }
{
    for set in sets {
        add_set(set, bounds)?;
    }
    Ok(())
}

// Adds where the sets of a node begin and end. `Memory` if an allocation fails.
fn add_node(node: &Node, bounds: &mut Bounds) -> Result<(), Memory>
    ensures more { IfOk result (λ done. AreMoreBounds bounds.old.numbers.items bounds.new.numbers.items) }
    ensures split { IfOk result (λ done. IsNodeSplit bounds.new.numbers.items (node_of node.now)) }
{
    match node {
        Node::Letters(sets) => add_sets(sets, bounds),
        _ => Ok(()),
    }
}

// Adds where the sets of nodes begin and end. `Memory` if an allocation fails.
fn add_nodes(nodes: &[Node], bounds: &mut Bounds) -> Result<(), Memory>
    ensures more { IfOk result (λ done. AreMoreBounds bounds.old.numbers.items bounds.new.numbers.items) }
    ensures split { IfOk result (λ done. AreNodesSplit bounds.new.numbers.items (nodes_of nodes.now)) }
{
    for node in nodes {
        add_node(node, bounds)?;
    }
    Ok(())
}

// Sorts numbers, and keeps each once.
fn ascend(bounds: &mut Vec<u32>)
    ensures ordered { IsStrictlyIncreasing bounds.new.items }
    ensures more { AreMoreBounds bounds.old.items bounds.new.items }
{
    bounds.sort_unstable();
    bounds.dedup();
}

// Returns the class of a number by a search: that of the last sample up to it.
#[cold]
#[inline(never)]
fn class_above(samples: &[u32], value: u32) -> usize
    ensures is { (flat : Flat) → AreParted flat samples.now → IsClassOf flat samples.now value result }
    ensures low { IsStrictlyIncreasing samples.now → result ≤ value }
{
    let above = samples.partition_point(|sample| *sample <= value);
    above.saturating_sub(1)
}

// Returns the classes of the numbers below 256.
fn low_classes(samples: &[u32]) -> [u8; 256]
    requires ordered { IsStrictlyIncreasing samples.now }
    ensures { (flat : Flat) → AreParted flat samples.now → AreLow flat samples.now result }
{
    let mut low = [0u8; 256];
    for number in 0..256 {
        low[number] = class_above(samples, number as u32) as u8;
    }
    low
}

/// Returns the class of a number. Those below 256 are looked up.
#[inline(always)]
pub fn class_of(low: &[u8; 256], samples: &[u32], value: u32) -> usize
    ensures { (flat : Flat) → HaveClasses flat samples.now low.now → AreParted flat samples.now
        → IsClassOf flat samples.now value result }
{
    match low.get(value as usize) {
        Some(class) => usize::from(*class),
        None => class_above(samples, value),
    }
}

/// Returns classes of symbols that each set of a grammar takes or rejects together. `Memory` if an allocation fails.
pub fn find_classes(alloc: Global, tables: &Tables) -> Result<Classes, Memory>
    ensures { IfOk result (λ classes. AreClasses (flat_of tables.now) classes.low classes.samples.items) }
{
    let mut bounds = empty_bounds(alloc);
    add_bound(0, &mut bounds)?;
    add_nodes(&tables.nodes, &mut bounds)?;
    let mut samples = bounds.numbers;
    ascend(&mut samples);
    let low = low_classes(&samples);
    Ok(Classes { low, samples })
}

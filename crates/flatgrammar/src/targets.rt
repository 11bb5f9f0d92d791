//! Of each node the one where it starts and ends.
ghost use Rattle.std.specs.Prelude.{◌≡◌, ℕ, ◌<◌, List, [], length, map, slice_get, Some, Contains, IfOk};
ghost use Rattle.flatgrammar.specs.Targets.{AreTargets};
ghost use Rattle.flatgrammar.specs.FlatViews.{node_of, nodes_of};
ghost use Rattle.flatgrammar.specs.Ways.{first_way, target_of, AreFirst, AreWays, IsWalk, IsFound, IsOnWithin, set_all};
ghost use Rattle.flatgrammar.specs.Ways.{Settles};

use crate::flat_node::Node;
use ruletable::Memory;
use std::alloc::Global;

/// How the target of a node is known.
#[derive(Clone, Copy)]
pub(crate) enum Way {
    /// It is that of this node.
    On(usize),
    /// It is this one, or there is none.
    Found(Option<usize>),
}

// What a node says of its target.
fn first_way(bodies: &[usize], s: usize, node: &Node) -> Way
    ensures { result ≡ first_way bodies.now s (node_of node.now) }
{
    match node {
        Node::Name(id) => match bodies.get(*id) {
            Some(body) => Way::On(*body),
            None => Way::Found(None),
        },
        _ => Way::Found(Some(s)),
    }
}

// What each node says of its target.
fn first_ways(alloc: Global, nodes: &[Node], bodies: &[usize]) -> Result<Vec<Way>, Memory>
    ensures { IfOk result (λ ways. AreFirst (nodes_of nodes.now) bodies.now ways.items) }
{
    let mut ways = Vec::new(alloc);
    for s in 0..nodes.len() {
        ways.push(first_way(bodies, s, &nodes[s]))?;
    }
    Ok(ways)
}

// Follows the ways from `start` up to a node whose target is known. The nodes on the path count as without a target, so
// a path that comes back to itself ends.
fn walk(start: usize, ways: &mut [Way], path: &mut Vec<usize>) -> Result<usize, Memory>
    requires start { start < length ways.old }
    requires within { IsOnWithin ways.old }
    requires path { path.old.items ≡ [] }
    ensures walk { IfOk result (λ s. IsWalk ways.old start s path.new.items ways.new) }
    ensures found { IfOk result (λ s. IsFound ways.new s) }
{
    let mut s = start;
    while let Way::On(next) = ways[s] {
        ways[s] = Way::Found(None);
        path.push(s)?;
        s = next;
    }
    Ok(s)
}

// Gives each node on the path that way.
fn set_all(path: &[usize], way: Way, ways: &mut [Way])
    requires { (p : ℕ) → Contains path.now p → p < length ways.old }
    ensures { ways.new ≡ set_all path.now way ways.old }
{
    for p in path {
        ways[*p] = way;
    }
}

// Finds the targets of a node and of those that it leads to.
fn settle(alloc: Global, start: usize, ways: &mut [Way]) -> Result<(), Memory>
    requires start { start < length ways.old }
    requires within { IsOnWithin ways.old }
    ensures { IfOk result (λ _. Settles ways.old start ways.new) }
{
    let mut path = Vec::new(alloc);
    let s = walk(start, ways, &mut path)?;
    let way = ways[s];
    set_all(&path, way, ways);
    Ok(())
}

// Finds all targets.
fn settle_all(alloc: Global, ways: &mut [Way]) -> Result<(), Memory>
    requires { IsOnWithin ways.old }
    ensures ways { IfOk result (λ _. AreWays ways.old ways.new) }
    ensures found { IfOk result (λ _. (s : ℕ) → s < length ways.new → IsFound ways.new s) }
{
    for start in 0..ways.len() {
        settle(alloc, start, ways)?;
    }
    Ok(())
}

// The targets that were found.
fn found_targets(alloc: Global, ways: &[Way]) -> Result<Vec<Option<usize>>, Memory>
    ensures { IfOk result (λ targets. targets.items ≡ map target_of ways.now) }
{
    let mut targets = Vec::new(alloc);
    for way in ways {
        let target = match way {
            Way::On(_) => None,
            Way::Found(target) => *target,
        };
        targets.push(target)?;
    }
    Ok(targets)
}

/// Returns of each node the target: the node where it starts and ends. Each node is passed once.
pub(crate) fn find_targets(
    alloc: Global,
    nodes: &[Node],
    bodies: &[usize],
) -> Result<Vec<Option<usize>>, Memory>
    requires { (id m : ℕ) → slice_get bodies.now id ≡ Some m → m < length nodes.now }
    ensures { IfOk result (λ targets. AreTargets (nodes_of nodes.now) bodies.now targets.items) }
{
    let mut ways = first_ways(alloc, nodes, bodies)?;
    settle_all(alloc, &mut ways)?;
    found_targets(alloc, &ways)
}

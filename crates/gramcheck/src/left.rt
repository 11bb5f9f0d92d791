//! Left steps between nodes, the left-recursive rules, and ranks that each left step lowers.
ghost use Rattle.std.specs.Prelude.{◌≡◌, ◌⊎◌, ℕ, ◌<◌, Bool, List, length, map, replicate, IfOk};
ghost use Rattle.pegread.specs.Pattern.{Rule};
ghost use Rattle.fixpoint.specs.NumberMarks.{IsMarked, AreBelow};
ghost use Rattle.fixpoint.specs.StepRows.{slices_of};
ghost use Rattle.pegnodes.specs.Bodies.{AreBodies, IsBuilt, IsOperand};
ghost use Rattle.gramcheck.specs.NodeRows.{front, steps_of, step_rows, MarksNames, IsLeft};
ghost use Rattle.pegnodes.specs.Nodes.{Name, shape_of, shapes_of};
ghost use Rattle.gramcheck.specs.Nulls.{AreNullMarks};

use fixpoint::on_cycle;
use pegnodes::{Node, body_of};
use ruletable::Memory;
use std::alloc::Global;
use std::slice::from_ref;

// Returns the first members, as far as the first that is not nullable.
fn front_of<'a>(members: &'a [usize], nulls: &[bool]) -> &'a [usize]
    requires { AreBelow members.now (length nulls.now) }
    ensures { result.now ≡ front nulls.now members.now }
{
    for n in 0..members.len() {
        if !nulls[members[n]] {
            return &members[..n + 1];
        }
    }
    members
}

// Returns the numbers of the nodes to which left steps lead from a node.
fn steps_from<'a>(node: &'a Node, bodies: &'a [usize], nulls: &[bool]) -> &'a [usize]
    requires { (m : ℕ) → IsOperand (shape_of node.now) m → m < length nulls.now }
    ensures { result.now ≡ steps_of bodies.now nulls.now (shape_of node.now) }
{
    match node {
        Node::Any | Node::Bytes(_) | Node::Set(_) | Node::Act(_) | Node::Open | Node::Close => &[],
        Node::Name(id) => body_of(bodies, *id),
        Node::Seq(members) => front_of(members, nulls),
        Node::Choice(alternatives) => alternatives,
        Node::Star(operand)
        | Node::Plus { operand, .. }
        | Node::Opt(operand)
        | Node::And(operand)
        | Node::Not(operand) => from_ref(operand),
    }
}

// Returns for each node the numbers of the nodes to which left steps lead from it.
fn steps<'a>(
    alloc: Global,
    nodes: &'a [Node],
    bodies: &'a [usize],
    nulls: &[bool],
) -> Result<Vec<&'a [usize]>, Memory>
    requires built { IsBuilt (shapes_of nodes.now) }
    requires count { length nulls.now ≡ length nodes.now }
    ensures { IfOk result (λ steps. slices_of steps.items ≡ step_rows bodies.now nulls.now (shapes_of nodes.now)) }
{
    let mut steps = Vec::with_capacity(alloc, nodes.len())?;
    for node in nodes {
        steps.push(steps_from(node, bodies, nulls))?;
    }
    Ok(steps)
}

// Marks the rule that the node names, if it names one.
fn mark_name(node: &Node, found: &mut [bool])
    ensures count { length found.new ≡ length found.old }
    ensures kept { (id : ℕ) → IsMarked found.old id → IsMarked found.new id }
    ensures all { (id : ℕ) → shape_of node.now ≡ Name id → id < length found.old → IsMarked found.new id }
    ensures only { (id : ℕ) → IsMarked found.new id → IsMarked found.old id ⊎ (shape_of node.now ≡ Name id) }
{
    if let Node::Name(id) = node {
        if *id < found.len() {
            found[*id] = true;
        }
    }
}

// Marks the rules that marked nodes name.
fn mark_names(nodes: &[Node], marks: &[bool], found: &mut [bool])
    requires { length marks.now ≡ length nodes.now }
    ensures { MarksNames (shapes_of nodes.now) (length nodes.now) marks.now found.old found.new }
{
    for n in 0..nodes.len() {
        if marks[n] {
            mark_name(&nodes[n], found);
        }
    }
}

// Returns `count` marks, set exactly for the rules that marked nodes name.
fn named_rules(
    alloc: Global,
    nodes: &[Node],
    marks: &[bool],
    count: usize,
) -> Result<Vec<bool>, Memory>
    requires { length marks.now ≡ length nodes.now }
    ensures { IfOk result (λ found. MarksNames (shapes_of nodes.now) (length nodes.now) marks.now
        (replicate count Bool.false) found.items) }
{
    let mut found = vec![in alloc; false; count]?;
    mark_names(nodes, marks, &mut found);
    Ok(found)
}

/// Which rules are left-recursive, and where none is, a rank of each node.
#[derive(Drop)]
pub(crate) struct Left {
    /// One mark a rule.
    pub(crate) recursive: Vec<bool>,
    /// One rank a node.
    pub(crate) ranks: Vec<usize>,
}

/// Finds the left-recursive rules, and ranks the nodes.
///
/// A rule is left-recursive exactly where left steps lead from a node of its name back to it.
///
/// # Errors
/// `Memory` if an allocation fails.
pub(crate) fn find_left(
    alloc: Global,
    nodes: &[Node],
    bodies: &[usize],
    nulls: &[bool],
) -> Result<Left, Memory>
    requires built { IsBuilt (shapes_of nodes.now) }
    requires bodies { AreBelow bodies.now (length nodes.now) }
    requires count { length nulls.now ≡ length nodes.now }
    ensures { IfOk result (λ left. (rules : List Rule) → AreBodies rules (shapes_of nodes.now) bodies.now
        → AreNullMarks rules (shapes_of nodes.now) nulls.now →
        IsLeft rules (shapes_of nodes.now) bodies.now left.recursive.items left.ranks.items) }
{
    let steps = steps(alloc, nodes, bodies, nulls)?;
    let found = on_cycle(alloc, &steps)?;
    let recursive = named_rules(alloc, nodes, &found.marks, bodies.len())?;
    Ok(Left {
        recursive,
        ranks: found.ranks,
    })
}

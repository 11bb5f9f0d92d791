//! Nodes that may print.
ghost use Rattle.std.specs.Prelude.{◌≡◌, List, length, IfOk};
ghost use Rattle.pegread.specs.Pattern.{Rule};
ghost use Rattle.pegnodes.specs.Bodies.{AreBodies, IsBuilt};
ghost use Rattle.fixpoint.specs.Demands.{demand_of, demands_of};
ghost use Rattle.fixpoint.specs.NumberMarks.{AreBelow};
ghost use Rattle.pegnodes.specs.Nodes.{shape_of, shapes_of};
ghost use Rattle.gramcheck.specs.Printing.{print_demand, print_demands, ArePrintMarks};

use fixpoint::{Need, least};
use pegnodes::{Node, body_of};
use ruletable::Memory;
use std::alloc::Global;
use std::slice::from_ref;

// Returns the need of a node to print.
fn print_need<'a>(node: &'a Node, bodies: &'a [usize]) -> Need<'a>
    ensures { demand_of result ≡ print_demand bodies.now (shape_of node.now) }
{
    match node {
        Node::Any | Node::Bytes(_) | Node::Set(_) | Node::And(_) | Node::Not(_) => Need::One(&[]),
        Node::Name(id) => Need::One(body_of(bodies, *id)),
        Node::Seq(members) => Need::One(members),
        Node::Choice(alternatives) => Need::One(alternatives),
        Node::Star(operand) => Need::One(from_ref(operand)),
        Node::Plus { operand, .. } => Need::One(from_ref(operand)),
        Node::Opt(operand) => Need::One(from_ref(operand)),
        Node::Act(_) | Node::Open | Node::Close => Need::All(&[]),
    }
}

// Returns the need of each node to print.
fn print_needs<'a>(
    alloc: Global,
    nodes: &'a [Node],
    bodies: &'a [usize],
) -> Result<Vec<Need<'a>>, Memory>
    ensures { IfOk result (λ needs. demands_of needs.items ≡ print_demands bodies.now (shapes_of nodes.now)) }
{
    let mut needs = Vec::with_capacity(alloc, nodes.len())?;
    for node in nodes {
        needs.push(print_need(node, bodies))?;
    }
    Ok(needs)
}

/// Returns the marks of the nodes that may print.
///
/// `Memory` if an allocation fails.
pub(crate) fn print_marks(
    alloc: Global,
    nodes: &[Node],
    bodies: &[usize],
) -> Result<Vec<bool>, Memory>
    requires built { IsBuilt (shapes_of nodes.now) }
    requires bodies { AreBelow bodies.now (length nodes.now) }
    ensures { IfOk result (λ marks. (rules : List Rule) → AreBodies rules (shapes_of nodes.now) bodies.now
        → ArePrintMarks rules (shapes_of nodes.now) marks.items) }
{
    let needs = print_needs(alloc, nodes, bodies)?;
    Ok(least(alloc, &needs)?)
}

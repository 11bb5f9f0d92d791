//! Nodes and rules that repeat a nullable expression.
ghost use Rattle.std.specs.Prelude.{◌≡◌, ◌↔◌, ℕ, ◌<◌, Bool, length, map, slice_index_or, IfOk};
ghost use Rattle.pegnodes.specs.Bodies.{IsBuilt, IsOperand};
ghost use Rattle.gramcheck.specs.Loops.{LoopsNow, LoopsTo};
ghost use Rattle.fixpoint.specs.NumberMarks.{AreBelow};
ghost use Rattle.pegnodes.specs.Nodes.{shape_of, shapes_of};

use fixpoint::some_marked;
use pegnodes::Node;
use ruletable::Memory;
use std::alloc::Global;

// Whether a node repeats a nullable one, as its operands' marks say.
fn repeats(node: &Node, nulls: &[bool], marks: &[bool]) -> bool
    requires nulls { (m : ℕ) → IsOperand (shape_of node.now) m → m < length nulls.now }
    requires marks { (m : ℕ) → IsOperand (shape_of node.now) m → m < length marks.now }
    ensures { (result ≡ Bool.true) ↔ LoopsNow nulls.now marks.now (shape_of node.now) }
{
    match node {
        Node::Any
        | Node::Bytes(_)
        | Node::Set(_)
        | Node::Name(_)
        | Node::Act(_)
        | Node::Open
        | Node::Close => false,
        Node::Seq(members) | Node::Choice(members) => some_marked(members, marks),
        Node::Star(operand) | Node::Plus { operand, .. } => nulls[*operand] || marks[*operand],
        Node::Opt(operand) | Node::And(operand) | Node::Not(operand) => marks[*operand],
    }
}

/// Marks the nodes within which a nullable one is repeated.
///
/// `Memory` if an allocation fails.
pub(crate) fn loops(alloc: Global, nodes: &[Node], nulls: &[bool]) -> Result<Vec<bool>, Memory>
    requires built { IsBuilt (shapes_of nodes.now) }
    requires count { length nulls.now ≡ length nodes.now }
    ensures { IfOk result (λ marks. LoopsTo (shapes_of nodes.now) nulls.now marks.items (length nodes.now)) }
{
    let mut marks = Vec::new(alloc);
    for n in 0..nodes.len() {
        let repeats = repeats(&nodes[n], nulls, &marks);
        marks.push(repeats)?;
    }
    Ok(marks)
}

/// Returns the marks of the rules' bodies.
///
/// `Memory` if an allocation fails.
pub(crate) fn body_marks(
    alloc: Global,
    bodies: &[usize],
    marks: &[bool],
) -> Result<Vec<bool>, Memory>
    requires { AreBelow bodies.now (length marks.now) }
    ensures { IfOk result (λ found. found.items ≡ map (λ m. slice_index_or marks.now m Bool.false) bodies.now) }
{
    let mut found = Vec::new(alloc);
    for body in bodies {
        found.push(marks[*body])?;
    }
    Ok(found)
}

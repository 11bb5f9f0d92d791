//! How many bytes nodes take.
ghost use Rattle.std.specs.Prelude.{◌≡◌, ℕ, List, length, slice_get, get_or, None, Some, IfOk, IfSome};
ghost use Rattle.pegnodes.specs.Nodes.{Shape, shape_of, shapes_of};
ghost use Rattle.pegnodes.specs.Width.{Width, WidthSum, WidthEach, AreWidths};

use crate::node::Node;
use ruletable::Memory;
use std::alloc::Global;

// How often all widths are read: a width passes through at most so many names of rules that are defined later.
const ROUNDS: usize = 4;

/// Returns the width that is known of a node, if one is.
pub(crate) fn width_of(widths: &[Option<usize>], m: usize) -> Option<usize>
    ensures { result ≡ get_or widths.now m None }
{
    match widths.get(m) {
        Some(width) => *width,
        None => None,
    }
}

// Returns how many bytes these take together, where that is known of each.
fn sum_width(members: &[usize], widths: &[Option<usize>]) -> Option<usize>
    ensures { (nodes : List Shape) (bodies : List ℕ) → AreWidths nodes bodies widths.now
        → IfSome result (WidthSum nodes bodies members.now) }
{
    let mut sum: usize = 0;
    for member in members {
        let width = width_of(widths, *member)?;
        sum = sum.checked_add(width)?;
    }
    Some(sum)
}

// Returns how many bytes each of these takes, where that is known and the same.
fn each_width(alternatives: &[usize], widths: &[Option<usize>]) -> Option<usize>
    ensures { (nodes : List Shape) (bodies : List ℕ) → AreWidths nodes bodies widths.now
        → IfSome result (WidthEach nodes bodies alternatives.now) }
{
    let first = *alternatives.first()?;
    let width = width_of(widths, first)?;
    for alternative in alternatives {
        if width_of(widths, *alternative)? != width {
            return None;
        }
    }
    Some(width)
}

// Returns how many bytes a node takes, if its operands' widths determine that.
fn node_width(node: &Node, bodies: &[usize], widths: &[Option<usize>]) -> Option<usize>
    ensures { (nodes : List Shape) (n : ℕ) → slice_get nodes n ≡ Some (shape_of node.now)
        → AreWidths nodes bodies.now widths.now → IfSome result (Width nodes bodies.now n) }
{
    match node {
        Node::Any => Some(1),
        Node::Set(_) => Some(1),
        Node::Bytes(bytes) => Some(bytes.len()),
        Node::Name(id) => width_of(widths, *bodies.get(*id)?),
        Node::Seq(members) => sum_width(members, widths),
        Node::Choice(alternatives) => each_width(alternatives, widths),
        Node::Star(_) | Node::Plus { .. } => None,
        Node::Opt(operand) => {
            let width = width_of(widths, *operand)?;
            if width == 0 { Some(0) } else { None }
        }
        Node::And(_) => Some(0),
        Node::Not(_) => Some(0),
        Node::Act(_) => Some(0),
        Node::Open => Some(0),
        Node::Close => Some(0),
    }
}

// Finds more widths, node by node.
fn add_widths(nodes: &[Node], bodies: &[usize], widths: &mut [Option<usize>])
    requires { length widths.old ≡ length nodes.now }
    ensures count { length widths.new ≡ length widths.old }
    ensures widths { AreWidths (shapes_of nodes.now) bodies.now widths.old
        → AreWidths (shapes_of nodes.now) bodies.now widths.new }
{
    for n in 0..nodes.len() {
        widths[n] = node_width(&nodes[n], bodies, widths);
    }
}

/// Finds how many bytes nodes take, where that is fixed; of some that is not found.
///
/// # Errors
/// `Memory` if an allocation fails.
pub(crate) fn widths(
    alloc: Global,
    nodes: &[Node],
    bodies: &[usize],
) -> Result<Vec<Option<usize>>, Memory>
    ensures { IfOk result (λ widths. AreWidths (shapes_of nodes.now) bodies.now widths.items) }
{
    let mut widths = vec![in alloc; None; nodes.len()]?;
    for _ in 0..ROUNDS {
        add_widths(nodes, bodies, &mut widths);
    }
    Ok(widths)
}

//! Which nodes may be asked for where, and whether one is asked for twice where a part of a node ends.
ghost use Rattle.std.specs.Prelude.{◌≡◌, ◌<◌, ℕ, true, length, slice_get, IfOk, IfSome};
ghost use Rattle.pegnodes.specs.ClosedMarks.{all_marked, any_marked, front_marked, back_marked, body_marked};
ghost use Rattle.pegnodes.specs.ClosedMarks.{empty_step, near_step, last_step, wanted_step, AreClosedMarks};
ghost use Rattle.pegnodes.specs.ClosedMarks.{members_apart, others_apart, iterations_apart, shape_apart};
ghost use Rattle.pegnodes.specs.ClosedMarks.{AreShapesApart};
ghost use Rattle.pegnodes.specs.declared.apart.Wanted.TheVariants as wanted;
ghost use Rattle.pegnodes.specs.Nodes.{shape_of, shapes_of};
ghost use Rattle.pegnodes.specs.Predictive.{IsApart};

use crate::keys::mark_or;
use crate::node::Node;
use ruletable::Memory;
use std::alloc::Global;

// Which nodes to mark.
#[derive(Clone, Copy)]
enum Wanted<'a> {
    // Those that may succeed and take nothing.
    Empties,
    // Those that may ask for this node at their own position, and the node.
    Nears {
        node: usize,
        empties: &'a [bool],
    },
    // Those that may ask where they end for the node that `near` is of.
    Lasts {
        empties: &'a [bool],
        near: &'a [bool],
    },
}

// Returns whether each of these is marked.
fn all_marked(members: &[usize], marks: &[bool]) -> bool
    ensures { result ≡ all_marked marks.now members.now }
{
    for member in members {
        if !mark_or(marks, *member, false) {
            return false;
        }
    }
    true
}

// Returns whether one of these is marked.
fn any_marked(members: &[usize], marks: &[bool]) -> bool
    ensures { result ≡ any_marked marks.now members.now }
{
    for member in members {
        if mark_or(marks, *member, false) {
            return true;
        }
    }
    false
}

// Returns whether one of these is marked, and all before it may take nothing.
fn front_marked(members: &[usize], empties: &[bool], marks: &[bool]) -> bool
    ensures { result ≡ front_marked empties.now marks.now members.now }
{
    for member in members {
        if mark_or(marks, *member, false) {
            return true;
        }
        if !mark_or(empties, *member, false) {
            return false;
        }
    }
    false
}

// Returns whether one of these is marked, and all after it may take nothing.
fn back_marked(members: &[usize], empties: &[bool], marks: &[bool]) -> bool
    ensures { result ≡ back_marked empties.now marks.now members.now }
{
    for i in 0..members.len() {
        if mark_or(marks, members[i], false) && all_marked(&members[i + 1..], empties) {
            return true;
        }
    }
    false
}

// Returns whether the body of the rule of that id is marked.
fn body_marked(bodies: &[usize], id: usize, marks: &[bool]) -> bool
    ensures { result ≡ body_marked marks.now (slice_get bodies.now id) }
{
    match bodies.get(id) {
        Some(body) => mark_or(marks, *body, false),
        None => false,
    }
}

// Returns whether a node may take nothing, if those may that are marked.
fn may_be_empty(node: &Node, bodies: &[usize], marks: &[bool]) -> bool
    ensures { result ≡ empty_step bodies.now marks.now (shape_of node.now) }
{
    match node {
        Node::Any | Node::Set(_) => false,
        Node::Bytes(bytes) => bytes.is_empty(),
        Node::Name(id) => body_marked(bodies, *id, marks),
        Node::Seq(members) => all_marked(members, marks),
        Node::Choice(alternatives) => any_marked(alternatives, marks),
        Node::Plus { operand, star: _ } => mark_or(marks, *operand, false),
        Node::Star(_)
        | Node::Opt(_)
        | Node::And(_)
        | Node::Not(_)
        | Node::Act(_)
        | Node::Open
        | Node::Close => true,
    }
}

// Returns whether a node may ask for a marked one at its own position.
fn may_begin(node: &Node, bodies: &[usize], empties: &[bool], marks: &[bool]) -> bool
    ensures { result ≡ near_step bodies.now empties.now marks.now (shape_of node.now) }
{
    match node {
        Node::Name(id) => body_marked(bodies, *id, marks),
        Node::Seq(members) => front_marked(members, empties, marks),
        Node::Choice(alternatives) => any_marked(alternatives, marks),
        Node::Plus { operand, star: _ } => mark_or(marks, *operand, false),
        Node::Star(operand) | Node::Opt(operand) | Node::And(operand) | Node::Not(operand) => {
            mark_or(marks, *operand, false)
        }
        Node::Any | Node::Bytes(_) | Node::Set(_) | Node::Act(_) | Node::Open | Node::Close => {
            false
        }
    }
}

// Returns whether a node may end with a marked one.
fn may_end(node: &Node, bodies: &[usize], empties: &[bool], marks: &[bool]) -> bool
    ensures { result ≡ last_step bodies.now empties.now marks.now (shape_of node.now) }
{
    match node {
        Node::Name(id) => body_marked(bodies, *id, marks),
        Node::Seq(members) => back_marked(members, empties, marks),
        Node::Choice(alternatives) => any_marked(alternatives, marks),
        Node::Plus { operand: _, star } => mark_or(marks, *star, false),
        Node::Star(operand) | Node::Opt(operand) => mark_or(marks, *operand, false),
        Node::Any
        | Node::Bytes(_)
        | Node::Set(_)
        | Node::And(_)
        | Node::Not(_)
        | Node::Act(_)
        | Node::Open
        | Node::Close => false,
    }
}

// Returns whether node `n` is one of those that are wanted, if the marked ones are.
fn is_wanted(wanted: Wanted<'_>, node: &Node, n: usize, bodies: &[usize], marks: &[bool]) -> bool
    ensures { result ≡ wanted_step wanted.entry bodies.now marks.now n (shape_of node.now) }
{
    match wanted {
        Wanted::Empties => may_be_empty(node, bodies, marks),
        Wanted::Nears { node: l, empties } => n == l || may_begin(node, bodies, empties, marks),
        Wanted::Lasts { empties, near } => {
            if mark_or(empties, n, false) && mark_or(near, n, false) {
                return true;
            }
            may_end(node, bodies, empties, marks)
        }
    }
}

// Returns whether each node is marked that is wanted by the marks.
fn are_closed(wanted: Wanted<'_>, nodes: &[Node], bodies: &[usize], marks: &[bool]) -> bool
    ensures { result ≡ true → AreClosedMarks wanted.entry (shapes_of nodes.now) bodies.now marks.now }
{
    for n in 0..nodes.len() {
        if is_wanted(wanted, &nodes[n], n, bodies, marks) && !mark_or(marks, n, false) {
            return false;
        }
    }
    true
}

// Marks more nodes that are wanted, node by node.
fn spread(wanted: Wanted<'_>, nodes: &[Node], bodies: &[usize], marks: &mut [bool])
    requires { length marks.old ≡ length nodes.now }
    ensures { length marks.new ≡ length marks.old }
{
    for n in 0..nodes.len() {
        marks[n] = is_wanted(wanted, &nodes[n], n, bodies, marks);
    }
}

// Marks the nodes that are wanted.
fn closed_marks(
    alloc: Global,
    wanted: Wanted<'_>,
    nodes: &[Node],
    bodies: &[usize],
) -> Result<Option<Vec<bool>>, Memory>
    ensures { IfOk result (λ marks. IfSome marks (λ marks.
        AreClosedMarks wanted.entry (shapes_of nodes.now) bodies.now marks.items)) }
{
    let mut marks = vec![in alloc; false; nodes.len()]?;
    for _ in 0..nodes.len() {
        spread(wanted, nodes, bodies, &mut marks);
        if are_closed(wanted, nodes, bodies, &marks) {
            return Ok(Some(marks));
        }
    }
    Ok(None)
}

// Returns whether after none of these that may end with a node the next ones may ask for it.
fn are_members_apart(members: &[usize], empties: &[bool], near: &[bool], last: &[bool]) -> bool
    ensures { result ≡ members_apart empties.now near.now last.now members.now }
{
    for i in 0..members.len() {
        if mark_or(last, members[i], false) && front_marked(&members[i + 1..], empties, near) {
            return false;
        }
    }
    true
}

// Returns whether at most one of these is marked.
fn are_others_apart(alternatives: &[usize], near: &[bool]) -> bool
    ensures { result ≡ others_apart near.now alternatives.now }
{
    for i in 0..alternatives.len() {
        if mark_or(near, alternatives[i], false) && any_marked(&alternatives[i + 1..], near) {
            return false;
        }
    }
    true
}

// Returns whether an operand does not end with a node that the next iteration may ask for.
fn are_iterations_apart(operand: usize, star: usize, near: &[bool], last: &[bool]) -> bool
    ensures { result ≡ iterations_apart near.now last.now operand star }
{
    !(mark_or(last, operand, false) && mark_or(near, star, false))
}

// Returns whether node `n` does not ask for one node twice at a position where a part of it ends.
fn is_node_apart(node: &Node, n: usize, empties: &[bool], near: &[bool], last: &[bool]) -> bool
    ensures { result ≡ shape_apart empties.now near.now last.now n (shape_of node.now) }
{
    match node {
        Node::Seq(members) => are_members_apart(members, empties, near, last),
        Node::Choice(alternatives) => are_others_apart(alternatives, near),
        Node::Star(operand) => are_iterations_apart(*operand, n, near, last),
        Node::Plus { operand, star } => are_iterations_apart(*operand, *star, near, last),
        Node::Any
        | Node::Bytes(_)
        | Node::Set(_)
        | Node::Name(_)
        | Node::Opt(_)
        | Node::And(_)
        | Node::Not(_)
        | Node::Act(_)
        | Node::Open
        | Node::Close => true,
    }
}

// Returns whether this holds of each node.
fn are_nodes_apart(nodes: &[Node], empties: &[bool], near: &[bool], last: &[bool]) -> bool
    ensures { result ≡ true → AreShapesApart empties.now near.now last.now (shapes_of nodes.now) }
{
    for n in 0..nodes.len() {
        if !is_node_apart(&nodes[n], n, empties, near, last) {
            return false;
        }
    }
    true
}

// Returns whether node `l` is not asked for twice at a position where a part of a node ends.
fn is_apart(
    alloc: Global,
    nodes: &[Node],
    bodies: &[usize],
    empties: &[bool],
    l: usize,
) -> Result<bool, Memory>
    requires empties { AreClosedMarks wanted.Empties (shapes_of nodes.now) bodies.now empties.now }
    requires l { l < length nodes.now }
    ensures { IfOk result (λ yes. yes ≡ true → IsApart (shapes_of nodes.now) bodies.now l) }
{
    let wanted = Wanted::Nears { node: l, empties };
    let Some(near) = closed_marks(alloc, wanted, nodes, bodies)? else {
        return Ok(false);
    };
    let wanted = Wanted::Lasts {
        empties,
        near: &near,
    };
    let Some(last) = closed_marks(alloc, wanted, nodes, bodies)? else {
        return Ok(false);
    };
    Ok(are_nodes_apart(nodes, empties, &near, &last))
}

/// Returns whether no node is asked for twice at a position where a part of a node ends.
///
/// # Errors
/// `Memory` if an allocation fails.
pub(crate) fn are_apart(alloc: Global, nodes: &[Node], bodies: &[usize]) -> Result<bool, Memory>
    ensures { IfOk result (λ yes. yes ≡ true → (l : ℕ) → l < length nodes.now
        → IsApart (shapes_of nodes.now) bodies.now l) }
{
    let Some(empties) = closed_marks(alloc, Wanted::Empties, nodes, bodies)? else {
        return Ok(false);
    };
    for l in 0..nodes.len() {
        if !is_apart(alloc, nodes, bodies, &empties, l)? {
            return Ok(false);
        }
    }
    Ok(true)
}

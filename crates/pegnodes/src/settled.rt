//! Whether one byte says which way to go, by what it decides of each node.
ghost use Rattle.std.specs.Prelude.{◌≡◌, ℕ, length, [], drop, slice_get, get_or, true, false, Contains};
ghost use Rattle.std.specs.Prelude.{None, Some, suc, IfOk, IfSome};
ghost use Rattle.fixpoint.specs.Demands.{demand_of, demands_of, All};
ghost use Rattle.fixpoint.specs.NumberMarks.{IsMarked};
ghost use Rattle.pegnodes.specs.declared.by_byte.ByteVerdict.TheVariants.{Fails, Stays};
ghost use Rattle.pegnodes.specs.Nodes.{Shape, shape_of, shapes_of};
ghost use Rattle.pegnodes.specs.Predictive.{of_alternatives, of_members, IsSettled};
ghost use Rattle.pegnodes.specs.SettledNeeds.{LetsLate, LetsOver, LetsAlternatives, LetsOperand, AreLate, AreOver};
ghost use Rattle.pegnodes.specs.SettledNeeds.{IsSure, IsSureNode};

use crate::bodies::body_of;
use crate::by_byte::ByteVerdict;
use crate::foresight::{alternatives_verdict, members_verdict, verdict_at};
use crate::keys::mark_or;
use crate::node::Node;
use fixpoint::{Need, are_needs_within, least};
use ruletable::Memory;
use std::alloc::Global;
use std::slice::from_ref;

// Returns the alternatives from the first on after which all fail.
fn before_fails<'a>(alternatives: &'a [usize], row: &[Option<ByteVerdict>]) -> &'a [usize]
    ensures { (i m : ℕ) → slice_get alternatives.now i ≡ Some m
        → of_alternatives (λ k. get_or row.now k None) (drop (suc i) alternatives.now) ≡ Some Fails
        → Contains result.now m }
{
    for i in 0..alternatives.len() {
        if let Some(ByteVerdict::Fails) = alternatives_verdict(row, &alternatives[i + 1..]) {
            return &alternatives[i..];
        }
    }
    &[]
}

// Returns the members from the first on after which all stay.
fn before_stays<'a>(members: &'a [usize], row: &[Option<ByteVerdict>]) -> &'a [usize]
    ensures { (i m : ℕ) → slice_get members.now i ≡ Some m
        → of_members (λ k. get_or row.now k None) (drop (suc i) members.now) ≡ Some Stays
        → Contains result.now m }
{
    for i in 0..members.len() {
        if let Some(ByteVerdict::Stays) = members_verdict(row, &members[i + 1..]) {
            return &members[i..];
        }
    }
    &[]
}

// Returns what a node needs to fail late, given what the byte decides of it.
fn late_need<'a>(
    node: &'a Node,
    bodies: &'a [usize],
    row: &[Option<ByteVerdict>],
    own: Option<ByteVerdict>,
) -> Need<'a>
    ensures { LetsLate bodies.now (λ m. get_or row.now m None) own (shape_of node.now) (demand_of result) }
{
    match node {
        Node::Name(id) => Need::One(body_of(bodies, *id)),
        Node::Seq(_) => match own {
            Some(_) => Need::One(&[]),
            None => Need::All(&[]),
        },
        Node::Choice(alternatives) => Need::One(before_fails(alternatives, row)),
        Node::Plus { operand, .. } => Need::One(from_ref(operand)),
        Node::Any
        | Node::Bytes(_)
        | Node::Set(_)
        | Node::Star(_)
        | Node::Opt(_)
        | Node::And(_)
        | Node::Not(_)
        | Node::Act(_)
        | Node::Open
        | Node::Close => Need::One(&[]),
    }
}

// Returns what each node needs to fail late.
fn late_needs<'a>(
    alloc: Global,
    nodes: &'a [Node],
    bodies: &'a [usize],
    row: &[Option<ByteVerdict>],
) -> Result<Vec<Need<'a>>, Memory>
    ensures count { IfOk result (λ needs. length needs.items ≡ length nodes.now) }
    ensures lets { IfOk result (λ needs. (n : ℕ) (shape : Shape) → slice_get (shapes_of nodes.now) n ≡ Some shape
        → LetsLate bodies.now (λ m. get_or row.now m None) (get_or row.now n None) shape
        (get_or (demands_of needs.items) n (All []))) }
{
    let mut needs = Vec::with_capacity(alloc, nodes.len())?;
    for n in 0..nodes.len() {
        needs.push(late_need(&nodes[n], bodies, row, verdict_at(row, n)))?;
    }
    Ok(needs)
}

// Marks the nodes that may fail at the byte after they asked for nodes at later positions, unless numbers are missing.
fn lates(
    alloc: Global,
    nodes: &[Node],
    bodies: &[usize],
    row: &[Option<ByteVerdict>],
) -> Result<Option<Vec<bool>>, Memory>
    ensures { IfOk result (λ found. IfSome found (λ late.
        AreLate (shapes_of nodes.now) bodies.now (λ m. get_or row.now m None) late.items)) }
{
    let needs = late_needs(alloc, nodes, bodies, row)?;
    if !are_needs_within(&needs) {
        return Ok(None);
    }
    let late = least(alloc, &needs)?;
    Ok(Some(late))
}

// Returns whether a node is marked, and what follows stays.
fn is_marked_before(marks: &[bool], m: usize, rest: Option<ByteVerdict>) -> bool
    ensures { result ≡ false → IsMarked marks.now m → rest ≡ Some Stays → ⊥ }
{
    match rest {
        Some(ByteVerdict::Stays) => mark_or(marks, m, false),
        Some(ByteVerdict::Takes) => false,
        Some(ByteVerdict::Fails) => false,
        None => false,
    }
}

// Returns whether an alternative may fail late after which the others stay.
fn ends_late(alternatives: &[usize], row: &[Option<ByteVerdict>], late: &[bool]) -> bool
    ensures { result ≡ false → (i m : ℕ) → slice_get alternatives.now i ≡ Some m → IsMarked late.now m
        → of_alternatives (λ k. get_or row.now k None) (drop (suc i) alternatives.now) ≡ Some Stays → ⊥ }
{
    for i in 0..alternatives.len() {
        if is_marked_before(
            late,
            alternatives[i],
            alternatives_verdict(row, &alternatives[i + 1..]),
        ) {
            return true;
        }
    }
    false
}

// Returns what a choice needs to succeed over the byte.
fn choice_need<'a>(
    alternatives: &'a [usize],
    row: &[Option<ByteVerdict>],
    late: &[bool],
) -> Need<'a>
    ensures { LetsAlternatives (λ m. get_or row.now m None) late.now alternatives.now (demand_of result) }
{
    if ends_late(alternatives, row, late) {
        Need::All(&[])
    } else {
        Need::One(alternatives)
    }
}

// Returns what a repetition or an option needs to succeed over the byte.
fn operand_need<'a>(operand: &'a usize, late: &[bool]) -> Need<'a>
    ensures { LetsOperand late.now operand.now (demand_of result) }
{
    if mark_or(late, *operand, false) {
        Need::All(&[])
    } else {
        Need::One(from_ref(operand))
    }
}

// Returns what a node needs to succeed over the byte.
fn over_need<'a>(
    node: &'a Node,
    bodies: &'a [usize],
    row: &[Option<ByteVerdict>],
    late: &[bool],
) -> Need<'a>
    ensures { LetsOver bodies.now (λ m. get_or row.now m None) late.now (shape_of node.now) (demand_of result) }
{
    match node {
        Node::Name(id) => Need::One(body_of(bodies, *id)),
        Node::Seq(members) => Need::One(before_stays(members, row)),
        Node::Choice(alternatives) => choice_need(alternatives, row, late),
        Node::Star(operand) => operand_need(operand, late),
        Node::Opt(operand) => operand_need(operand, late),
        Node::Plus { operand: _, star } => Need::One(from_ref(star)),
        Node::Any
        | Node::Bytes(_)
        | Node::Set(_)
        | Node::And(_)
        | Node::Not(_)
        | Node::Act(_)
        | Node::Open
        | Node::Close => Need::One(&[]),
    }
}

// Returns what each node needs to succeed over the byte.
fn over_needs<'a>(
    alloc: Global,
    nodes: &'a [Node],
    bodies: &'a [usize],
    row: &[Option<ByteVerdict>],
    late: &[bool],
) -> Result<Vec<Need<'a>>, Memory>
    ensures count { IfOk result (λ needs. length needs.items ≡ length nodes.now) }
    ensures lets { IfOk result (λ needs. (n : ℕ) (shape : Shape) → slice_get (shapes_of nodes.now) n ≡ Some shape
        → LetsOver bodies.now (λ m. get_or row.now m None) late.now shape
        (get_or (demands_of needs.items) n (All []))) }
{
    let mut needs = Vec::with_capacity(alloc, nodes.len())?;
    for n in 0..nodes.len() {
        needs.push(over_need(&nodes[n], bodies, row, late))?;
    }
    Ok(needs)
}

// Marks the nodes that may succeed before the byte after they asked for nodes at positions after it, unless numbers are
// missing.
fn overs(
    alloc: Global,
    nodes: &[Node],
    bodies: &[usize],
    row: &[Option<ByteVerdict>],
    late: &[bool],
) -> Result<Option<Vec<bool>>, Memory>
    ensures { IfOk result (λ found. IfSome found (λ over.
        AreLate (shapes_of nodes.now) bodies.now (λ m. get_or row.now m None) late.now
        → AreOver (shapes_of nodes.now) bodies.now (λ m. get_or row.now m None) over.items)) }
{
    let needs = over_needs(alloc, nodes, bodies, row, late)?;
    if !are_needs_within(&needs) {
        return Ok(None);
    }
    let over = least(alloc, &needs)?;
    Ok(Some(over))
}

// Returns whether nothing is taken by what follows a node, if that is marked.
fn is_sure_after(marks: &[bool], m: usize, rest: Option<ByteVerdict>) -> bool
    ensures { result ≡ true → IsMarked marks.now m → IsSure rest }
{
    match rest {
        Some(ByteVerdict::Fails) => true,
        Some(ByteVerdict::Stays) => true,
        Some(ByteVerdict::Takes) => !mark_or(marks, m, false),
        None => !mark_or(marks, m, false),
    }
}

// Returns whether the byte decides the rest of a sequence where a member may succeed over it.
fn are_members_sure(members: &[usize], row: &[Option<ByteVerdict>], over: &[bool]) -> bool
    ensures { result ≡ true → (i m : ℕ) → slice_get members.now i ≡ Some m → IsMarked over.now m
        → IsSure (of_members (λ k. get_or row.now k None) (drop (suc i) members.now)) }
{
    for i in 0..members.len() {
        if !is_sure_after(over, members[i], members_verdict(row, &members[i + 1..])) {
            return false;
        }
    }
    true
}

// Returns whether the byte decides the other alternatives where one may fail late.
fn are_alternatives_sure(alternatives: &[usize], row: &[Option<ByteVerdict>], late: &[bool]) -> bool
    ensures { result ≡ true → (i m : ℕ) → slice_get alternatives.now i ≡ Some m → IsMarked late.now m
        → IsSure (of_alternatives (λ k. get_or row.now k None) (drop (suc i) alternatives.now)) }
{
    for i in 0..alternatives.len() {
        if !is_sure_after(
            late,
            alternatives[i],
            alternatives_verdict(row, &alternatives[i + 1..]),
        ) {
            return false;
        }
    }
    true
}

// Returns whether an operand fails at the byte, if it may succeed over it.
fn fails_after(operand: usize, row: &[Option<ByteVerdict>], over: &[bool]) -> bool
    ensures { result ≡ true → IsMarked over.now operand → get_or row.now operand None ≡ Some Fails }
{
    if !mark_or(over, operand, false) {
        return true;
    }
    matches!(verdict_at(row, operand), Some(ByteVerdict::Fails))
}

// Returns whether the byte says which way to go in a node.
fn is_node_sure(node: &Node, row: &[Option<ByteVerdict>], late: &[bool], over: &[bool]) -> bool
    ensures { result ≡ true → IsSureNode (λ m. get_or row.now m None) late.now over.now (shape_of node.now) }
{
    match node {
        Node::Seq(members) => are_members_sure(members, row, over),
        Node::Choice(alternatives) => are_alternatives_sure(alternatives, row, late),
        Node::Star(operand) => fails_after(*operand, row, over),
        Node::Plus { operand, star: _ } => fails_after(*operand, row, over),
        Node::And(operand) => verdict_at(row, *operand).is_some(),
        Node::Not(operand) => verdict_at(row, *operand).is_some(),
        Node::Any
        | Node::Bytes(_)
        | Node::Set(_)
        | Node::Name(_)
        | Node::Opt(_)
        | Node::Act(_)
        | Node::Open
        | Node::Close => true,
    }
}

// Returns whether the byte says which way to go in each node.
fn are_nodes_sure(nodes: &[Node], row: &[Option<ByteVerdict>], late: &[bool], over: &[bool]) -> bool
    ensures { result ≡ true → (n : ℕ) (shape : Shape) → slice_get (shapes_of nodes.now) n ≡ Some shape
        → IsSureNode (λ m. get_or row.now m None) late.now over.now shape }
{
    for n in 0..nodes.len() {
        if !is_node_sure(&nodes[n], row, late, over) {
            return false;
        }
    }
    true
}

/// Returns whether the byte says which way to go in a grammar: `row` is what it decides of each node.
///
/// # Errors
/// `Memory` if an allocation fails.
pub(crate) fn is_settled(
    alloc: Global,
    nodes: &[Node],
    bodies: &[usize],
    row: &[Option<ByteVerdict>],
) -> Result<bool, Memory>
    ensures { IfOk result (λ yes. yes ≡ true
        → IsSettled (shapes_of nodes.now) bodies.now (λ m. get_or row.now m None)) }
{
    let Some(late) = lates(alloc, nodes, bodies, row)? else {
        return Ok(false);
    };
    let Some(over) = overs(alloc, nodes, bodies, row, &late)? else {
        return Ok(false);
    };
    Ok(are_nodes_sure(nodes, row, &late, &over))
}

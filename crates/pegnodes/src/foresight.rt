//! What one byte decides of each node, as far as it does.
ghost use Rattle.std.specs.Prelude.{◌≡◌, ℕ, length, get_or, None, Some, true, false, IfOk, IfSome, slice_get};
ghost use Rattle.pegnodes.specs.Nodes.{shape_of, shapes_of};
ghost use Rattle.pegnodes.specs.Predictive.{of_members, of_alternatives, of_star, of_plus, of_opt, of_and, of_not};
ghost use Rattle.pegnodes.specs.Predictive.{of_bytes, of_body, of_class, of_shape, AreVerdicts, IsLike};

use crate::by_byte::ByteVerdict;
use crate::node::Node;
use ruletable::{ByteSet, Memory};
use std::alloc::Global;

/// Returns what is known of a node.
pub(crate) fn verdict_at(row: &[Option<ByteVerdict>], m: usize) -> Option<ByteVerdict>
    ensures { result ≡ get_or row.now m None }
{
    match row.get(m) {
        Some(verdict) => *verdict,
        None => None,
    }
}

/// Returns what is known of these members, one after the other.
pub(crate) fn members_verdict(row: &[Option<ByteVerdict>], members: &[usize]) -> Option<ByteVerdict>
    ensures { result ≡ of_members (λ m. get_or row.now m None) members.now }
{
    for i in 0..members.len() {
        match verdict_at(row, members[i]) {
            None => return None,
            Some(ByteVerdict::Stays) => {}
            Some(ByteVerdict::Fails) => return Some(ByteVerdict::Fails),
            Some(ByteVerdict::Takes) => {
                if i + 1 < members.len() {
                    return None;
                }
                return Some(ByteVerdict::Takes);
            }
        }
    }
    Some(ByteVerdict::Stays)
}

/// Returns what is known of the first of these alternatives that succeeds.
pub(crate) fn alternatives_verdict(
    row: &[Option<ByteVerdict>],
    alternatives: &[usize],
) -> Option<ByteVerdict>
    ensures { result ≡ of_alternatives (λ m. get_or row.now m None) alternatives.now }
{
    for i in 0..alternatives.len() {
        match verdict_at(row, alternatives[i]) {
            None => return None,
            Some(ByteVerdict::Fails) => {}
            Some(ByteVerdict::Stays) => return Some(ByteVerdict::Stays),
            Some(ByteVerdict::Takes) => return Some(ByteVerdict::Takes),
        }
    }
    Some(ByteVerdict::Fails)
}

// Returns what is known of a repetition, from what is known of the operand.
fn star_verdict(operand: Option<ByteVerdict>) -> Option<ByteVerdict>
    ensures { result ≡ of_star operand }
{
    match operand {
        None => None,
        Some(ByteVerdict::Fails) => Some(ByteVerdict::Stays),
        Some(ByteVerdict::Stays) => None,
        Some(ByteVerdict::Takes) => None,
    }
}

// Likewise of a repetition that must succeed once.
fn plus_verdict(operand: Option<ByteVerdict>) -> Option<ByteVerdict>
    ensures { result ≡ of_plus operand }
{
    match operand {
        None => None,
        Some(ByteVerdict::Fails) => Some(ByteVerdict::Fails),
        Some(ByteVerdict::Stays) => None,
        Some(ByteVerdict::Takes) => None,
    }
}

// Likewise of an option.
fn opt_verdict(operand: Option<ByteVerdict>) -> Option<ByteVerdict>
    ensures { result ≡ of_opt operand }
{
    match operand {
        None => None,
        Some(ByteVerdict::Fails) => Some(ByteVerdict::Stays),
        Some(ByteVerdict::Stays) => Some(ByteVerdict::Stays),
        Some(ByteVerdict::Takes) => Some(ByteVerdict::Takes),
    }
}

// Likewise of a look ahead.
fn and_verdict(operand: Option<ByteVerdict>) -> Option<ByteVerdict>
    ensures { result ≡ of_and operand }
{
    match operand {
        None => None,
        Some(ByteVerdict::Fails) => Some(ByteVerdict::Fails),
        Some(ByteVerdict::Stays) => Some(ByteVerdict::Stays),
        Some(ByteVerdict::Takes) => Some(ByteVerdict::Stays),
    }
}

// Likewise of a look ahead for a failure.
fn not_verdict(operand: Option<ByteVerdict>) -> Option<ByteVerdict>
    ensures { result ≡ of_not operand }
{
    match operand {
        None => None,
        Some(ByteVerdict::Fails) => Some(ByteVerdict::Stays),
        Some(ByteVerdict::Stays) => Some(ByteVerdict::Fails),
        Some(ByteVerdict::Takes) => Some(ByteVerdict::Fails),
    }
}

// Returns what is known of the body of the rule of that id.
fn body_verdict(row: &[Option<ByteVerdict>], bodies: &[usize], id: usize) -> Option<ByteVerdict>
    ensures { result ≡ of_body (λ m. get_or row.now m None) (slice_get bodies.now id) }
{
    match bodies.get(id) {
        Some(body) => verdict_at(row, *body),
        None => None,
    }
}

// Returns what a byte decides of a literal.
fn bytes_verdict(bytes: &[u8], b: u32) -> Option<ByteVerdict>
    ensures { (c : ℕ) → IsLike b c → result ≡ of_bytes c bytes.now }
{
    match bytes.first() {
        None => Some(ByteVerdict::Stays),
        Some(first) => {
            if u32::from(*first) != b {
                Some(ByteVerdict::Fails)
            } else if bytes.len() == 1 {
                Some(ByteVerdict::Takes)
            } else {
                None
            }
        }
    }
}

// Returns what a byte decides of a class.
fn set_verdict(set: &ByteSet, b: u32) -> Option<ByteVerdict>
    ensures { (c : ℕ) → IsLike b c → result ≡ of_class c (λ d. get_or set.now d false) }
{
    let Ok(byte) = u8::try_from(b) else {
        return None;
    };
    if set.has(byte) {
        Some(ByteVerdict::Takes)
    } else {
        Some(ByteVerdict::Fails)
    }
}

// Returns what a byte decides of a node, by what is known of others.
fn verdict_of(
    row: &[Option<ByteVerdict>],
    bodies: &[usize],
    node: &Node,
    b: u32,
) -> Option<ByteVerdict>
    ensures { (c : ℕ) → IsLike b c → result ≡ of_shape bodies.now c (λ m. get_or row.now m None) (shape_of node.now) }
{
    match node {
        Node::Any => Some(ByteVerdict::Takes),
        Node::Bytes(bytes) => bytes_verdict(bytes, b),
        Node::Set(set) => set_verdict(set, b),
        Node::Name(id) => body_verdict(row, bodies, *id),
        Node::Seq(members) => members_verdict(row, members),
        Node::Choice(alternatives) => alternatives_verdict(row, alternatives),
        Node::Star(operand) => star_verdict(verdict_at(row, *operand)),
        Node::Plus { operand, star: _ } => plus_verdict(verdict_at(row, *operand)),
        Node::Opt(operand) => opt_verdict(verdict_at(row, *operand)),
        Node::And(operand) => and_verdict(verdict_at(row, *operand)),
        Node::Not(operand) => not_verdict(verdict_at(row, *operand)),
        Node::Act(_) => Some(ByteVerdict::Stays),
        Node::Open => Some(ByteVerdict::Stays),
        Node::Close => Some(ByteVerdict::Stays),
    }
}

// Returns whether two verdicts are the same.
fn are_same(one: Option<ByteVerdict>, other: Option<ByteVerdict>) -> bool
    ensures { result ≡ true → one ≡ other }
{
    match (one, other) {
        (None, None) => true,
        (Some(ByteVerdict::Takes), Some(ByteVerdict::Takes)) => true,
        (Some(ByteVerdict::Stays), Some(ByteVerdict::Stays)) => true,
        (Some(ByteVerdict::Fails), Some(ByteVerdict::Fails)) => true,
        (None | Some(_), None | Some(_)) => false,
    }
}

// Finds again what a byte decides of each node, in order, and returns whether that changed.
fn set_verdicts(nodes: &[Node], bodies: &[usize], b: u32, row: &mut [Option<ByteVerdict>]) -> bool
    requires { length row.old ≡ length nodes.now }
    ensures count { length row.new ≡ length row.old }
    ensures same { result ≡ false → row.new ≡ row.old }
    ensures decided { result ≡ false → (c : ℕ) → IsLike b c
        → AreVerdicts (shapes_of nodes.now) bodies.now c (λ m. get_or row.new m None) }
{
    let mut changed = false;
    for n in 0..nodes.len() {
        let verdict = verdict_of(row, bodies, &nodes[n], b);
        if !are_same(row[n], verdict) {
            row[n] = verdict;
            changed = true;
        }
    }
    changed
}

/// Finds what a byte decides of each node; 256 stands for the numbers that no byte has.
///
/// # Errors
/// `Memory` if an allocation fails.
pub(crate) fn verdicts(
    alloc: Global,
    nodes: &[Node],
    bodies: &[usize],
    b: u32,
) -> Result<Option<Vec<Option<ByteVerdict>>>, Memory>
    ensures count { IfOk result (λ found. IfSome found (λ row. length row.items ≡ length nodes.now)) }
    ensures decided { IfOk result (λ found. IfSome found (λ row. (c : ℕ) → IsLike b c
        → AreVerdicts (shapes_of nodes.now) bodies.now c (λ m. get_or row.items m None))) }
{
    let mut row = vec![in alloc; None; nodes.len()]?;
    for _ in 0..=nodes.len() {
        if !set_verdicts(nodes, bodies, b, &mut row) {
            return Ok(Some(row));
        }
    }
    Ok(None)
}

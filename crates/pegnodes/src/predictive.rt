//! Whether the next byte says which way to go.
ghost use Rattle.std.specs.Prelude.{◌≡◌, ◌<◌, ℕ, suc, List, Option, Some, true, IfOk, slice_get};
ghost use Rattle.pegnodes.specs.Nodes.{Shape, shape_of, shapes_of};
ghost use Rattle.pegnodes.specs.Predictive.{of_shape, IsDecisive, IsLike, IsPredictive};
ghost use Rattle.pegnodes.specs.declared.by_byte.ByteVerdict.{ByteVerdict};

use crate::apart::are_apart;
use crate::foresight::verdicts;
use crate::node::Node;
use crate::settled::is_settled;
use ruletable::Memory;
use std::alloc::Global;

// A grammar of more nodes is not looked at, so that it starts soon.
const MOST_NODES: usize = 128;

// Stands for each number that no byte has.
const NO_BYTE: u32 = 256;

// Returns whether a node treats a byte as it treats the byte before it.
fn is_alike(node: &Node, b: u8) -> bool
    ensures { result ≡ true → (k : ℕ) → b ≡ suc k → (bodies : List ℕ) (of : ℕ → Option ByteVerdict) →
        of_shape bodies b of (shape_of node.now) ≡ of_shape bodies k of (shape_of node.now) }
{
    let Some(before) = b.checked_sub(1) else {
        return true;
    };
    match node {
        Node::Bytes(bytes) => match bytes.first() {
            Some(first) => *first != b && *first != before,
            None => true,
        },
        Node::Set(set) => set.has(b) == set.has(before),
        Node::Any
        | Node::Name(_)
        | Node::Seq(_)
        | Node::Choice(_)
        | Node::Star(_)
        | Node::Plus { .. }
        | Node::Opt(_)
        | Node::And(_)
        | Node::Not(_)
        | Node::Act(_)
        | Node::Open
        | Node::Close => true,
    }
}

// Returns whether each node treats a byte as it treats the byte before it.
fn are_alike(nodes: &[Node], b: u32) -> bool
    ensures alike { result ≡ true → (k : ℕ) → b ≡ suc k → (bodies : List ℕ) (of : ℕ → Option ByteVerdict) (n : ℕ)
        (shape : Shape) → slice_get (shapes_of nodes.now) n ≡ Some shape →
        of_shape bodies b of shape ≡ of_shape bodies k of shape }
    ensures some { result ≡ true → 0 < b }
{
    let Ok(byte) = u8::try_from(b) else {
        return false;
    };
    if byte == 0 {
        return false;
    }
    for n in 0..nodes.len() {
        if !is_alike(&nodes[n], byte) {
            return false;
        }
    }
    true
}

// Returns whether a byte says which way to go.
fn is_decisive(alloc: Global, nodes: &[Node], bodies: &[usize], b: u32) -> Result<bool, Memory>
    ensures { IfOk result (λ yes. yes ≡ true → (c : ℕ) → IsLike b c → IsDecisive (shapes_of nodes.now) bodies.now c) }
{
    match verdicts(alloc, nodes, bodies, b)? {
        Some(row) => is_settled(alloc, nodes, bodies, &row),
        None => Ok(false),
    }
}

/// Returns whether each byte says which way to go in a grammar. Of a large grammar it returns `false`.
///
/// # Errors
/// `Memory` if an allocation fails.
pub(crate) fn is_predictive(alloc: Global, nodes: &[Node], bodies: &[usize]) -> Result<bool, Memory>
    ensures { IfOk result (λ yes. yes ≡ true → IsPredictive (shapes_of nodes.now) bodies.now) }
{
    if nodes.len() > MOST_NODES
        || !is_decisive(alloc, nodes, bodies, NO_BYTE)?
        || !are_apart(alloc, nodes, bodies)?
    {
        return Ok(false);
    }
    for b in 0..NO_BYTE {
        if !are_alike(nodes, b) && !is_decisive(alloc, nodes, bodies, b)? {
            return Ok(false);
        }
    }
    Ok(true)
}

//! Where a comparison fails.
ghost use Rattle.std.specs.Prelude.{◌≡◌, ℕ, ◌+◌, ◌<◌, ◌≤◌, length, slice_get, IfSome, IfNone};
ghost use Rattle.pegnodes.specs.Nodes.{shape_of};
ghost use Rattle.matchfailure.specs.Farthest.{StopsBy};

use pegnodes::Node;

// Returns with how many of the literal's bytes the window goes on from a position.
fn agreed(literal: &[u8], window: &[u8], position: usize) -> usize
    requires { position ≤ length window.now }
    ensures within { result ≤ length literal.now }
    ensures agree { (i : ℕ) → i < result → slice_get window.now (position + i) ≡ slice_get literal.now i }
    ensures differ { result < length literal.now → slice_get window.now (position + result)
        ≡ slice_get literal.now result
        → ⊥ }
    ensures inside { position + result ≤ length window.now }
{
    for (i, byte) in literal.iter().enumerate() {
        if i >= window.len() - position {
            return i;
        }
        if window[position + i] != *byte {
            return i;
        }
    }
    literal.len()
}

/// Returns the byte at which the node's own comparison fails at a position, if it makes one and that fails.
pub(crate) fn stop_of(node: &Node, window: &[u8], position: usize) -> Option<usize>
    requires { position ≤ length window.now }
    ensures some { IfSome result (λ f. StopsBy window.now (shape_of node.now) position f) }
    ensures none { IfNone result ((f : ℕ) → StopsBy window.now (shape_of node.now) position f → ⊥) }
{
    match node {
        Node::Any => {
            if position < window.len() {
                None
            } else {
                Some(position)
            }
        }
        Node::Set(set) => {
            if position < window.len() && set.has(window[position]) {
                None
            } else {
                Some(position)
            }
        }
        Node::Bytes(bytes) => {
            let agreed = agreed(bytes, window, position);
            if agreed < bytes.len() {
                Some(position + agreed)
            } else {
                None
            }
        }
        Node::Name(_)
        | Node::Seq(_)
        | Node::Choice(_)
        | Node::Star(_)
        | Node::Plus { .. }
        | Node::Opt(_)
        | Node::And(_)
        | Node::Not(_)
        | Node::Act(_)
        | Node::Open
        | Node::Close => None,
    }
}

//! Evaluations of a node and a position.

/// A node at a position.
#[derive(Clone, Copy, PartialEq, Eq, PartialOrd, Ord)]
pub struct Visit {
    /// The number of the node.
    pub node: usize,
    /// Where it begins, in bytes from the front of the window.
    pub position: usize,
}

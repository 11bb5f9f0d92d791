//! Items.

/// An Earley item: a dotted rule with its origin.
#[derive(Clone, Copy)]
pub struct Item {
    /// The node of the dotted rule.
    pub node: usize,
    /// The step at which the dot stands.
    pub step: usize,
    /// How many symbols of the line precede the node's expression.
    pub origin: usize,
}

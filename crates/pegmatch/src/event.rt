//! Events as they are kept.

/// An event of a success, an action by the number of its node.
#[derive(Clone, Copy)]
pub enum Kept {
    /// A capture opened at this position.
    Opened(usize),
    /// The capture closed at this position.
    Closed(usize),
    /// The action of this node was met.
    Acted(usize),
}

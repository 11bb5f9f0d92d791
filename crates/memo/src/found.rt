//! Outcomes of nodes.

/// The outcome of a node at a position (Ford 2004, section 3.3).
#[derive(Clone, Copy, PartialEq, Eq)]
pub enum Found {
    /// It failed.
    Failed,
    /// It succeeded, and ended there.
    Took(usize),
}

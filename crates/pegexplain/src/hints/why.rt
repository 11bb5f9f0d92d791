//! Reasons why an alternative is never taken.

/// The reason why an alternative is taken wherever a later one would be.
#[derive(Clone, Copy)]
pub(crate) enum Why {
    /// It fails nowhere.
    NeverFails,
    /// It takes any byte, and the later one takes a byte.
    TakesAny,
    /// It is a literal with which the later one begins.
    Prefix,
}

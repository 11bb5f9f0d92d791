//! Where a piece of a text lies.

/// The bytes of a text from offset `start` to before offset `end`.
#[derive(Clone, Copy, PartialEq, Eq, Drop)]
pub struct Span {
    pub start: usize,
    pub end: usize,
}

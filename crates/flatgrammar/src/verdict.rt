//! The verdict on a line.

/// The verdict of a flat grammar on a line.
#[derive(Clone, Copy, PartialEq, Eq)]
pub enum Verdict {
    /// The flat grammar derives the line.
    Yes,
    /// The flat grammar does not derive the line, and the item set after so many symbols is the last one with an item.
    /// If the flat grammar is that of `lower_viable`, the longest viable prefix has so many symbols.
    No(usize),
}

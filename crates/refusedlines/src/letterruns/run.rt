//! Symbols one after another.

/// A run of symbols: those with the numbers from `first` to `last`.
#[derive(Clone, Copy)]
pub struct LetterRun {
    pub first: u32,
    pub last: u32,
}

//! Properties that are asked of rules.

use ruletable::Alphabet;

/// A property that is asked of a rule.
#[derive(Clone, Copy)]
pub(crate) enum Aim {
    /// That it derives the empty string.
    Empty,
    /// That it derives some line over the alphabet.
    Letters(Alphabet),
}

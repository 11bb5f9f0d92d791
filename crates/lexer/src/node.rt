//! Nodes of the trees that a grammar's text stands for.
ghost use Rattle.std.specs.Prelude.{◌≡◌, ℕ, List};

/// The nodes of a language's trees.
pub trait Node: Drop {
    /// The node is a sequence of these items.
    ghost is_sequence: { List Self → Self → Type 0 };

    /// The node is a choice of these alternatives.
    ghost is_choice: { List Self → Self → Type 0 };

    /// Makes a sequence of these items, which are not one.
    fn sequence(items: Vec<Self>) -> Self
        ensures { is_sequence items.items result };

    /// Makes a choice of these alternatives, which are not one.
    fn choice(alternatives: Vec<Self>) -> Self
        ensures { is_choice alternatives.items result };
}

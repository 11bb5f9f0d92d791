//! Symbols of lines.
ghost use Rattle.std.specs.Prelude.{◌≡◌};
ghost use Rattle.rulelines.specs.LineSets.{is_line_symbol};

use ruletable::Alphabet;

/// The symbols of a line: those of an alphabet but for the one that ends a line.
#[derive(Clone, Copy)]
pub(crate) struct LineSymbols {
    /// The alphabet.
    pub(crate) alphabet: Alphabet,
    /// The symbol that ends a line.
    pub(crate) terminator: u8,
}

/// Returns whether a number is a symbol of a line.
pub(crate) fn is_inner(inner: LineSymbols, number: u32) -> bool
    ensures { result ≡ is_line_symbol inner.alphabet inner.terminator number }
{
    inner.alphabet.has(number) && number != u32::from(inner.terminator)
}

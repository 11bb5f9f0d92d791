//! The settings of a run of the ABNF tool.

use linejudge::Printed;
use ruletable::Alphabet;
use toolrun::Settings;

/// The settings of grammars in ABNF alone.
#[derive(Clone, Copy, Drop)]
pub struct AbnfOptions {
    /// The alphabet of lines.
    pub letters: Alphabet,
    /// Whether `no` is followed by the length of the longest viable prefix.
    pub viable: bool,
    /// Whether a NUL byte ends a line, in place of LF.
    pub nul: bool,
    /// Whether the end of a line belongs to what is judged.
    pub keeps: bool,
    /// The output for each line.
    pub printed: Printed,
    /// Whether the name of the input and a colon stand before the output.
    pub named: bool,
    /// Whether the number of a line and a colon stand before what is printed for it.
    pub numbered: bool,
    /// Whether nothing is printed, and the run ends after the first rejected line.
    pub quiet: bool,
    /// Whether nothing is read while the end of a line is held.
    pub line_buffered: bool,
    /// How many items the sets of a line may have; any number if it is `None`.
    pub budget: Option<usize>,
}

/// The settings of a run of the ABNF tool.
pub type AbnfSettings<'a> = Settings<'a, AbnfOptions>;

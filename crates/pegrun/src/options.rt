//! The settings of a run of the peg tool.

use pegmatch::PrintStyle;
use toolrun::Settings;

/// The settings of grammars of peg(1) alone.
#[derive(Clone, Copy, Drop)]
pub struct PegOptions {
    /// How actions are printed.
    pub style: PrintStyle,
    /// Whether the input is one unit, which must take all of it.
    pub whole: bool,
    /// How many bytes a unit may print; any number if it is `None`.
    pub budget: Option<usize>,
    /// Whether a unit is run when a line feed has been read and the unit looks no further. With `whole` it is not.
    pub line_buffered: bool,
}

/// The settings of a run of the peg tool.
pub type PegSettings<'a> = Settings<'a, PegOptions>;

//! A grammar of peg(1) that was opened, and what settings ask of its runs.
ghost use Rattle.std.specs.Prelude.{◌≤◌};

use pegrun::{PegRunner, PrintStyle};

/// A grammar of peg(1) that was opened, and what settings ask of its runs.
#[derive(Drop)]
pub struct Runner {
    /// The grammar.
    pub peg: PegRunner,
    /// How many bytes a unit may look at.
    pub limit: usize,
    /// How actions are printed.
    pub style: PrintStyle,
    /// Whether an input is one unit.
    pub whole: bool,
    /// How many bytes a unit may print; any number if it is `None`.
    pub budget: Option<usize>,
    /// Whether units are run at line feeds.
    pub line_buffered: bool,
    /// Whether it is explained where a run stops.
    pub explain: bool,
    ghost in_range: { (1 ≤ limit) × (limit ≤ 16777216) },
}

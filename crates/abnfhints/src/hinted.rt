//! The subject of hints.

use crate::line_end::LineEnd;
use abnfread::Elem;
use diagnostics::Positions;
use ruletable::{Alphabet, RuleTable};

/// A grammar, and all that its hints depend on.
#[derive(Clone, Copy)]
pub struct Hinted<'a> {
    /// Where its text defines its rules, and what their bodies mention.
    pub positions: &'a Positions,
    /// The rules of the file, then the core rules that it leaves alone.
    pub rules: &'a RuleTable<Elem>,
    /// How many of them are rules of the file.
    pub count: usize,
    /// The id of the judged rule, if there is one.
    pub judged: Option<usize>,
    /// The alphabet of lines.
    pub letters: Alphabet,
    /// The end of a line.
    pub end: LineEnd,
}

//! The rules and reports that texts give.

use crate::join::GivenRule;
use abnfblocks::{RuleSearch, TextLine};

/// A text with its name.
#[derive(Clone, Copy)]
pub struct SourceText<'a> {
    /// The name in reports of positions.
    pub name: &'a [u8],
    /// The bytes of the text.
    pub bytes: &'a [u8],
}

/// A text as its lines are read.
#[derive(Drop)]
pub(crate) struct ShownText<'a> {
    /// The name in reports of positions.
    pub(crate) name: &'a [u8],
    /// The bytes that are read.
    pub(crate) bytes: Vec<u8>,
    /// Whether they are the contents of an XML text.
    pub(crate) of_xml: bool,
    /// The lines with lists written out, where that is asked for.
    pub(crate) written: Option<Vec<u8>>,
}

/// A text with its lines.
#[derive(Drop)]
pub(crate) struct WrittenText<'a> {
    /// The name in reports of positions.
    pub(crate) name: &'a [u8],
    /// The lines that are read.
    pub(crate) kept: Vec<TextLine<'a>>,
    /// The same with lists written out, where that is asked for.
    pub(crate) lines: Vec<TextLine<'a>>,
    /// Whether lists are looked for in rules that are no ABNF.
    pub(crate) asks: bool,
}

/// The position of a rule in a text.
#[derive(Drop)]
pub(crate) struct RulePosition<'a> {
    /// The name of the text.
    pub(crate) name: &'a [u8],
    /// The margin that is cut off, in bytes.
    pub(crate) margin: usize,
    /// The lines of the rule, as the text has them.
    pub(crate) sources: Vec<TextLine<'a>>,
    /// The same with lists written out.
    pub(crate) lines: Vec<TextLine<'a>>,
    /// How many blank lines follow them.
    pub(crate) blanks: usize,
    /// The comments that are written before the rule.
    pub(crate) comments: Vec<u8>,
    /// The rule as it is written.
    pub(crate) text: Vec<u8>,
}

/// The report of a rule that is no ABNF, or of lines that assign values.
#[derive(Drop)]
pub struct RuleReport {
    /// The line that reports it, with LF.
    pub message: Vec<u8>,
    /// The lines of the rule as they stand, each with LF; none for lines that assign values.
    pub lines: Option<Vec<u8>>,
}

/// A line of the list.
#[derive(Drop)]
pub(crate) enum ListLine {
    /// That of the next rule.
    Rule,
    /// That of a rule that assigns a value.
    Value(Vec<u8>),
}

/// A text with its lines, and what is found among them.
#[derive(Drop)]
pub(crate) struct FoundText<'a> {
    /// The text with its lines.
    pub(crate) rows: WrittenText<'a>,
    /// What is found among the lines.
    pub(crate) found: Vec<RuleSearch>,
}

/// The rules of texts, in order.
#[derive(Drop)]
pub(crate) struct Gathered<'a> {
    /// Of each rule its position.
    pub(crate) positions: Vec<RulePosition<'a>>,
    /// The rules.
    pub(crate) rules: Vec<GivenRule>,
    /// The reports of rules that are no ABNF.
    pub(crate) reported: Vec<RuleReport>,
    /// What the lines of the list say, in order.
    pub(crate) list: Vec<ListLine>,
}

//! What is found at a position of a file.
ghost use Rattle.std.specs.Prelude.{◌≡◌, ◌++◌, OnOk};
ghost use Rattle.findings.specs.Findings.{name_of_code, name_of_severity};

use ruletable::Memory;

/// A position in a file.
#[derive(Clone, Copy)]
pub(crate) struct Location {
    /// The line, from 1.
    pub(crate) line: usize,
    /// The column, in bytes from 1; of a line that is judged, in letters.
    pub(crate) column: usize,
}

/// The position of what has none.
pub(crate) const NOWHERE: Location = Location { line: 1, column: 1 };

/// How grave a finding is.
#[derive(Clone, Copy)]
pub(crate) enum Severity {
    /// It rejects the grammar, or a line.
    Error,
    /// It rejects nothing.
    Warning,
    /// It belongs to the finding before.
    Note,
}

impl Severity {
    /// Returns the name.
    pub(crate) fn name(self) -> &'static str
        ensures { result.now ≡ name_of_severity self }
    {
        match self {
            Severity::Error => "error",
            Severity::Warning => "warning",
            Severity::Note => "note",
        }
    }
}

/// What a finding is about.
#[derive(Clone, Copy)]
pub(crate) enum Code {
    /// The text cannot be read as a grammar.
    Syntax,
    /// Too many brackets are open at once.
    Nested,
    /// A number is too large.
    Number,
    /// The text has a predicate in C.
    CodePredicate,
    /// A text, a line or a unit is too long.
    TooLong,
    /// A rule is defined again.
    Redefined,
    /// A name has no rule.
    Undefined,
    /// A rule is not used.
    Unused,
    /// A rule is extended before it is defined.
    Extended,
    /// A rule has a description in words.
    Prose,
    /// A rule can reach itself without taking a byte.
    LeftRecursion,
    /// A repetition can take no byte.
    Loop,
    /// A rule derives nothing.
    DerivesNothing,
    /// A rule derives no line.
    NoLine,
    /// The numbers of a range or a repetition are reversed.
    Reversed,
    /// An alternative is never taken.
    NeverTaken,
    /// An action holds a definition.
    HeldDefinition,
    /// A capture ends that begins nowhere.
    NoBegin,
    /// A line is rejected.
    Refused,
    /// No unit matches.
    NoMatch,
}

impl Code {
    /// Returns the name.
    pub(crate) fn name(self) -> &'static str
        ensures { result.now ≡ name_of_code self }
    {
        match self {
            Code::Syntax => "syntax",
            Code::Nested => "nested",
            Code::Number => "number",
            Code::CodePredicate => "code-predicate",
            Code::TooLong => "too-long",
            Code::Redefined => "redefined",
            Code::Undefined => "undefined",
            Code::Unused => "unused",
            Code::Extended => "extended",
            Code::Prose => "prose",
            Code::LeftRecursion => "left-recursion",
            Code::Loop => "loop",
            Code::DerivesNothing => "derives-nothing",
            Code::NoLine => "no-line",
            Code::Reversed => "reversed",
            Code::NeverTaken => "never-taken",
            Code::HeldDefinition => "held-definition",
            Code::NoBegin => "no-begin",
            Code::Refused => "refused",
            Code::NoMatch => "no-match",
        }
    }
}

/// The message of a finding, in pieces.
#[derive(Clone, Copy)]
pub(crate) struct Wording<'a> {
    /// What is found.
    pub(crate) what: &'a [u8],
    /// What stands before more on it.
    pub(crate) mark: &'a [u8],
    /// More on it.
    pub(crate) more: &'a [u8],
}

impl<'a> Wording<'a> {
    /// Returns a message of one piece.
    pub(crate) fn new(what: &'a [u8]) -> Wording<'a>
        ensures { result.what.now ++ (result.mark.now ++ result.more.now) ≡ what.entry.now }
    {
        Wording {
            what,
            mark: b"",
            more: b"",
        }
    }

    /// Adds the message to bytes.
    pub(crate) fn push(self, out: &mut Vec<u8>) -> Result<(), Memory>
        ensures { OnOk result (out.new.items ≡ out.old.items
            ++ (self.entry.what.now ++ (self.entry.mark.now ++ self.entry.more.now))) }
    {
        out.extend_from_slice(self.what)?;
        out.extend_from_slice(self.mark)?;
        out.extend_from_slice(self.more)?;
        Ok(())
    }
}

/// A finding.
#[derive(Clone, Copy)]
pub(crate) struct Finding<'a> {
    /// The position.
    pub(crate) location: Location,
    /// How grave it is.
    pub(crate) severity: Severity,
    /// What it is about.
    pub(crate) code: Code,
    /// What it says.
    pub(crate) message: Wording<'a>,
}

/// A further position of a finding.
#[derive(Clone, Copy)]
pub(crate) struct FurtherPosition<'a> {
    /// The position.
    pub(crate) location: Location,
    /// What is reported of it.
    pub(crate) report: &'a [u8],
}

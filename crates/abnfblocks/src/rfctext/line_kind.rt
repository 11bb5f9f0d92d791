//! The kinds of lines.
ghost use Rattle.std.specs.Prelude.{◌≡◌};
ghost use Rattle.abnfblocks.specs.KeptSteps.{is_blank_kind, is_mark_kind};
ghost use Rattle.abnfblocks.specs.LineKinds.{kind_of};

use crate::rfctext::line_tests::{is_blank_line, is_dated, is_foot};

/// The look of a line of a text.
#[derive(Clone, Copy)]
pub enum LineKind {
    /// It holds nothing but blanks.
    Blank,
    /// It begins with a form feed, and holds nothing else, or what looks like the head of a page.
    Feed,
    /// It is the foot of a page: it ends with `[Page N]`.
    Foot,
    /// It looks like the head of a page: it is not indented, and ends with a year.
    Dated,
    /// It is any other line.
    Other,
}

impl LineKind {
    /// Returns whether a line of the kind holds nothing but blanks.
    pub fn is_blank(self) -> bool
        ensures { result ≡ is_blank_kind self }
    {
        matches!(self, LineKind::Blank)
    }

    // Whether it is a form feed or a foot.
    pub(crate) fn is_mark(self) -> bool
        ensures { result ≡ is_mark_kind self }
    {
        matches!(self, LineKind::Feed | LineKind::Foot)
    }

    // Returns the kind of a line with these bytes after its form feeds, if it has some.
    pub(crate) fn of(line: &[u8], has_feed: bool) -> LineKind
        ensures { result ≡ kind_of has_feed line.now }
    {
        if is_blank_line(line) {
            return if has_feed {
                LineKind::Feed
            } else {
                LineKind::Blank
            };
        }
        if is_foot(line) {
            return LineKind::Foot;
        }
        if !is_dated(line) {
            return LineKind::Other;
        }
        if has_feed {
            LineKind::Feed
        } else {
            LineKind::Dated
        }
    }
}

//! The nearest content before a line.
ghost use Rattle.std.specs.Prelude.{◌≡◌};
ghost use Rattle.abnfblocks.specs.KeptSteps.{goes_after, next_after};

use crate::rfctext::line_kind::LineKind;

/// The nearest content before a line, blank lines left out.
#[derive(Clone, Copy)]
pub(crate) enum Before {
    /// Nothing, or a line that stays.
    Text,
    /// A form feed or a foot.
    Mark,
    /// A head.
    Head,
}

impl Before {
    // Returns whether such a line goes, whatever follows it.
    pub(crate) fn takes(self, kind: LineKind) -> bool
        ensures { result ≡ goes_after self kind }
    {
        match kind {
            LineKind::Feed | LineKind::Foot => true,
            LineKind::Dated => matches!(self, Before::Mark),
            LineKind::Blank => !matches!(self, Before::Text),
            LineKind::Other => false,
        }
    }

    // Returns the kind nearest before the next line, after such a line.
    pub(crate) fn after(self, kind: LineKind) -> Before
        ensures { result ≡ next_after self kind }
    {
        match kind {
            LineKind::Feed | LineKind::Foot => Before::Mark,
            LineKind::Blank => self,
            LineKind::Dated => match self {
                Before::Mark => Before::Head,
                Before::Text | Before::Head => Before::Text,
            },
            LineKind::Other => Before::Text,
        }
    }
}

//! Lines of the marks in a rule's body.
ghost use Rattle.std.specs.Prelude.{◌≡◌, count_by, slice_get, take, IfOk};
ghost use Rattle.diagnostics.specs.BodyMentions.{is_kind as same_kind};
ghost use Rattle.diagnostics.specs.MentionLines.{mention_lines_by};
ghost use Rattle.pegread.specs.PegViews.{pattern_of};
ghost use Rattle.pegexplain.specs.HiddenAlternatives.{marks_in};
ghost use Rattle.pegexplain.specs.PegHints.{mark_line};

use crate::PegPositions;
use crate::hints::marks::add_marks;
use diagnostics::{MentionKind, mention_lines};
use pegread::Expr;
use ruletable::Memory;
use std::alloc::Global;

/// How many hints of a kind are reported.
pub const MAX_HINTS: usize = 16;

// The number at a position, if there is one.
fn number_at(numbers: &[usize], position: usize) -> Option<usize>
    ensures { result ≡ slice_get numbers.now position }
{
    numbers.get(position).copied()
}

// The mark at a position, if there is one.
fn mark_at(marks: &[MentionKind], position: usize) -> Option<MentionKind>
    ensures { result ≡ slice_get marks.now position }
{
    marks.get(position).copied()
}

// Whether two kinds are one.
fn is_kind(kind: MentionKind, other: MentionKind) -> bool
    ensures { result ≡ same_kind kind other }
{
    kind == other
}

// How many of the first marks are of a kind.
fn count_before(marks: &[MentionKind], position: usize, kind: MentionKind) -> usize
    ensures { result ≡ count_by (same_kind kind) (take position marks.now) }
{
    let before = &marks[..position.min(marks.len())];
    before.iter().filter(|m| is_kind(kind, **m)).count()
}

/// Returns the line of the mark in a rule's body before which so many stand, if it is known.
///
/// `Memory` if an allocation fails.
pub(crate) fn line_of(
    alloc: Global,
    positions: &PegPositions,
    rule: &[u8],
    body: &Expr,
    position: usize,
) -> Result<Option<usize>, Memory>
    ensures { IfOk result (λ line. line ≡ mark_line (λ kind. mention_lines_by positions.now.positions kind rule.now)
        (marks_in (pattern_of body.now)) position) }
{
    let mut marks = Vec::new(alloc);
    add_marks(body, &mut marks)?;
    let Some(kind) = mark_at(&marks, position) else {
        return Ok(None);
    };
    let lines = mention_lines(alloc, &positions.positions, kind, rule)?;
    let before = count_before(&marks, position, kind);
    Ok(number_at(&lines, before))
}

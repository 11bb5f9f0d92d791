//! On which lines the first definition of a name mentions what is of a kind.
ghost use Rattle.std.specs.Prelude.{◌≡◌, map, IfOk};
ghost use Rattle.diagnostics.specs.BodyMentions.{mentioned_at};
ghost use Rattle.diagnostics.specs.MentionLines.{mention_lines_by, mentions_within};

use crate::noteplaces::mentions::{Mention, MentionKind, is_kind};
use crate::noteplaces::positions::Positions;
use crate::noteplaces::uses::{mentions_under, rule_of_name};
use ruletable::Memory;
use std::alloc::Global;

// Returns the lines of the mentions of a kind in the definition that starts at a position.
fn lines_within(
    alloc: Global,
    mentions: &[&Mention],
    kind: MentionKind,
    start: usize,
) -> Result<Vec<usize>, Memory>
    ensures { IfOk result (λ lines. lines.items
        ≡ map (λ m. m.line) (mentions_within kind start (map (λ m. mentioned_at m.now) mentions.now))) }
{
    let mut lines = Vec::new(alloc);
    for mention in mentions {
        if is_kind(kind, mention) && mention.within == start {
            lines.push(mention.line)?;
        }
    }
    Ok(lines)
}

/// Returns the lines of the mentions of a kind in the first definition of a name, in order; none if no definition has
/// the name.
///
/// # Errors
/// `Memory` if an allocation fails.
pub fn mention_lines(
    alloc: Global,
    positions: &Positions,
    kind: MentionKind,
    name: &[u8],
) -> Result<Vec<usize>, Memory>
    ensures { IfOk result (λ lines. lines.items ≡ mention_lines_by positions.now kind name.now) }
{
    let Some(head) = rule_of_name(positions, name)? else {
        return Ok(Vec::new(alloc));
    };
    let mentions = mentions_under(alloc, positions, name)?;
    lines_within(alloc, &mentions, kind, head.start)
}

//! Ranges and repetitions whose numbers are reversed.
ghost use Rattle.std.specs.Prelude.{◌≡◌, ◌↔◌, ◌++◌, ◌==◌, flat_map, map, option_map, IsTrue, IfOk, OnOk};
ghost use Rattle.std.specs.List.{find};
ghost use Rattle.abnfhints.specs.AbnfHints.{
  AreReversed,
  IsReversedMention,
  name_of_head,
  reversed_reported,
  reported_first,
};
ghost use Rattle.diagnostics.specs.BodyMentions.{mentioned_at};
ghost use Rattle.diagnostics.specs.DefinitionHeads.{defined_at};

use crate::hints::MAX_HINTS;
use crate::numbers::{is_reversed, is_reversed_repeat};
use diagnostics::{Head, Mention, MentionKind, Positions, push_cut, push_more, push_number};
use ruletable::Memory;
use std::alloc::Global;

// Returns whether a mention is a range or a repetition whose numbers are reversed.
fn is_reversed_mention(mention: &Mention) -> bool
    ensures { IsTrue result ↔ IsReversedMention (mentioned_at mention.now) }
{
    match mention.kind {
        MentionKind::Number => is_reversed(&mention.text),
        MentionKind::Repeat => is_reversed_repeat(&mention.text),
        _ => false,
    }
}

/// Returns the ranges and repetitions among what bodies mention whose numbers are reversed, in order.
///
/// `Memory` if an allocation fails.
pub(crate) fn reversed_among(alloc: Global, mentions: &[Mention]) -> Result<Vec<&Mention>, Memory>
    ensures { IfOk result (λ found. AreReversed (map mentioned_at mentions.now) (map (λ m. mentioned_at m.now)
        found.items)) }
{
    let mut found = Vec::new(alloc);
    for mention in mentions {
        if is_reversed_mention(mention) {
            found.push(mention)?;
        }
    }
    Ok(found)
}

// Returns the head of the definition at a position.
fn head_at(heads: &[Head], position: usize) -> Option<&Head>
    ensures { option_map (λ h. defined_at h.now) result ≡ find (λ d. d.start == position) (map defined_at heads.now) }
{
    for head in heads {
        if head.start == position {
            return Some(head);
        }
    }
    None
}

// Returns the name at the head of the definition at a position, or none if there is none.
fn name_at(heads: &[Head], position: usize) -> &[u8]
    ensures { result.now ≡ name_of_head (find (λ d. d.start == position) (map defined_at heads.now)) }
{
    match head_at(heads, position) {
        Some(head) => head.name.as_slice(),
        None => b"",
    }
}

// Adds what is reported of reversed numbers.
fn push_reversed(out: &mut Vec<u8>, positions: &Positions, mention: &Mention) -> Result<(), Memory>
    ensures { OnOk result (out.new.items ≡ out.old.items ++ reversed_reported (map defined_at positions.now.heads.items)
        (mentioned_at mention.now)) }
{
    out.extend_from_slice(b"reversed numbers in rule '")?;
    push_cut(out, name_at(&positions.heads, mention.within))?;
    out.extend_from_slice(b"'\n  line ")?;
    push_number(out, mention.line)?;
    out.extend_from_slice(b": ")?;
    push_cut(out, &mention.text)?;
    out.extend_from_slice(b" derives nothing\n")?;
    Ok(())
}

// Adds what is reported of each of these.
fn push_each_reversed(
    out: &mut Vec<u8>,
    positions: &Positions,
    mentions: &[&Mention],
) -> Result<(), Memory>
    ensures { OnOk result (out.new.items ≡ out.old.items ++ flat_map (reversed_reported (map defined_at
        positions.now.heads.items)) (map (λ m. mentioned_at m.now) mentions.now)) }
{
    for mention in mentions {
        push_reversed(out, positions, mention)?;
    }
    Ok(())
}

/// Adds what is reported of reversed numbers: of the first ones, and how many more there are.
///
/// `Memory` if an allocation fails.
pub(crate) fn push_all_reversed(
    out: &mut Vec<u8>,
    positions: &Positions,
    mentions: &[&Mention],
) -> Result<(), Memory>
    ensures { OnOk result (out.new.items ≡ out.old.items ++ reported_first (reversed_reported (map defined_at
        positions.now.heads.items)) (map (λ m. mentioned_at m.now) mentions.now)) }
{
    let shown = mentions.len().min(MAX_HINTS);
    push_each_reversed(out, positions, &mentions[..shown])?;
    push_more(out, mentions.len() - shown)?;
    Ok(())
}

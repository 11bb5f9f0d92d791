//! The first prose of a rule.
ghost use Rattle.std.specs.Prelude.{◌≡◌, ◌++◌, ◌&&◌, map, option_map, IfOk, OnOk};
ghost use Rattle.std.specs.List.{find};
ghost use Rattle.diagnostics.specs.BodyMentions.{is_kind as same_kind, mentioned_at};
ghost use Rattle.diagnostics.specs.DefinitionHeads.{defined_at};
ghost use Rattle.diagnostics.specs.ExplainedNotes.{prose_by};
ghost use Rattle.diagnostics.specs.FirstMentions.{is_standing};
ghost use Rattle.diagnostics.specs.NameIndexes.{Rises, starts_of};
ghost use Rattle.diagnostics.specs.UseLines.{prose_line};

use crate::noteplaces::heads::Head;
use crate::noteplaces::mentions::{Mention, MentionKind, is_kind};
use crate::noteplaces::name_index::head_at;
use crate::noteplaces::positions::Positions;
use crate::noteplaces::uses::{mentions_under, rule_of_name};
use crate::picture::{push_cut, push_number};
use ruletable::Memory;
use std::alloc::Global;

// Whether a mention is prose in a definition that begins the rule or adds to it.
fn is_standing_prose(heads: &[Head], rule: &Head, mention: &Mention) -> bool
    requires { Rises 0 (starts_of heads.now) }
    ensures { result ≡ (same_kind MentionKind.Prose mention.now.kind
        && is_standing (map defined_at heads.now) (defined_at rule.now) mention.now.within) }
{
    if !is_kind(MentionKind::Prose, mention) {
        return false;
    }
    match head_at(heads, mention.within) {
        Some(head) => head.adds || head.start == rule.start,
        None => false,
    }
}

// The first of the mentions that is prose in a definition that begins the rule or adds to it.
fn standing_prose<'a>(heads: &[Head], rule: &Head, mentions: &[&'a Mention]) -> Option<&'a Mention>
    requires { Rises 0 (starts_of heads.now) }
    ensures { option_map (λ m. mentioned_at m.now) result ≡ find (λ m. same_kind MentionKind.Prose m.kind
        && is_standing (map defined_at heads.now) (defined_at rule.now) m.within)
        (map (λ m. mentioned_at m.now) mentions.now) }
{
    for mention in mentions {
        if is_standing_prose(heads, rule, mention) {
            return Some(*mention);
        }
    }
    None
}

/// Returns the first prose of the rule of a name: in the definition that begins it, or in one that adds to it.
///
/// # Errors
/// `Memory` if an allocation fails.
pub fn first_prose<'a>(
    alloc: Global,
    positions: &'a Positions,
    name: &[u8],
) -> Result<Option<&'a Mention>, Memory>
    ensures { IfOk result (λ found. option_map (λ m. mentioned_at m.now) found ≡ prose_by positions.now name.now) }
{
    let Some(rule) = rule_of_name(positions, name)? else {
        return Ok(None);
    };
    let mentions = mentions_under(alloc, positions, name)?;
    Ok(standing_prose(&positions.heads, rule, &mentions))
}

/// Adds the line of prose.
pub(crate) fn push_prose(out: &mut Vec<u8>, found: Option<&Mention>) -> Result<(), Memory>
    ensures { OnOk result (out.new.items
        ≡ out.old.items ++ prose_line (option_map (λ m. mentioned_at m.now) found.entry)) }
{
    if let Some(found) = found {
        out.extend_from_slice(b"  line ")?;
        push_number(out, found.line)?;
        out.extend_from_slice(b": ")?;
        push_cut(out, found.text.as_slice())?;
        out.extend_from_slice(b"\n")?;
    }
    Ok(())
}

//! The names that rules use.
ghost use Rattle.std.specs.Prelude.{◌≡◌, ◌++◌, map, IfOk, OnOk};
ghost use Rattle.std.specs.List.{flat_map};
ghost use Rattle.diagnostics.specs.BodyMentions.{mentioned_at};
ghost use Rattle.abnftexts.specs.JoinedGrammar.{ordered_rules};
ghost use Rattle.abnftexts.specs.CodeUses.{AddsUses, name_used};
ghost use Rattle.abnftexts.specs.RulesGathered.{lines_placed};
ghost use Rattle.abnftexts.specs.UsedNames.{AreNameUses, used_at};

use crate::gathered::RulePosition;
use crate::reported::number_at;
use abnfexplain::abnf_positions;
use diagnostics::{Mention, MentionKind};
use ruletable::Memory;
use std::alloc::Global;

/// A name that a rule uses.
#[derive(Drop)]
pub(crate) struct NameUse<'a> {
    /// The name of the text.
    pub(crate) text: &'a [u8],
    /// The number of the line, from 1.
    pub(crate) line: usize,
    /// The name as it is spelled there.
    pub(crate) name: Vec<u8>,
}

// Adds the use that a mention in the lines of a rule is, if it is one.
fn push_use<'a>(
    alloc: Global,
    uses: &mut Vec<NameUse<'a>>,
    position: &RulePosition<'a>,
    mention: &Mention,
) -> Result<(), Memory>
    ensures { OnOk result (map name_used uses.new.items
        ≡ map name_used uses.old.items ++ used_at (lines_placed position.now) (mentioned_at mention.now)) }
{
    match mention.kind {
        MentionKind::Use => {
            let name = Vec::from_slice(alloc, &mention.text)?;
            uses.push(NameUse {
                text: position.name,
                line: number_at(&position.lines, mention.line),
                name,
            })?;
            Ok(())
        }
        _ => Ok(()),
    }
}

// Adds those of all mentions in the lines of a rule.
fn push_mentions<'a>(
    alloc: Global,
    uses: &mut Vec<NameUse<'a>>,
    position: &RulePosition<'a>,
    mentions: &[Mention],
) -> Result<(), Memory>
    ensures { OnOk result (map name_used uses.new.items ≡ map name_used uses.old.items
        ++ flat_map (used_at (lines_placed position.now)) (map mentioned_at mentions.now)) }
{
    for mention in mentions {
        push_use(alloc, uses, position, mention)?;
    }
    Ok(())
}

// Adds the names that a rule uses.
fn push_uses<'a>(
    alloc: Global,
    uses: &mut Vec<NameUse<'a>>,
    position: &RulePosition<'a>,
) -> Result<(), Memory>
    ensures { OnOk result (AddsUses (lines_placed position.now)
        (map name_used uses.old.items) (map name_used uses.new.items)) }
{
    let found = abnf_positions(alloc, &position.text)?;
    push_mentions(alloc, uses, position, &found.mentions)
}

/// Returns the names that the rules with these numbers use, in that order.
///
/// # Errors
/// `Memory` if an allocation fails.
pub(crate) fn uses_in<'a>(
    alloc: Global,
    positions: &[RulePosition<'a>],
    order: &[usize],
) -> Result<Vec<NameUse<'a>>, Memory>
    ensures { IfOk result (λ uses. AreNameUses (ordered_rules (map lines_placed positions.now) order.now)
        (map name_used uses.items)) }
{
    let mut uses = Vec::new(alloc);
    for number in order {
        if let Some(position) = positions.get(*number) {
            push_uses(alloc, &mut uses, position)?;
        }
    }
    Ok(uses)
}

//! The use by which a name is noted.
ghost use Rattle.std.specs.Prelude.{◌≡◌, ◌++◌, ◌∷◌, ◌==◌, List, Option, map, option_map, IfOk, OnOk, option_copied};
ghost use Rattle.std.specs.List.{filter, list_any};
ghost use Rattle.diagnostics.specs.BodyMentions.{MentionedAt, mentioned_at};
ghost use Rattle.diagnostics.specs.DefinitionHeads.{DefinedAt, defined_at};
ghost use Rattle.diagnostics.specs.FirstMentions.{IsFirstIfAny, RuleMention, rule_named};
ghost use Rattle.diagnostics.specs.FirstMentions.{rule_standing_at, stands_in, uses_of};
ghost use Rattle.diagnostics.specs.FoundMentions.{mention_found};
ghost use Rattle.diagnostics.specs.NoteLines.{named};
ghost use Rattle.ruletable.specs.declared.table.NameCase.{NameCase};
ghost use Rattle.diagnostics.specs.ExplainedNotes.{IsFormBy};
ghost use Rattle.diagnostics.specs.UseLines.{form_found, is_given, use_line, used_line};

use crate::noteplaces::forms::UseForm;
use crate::noteplaces::heads::Head;
use crate::noteplaces::lines::is_same_name;
use crate::noteplaces::mentions::Mention;
use crate::noteplaces::name_index::head_at;
use crate::noteplaces::number_lists::{items_at, numbers_of};
use crate::noteplaces::positions::Positions;
use crate::picture::{push_cut, push_number};
use ruletable::{Memory, NameCase};
use std::alloc::Global;

/// A mention with its rule.
#[derive(Clone, Copy)]
pub(crate) struct MentionInRule<'a> {
    /// The rule in whose body it stands.
    rule: &'a Head,
    /// The mention.
    mention: &'a Mention,
}

/// Returns the rule of a name: its first definition.
///
/// `Memory` if an allocation fails.
pub(crate) fn rule_of_name<'a>(
    positions: &'a Positions,
    name: &[u8],
) -> Result<Option<&'a Head>, Memory>
    ensures { IfOk result (λ rule. option_map (λ h. defined_at h.now) rule
        ≡ rule_named positions.now.names (map defined_at positions.now.heads.items) name.now) }
{
    let indexes = numbers_of(&positions.index.heads, name)?;
    match indexes.first() {
        Some(position) => Ok(positions.heads.get(*position)),
        None => Ok(None),
    }
}

// Returns the rule in which a definition stands, where that is the rule of its name.
fn standing_in<'a>(head: &Head, rule: Option<&'a Head>) -> Option<&'a Head>
    ensures { option_map (λ h. defined_at h.now) result
        ≡ stands_in (defined_at head.now) (option_map (λ h. defined_at h.now) rule.entry) }
{
    let rule = rule?;
    if rule.start == head.start || head.adds {
        return Some(rule);
    }
    None
}

// Returns the rule in which the definition stands that starts at a position.
fn rule_around(positions: &Positions, start: usize) -> Result<Option<&Head>, Memory>
    ensures { IfOk result (λ rule. option_map (λ h. defined_at h.now) rule
        ≡ rule_standing_at positions.now.names (map defined_at positions.now.heads.items) start) }
{
    let Some(head) = head_at(&positions.heads, start) else {
        return Ok(None);
    };
    let rule = rule_of_name(positions, head.name.as_slice())?;
    Ok(standing_in(head, rule))
}

// Returns the first mention, of one that stands in that rule and others after it, given the first of these.
fn earlier_of<'a>(
    rule: Option<&'a Head>,
    mention: &'a Mention,
    other: Option<MentionInRule<'a>>,
) -> Option<MentionInRule<'a>>
    ensures { (names : NameCase) (definitions : List DefinedAt) (mentions : List MentionedAt)
        → option_map (λ h. defined_at h.now) rule.entry ≡ rule_standing_at names definitions mention.now.within
        → IsFirstIfAny names definitions mentions (option_map mention_found other.entry)
        → IsFirstIfAny names definitions (mentioned_at mention.now ∷ mentions) (option_map mention_found result) }
{
    let Some(rule) = rule else {
        return other;
    };
    if let Some(later) = other {
        if later.rule.start < rule.start {
            return Some(later);
        }
    }
    Some(MentionInRule { rule, mention })
}

// Returns the first of the mentions, in the order of the rules and of their bodies.
fn earliest_of<'a>(
    positions: &'a Positions,
    mentions: &[&'a Mention],
) -> Result<Option<MentionInRule<'a>>, Memory>
    ensures { IfOk result (λ found. IsFirstIfAny positions.now.names (map defined_at positions.now.heads.items)
        (map (λ m. mentioned_at m.now) mentions.now) (option_map mention_found found)) }
{
    let mut found = None;
    let mut left = mentions.len();
    while left > 0 {
        left -= 1;
        let mention = mentions[left];
        let rule = rule_around(positions, mention.within)?;
        found = earlier_of(rule, mention, found);
    }
    Ok(found)
}

// Returns the uses of a name.
fn uses_named<'a>(
    alloc: Global,
    positions: &'a Positions,
    name: &[u8],
) -> Result<Vec<&'a Mention>, Memory>
    ensures { IfOk result (λ v. map (λ m. mentioned_at m.now) v.items
        ≡ uses_of positions.now.names name.now (map mentioned_at positions.now.mentions.items)) }
{
    let indexes = numbers_of(&positions.index.uses, name)?;
    items_at(alloc, &positions.mentions, indexes)
}

/// Returns the mentions in the definitions of a name.
///
/// `Memory` if an allocation fails.
pub(crate) fn mentions_under<'a>(
    alloc: Global,
    positions: &'a Positions,
    name: &[u8],
) -> Result<Vec<&'a Mention>, Memory>
    ensures { IfOk result (λ v. map (λ m. mentioned_at m.now) v.items
        ≡ filter (λ m. list_any (λ d. d.start == m.within)
        (named positions.now.names name.now (map defined_at positions.now.heads.items)))
        (map mentioned_at positions.now.mentions.items)) }
{
    let indexes = numbers_of(&positions.index.bodies, name)?;
    items_at(alloc, &positions.mentions, indexes)
}

// Returns the first use of a name, in the order of the rules and of their bodies.
fn first_use<'a>(
    alloc: Global,
    positions: &'a Positions,
    name: &[u8],
) -> Result<Option<MentionInRule<'a>>, Memory>
    ensures { IfOk result (λ found. IsFirstIfAny positions.now.names (map defined_at positions.now.heads.items)
        (uses_of positions.now.names name.now (map mentioned_at positions.now.mentions.items))
        (option_map mention_found found)) }
{
    let uses = uses_named(alloc, positions, name)?;
    earliest_of(positions, &uses)
}

// Adds the line of the use of a name.
fn push_use(out: &mut Vec<u8>, found: Option<MentionInRule<'_>>) -> Result<(), Memory>
    ensures { OnOk result (out.new.items ≡ out.old.items ++ use_line (option_map mention_found found.entry)) }
{
    if let Some(found) = found {
        out.extend_from_slice(b"  line ")?;
        push_number(out, found.mention.line)?;
        out.extend_from_slice(b": used in rule '")?;
        push_cut(out, found.rule.name.as_slice())?;
        out.extend_from_slice(b"'\n")?;
    }
    Ok(())
}

// Whether the name is the one that is given for the start rule.
fn is_given_name(names: NameCase, start: Option<&str>, name: &[u8]) -> bool
    ensures { result ≡ is_given names (option_copied start.entry) name.now }
{
    match start {
        Some(start) => is_same_name(names, name, start.as_bytes()),
        None => false,
    }
}

/// Adds the line of the use by which a name is noted that no rule has.
pub(crate) fn push_used(
    alloc: Global,
    out: &mut Vec<u8>,
    positions: &Positions,
    start: Option<&str>,
    name: &[u8],
) -> Result<(), Memory>
    ensures { OnOk result ((first : Option RuleMention)
        × IsFirstIfAny positions.now.names (map defined_at positions.now.heads.items)
        (uses_of positions.now.names name.now (map mentioned_at positions.now.mentions.items)) first
        × (out.new.items ≡ out.old.items ++ used_line positions.now.names (option_copied start.entry) first name.now)) }
{
    if is_given_name(positions.names, start, name) {
        out.extend_from_slice(b"  given by -s\n")?;
        return Ok(());
    }
    let first = first_use(alloc, positions, name)?;
    push_use(out, first)
}

// Returns what a use is in other notations.
fn form_of(found: Option<MentionInRule<'_>>) -> UseForm
    ensures { result ≡ form_found (option_map mention_found found.entry) }
{
    match found {
        Some(found) => found.mention.form,
        None => UseForm::Plain,
    }
}

/// Returns what the use by which a name is noted is in other notations. The name that is given for the start rule is
/// nothing else.
///
/// # Errors
/// `Memory` if an allocation fails.
pub fn used_form(
    alloc: Global,
    positions: &Positions,
    start: Option<&str>,
    name: &[u8],
) -> Result<UseForm, Memory>
    ensures { IfOk result (λ form. IsFormBy positions.now (option_copied start.entry) name.now form) }
{
    if is_given_name(positions.names, start, name) {
        return Ok(UseForm::Plain);
    }
    let first = first_use(alloc, positions, name)?;
    Ok(form_of(first))
}

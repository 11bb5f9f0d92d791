//! Where the names of a text stand among its definitions and mentions.
ghost use Rattle.std.specs.Prelude.{◌≡◌, ◌==◌, option_map, IfOk};
ghost use Rattle.std.specs.List.{find};
ghost use Rattle.diagnostics.specs.NameIndexes.{ListBodies, ListHeads, ListUses, Rises, starts_of};

use crate::noteplaces::heads::Head;
use crate::noteplaces::mentions::{Mention, MentionKind, is_kind};
use crate::noteplaces::number_lists::add_number;
use ruletable::{Memory, NameCase, RuleTable};
use std::alloc::Global;

/// Where the names of a text stand: the positions of definitions and mentions, listed by name.
#[derive(Drop)]
pub(crate) struct NameIndex {
    /// The definitions of each name.
    pub(crate) heads: RuleTable<Vec<usize>>,
    /// The uses of each name.
    pub(crate) uses: RuleTable<Vec<usize>>,
    /// The mentions in the definitions of each name.
    pub(crate) bodies: RuleTable<Vec<usize>>,
}

/// Returns the definition that starts at a position.
pub(crate) fn head_at(heads: &[Head], start: usize) -> Option<&Head>
    requires { Rises 0 (starts_of heads.now) }
    ensures { option_map (λ h. h.now) result ≡ find (λ h. h.start == start) heads.now }
{
    let before = heads.partition_point(|head| head.start < start);
    let head = heads.get(before)?;
    if head.start == start {
        return Some(head);
    }
    None
}

// Lists the definitions of each name.
fn heads_by_name(
    alloc: Global,
    heads: &[Head],
    names: NameCase,
) -> Result<RuleTable<Vec<usize>>, Memory>
    ensures { IfOk result (λ lists. ListHeads names heads.now lists) }
{
    let mut lists = RuleTable::new(alloc, names);
    for position in 0..heads.len() {
        add_number(alloc, &mut lists, &heads[position].name, position)?;
    }
    Ok(lists)
}

// Lists the uses of each name.
fn uses_by_name(
    alloc: Global,
    mentions: &[Mention],
    names: NameCase,
) -> Result<RuleTable<Vec<usize>>, Memory>
    ensures { IfOk result (λ lists. ListUses names mentions.now lists) }
{
    let mut lists = RuleTable::new(alloc, names);
    for position in 0..mentions.len() {
        let mention = &mentions[position];
        if is_kind(MentionKind::Use, mention) {
            add_number(alloc, &mut lists, &mention.text, position)?;
        }
    }
    Ok(lists)
}

// Lists the mentions in the definitions of each name.
fn bodies_by_name(
    alloc: Global,
    heads: &[Head],
    mentions: &[Mention],
    names: NameCase,
) -> Result<RuleTable<Vec<usize>>, Memory>
    requires { Rises 0 (starts_of heads.now) }
    ensures { IfOk result (λ lists. ListBodies names heads.now mentions.now lists) }
{
    let mut lists = RuleTable::new(alloc, names);
    for position in 0..mentions.len() {
        let mention = &mentions[position];
        if let Some(head) = head_at(heads, mention.within) {
            add_number(alloc, &mut lists, &head.name, position)?;
        }
    }
    Ok(lists)
}

/// Lists where the names of a text stand.
///
/// `Memory` if an allocation fails.
pub(crate) fn index_names(
    alloc: Global,
    heads: &[Head],
    mentions: &[Mention],
    names: NameCase,
) -> Result<NameIndex, Memory>
    requires { Rises 0 (starts_of heads.now) }
    ensures heads { IfOk result (λ index. ListHeads names heads.now index.heads) }
    ensures uses { IfOk result (λ index. ListUses names mentions.now index.uses) }
    ensures bodies { IfOk result (λ index. ListBodies names heads.now mentions.now index.bodies) }
{
    let uses = uses_by_name(alloc, mentions, names)?;
    let bodies = bodies_by_name(alloc, heads, mentions, names)?;
    let heads = heads_by_name(alloc, heads, names)?;
    Ok(NameIndex {
        heads,
        uses,
        bodies,
    })
}

//! The lines that definitions add to a note.
ghost use Rattle.std.specs.Prelude.{◌≡◌, ◌++◌, map, flat_map, OnOk, IfOk};
ghost use Rattle.ruletable.specs.Rules.{same_name};
ghost use Rattle.diagnostics.specs.DefinitionHeads.{defined_at};
ghost use Rattle.diagnostics.specs.NoteLines.{agains_reported, first_line, lines_of, more_reported, name_line, named};
ghost use Rattle.diagnostics.specs.NoteLines.{not_adding, redefined_lines};

use crate::noteplaces::heads::Head;
use crate::noteplaces::number_lists::{items_at, numbers_of};
use crate::noteplaces::positions::Positions;
use crate::picture::{push_cut, push_number};
use ruletable::{Memory, NameCase, NoteKind};
use std::alloc::Global;

/// How many of the further definitions of a rule are reported.
pub const MAX_AGAIN: usize = 8;

// Adds the line of a definition.
fn push_name_line(out: &mut Vec<u8>, head: &Head, reported: &[u8]) -> Result<(), Memory>
    ensures { OnOk result (out.new.items ≡ out.old.items ++ name_line reported.now (defined_at head.now)) }
{
    out.extend_from_slice(b"  line ")?;
    push_number(out, head.line)?;
    out.extend_from_slice(b": '")?;
    push_cut(out, head.name.as_slice())?;
    out.extend_from_slice(b"' ")?;
    out.extend_from_slice(reported)?;
    out.extend_from_slice(b"\n")?;
    Ok(())
}

/// Adds how many more there are, if there are any.
///
/// # Errors
/// `Memory` if an allocation fails.
pub fn push_more(out: &mut Vec<u8>, count: usize) -> Result<(), Memory>
    ensures { OnOk result (out.new.items ≡ out.old.items ++ more_reported count) }
{
    if count > 0 {
        out.extend_from_slice(b"  and ")?;
        push_number(out, count)?;
        out.extend_from_slice(b" more\n")?;
    }
    Ok(())
}

/// Returns whether two names are of one rule.
pub(crate) fn is_same_name(names: NameCase, a: &[u8], b: &[u8]) -> bool
    ensures { result ≡ same_name names a.now b.now }
{
    match names {
        NameCase::Exact => a == b,
        NameCase::Fold => a.eq_ignore_ascii_case(b),
    }
}

/// Returns the definitions of a name.
pub(crate) fn heads_named<'a>(
    alloc: Global,
    positions: &'a Positions,
    name: &[u8],
) -> Result<Vec<&'a Head>, Memory>
    ensures { IfOk result (λ v. map (λ h. defined_at h.now) v.items
        ≡ named positions.now.names name.now (map defined_at positions.now.heads.items)) }
{
    let indexes = numbers_of(&positions.index.heads, name)?;
    items_at(alloc, &positions.heads, indexes)
}

// The definitions that do not add to a rule.
fn not_adding_heads<'a>(alloc: Global, heads: &[&'a Head]) -> Result<Vec<&'a Head>, Memory>
    ensures { IfOk result (λ v. map (λ h. defined_at h.now) v.items
        ≡ not_adding (map (λ h. defined_at h.now) heads.now)) }
{
    let mut found = Vec::new(alloc);
    for head in heads {
        if !head.adds {
            found.push(*head)?;
        }
    }
    Ok(found)
}

// Adds a line for each of the definitions.
fn push_name_lines(out: &mut Vec<u8>, heads: &[&Head], reported: &[u8]) -> Result<(), Memory>
    ensures { OnOk result (out.new.items ≡ out.old.items ++ flat_map (λ h. name_line reported.now (defined_at h.now))
        heads.now) }
{
    for head in heads {
        push_name_line(out, head, reported)?;
    }
    Ok(())
}

// Adds the lines of the definitions that do not stand.
fn push_agains(out: &mut Vec<u8>, heads: &[&Head]) -> Result<(), Memory>
    ensures { OnOk result (out.new.items ≡ out.old.items ++ agains_reported (map (λ h. defined_at h.now) heads.now)) }
{
    let shown = heads.len().min(MAX_AGAIN);
    push_name_lines(out, &heads[..shown], b"is defined again")?;
    push_more(out, heads.len() - shown)?;
    Ok(())
}

// Adds the line of a rule's first definition.
fn push_first(out: &mut Vec<u8>, heads: &[&Head], reported: &[u8]) -> Result<(), Memory>
    ensures { OnOk result (out.new.items ≡ out.old.items
        ++ first_line reported.now (map (λ h. defined_at h.now) heads.now)) }
{
    match heads.split_first() {
        Some((head, _)) => push_name_line(out, head, reported),
        None => Ok(()),
    }
}

// Adds the lines of a rule that is defined again.
fn push_redefined(alloc: Global, out: &mut Vec<u8>, heads: &[&Head]) -> Result<(), Memory>
    ensures { OnOk result (out.new.items ≡ out.old.items
        ++ redefined_lines (map (λ h. defined_at h.now) heads.now)) }
{
    match heads.split_first() {
        Some((head, rest)) => {
            push_name_line(out, head, b"is defined")?;
            let again = not_adding_heads(alloc, rest)?;
            push_agains(out, again.as_slice())
        }
        None => Ok(()),
    }
}

/// Adds the lines that explain a note of the kind by the definitions of its rule: where it is first defined, and where
/// it is defined again.
pub(crate) fn push_by_heads(
    alloc: Global,
    out: &mut Vec<u8>,
    heads: &[&Head],
    kind: NoteKind,
) -> Result<(), Memory>
    ensures { OnOk result (out.new.items ≡ out.old.items ++ lines_of kind (map (λ h. defined_at h.now) heads.now)) }
{
    match kind {
        NoteKind::Redefined => push_redefined(alloc, out, heads),
        NoteKind::ExtendedEarly => push_first(out, heads, b"begins with \"=/\""),
        NoteKind::Unused => push_first(out, heads, b"is defined"),
        _ => Ok(()),
    }
}

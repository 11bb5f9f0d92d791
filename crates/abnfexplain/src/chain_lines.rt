//! The line that reports by which rules a name is reached.
ghost use Rattle.std.specs.Prelude.{◌≡◌, ◌++◌, [], map, slice_index_or, OnOk};
ghost use Rattle.ruletable.specs.Rules.{names_of};
ghost use Rattle.abnfexplain.specs.ChainLines.{ends_line, left_out, names_after, in_quotes};

use diagnostics::{push_cut, push_number};
use ruletable::{Memory, RuleTable};

/// How many names after the first one are reported: the last ones.
pub const MAX_LAST: usize = 7;

// The name with that id, or none if there is no such name.
fn name_with(names: &RuleTable<()>, id: usize) -> &[u8]
    ensures { result.now ≡ slice_index_or (names_of names.now) id [] }
{
    if id < names.len() {
        return names.name(id);
    }
    b""
}

// Adds a name in quotes.
fn push_quoted(out: &mut Vec<u8>, name: &[u8]) -> Result<(), Memory>
    ensures { OnOk result (out.new.items ≡ out.old.items ++ in_quotes name.now) }
{
    out.extend_from_slice(b"'")?;
    push_cut(out, name)?;
    out.extend_from_slice(b"'")?;
    Ok(())
}

// Adds how many names are left out, if there are any.
fn push_left_out(out: &mut Vec<u8>, count: usize) -> Result<(), Memory>
    ensures { OnOk result (out.new.items ≡ out.old.items ++ left_out count) }
{
    if count > 0 {
        out.extend_from_slice(b" > ")?;
        push_number(out, count)?;
        out.extend_from_slice(b" more")?;
    }
    Ok(())
}

// Adds the names with these ids, each after `>`.
fn push_after(out: &mut Vec<u8>, names: &RuleTable<()>, ids: &[usize]) -> Result<(), Memory>
    ensures { OnOk result (out.new.items ≡ out.old.items
        ++ names_after (map (λ id. slice_index_or (names_of names.now) id []) ids.now)) }
{
    for id in ids {
        out.extend_from_slice(b" > ")?;
        push_quoted(out, name_with(names, *id))?;
    }
    Ok(())
}

/// Adds the line that reports by which rules a name is reached, if a chain has at least two names. The ids are those of
/// its first name and of its last ones, in order, and so many names stand between them.
///
/// # Errors
/// `Memory` if an allocation fails.
pub fn push_chain(
    out: &mut Vec<u8>,
    names: &RuleTable<()>,
    ids: &[usize],
    left: usize,
) -> Result<(), Memory>
    ensures { OnOk result (out.new.items ≡ out.old.items
        ++ ends_line left (map (λ id. slice_index_or (names_of names.now) id []) ids.now)) }
{
    if ids.len() < 2 {
        return Ok(());
    }
    out.extend_from_slice(b"  reached by ")?;
    push_quoted(out, name_with(names, ids[0]))?;
    push_left_out(out, left)?;
    push_after(out, names, &ids[1..])?;
    out.extend_from_slice(b"\n")?;
    Ok(())
}

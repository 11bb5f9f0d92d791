//! The filled sets of a line, indexed by dotted rule.
ghost use Rattle.std.specs.Prelude.{◌≡◌, ◌↔◌, ◌⊎◌, ◌+◌, ◌<◌, ◌≤◌, ◌^◌, ◌++◌, ◌∷◌, ℕ, [], length};
ghost use Rattle.std.specs.Prelude.{IsTrue, IfOk, Contains};
ghost use Rattle.earley.specs.RowSets.{HasAt};
ghost use Rattle.earley.specs.RowIndexes.{Indexes, AreIndexedBelow, AreIndexed};

use crate::row_sets::KeptRows;
use crate::{BitRow, empty_rows};
use ruletable::Memory;
use std::alloc::Global;

/// The filled sets of a line, with an index by dotted rule.
///
/// A completion goes back to the sets of many origins, and joins their rows of a dotted rule. Most of these rows have
/// the set's own number alone: `own` joins them all at once. The others are joined one by one, unless `union` shows
/// that they add nothing.
#[derive(Drop)]
pub(crate) struct FilledSets {
    /// The sets, by number.
    pub(crate) sets: Vec<KeptRows>,
    /// Of each dotted rule the sets whose row has the set's number alone.
    pub(crate) own: Vec<BitRow>,
    /// Of each dotted rule the other sets whose row is not empty.
    pub(crate) rest: Vec<BitRow>,
    /// Of each dotted rule all numbers in the rows of the sets in `rest`.
    pub(crate) union: Vec<BitRow>,
}

/// Returns no sets, for `positions` dotted rules. `Memory` if an allocation fails.
pub(crate) fn no_sets(alloc: Global, positions: usize) -> Result<FilledSets, Memory>
    ensures none { IfOk result (λ filled. filled.sets.items ≡ []) }
    ensures indexed { IfOk result (λ filled. AreIndexed positions filled) }
{
    let own = empty_rows(alloc, positions)?;
    let rest = empty_rows(alloc, positions)?;
    let union = empty_rows(alloc, positions)?;
    Ok(FilledSets {
        sets: Vec::new(alloc),
        own,
        rest,
        union,
    })
}

// Returns whether a row has one number alone.
fn is_alone(row: &BitRow, number: usize) -> bool
    requires { number < 2 ^ 63 }
    ensures { IsTrue result → (k : ℕ) → Contains row.now k ↔ (k ≡ number) }
{
    let Some(least) = row.next(0) else {
        return false;
    };
    if least != number {
        return false;
    }
    match row.next(number + 1) {
        Some(_) => false,
        None => true,
    }
}

// Makes a number a member of the row of a dotted rule.
fn insert_at(rows: &mut [BitRow], position: usize, number: usize) -> Result<(), Memory>
    requires position { position < length rows.old }
    requires number { number < 2 ^ 63 }
    ensures count { length rows.new ≡ length rows.old }
    ensures members { IfOk result (λ done. (p x : ℕ) → HasAt rows.new p x
        ↔ (HasAt rows.old p x ⊎ ((p ≡ position) × (x ≡ number)))) }
{
    rows[position].insert(number)?;
    Ok(())
}

// Adds numbers to the row of a dotted rule.
fn join_at(rows: &mut [BitRow], position: usize, found: &BitRow) -> Result<(), Memory>
    requires { position < length rows.old }
    ensures count { length rows.new ≡ length rows.old }
    ensures members { IfOk result (λ done. (p x : ℕ) → HasAt rows.new p x
        ↔ (HasAt rows.old p x ⊎ ((p ≡ position) × Contains found.now x))) }
{
    rows[position].join(found)?;
    Ok(())
}

// Notes which kind a set is at a dotted rule: by its row there.
fn index_row(
    number: usize,
    position: usize,
    row: &BitRow,
    own: &mut [BitRow],
    rest: &mut [BitRow],
    union: &mut [BitRow],
) -> Result<(), Memory>
    requires number { number < 2 ^ 63 }
    requires own { position < length own.old }
    requires rest { position < length rest.old }
    requires union { position < length union.old }
    ensures own { length own.new ≡ length own.old }
    ensures rest { length rest.new ≡ length rest.old }
    ensures union { length union.new ≡ length union.old }
    ensures indexes { IfOk result (λ done. Indexes number position row.now own.old rest.old union.old own.new rest.new
        union.new) }
{
    if is_alone(row, number) {
        insert_at(own, position, number)?;
        return Ok(());
    }
    match row.next(0) {
        Some(_) => {
            insert_at(rest, position, number)?;
            join_at(union, position, row)?;
            Ok(())
        }
        None => Ok(()),
    }
}

// Notes which kind a set is at each dotted rule: by its rows.
fn index_rows(
    number: usize,
    rows: &[BitRow],
    own: &mut [BitRow],
    rest: &mut [BitRow],
    union: &mut [BitRow],
) -> Result<(), Memory>
    requires number { number < 2 ^ 63 }
    requires own { length rows.now ≤ length own.old }
    requires rest { length rows.now ≤ length rest.old }
    requires union { length rows.now ≤ length union.old }
    ensures own { length own.new ≡ length own.old }
    ensures rest { length rest.new ≡ length rest.old }
    ensures union { length union.new ≡ length union.old }
    ensures indexes { IfOk result (λ done. AreIndexedBelow number (length rows.now) rows.now own.old rest.old union.old
        own.new rest.new union.new) }
{
    for position in 0..rows.len() {
        index_row(number, position, &rows[position], own, rest, union)?;
    }
    Ok(())
}

/// Appends a filled set to `filled`, and indexes each of its rows. `Memory` if an allocation fails.
pub(crate) fn keep_set(kept: KeptRows, filled: &mut FilledSets) -> Result<(), Memory>
    requires number { length filled.old.sets.items < 2 ^ 63 }
    requires own { length kept.rows.items ≤ length filled.old.own.items }
    requires rest { length kept.rows.items ≤ length filled.old.rest.items }
    requires union { length kept.rows.items ≤ length filled.old.union.items }
    ensures sets { IfOk result (λ done. filled.new.sets.items ≡ filled.old.sets.items ++ kept ∷ []) }
    ensures indexed { IfOk result (λ done. (positions : ℕ) → AreIndexed positions filled.old
        → AreIndexed positions filled.new) }
{
    let number = filled.sets.len();
    index_rows(
        number,
        &kept.rows,
        &mut filled.own,
        &mut filled.rest,
        &mut filled.union,
    )?;
    filled.sets.push(kept)?;
    Ok(())
}

//! Cells that are filled.
ghost use Rattle.std.specs.Prelude.{◌≡◌, ◌≤◌, ◌<◌, ◌+◌, ◌*◌, ℕ, List, IfOk, IfSome, length, slice_get, Some};
ghost use Rattle.std.specs.Prelude.{Contains};
ghost use Rattle.flatgrammar.specs.declared.tables.Tables.{Tables as the_tables};
ghost use Rattle.lazydfa.specs.Cached.{IsCache, IsCell, Grows};
ghost use Rattle.lazydfa.specs.Kernels.{IsLeadCell};
ghost use Rattle.lazydfa.specs.Memos.{IsMemo};

use crate::cache::{Cache, Cell, state_of};
use crate::close::empty;
use crate::kernels::{find_lead, kernel_of, note_lead};
use crate::memo::Memo;
use crate::prune::prune;
use crate::suffixes::split_off;
use crate::transition::{Closure, close_on, read_all};
use flatgrammar::Tables;
use ruletable::Memory;
use std::alloc::Global;

/// The most ids of a kernel whose lead is noted.
const KERNEL: usize = 64;

/// A lead is noted if its closure has at least so many ids.
const VISITED: usize = 64;

/// Returns where the cell of a state and a class stands, where rows have so many cells.
#[inline(always)]
pub(crate) fn dot(state: usize, stride: usize, class: usize) -> Option<usize>
    ensures { IfSome result (λ at. at ≡ state * stride + class) }
{
    let row = state.checked_mul(stride)?;
    row.checked_add(class)
}

/// Returns the cell of the state of a row and a class.
#[inline(always)]
pub(crate) fn look(cache: &Cache, row: usize, class: usize) -> Cell
    ensures { (tables : the_tables) (samples : List ℕ) → IsCache tables samples cache.now → (s d : ℕ)
        → row ≡ s * (length samples + 1) → slice_get samples class ≡ Some d
        → IsCell tables d cache.now.conts.items.items cache.now.states.items s result }
{
    let Some(at) = row.checked_add(class) else {
        return Cell::Over;
    };
    match cache.cells.get(at) {
        Some(cell) => *cell,
        None => Cell::Over,
    }
}

/// Keeps the cell of a state and a class, if it has a dotted rule.
fn write(samples: &[u32], cache: &mut Cache, state: usize, class: usize, cell: Cell)
    ensures cached { (tables : the_tables) → IsCache tables samples.now cache.old → ((d : ℕ)
        → slice_get samples.now class ≡ Some d → IsCell tables d cache.old.conts.items.items cache.old.states.items
        state cell) → IsCache tables samples.now cache.new }
    ensures conts { cache.new.conts ≡ cache.old.conts }
    ensures states { cache.new.states ≡ cache.old.states }
{
    if class >= samples.len() {
        return;
    }
    if let Some(at) = dot(state, samples.len() + 1, class) {
        if at < cache.cells.len() {
            cache.cells[at] = cell;
        }
    }
}

// Computes the cell to what the ids that were read lead to, with the states that it needs.
fn lead_anew(
    alloc: Global,
    tables: &Tables,
    samples: &[u32],
    cache: &mut Cache,
) -> Result<Cell, Memory>
    requires cached { IsCache tables.now samples.now cache.old }
    requires within { (id : ℕ) → Contains cache.old.ids.items.items id → id ≤ length cache.old.conts.items.items }
    requires begun { 0 < length cache.old.states.items }
    ensures cached { IfOk result (λ cell. IsCache tables.now samples.now cache.new) }
    ensures grows { IfOk result (λ cell. Grows cache.old cache.new) }
    ensures is { IfOk result (IsLeadCell tables.now cache.old.conts.items.items cache.old.ids.items.items
        cache.new.conts.items.items cache.new.states.items) }
{
    let reported = close_on(alloc, tables, &mut cache.conts, &mut cache.ids)?;
    let Some(closure) = reported else {
        return Ok(Cell::Over);
    };
    let kept = prune(alloc, tables, &cache.conts, cache.counts, closure)?;
    if let Some(split) = split_off(alloc, tables, &mut cache.conts, &kept)? {
        let base = Closure {
            tops: split.tops,
            ended: false,
        };
        let t = state_of(cache, samples.len() + 1, base)?;
        return Ok(Cell::Push(t, split.suffix));
    }
    let t = state_of(cache, samples.len() + 1, kept)?;
    Ok(Cell::To(t))
}

// Returns the cell to what the ids that were read lead to. It is computed unless the lead of their kernel is known.
fn lead_on(alloc: Global, tables: &Tables, samples: &[u32], memo: &mut Memo) -> Result<Cell, Memory>
    requires memo { IsMemo tables.now samples.now memo.old }
    requires within { (id : ℕ) → Contains memo.old.cache.ids.items.items id
        → id ≤ length memo.old.cache.conts.items.items }
    requires begun { 0 < length memo.old.cache.states.items }
    ensures memo { IfOk result (λ cell. IsMemo tables.now samples.now memo.new) }
    ensures grows { IfOk result (λ cell. Grows memo.old.cache memo.new.cache) }
    ensures suffixes { memo.new.suffixes ≡ memo.old.suffixes }
    ensures is { IfOk result (IsLeadCell tables.now memo.old.cache.conts.items.items memo.old.cache.ids.items.items
        memo.new.cache.conts.items.items memo.new.cache.states.items) }
{
    if memo.cache.ids.items.len() > KERNEL {
        return lead_anew(alloc, tables, samples, &mut memo.cache);
    }
    let kernel = kernel_of(alloc, tables, &memo.cache.conts, &memo.cache.ids.items)?;
    if let Some(t) = find_lead(&memo.leads, &kernel) {
        return Ok(Cell::To(t));
    }
    let cell = lead_anew(alloc, tables, samples, &mut memo.cache)?;
    let Cell::To(t) = cell else {
        return Ok(cell);
    };
    if memo.cache.ids.items.len() < VISITED {
        return Ok(cell);
    }
    memo.cache.budget.note(kernel.len());
    note_lead(&mut memo.leads, kernel, t)?;
    Ok(cell)
}

/// Computes the cell of a state and a class. It adds the states that the cell needs, but writes no cell. `Memory` if
/// an allocation fails.
fn lead(
    alloc: Global,
    tables: &Tables,
    samples: &[u32],
    memo: &mut Memo,
    state: usize,
    class: usize,
) -> Result<Cell, Memory>
    requires memo { IsMemo tables.now samples.now memo.old }
    ensures memo { IfOk result (λ cell. IsMemo tables.now samples.now memo.new) }
    ensures grows { IfOk result (λ cell. Grows memo.old.cache memo.new.cache) }
    ensures suffixes { memo.new.suffixes ≡ memo.old.suffixes }
    ensures is { IfOk result (λ cell. (d : ℕ) → slice_get samples.now class ≡ Some d → IsCell tables.now d
        memo.new.cache.conts.items.items memo.new.cache.states.items state cell) }
{
    if class >= samples.len() || state >= memo.cache.states.len() {
        return Ok(Cell::Over);
    }
    let value = samples[class];
    let tops = memo.cache.states[state].tops.as_slice();
    empty(&mut memo.cache.ids);
    read_all(
        tables,
        tops,
        value,
        &mut memo.cache.conts,
        &mut memo.cache.ids,
    )?;
    if memo.cache.ids.items.len() == 0 {
        return Ok(Cell::Dead);
    }
    lead_on(alloc, tables, samples, memo)
}

/// Returns whether a cell may be filled.
pub(crate) fn may_fill(cache: &Cache) -> bool {
    let entries = cache.conts.items.len().saturating_add(cache.cells.len());
    cache.budget.allows(cache.ids.most, entries)
}

// Takes off what filling a cell of a state took: as many iterations as it has tops, and as there were ids to go over.
fn charge(cache: &mut Cache, state: usize, cell: Cell)
    ensures conts { cache.new.conts ≡ cache.old.conts }
    ensures states { cache.new.states ≡ cache.old.states }
    ensures cells { cache.new.cells ≡ cache.old.cells }
{
    let tops = match cache.states.get(state) {
        Some(state) => state.tops.len(),
        None => 0,
    };
    let ids = match cell {
        Cell::Dead => 0,
        Cell::Unknown | Cell::Over | Cell::To(_) | Cell::Push(_, _) => cache.ids.items.len(),
    };
    cache
        .budget
        .spend(tops.saturating_add(ids).saturating_add(1));
}

/// Fills the cell of a state and a class, if that may be, and returns it. `Memory` if an allocation fails; the memo is
/// of no use then.
pub(crate) fn fill(
    alloc: Global,
    tables: &Tables,
    samples: &[u32],
    memo: &mut Memo,
    state: usize,
    class: usize,
) -> Result<Cell, Memory>
    requires memo { IsMemo tables.now samples.now memo.old }
    ensures memo { IfOk result (λ cell. IsMemo tables.now samples.now memo.new) }
    ensures grows { IfOk result (λ cell. Grows memo.old.cache memo.new.cache) }
    ensures suffixes { memo.new.suffixes ≡ memo.old.suffixes }
    ensures is { IfOk result (λ cell. (d : ℕ) → slice_get samples.now class ≡ Some d → IsCell tables.now d
        memo.new.cache.conts.items.items memo.new.cache.states.items state cell) }
{
    if !may_fill(&memo.cache) {
        return Ok(Cell::Over);
    }
    let cell = lead(alloc, tables, samples, memo, state, class)?;
    write(samples, &mut memo.cache, state, class, cell);
    charge(&mut memo.cache, state, cell);
    Ok(cell)
}

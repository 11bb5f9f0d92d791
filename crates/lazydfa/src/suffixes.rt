//! Shared suffixes of stacks: the suffix of all stacks of a state is split off, and put back when one of them has
//! ended.
ghost use Rattle.std.specs.Prelude.{◌≡◌, ◌≤◌, ◌<◌, ℕ, false, List, [], IsTrue, IfOk, IfSome, length, Contains};
ghost use Rattle.lazydfa.specs.Conts.{AreKept, AreOlder, TopReads, stack_of};
ghost use Rattle.lazydfa.specs.StackSuffixes.{IsSplitOff, PutsBack};

use crate::close::{Ids, add, close, empty};
use crate::conts::{Cont, Conts};
use crate::spines::{Move, move_all};
use crate::transition::{Closure, readers, top_reads};
use flatgrammar::Tables;
use ruletable::Memory;
use std::alloc::Global;

/// How many dotted rules of a suffix are looked at for one that stands there twice.
const DEPTH: usize = 64;

/// Stacks whose shared suffix was split off.
#[derive(Drop)]
pub(crate) struct Split {
    /// The ids of the stacks without the suffix.
    pub(crate) tops: Vec<usize>,
    /// The id of the suffix.
    pub(crate) suffix: usize,
}

/// Returns the continuation of an id, if it is not that of nothing.
pub(crate) fn entry(conts: &Conts, id: usize) -> Option<Cont> {
    let k = id.checked_sub(1)?;
    conts.items.get(k).copied()
}

/// Returns the id of what both continuations are or stand on, if it is not too deep. What stands below has a lower id.
pub(crate) fn common(conts: &Conts, a: usize, b: usize) -> usize {
    let mut a = a;
    let mut b = b;
    for _ in 0..4 * DEPTH {
        if a == b {
            return a;
        }
        let Some(cont) = entry(conts, a.max(b)) else {
            return 0;
        };
        b = a.min(b);
        a = cont.next;
    }
    0
}

// Returns the id of what all tops stand on.
fn common_suffix(conts: &Conts, tops: &[usize]) -> usize {
    let mut suffix = None;
    for top in tops {
        let Some(cont) = entry(conts, *top) else {
            return 0;
        };
        suffix = match suffix {
            Some(id) => Some(common(conts, id, cont.next)),
            None => Some(cont.next),
        };
    }
    suffix.unwrap_or(0)
}

// Returns whether the dotted rule of a continuation stands again below it.
fn stands_again(conts: &Conts, cont: Cont) -> bool {
    let mut id = cont.next;
    for _ in 0..DEPTH {
        let Some(other) = entry(conts, id) else {
            return false;
        };
        if other.node == cont.node && other.step == cont.step {
            return true;
        }
        id = other.next;
    }
    false
}

/// Returns whether some dotted rule stands twice in a suffix.
pub(crate) fn repeats(conts: &Conts, suffix: usize) -> bool {
    let mut id = suffix;
    for _ in 0..DEPTH {
        let Some(cont) = entry(conts, id) else {
            return false;
        };
        if stands_again(conts, cont) {
            return true;
        }
        id = cont.next;
    }
    false
}

/// Returns whether something is read on top of each continuation.
pub(crate) fn all_read(tables: &Tables, ids: &[usize], conts: &Conts) -> bool
    requires within { (id : ℕ) → Contains ids.now id → id ≤ length conts.now.items.items }
    requires older { AreOlder conts.now.items.items }
    ensures { IsTrue result → (id : ℕ) → Contains ids.now id → TopReads tables.now (stack_of conts.now.items.items id) }
{
    for id in ids {
        if !top_reads(tables, *id, conts) {
            return false;
        }
    }
    true
}

// Returns whether a suffix may be split off a closure.
fn may_split(conts: &Conts, closure: &Closure, suffix: usize) -> bool
    ensures { IsTrue result → (closure.now.ended ≡ false) × (0 < suffix) × (suffix ≤ length conts.now.items.items) }
{
    !closure.ended && 0 < suffix && suffix <= conts.items.len()
}

/// Splits off what all tops stand on, if a dotted rule stands there twice and none of them has ended. `Memory` if an
/// allocation fails.
pub(crate) fn split_off(
    alloc: Global,
    tables: &Tables,
    conts: &mut Conts,
    closure: &Closure,
) -> Result<Option<Split>, Memory>
    requires within { (id : ℕ) → Contains closure.now.tops.items id → id ≤ length conts.old.items.items }
    requires older { AreOlder conts.old.items.items }
    ensures kept { IfOk result (λ reported. AreKept conts.old.items.items conts.new.items.items) }
    ensures running { IfOk result (λ reported. IfSome reported (λ split. closure.now.ended ≡ false)) }
    ensures is { IfOk result (λ reported. IfSome reported (λ split. IsSplitOff tables.now conts.new.items.items
        closure.now.tops.items split.tops.items split.suffix)) }
{
    let suffix = common_suffix(conts, &closure.tops);
    if !may_split(conts, closure, suffix) {
        return Ok(None);
    }
    if !repeats(conts, suffix) {
        return Ok(None);
    }
    let mut spine = Vec::new(alloc);
    let mut tops = Vec::new(alloc);
    let way = Move { off: suffix, on: 0 };
    if !move_all(conts, &closure.tops, way, &mut spine, &mut tops)? {
        return Ok(None);
    }
    if !all_read(tables, &tops, conts) {
        return Ok(None);
    }
    Ok(Some(Split { tops, suffix }))
}

/// Returns tops put on a suffix, beside the continuations that follow from the suffix without a symbol; `None` if that
/// goes over more ids than there may be. `Memory` if an allocation fails.
pub(crate) fn put_back(
    alloc: Global,
    tables: &Tables,
    conts: &mut Conts,
    ids: &mut Ids,
    tops: &[usize],
    suffix: usize,
) -> Result<Option<Closure>, Memory>
    requires within { (id : ℕ) → Contains tops.now id → id ≤ length conts.old.items.items }
    requires suffix { suffix ≤ length conts.old.items.items }
    requires older { AreOlder conts.old.items.items }
    ensures kept { IfOk result (λ reported. AreKept conts.old.items.items conts.new.items.items) }
    ensures is { IfOk result (λ reported. IfSome reported (λ closure. PutsBack tables.now conts.old.items.items tops.now
        suffix
        conts.new.items.items closure.tops.items closure.ended)) }
{
    empty(ids);
    add(ids, suffix)?;
    let Some(ended) = close(tables, conts, ids)? else {
        return Ok(None);
    };
    let mut next = readers(alloc, tables, conts, &ids.items)?;
    let mut spine = Vec::new(alloc);
    let way = Move { off: 0, on: suffix };
    if !move_all(conts, tops, way, &mut spine, &mut next)? {
        return Ok(None);
    }
    Ok(Some(Closure { tops: next, ended }))
}

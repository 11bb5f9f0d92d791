//! Cuts of states: the stacks of a state as tops, each on each of some suffixes.
ghost use Rattle.std.specs.Prelude.{◌≡◌, ◌≤◌, ◌<◌, ℕ, [], IsTrue, IfOk, IfSome, length, Contains};
ghost use Rattle.lazydfa.specs.Cached.{IsCache, Grows};
ghost use Rattle.lazydfa.specs.Conts.{AreKept, AreOlder};
ghost use Rattle.lazydfa.specs.StackCuts.{AreJoinedTops, IsCutAt, IsCutOff};

use crate::cache::{Cache, is_same, state_of};
use crate::close::{Ids, add, close, empty};
use crate::conts::Conts;
use crate::fill::may_fill;
use crate::spines::{Move, move_all};
use crate::states::in_order;
use crate::suffixes::{all_read, common, entry, repeats};
use crate::transition::{Closure, readers};
use flatgrammar::Tables;
use ruletable::Memory;
use std::alloc::Global;

/// How many dotted rules a top has at most.
const DEPTH: usize = 40;

/// How a state was cut.
#[derive(Clone, Copy)]
pub struct StateCut {
    /// The number of the state of the tops.
    pub tops: usize,
    /// The number of the state that follows from the suffixes.
    pub below: usize,
}

/// Stacks on one suffix, and suffixes that may stand below the same tops.
#[derive(Drop)]
pub(crate) struct Candidate {
    /// The ids of the stacks that stand on the suffix.
    stacks: Vec<usize>,
    /// The id of the suffix.
    suffix: usize,
    /// The ids of the suffixes.
    suffixes: Vec<usize>,
}

/// A cut by ids.
#[derive(Drop)]
pub(crate) struct CutOff {
    /// The ids of the tops on the suffixes.
    joined: Vec<usize>,
    /// The ids of the tops.
    tops: Vec<usize>,
    /// What the suffixes go on to without a symbol.
    below: Closure,
}

// Returns the id of what is below the first dotted rules of a stack, if these are those of another; 0 if they are not.
fn below_same(conts: &Conts, id: usize, other: usize, count: usize) -> usize {
    let mut a = id;
    let mut b = other;
    for _ in 0..count {
        let Some(cont) = entry(conts, a) else {
            return 0;
        };
        let Some(like) = entry(conts, b) else {
            return 0;
        };
        if cont.node != like.node || cont.step != like.step {
            return 0;
        }
        a = cont.next;
        b = like.next;
    }
    a
}

// Returns the stacks on what is below so many dotted rules of the first stack, and all that is below the same dotted
// rules. `None` if no dotted rule stands twice below them, or there are not as many pairs of these as stacks. `Memory`
// if an allocation fails.
fn candidate_at(
    alloc: Global,
    conts: &Conts,
    ids: &[usize],
    count: usize,
) -> Result<Option<Candidate>, Memory> {
    let Some(first) = ids.first() else {
        return Ok(None);
    };
    let suffix = below_same(conts, *first, *first, count);
    if !repeats(conts, suffix) {
        return Ok(None);
    }
    let mut stacks = Vec::new(alloc);
    let mut suffixes = Vec::new(alloc);
    for id in ids {
        if common(conts, *id, suffix) == suffix {
            stacks.push(*id)?;
        }
        let below = below_same(conts, *id, *first, count);
        if below > 0 {
            suffixes.push(below)?;
        }
    }
    if stacks.len().saturating_mul(suffixes.len()) != ids.len() {
        return Ok(None);
    }
    Ok(Some(Candidate {
        stacks,
        suffix,
        suffixes,
    }))
}

// Returns the candidate whose tops are the least. `Memory` if an allocation fails.
fn topmost(alloc: Global, conts: &Conts, ids: &[usize]) -> Result<Option<Candidate>, Memory> {
    for count in 1..DEPTH {
        if let Some(found) = candidate_at(alloc, conts, ids, count)? {
            return Ok(Some(found));
        }
    }
    Ok(None)
}

// Returns whether all ids are those of stacks that are not empty.
fn are_full(conts: &Conts, ids: &[usize]) -> bool
    ensures { IsTrue result → (id : ℕ) → Contains ids.now id → (0 < id) × (id ≤ length conts.now.items.items) }
{
    for id in ids {
        if *id == 0 || *id > conts.items.len() {
            return false;
        }
    }
    true
}

/// Returns whether all ids are among others.
pub(crate) fn are_among(ids: &[usize], others: &[usize]) -> bool
    ensures { IsTrue result → (id : ℕ) → Contains ids.now id → Contains others.now id }
{
    for id in ids {
        if !others.contains(id) {
            return false;
        }
    }
    true
}

// Puts tops on each of some suffixes, and adds the ids of the suffixes to none. `None` if a top stands on something.
// `Memory` if an allocation fails.
fn join_all(
    alloc: Global,
    conts: &mut Conts,
    ids: &mut Ids,
    tops: &[usize],
    suffixes: &[usize],
) -> Result<Option<Vec<usize>>, Memory>
    requires tops_within { (id : ℕ) → Contains tops.now id → id ≤ length conts.old.items.items }
    requires suffixes_within { (id : ℕ) → Contains suffixes.now id → id ≤ length conts.old.items.items }
    requires older { AreOlder conts.old.items.items }
    ensures kept { IfOk result (λ reported. AreKept conts.old.items.items conts.new.items.items) }
    ensures joined { IfOk result (λ reported. IfSome reported (λ joined. AreJoinedTops conts.old.items.items tops.now
        suffixes.now conts.new.items.items ids.new.items.items joined.items)) }
{
    empty(ids);
    let mut joined = Vec::new(alloc);
    let mut spine = Vec::new(alloc);
    for suffix in suffixes {
        add(ids, *suffix)?;
        let way = Move {
            off: 0,
            on: *suffix,
        };
        if !move_all(conts, tops, way, &mut spine, &mut joined)? {
            return Ok(None);
        }
    }
    Ok(Some(joined))
}

// Takes the tops off the suffix of a candidate, and puts them on each of its suffixes. `None` if something is not read
// on top of them, or that goes over more ids than there may be. `Memory` if an allocation fails.
fn cut_off(
    alloc: Global,
    tables: &Tables,
    conts: &mut Conts,
    ids: &mut Ids,
    found: &Candidate,
) -> Result<Option<CutOff>, Memory>
    requires older { AreOlder conts.old.items.items }
    ensures kept { IfOk result (λ reported. AreKept conts.old.items.items conts.new.items.items) }
    ensures is { IfOk result (λ reported. IfSome reported (λ cut. IsCutOff tables.now conts.new.items.items
        found.now.suffixes.items cut.joined.items cut.tops.items cut.below.tops.items cut.below.ended)) }
{
    if found.suffix > conts.items.len()
        || !are_full(conts, &found.stacks)
        || !are_full(conts, &found.suffixes)
    {
        return Ok(None);
    }
    let mut spine = Vec::new(alloc);
    let mut tops = Vec::new(alloc);
    let way = Move {
        off: found.suffix,
        on: 0,
    };
    if !move_all(conts, &found.stacks, way, &mut spine, &mut tops)? {
        return Ok(None);
    }
    if !all_read(tables, &tops, conts) {
        return Ok(None);
    }
    let Some(joined) = join_all(alloc, conts, ids, &tops, &found.suffixes)? else {
        return Ok(None);
    };
    let Some(ended) = close(tables, conts, ids)? else {
        return Ok(None);
    };
    let below = readers(alloc, tables, conts, &ids.items)?;
    Ok(Some(CutOff {
        joined,
        tops,
        below: Closure { tops: below, ended },
    }))
}

/// Cuts a state, and adds the states of its tops and of what follows from their suffixes. `None` if no cut is found, or
/// there is no such state or no room for more. `Memory` if an allocation fails; the cache is of no use then.
pub(crate) fn cut_whole(
    alloc: Global,
    tables: &Tables,
    cache: &mut Cache,
    state: usize,
) -> Result<Option<StateCut>, Memory>
    requires cached { IsCache tables.now [] cache.old }
    ensures cached { IfOk result (λ reported. IsCache tables.now [] cache.new) }
    ensures grows { IfOk result (λ reported. Grows cache.old cache.new) }
    ensures is { IfOk result (λ reported. IfSome reported (λ cut. IsCutAt tables.now cache.new.conts.items.items
        cache.new.states.items state cut.tops cut.below)) }
{
    if state >= cache.states.len() || !may_fill(cache) {
        return Ok(None);
    }
    let Some(found) = topmost(alloc, &cache.conts, &cache.states[state].tops)? else {
        return Ok(None);
    };
    let Some(cut) = cut_off(alloc, tables, &mut cache.conts, &mut cache.ids, &found)? else {
        return Ok(None);
    };
    let whole = in_order(Closure {
        tops: cut.joined,
        ended: false,
    });
    if !is_same(&cache.states[state], &whole.tops, false) {
        return Ok(None);
    }
    let tops = in_order(Closure {
        tops: cut.tops,
        ended: false,
    });
    let tops = state_of(cache, 0, tops)?;
    let below = state_of(cache, 0, in_order(cut.below))?;
    Ok(Some(StateCut { tops, below }))
}

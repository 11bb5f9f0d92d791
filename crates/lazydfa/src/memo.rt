//! The states and transitions known so far, with the shared suffixes of the line that is read.
ghost use Rattle.std.specs.Prelude.{◌≡◌, ◌≤◌, ◌<◌, ℕ, true, List, [], IfOk, IfSome, length, slice_get, Some};
ghost use Rattle.lazydfa.specs.Cached.{IsCache, Grows};
ghost use Rattle.lazydfa.specs.Memos.{IsKnown, IsMemo, IsResumedBy};
ghost use Rattle.lazydfa.specs.declared.cache.State.{State};

use crate::cache::{Cache, forget, state_of};
use crate::chains::HashChains;
use crate::fill::may_fill;
use crate::kernels::KernelLeads;
use crate::suffixes::{put_back, split_off};
use crate::transition::Closure;
use flatgrammar::Tables;
use ruletable::Memory;
use std::alloc::Global;

/// A resumed state: a state that ended is put back on a shared suffix. What is shared there is split off again.
#[derive(Clone, Copy)]
pub(crate) struct ResumedState {
    /// The number of the state that ended.
    pub(crate) state: usize,
    /// The id of the shared suffix below it.
    pub(crate) suffix: usize,
    /// The number of the state of both, without `below`.
    pub(crate) to: usize,
    /// The id of the shared suffix that is split off; 0 if none is.
    pub(crate) below: usize,
}

/// All that an automaton keeps between lines, and the stack of shared suffixes of the line that is read.
///
/// `cache` has the states and transitions. `transitions` repeats its transitions that lead to a state, in one word
/// each, so that a run reads a single vector (`transitions.rt`).
///
/// A recursive rule would give a state for each depth. So a suffix that all stacks of a state share goes onto
/// `suffixes` if it has a dotted rule twice, and deep states become equal. Once the state above a suffix has ended, the
/// run pops the suffix, and looks up the resumed state in `resumes`.
#[derive(Drop)]
pub(crate) struct Memo {
    /// The states and transitions.
    pub(crate) cache: Cache,
    /// The cached transitions: a row for each state, with a word for each class and one for the end.
    pub(crate) transitions: Vec<u32>,
    /// The resumed states known so far.
    pub(crate) resumes: Vec<ResumedState>,
    /// Hash chains that find a resumed state.
    pub(crate) chains: HashChains,
    /// The states that kernels lead to.
    pub(crate) leads: KernelLeads,
    /// The ids of the shared suffixes below the state of this line, the topmost last.
    pub(crate) suffixes: Vec<usize>,
}

/// Forgets all.
pub(crate) fn forget_all(memo: &mut Memo)
    ensures conts { memo.new.cache.conts.items.items ≡ [] }
    ensures states { memo.new.cache.states.items ≡ [] }
    ensures cells { memo.new.cache.cells.items ≡ [] }
    ensures transitions { memo.new.transitions.items ≡ [] }
    ensures resumes { memo.new.resumes.items ≡ [] }
    ensures leads { memo.new.leads.items.items ≡ [] }
{
    forget(&mut memo.cache);
    memo.transitions.clear();
    memo.resumes.clear();
    memo.chains.clear();
    memo.leads.items.clear();
    memo.leads.chains.clear();
}

// Returns the hash of a state and a suffix.
fn hash_of_pair(state: usize, suffix: usize) -> usize {
    state.wrapping_mul(0x9E37_79B9).wrapping_add(suffix)
}

// Returns the resumed state of a state and a suffix, if it is found in its chain; the entry k + 1 is of resumed state
// k.
#[inline(always)]
fn find(
    resumes: &[ResumedState],
    chains: &HashChains,
    state: usize,
    suffix: usize,
) -> Option<ResumedState>
    ensures { IfSome result (IsKnown resumes.now state suffix) }
{
    let mut entry = chains.last(hash_of_pair(state, suffix));
    for _ in 0..resumes.len() {
        if entry == 0 || entry > resumes.len() {
            return None;
        }
        let known = resumes[entry - 1];
        if known.state == state && known.suffix == suffix {
            return Some(known);
        }
        entry = chains.before(entry);
    }
    None
}

// Adds the last resumed state to chains. Where there are fewer chains than resumed states, more of them are made.
fn chain_last(resumes: &[ResumedState], chains: &mut HashChains) -> Result<(), Memory> {
    if chains.restart(resumes.len().saturating_mul(2).max(64))? {
        for known in resumes {
            chains.add(hash_of_pair(known.state, known.suffix))?;
        }
        return Ok(());
    }
    match resumes.last() {
        Some(known) => chains.add(hash_of_pair(known.state, known.suffix)),
        None => Ok(()),
    }
}

// Makes the resumed state of a state that has ended and a suffix; its state is added if there is none. `None` if that
// takes more than there may be. `Memory` if an allocation fails.
fn state_over(
    alloc: Global,
    tables: &Tables,
    samples: &[u32],
    cache: &mut Cache,
    state: usize,
    suffix: usize,
) -> Result<Option<ResumedState>, Memory>
    requires cached { IsCache tables.now samples.now cache.old }
    ensures cached { IfOk result (λ reported. IsCache tables.now samples.now cache.new) }
    ensures grows { IfOk result (λ reported. Grows cache.old cache.new) }
    ensures is { IfOk result (λ reported. IfSome reported (IsResumedBy tables.now cache.new.conts.items.items
        cache.new.states.items state suffix)) }
{
    if !may_fill(cache) || state >= cache.states.len() {
        return Ok(None);
    }
    if suffix > cache.conts.items.len() {
        return Ok(None);
    }
    let tops = cache.states[state].tops.as_slice();
    let reported = put_back(
        alloc,
        tables,
        &mut cache.conts,
        &mut cache.ids,
        tops,
        suffix,
    )?;
    let Some(closure) = reported else {
        return Ok(None);
    };
    cache.budget.spend(cache.ids.items.len().saturating_add(1));
    cache.budget.note(0);
    let stride = samples.len() + 1;
    if let Some(split) = split_off(alloc, tables, &mut cache.conts, &closure)? {
        let below = split.suffix;
        let base = Closure {
            tops: split.tops,
            ended: false,
        };
        let to = state_of(cache, stride, base)?;
        return Ok(Some(ResumedState {
            state,
            suffix,
            to,
            below,
        }));
    }
    let to = state_of(cache, stride, closure)?;
    let below = 0;
    Ok(Some(ResumedState {
        state,
        suffix,
        to,
        below,
    }))
}

// Makes the resumed state of a state and the suffix below it, as `resumed` does where that is not known.
#[inline(never)]
fn resume_anew(
    alloc: Global,
    tables: &Tables,
    samples: &[u32],
    memo: &mut Memo,
    state: usize,
    suffix: usize,
) -> Result<Option<ResumedState>, Memory>
    requires memo { IsMemo tables.now samples.now memo.old }
    ensures memo { IfOk result (λ reported. IsMemo tables.now samples.now memo.new) }
    ensures grows { IfOk result (λ reported. Grows memo.old.cache memo.new.cache) }
    ensures suffixes { memo.new.suffixes ≡ memo.old.suffixes }
    ensures is { IfOk result (λ reported. IfSome reported (IsResumedBy tables.now memo.new.cache.conts.items.items
        memo.new.cache.states.items state suffix)) }
{
    let reported = state_over(alloc, tables, samples, &mut memo.cache, state, suffix)?;
    let Some(known) = reported else {
        return Ok(None);
    };
    memo.resumes.push(known)?;
    chain_last(&memo.resumes, &mut memo.chains)?;
    Ok(Some(known))
}

/// Returns the resumed state of a state that has ended and the suffix below it; `None` if that takes more than there
/// may be. `Memory` if an allocation fails.
#[inline(always)]
pub(crate) fn resumed(
    alloc: Global,
    tables: &Tables,
    samples: &[u32],
    memo: &mut Memo,
    state: usize,
    suffix: usize,
) -> Result<Option<ResumedState>, Memory>
    requires memo { IsMemo tables.now samples.now memo.old }
    ensures memo { IfOk result (λ reported. IsMemo tables.now samples.now memo.new) }
    ensures grows { IfOk result (λ reported. Grows memo.old.cache memo.new.cache) }
    ensures suffixes { memo.new.suffixes ≡ memo.old.suffixes }
    ensures is { IfOk result (λ reported. IfSome reported (IsResumedBy tables.now memo.new.cache.conts.items.items
        memo.new.cache.states.items state suffix)) }
{
    if let Some(known) = find(&memo.resumes, &memo.chains, state, suffix) {
        return Ok(Some(known));
    }
    resume_anew(alloc, tables, samples, memo, state, suffix)
}

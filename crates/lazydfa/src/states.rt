//! States that a search reaches, by number.
ghost use Rattle.std.specs.Prelude.{◌≡◌, ◌↔◌, ◌≤◌, ◌<◌, ℕ, [], IsTrue, IfOk, IfSome, length, slice_get, Some};
ghost use Rattle.std.specs.Prelude.{Contains};
ghost use Rattle.std.specs.List.Sorted.{IsPermutation};
ghost use Rattle.lazydfa.specs.Cached.{IsCache, Grows};
ghost use Rattle.lazydfa.specs.Kernels.{AreWholeLeads, IsWholeLeadTo};
ghost use Rattle.lazydfa.specs.StackCuts.{IsCutState, IsStateWithin};
ghost use Rattle.lazydfa.specs.StateSets.{AreMoreStates, AreStatesOf, IsLed, IsNextState, IsStartState, StateSet};

use crate::automaton::{are_served, empty_memo};
use crate::cache::{Cache, forget, has_ended, state_of};
use crate::close::empty;
use crate::cuts::{StateCut, are_among, cut_whole};
use crate::fill::may_fill;
use crate::kernels::{KernelLeads, find_lead, kernel_of, note_lead};
use crate::run::begin;
use crate::suffixes::entry;
use crate::transition::{Closure, close_on, read_all};
use flatgrammar::{Flat, Item, Tables, reads};
use ruletable::Memory;
use std::alloc::Global;
use std::marker::Model;
use std::rc::Rc;

/// The states of a flat grammar that a search has reached, numbered from 0 in the order of their making. A state is a
/// set of return stacks. Contracts see the stacks of each.
///
/// An `Automaton` reads lines, and splits shared suffixes off its states. Here each state has its whole stacks, in
/// ascending order of their ids, so equal sets have one number, but for the start. After `Memory` there is no state.
#[derive(Drop)]
pub struct States {
    /// Allocates the states.
    alloc: Global,
    /// The grammar, shared with the `Flat` from which it was made.
    tables: Rc<Tables>,
    /// The states and their stacks, without cells.
    cache: Cache,
    /// The states that kernels lead to.
    leads: KernelLeads,
}

impl Model for States {
    ghost use Rattle.std.specs.Prelude.{[]};
    ghost use Rattle.flatgrammar.specs.NodeSteps.{flat_of};
    ghost use Rattle.flatgrammar.specs.TableViews.{GiveTargets};
    ghost use Rattle.lazydfa.specs.Cached.{IsCache};
    ghost use Rattle.lazydfa.specs.Kernels.{AreWholeLeads};
    ghost use Rattle.lazydfa.specs.StateSets.{StateSets, sets_of};

    ghost Value = { StateSets };

    ghost view = { λ s. record {
      tables = s.tables.value;
      states = sets_of s.cache.conts.items.items
          s.cache.states.items;
    } };

    ghost invariant = { λ s. (GiveTargets (flat_of s.tables.value) s.tables.value.targets.items)
        × (IsCache s.tables.value [] s.cache)
        × (AreWholeLeads s.tables.value s.cache.conts.items.items s.cache.states.items s.leads.items.items) };
}

/// Returns a closure with its ids in ascending order.
pub(crate) fn in_order(closure: Closure) -> Closure
    ensures tops { IsPermutation closure.tops.items result.tops.items }
    ensures ended { result.ended ≡ closure.ended }
{
    let mut tops = closure.tops;
    tops.sort_unstable();
    Closure {
        tops,
        ended: closure.ended,
    }
}

// Returns the number of the state that the ids that were read lead to. It is made unless the lead of their kernel is
// known. `None` if its closure visits more ids than it may. `Memory` if an allocation fails.
fn close_whole(
    alloc: Global,
    tables: &Tables,
    cache: &mut Cache,
    leads: &mut KernelLeads,
) -> Result<Option<usize>, Memory>
    requires cached { IsCache tables.now [] cache.old }
    requires leads { AreWholeLeads tables.now cache.old.conts.items.items cache.old.states.items leads.old.items.items }
    requires within { (id : ℕ) → Contains cache.old.ids.items.items id → id ≤ length cache.old.conts.items.items }
    requires begun { 0 < length cache.old.states.items }
    ensures cached { IfOk result (λ reported. IsCache tables.now [] cache.new) }
    ensures grows { IfOk result (λ reported. Grows cache.old cache.new) }
    ensures leads { IfOk result (λ reported. AreWholeLeads tables.now cache.new.conts.items.items
        cache.new.states.items leads.new.items.items) }
    ensures is { IfOk result (λ reported. IfSome reported (IsWholeLeadTo tables.now cache.old.conts.items.items
        cache.old.ids.items.items cache.new.conts.items.items cache.new.states.items)) }
{
    let kernel = kernel_of(alloc, tables, &cache.conts, &cache.ids.items)?;
    if let Some(t) = find_lead(leads, &kernel) {
        return Ok(Some(t));
    }
    let reported = close_on(alloc, tables, &mut cache.conts, &mut cache.ids)?;
    let Some(closure) = reported else {
        return Ok(None);
    };
    let t = state_of(cache, 0, in_order(closure))?;
    cache.budget.note(kernel.len());
    note_lead(leads, kernel, t)?;
    Ok(Some(t))
}

// Returns the number of the state that a symbol leads to from another; `None` if there is no such state, or no room for
// more. `Memory` if an allocation fails; the cache is of no use then.
fn lead_whole(
    alloc: Global,
    tables: &Tables,
    cache: &mut Cache,
    leads: &mut KernelLeads,
    state: usize,
    value: u32,
) -> Result<Option<usize>, Memory>
    requires cached { IsCache tables.now [] cache.old }
    requires leads { AreWholeLeads tables.now cache.old.conts.items.items cache.old.states.items leads.old.items.items }
    ensures cached { IfOk result (λ reported. IsCache tables.now [] cache.new) }
    ensures grows { IfOk result (λ reported. Grows cache.old cache.new) }
    ensures leads { IfOk result (λ reported. AreWholeLeads tables.now cache.new.conts.items.items
        cache.new.states.items leads.new.items.items) }
    ensures is { IfOk result (λ reported. IfSome reported (IsLed tables.now value cache.new.conts.items.items
        cache.new.states.items state)) }
{
    if state >= cache.states.len() || !may_fill(cache) {
        return Ok(None);
    }
    let tops = cache.states[state].tops.as_slice();
    empty(&mut cache.ids);
    read_all(tables, tops, value, &mut cache.conts, &mut cache.ids)?;
    close_whole(alloc, tables, cache, leads)
}

impl States {
    /// Returns no state of a flat grammar, with room for `room` entries: continuations, and a quarter of each top.
    /// `None` if the grammar counts how often something nullable is repeated, or its augmented start is no
    /// concatenation of one. `Memory` if an allocation fails.
    pub fn new(alloc: Global, flat: &Flat, room: usize) -> Result<Option<States>, Memory>
        ensures { IfOk result (λ made. IfSome made (AreStatesOf flat.now)) }
    {
        let tables = flat.share()?;
        if !are_served(&tables) {
            return Ok(None);
        }
        let memo = empty_memo(alloc, &tables, room);
        Ok(Some(States {
            alloc,
            tables,
            cache: memo.cache,
            leads: memo.leads,
        }))
    }

    /// Returns the number of the start state; `None` if there is no room for it. `Memory` if an allocation fails.
    pub fn start(&mut self) -> Result<Option<usize>, Memory>
        ensures more { IfOk result (λ reported. AreMoreStates self.old self.new) }
        ensures is { IfOk result (λ reported. IfSome reported (IsStartState self.new)) }
    {
        match begin(self.alloc, &self.tables, &[], &mut self.cache) {
            Ok(true) => Ok(Some(0)),
            Ok(false) => Ok(None),
            Err(fault) => {
                forget(&mut self.cache);
                self.leads.items.clear();
                Err(fault)
            }
        }
    }

    /// Returns the number of the state that a symbol leads to from another. It has no stack where nothing reads the
    /// symbol. `None` if there is no such state, or no room for more. `Memory` if an allocation fails.
    pub fn next(&mut self, state: usize, value: u32) -> Result<Option<usize>, Memory>
        ensures more { IfOk result (λ reported. AreMoreStates self.old self.new) }
        ensures is { IfOk result (λ reported. IfSome reported (IsNextState self.new value state)) }
    {
        match lead_whole(
            self.alloc,
            &self.tables,
            &mut self.cache,
            &mut self.leads,
            state,
            value,
        ) {
            Ok(reported) => Ok(reported),
            Err(fault) => {
                forget(&mut self.cache);
                self.leads.items.clear();
                Err(fault)
            }
        }
    }

    /// Cuts a state into its tops and what follows from their suffixes: its stacks are the tops, each on each of some
    /// suffixes, in which a dotted rule stands twice. Of such cuts it takes the one with the least tops. `None` if none
    /// is found, or there is no such state or no room for more. `Memory` if an allocation fails.
    pub fn cut(&mut self, state: usize) -> Result<Option<StateCut>, Memory>
        ensures more { IfOk result (λ reported. AreMoreStates self.old self.new) }
        ensures is { IfOk result (λ reported. IfSome reported (λ cut. IsCutState self.new state cut.tops cut.below)) }
    {
        match cut_whole(self.alloc, &self.tables, &mut self.cache, state) {
            Ok(reported) => Ok(reported),
            Err(fault) => {
                forget(&mut self.cache);
                self.leads.items.clear();
                Err(fault)
            }
        }
    }

    /// Returns whether each stack of a state is one of another, and that one has ended if the state has.
    pub fn is_within(&self, state: usize, other: usize) -> bool
        ensures { (got more : StateSet) → slice_get self.now.states state ≡ Some got → slice_get self.now.states other
            ≡ Some more → IsTrue result → IsStateWithin got more }
    {
        let Some(got) = self.cache.states.get(state) else {
            return false;
        };
        let Some(more) = self.cache.states.get(other) else {
            return false;
        };
        if got.ended && !more.ended {
            return false;
        }
        are_among(&got.tops, &more.tops)
    }

    /// Returns whether a symbol is read on top of a stack of a state. No contract relies on it.
    pub fn reads(&self, state: usize, value: u32) -> bool {
        let Some(got) = self.cache.states.get(state) else {
            return false;
        };
        for top in &got.tops {
            if let Some(cont) = entry(&self.cache.conts, *top) {
                let item = Item {
                    node: cont.node,
                    step: cont.step,
                    origin: 0,
                };
                if reads(&self.tables, item, value) {
                    return true;
                }
            }
        }
        false
    }

    /// Returns whether the augmented start may end in a state.
    pub fn has_ended(&self, state: usize) -> bool
        ensures { (got : StateSet) → slice_get self.now.states state ≡ Some got → result ≡ got.ended }
    {
        has_ended(&self.cache, state)
    }

    /// Returns whether a state has no stack, so that no symbol can follow.
    pub fn is_dead(&self, state: usize) -> bool
        ensures { (got : StateSet) → slice_get self.now.states state ≡ Some got → IsTrue result ↔ (got.stacks ≡ []) }
    {
        match self.cache.states.get(state) {
            Some(got) => got.tops.is_empty(),
            None => false,
        }
    }
}

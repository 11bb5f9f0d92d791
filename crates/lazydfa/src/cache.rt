//! States and cells that are made when first asked for, and kept.
ghost use Rattle.std.specs.Prelude.{◌≡◌, [], IsTrue, IfOk, IfSome, slice_get, Some};
ghost use Rattle.lazydfa.specs.Cached.{IsStateOf, IsInterned, AreAddedUnknown};
ghost use Rattle.lazydfa.specs.declared.cache.State.{State};

use crate::budget::Budget;
use crate::chains::HashChains;
use crate::close::Ids;
use crate::conts::Conts;
use crate::transition::Closure;
use ruletable::Memory;

/// A state of the automaton: the set of return stacks that the symbols so far lead to.
///
/// A stack is given by the id of its top continuation. Only the stacks whose top reads a symbol are kept: the others
/// matter only for the end, which `ended` records. Two states are equal if both fields are.
#[derive(Drop)]
pub(crate) struct State {
    /// The ids of continuations whose top reads a symbol, in the order in which they were found.
    pub(crate) tops: Vec<usize>,
    /// Whether the augmented start may end here.
    pub(crate) ended: bool,
}

/// A transition from a state by the symbols of a class. `Unknown`: not filled yet. `Over`: it exceeds a bound. `Dead`:
/// no symbol of the class can follow. `To`: the next state. `Push`: the next state, and the shared suffix to push.
#[derive(Clone, Copy)]
pub(crate) enum Cell {
    Unknown,
    Over,
    Dead,
    To(usize),
    Push(usize, usize),
}

/// The states known so far with their transitions, and the budget for more. State 0 is the start.
///
/// `cells` is a table by state and class: the cell of state `s` and class `c` is entry `s * (classes + 1) + c`, as in
/// `transitions`. The last cell of a row is of no class. A state is added with a row of cells that are `Unknown`. A
/// cell is filled when a line first needs it. `forget` empties all together, since states name continuations, and cells
/// name states.
#[derive(Drop)]
pub(crate) struct Cache {
    /// The continuations that states, suffixes and cells name by id.
    pub(crate) conts: Conts,
    /// The worklist of the fill under way.
    pub(crate) ids: Ids,
    /// The states, by number; no two are equal.
    pub(crate) states: Vec<State>,
    /// Hash chains that find an equal state.
    pub(crate) chains: HashChains,
    /// The transitions, by state and class.
    pub(crate) cells: Vec<Cell>,
    /// Whether the grammar has a repetition with a greatest number.
    pub(crate) counts: bool,
    /// How much more may be filled.
    pub(crate) budget: Budget,
}

/// Forgets all.
pub(crate) fn forget(cache: &mut Cache)
    ensures conts { cache.new.conts.items.items ≡ [] }
    ensures states { cache.new.states.items ≡ [] }
    ensures cells { cache.new.cells.items ≡ [] }
{
    cache.conts.items.clear();
    cache.conts.chains.clear();
    cache.states.clear();
    cache.chains.clear();
    cache.cells.clear();
}

/// Returns whether a state has these tops, and has ended or not.
pub(crate) fn is_same(state: &State, tops: &[usize], ended: bool) -> bool
    ensures { IsTrue result → (state.now.tops.items ≡ tops.now) × (state.now.ended ≡ ended) }
{
    state.ended == ended && state.tops.as_slice() == tops
}

/// Returns whether the augmented start may end in a state.
#[inline(always)]
pub(crate) fn has_ended(cache: &Cache, state: usize) -> bool
    ensures { (got : State) → slice_get cache.now.states.items state ≡ Some got → result ≡ got.ended }
{
    match cache.states.get(state) {
        Some(got) => got.ended,
        None => false,
    }
}

/// Returns the hash of a state with these tops, or of a kernel.
pub(crate) fn hash_of_tops(tops: &[usize]) -> usize {
    let mut mixed = 0usize;
    for top in tops {
        mixed = mixed.wrapping_mul(0x9E37_79B9).wrapping_add(*top);
    }
    mixed
}

/// Returns the number of an equal state, if it is found in its chain; the entry k + 1 is of state k.
fn find(states: &[State], chains: &HashChains, tops: &[usize], ended: bool) -> Option<usize>
    ensures { IfSome result (IsStateOf states.now tops.now ended) }
{
    let mut entry = chains.last(hash_of_tops(tops));
    for _ in 0..states.len() {
        if entry == 0 || entry > states.len() {
            return None;
        }
        if is_same(&states[entry - 1], tops, ended) {
            return Some(entry - 1);
        }
        entry = chains.before(entry);
    }
    None
}

// Adds the last state to chains. Where there are fewer chains than states, more of them are made.
fn chain_last(states: &[State], chains: &mut HashChains) -> Result<(), Memory> {
    if chains.restart(states.len().saturating_mul(2).max(256))? {
        for state in states {
            chains.add(hash_of_tops(&state.tops))?;
        }
        return Ok(());
    }
    match states.last() {
        Some(state) => chains.add(hash_of_tops(&state.tops)),
        None => Ok(()),
    }
}

/// Adds cells that are not known.
fn add_cells(count: usize, cells: &mut Vec<Cell>) -> Result<(), Memory>
    ensures { IfOk result (λ done. AreAddedUnknown cells.old.items cells.new.items) }
{
    for _ in 0..count {
        cells.push(Cell::Unknown)?;
    }
    Ok(())
}

/// Returns the number of a state, which is added with so many cells if it is not found. `Memory` if an allocation
/// fails.
pub(crate) fn state_of(cache: &mut Cache, stride: usize, closure: Closure) -> Result<usize, Memory>
    ensures conts { IfOk result (λ t. cache.new.conts ≡ cache.old.conts) }
    ensures is { IfOk result
        (λ t. IsInterned cache.old.states.items cache.new.states.items closure.tops.items closure.ended
        t) }
    ensures cells { IfOk result (λ t. AreAddedUnknown cache.old.cells.items cache.new.cells.items) }
{
    if let Some(t) = find(&cache.states, &cache.chains, &closure.tops, closure.ended) {
        return Ok(t);
    }
    let t = cache.states.len();
    cache.budget.note(closure.tops.len());
    cache.states.push(State {
        tops: closure.tops,
        ended: closure.ended,
    })?;
    chain_last(&cache.states, &mut cache.chains)?;
    add_cells(stride, &mut cache.cells)?;
    Ok(t)
}

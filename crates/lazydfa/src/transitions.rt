//! Cached transitions that lead to states, one word each, so that a run is fast.
ghost use Rattle.std.specs.Prelude.{◌≡◌, ◌+◌, IsTrue, IfOk, IfSome, Some, slice_get};
ghost use Rattle.lazydfa.specs.Transitions.{
  AreTransitionsAdded,
  AreTransitionsNoted,
  IsTransitionPut,
  IsTaken,
  LeadsBack,
  last_word,
};

use crate::cache::Cache;
use crate::fill::dot;
use ruletable::Memory;

/// A word from here on says nothing. A word below it in the place of a class is the dotted rule of a row.
const POSITIONS: u32 = 0x8000_0000;

/// Returns the row of the state that a class leads to, from the state of a given row, if that is known and no suffix is
/// to be put back there. A row has a word for each class, and a last one: 0 for a state that has not ended, 1 for one
/// that has.
#[inline(always)]
pub(crate) fn next_row(
    transitions: &[u32],
    classes: usize,
    is_bare: bool,
    row: usize,
    class: usize,
) -> Option<usize>
    ensures { IfSome result (IsTaken transitions.now classes is_bare (row + class)) }
{
    let at = row.checked_add(class)?;
    match transitions.get(at) {
        Some(next) if *next < POSITIONS => {
            let next = *next as usize;
            if is_bare {
                return Some(next);
            }
            let last = next.checked_add(classes)?;
            match transitions.get(last) {
                Some(0) => Some(next),
                _ => None,
            }
        }
        _ => None,
    }
}

/// Returns whether the state of a row has ended, if its last word says so.
#[inline(always)]
pub(crate) fn end_of(transitions: &[u32], classes: usize, row: usize) -> Option<bool>
    ensures { IfSome result (λ ended. slice_get transitions.now (row + classes) ≡ Some (last_word ended)) }
{
    let at = row.checked_add(classes)?;
    match transitions.get(at) {
        Some(0) => Some(false),
        Some(1) => Some(true),
        _ => None,
    }
}

/// Returns whether a class leads from the state of a row to that state.
#[inline(always)]
pub(crate) fn leads_back(transitions: &[u32], row: usize, class: usize) -> bool
    ensures { IsTrue result → LeadsBack transitions.now row class }
{
    let Some(at) = row.checked_add(class) else {
        return false;
    };
    match transitions.get(at) {
        Some(next) => *next as usize == row,
        None => false,
    }
}

// Adds words that say nothing. `Memory` if an allocation fails.
fn add_transitions(count: usize, transitions: &mut Vec<u32>) -> Result<(), Memory>
    ensures { IfOk result (λ done. AreTransitionsAdded transitions.old.items transitions.new.items) }
{
    for _ in 0..count {
        transitions.push(u32::MAX)?;
    }
    Ok(())
}

// Writes a word. `Memory` if an allocation fails.
fn put_transition(transitions: &mut Vec<u32>, at: usize, word: u32) -> Result<(), Memory>
    ensures { IfOk result (λ done. IsTransitionPut transitions.old.items transitions.new.items at word) }
{
    if at >= transitions.len() {
        add_transitions(
            at.saturating_sub(transitions.len()).saturating_add(1),
            transitions,
        )?;
    }
    if at < transitions.len() {
        transitions[at] = word;
    }
    Ok(())
}

/// Keeps that a class leads from a state to another, and whether that has ended, if that is not known and the dotted
/// rule of its row is below 2 ^ 32. `Memory` if an allocation fails.
#[inline(always)]
pub(crate) fn note_transition(
    cache: &Cache,
    classes: usize,
    transitions: &mut Vec<u32>,
    state: usize,
    class: usize,
    to: usize,
) -> Result<(), Memory>
    ensures { IfOk result (λ done. AreTransitionsNoted cache.now.states.items classes state class to
        transitions.old.items
        transitions.new.items) }
{
    let Some(stride) = classes.checked_add(1) else {
        return Ok(());
    };
    let Some(at) = dot(state, stride, class) else {
        return Ok(());
    };
    match transitions.get(at) {
        Some(known) if *known < POSITIONS => return Ok(()),
        _ => {}
    }
    let (Some(there), Some(row)) = (cache.states.get(to), dot(to, stride, 0)) else {
        return Ok(());
    };
    let (Ok(word), Some(last)) = (u32::try_from(row), row.checked_add(classes)) else {
        return Ok(());
    };
    if class >= classes {
        return Ok(());
    }
    put_transition(transitions, at, word)?;
    put_transition(transitions, last, u32::from(there.ended))?;
    Ok(())
}

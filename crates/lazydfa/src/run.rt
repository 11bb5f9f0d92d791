//! The run over a line.
ghost use Rattle.std.specs.Prelude.{◌≡◌, ◌↔◌, ◌≤◌, ◌<◌, ◌+◌, ◌*◌, ℕ, true, List, [], IsTrue, IfOk, IfSome, length};
ghost use Rattle.std.specs.Prelude.{slice_get, Some, Contains, map};
ghost use Rattle.flatgrammar.specs.NodeSteps.{flat_of};
ghost use Rattle.flatgrammar.specs.TableViews.{GiveTargets};
ghost use Rattle.flatgrammar.specs.declared.tables.Tables.{Tables as the_tables};
ghost use Rattle.lazydfa.specs.Conts.{AreKept, AreOlder, last_of};
ghost use Rattle.lazydfa.specs.Cached.{IsCache, IsCell, Grows, IsStart, IsStartAt};
ghost use Rattle.lazydfa.specs.Memos.{IsEndOf, IsMemo, IsStepTaken, IsStepTo, IsRunStop, IsTrack};
ghost use Rattle.lazydfa.specs.Memos.{RunsAt, RunsOver, TracksAt};
ghost use Rattle.flatgrammar.specs.ClassBounds.{AreClasses, IsClassOf};
ghost use Rattle.lazydfa.specs.declared.cache.State.{State};
ghost use Rattle.lazydfa.specs.RunVerdicts.{IsRunVerdict};

use crate::cache::{Cache, Cell, has_ended, state_of};
use crate::close::{Ids, close, empty, enter};
use crate::conts::Conts;
use crate::fill::{dot, fill, look, may_fill};
use crate::glide::{Track, glide};
use crate::memo::{Memo, forget_all, resumed};
use crate::transition::{Closure, readers};
use crate::transitions::{end_of, next_row, note_transition};
use flatgrammar::{Tables, Verdict, class_of, start_target};
use ruletable::{Letter, Memory};
use std::alloc::Global;

/// Returns the closure of the augmented start; `None` if that visits more ids than it may. `Memory` if an allocation
/// fails.
fn first_closure(
    alloc: Global,
    tables: &Tables,
    conts: &mut Conts,
    ids: &mut Ids,
) -> Result<Option<Closure>, Memory>
    requires older { AreOlder conts.old.items.items }
    ensures kept { IfOk result (λ reported. AreKept conts.old.items.items conts.new.items.items) }
    ensures is { IfOk result (λ reported. IfSome reported (λ closure. IsStart tables.now conts.new.items.items
        closure.tops.items
        closure.ended)) }
{
    let Some(target) = start_target(tables) else {
        return Ok(None);
    };
    empty(ids);
    enter(tables, target, 0, conts, ids)?;
    let Some(ended) = close(tables, conts, ids)? else {
        return Ok(None);
    };
    let tops = readers(alloc, tables, conts, &ids.items)?;
    Ok(Some(Closure { tops, ended }))
}

/// Makes the start state, where there is no state, and returns whether the budget allows it. `Memory` if an allocation
/// fails.
#[cold]
#[inline(never)]
fn make_start(
    alloc: Global,
    tables: &Tables,
    samples: &[u32],
    cache: &mut Cache,
) -> Result<bool, Memory>
    requires cached { IsCache tables.now samples.now cache.old }
    ensures cached { IfOk result (λ made. IsCache tables.now samples.now cache.new) }
    ensures grows { IfOk result (λ made. Grows cache.old cache.new) }
    ensures is { IfOk result (λ made. IsTrue made → IsStartAt tables.now cache.new.conts.items.items
        cache.new.states.items 0) }
{
    if !may_fill(cache) {
        return Ok(false);
    }
    let reported = first_closure(alloc, tables, &mut cache.conts, &mut cache.ids)?;
    let Some(closure) = reported else {
        cache.budget.is_shut = true;
        return Ok(false);
    };
    state_of(cache, samples.len() + 1, closure)?;
    Ok(true)
}

/// Returns whether there is a start state, which has the number 0 and is made on first use; `false` if the budget does
/// not allow it. `Memory` if an allocation fails.
#[inline(always)]
pub(crate) fn begin(
    alloc: Global,
    tables: &Tables,
    samples: &[u32],
    cache: &mut Cache,
) -> Result<bool, Memory>
    requires cached { IsCache tables.now samples.now cache.old }
    ensures cached { IfOk result (λ made. IsCache tables.now samples.now cache.new) }
    ensures grows { IfOk result (λ made. Grows cache.old cache.new) }
    ensures is { IfOk result (λ made. IsTrue made → IsStartAt tables.now cache.new.conts.items.items
        cache.new.states.items 0) }
{
    if cache.states.len() > 0 {
        return Ok(true);
    }
    make_start(alloc, tables, samples, cache)
}

/// Fills the cell of the state of a row and a class, if that may be, and returns it. It keeps the transition, if that
/// leads to a state. `Memory` if an allocation fails.
#[cold]
#[inline(never)]
fn fill_at(
    alloc: Global,
    tables: &Tables,
    samples: &[u32],
    memo: &mut Memo,
    row: usize,
    class: usize,
) -> Result<Cell, Memory>
    requires memo { IsMemo tables.now samples.now memo.old }
    ensures memo { IfOk result (λ cell. IsMemo tables.now samples.now memo.new) }
    ensures grows { IfOk result (λ cell. Grows memo.old.cache memo.new.cache) }
    ensures suffixes { memo.new.suffixes ≡ memo.old.suffixes }
    ensures is { IfOk result (λ cell. (s d : ℕ) → row ≡ s * (length samples.now + 1)
        → slice_get samples.now class ≡ Some d → IsCell tables.now d memo.new.cache.conts.items.items
        memo.new.cache.states.items s cell) }
{
    let state = row / (samples.len() + 1);
    let cell = fill(alloc, tables, samples, memo, state, class)?;
    let Cell::To(t) = cell else {
        return Ok(cell);
    };
    note_transition(
        &memo.cache,
        samples.len(),
        &mut memo.transitions,
        state,
        class,
        t,
    )?;
    Ok(cell)
}

/// Returns the cell of the state of a row and a class, which is filled if it is not known. `Memory` if an allocation
/// fails.
#[inline(always)]
fn cell_of(
    alloc: Global,
    tables: &Tables,
    samples: &[u32],
    memo: &mut Memo,
    row: usize,
    class: usize,
) -> Result<Cell, Memory>
    requires memo { IsMemo tables.now samples.now memo.old }
    ensures memo { IfOk result (λ cell. IsMemo tables.now samples.now memo.new) }
    ensures grows { IfOk result (λ cell. Grows memo.old.cache memo.new.cache) }
    ensures suffixes { memo.new.suffixes ≡ memo.old.suffixes }
    ensures is { IfOk result (λ cell. (s d : ℕ) → row ≡ s * (length samples.now + 1)
        → slice_get samples.now class ≡ Some d → IsCell tables.now d memo.new.cache.conts.items.items
        memo.new.cache.states.items s cell) }
{
    let cell = look(&memo.cache, row, class);
    match cell {
        Cell::Unknown => fill_at(alloc, tables, samples, memo, row, class),
        Cell::Over | Cell::Dead | Cell::To(_) | Cell::Push(_, _) => Ok(cell),
    }
}

/// Puts suffixes back below a state while it has ended, and returns the state of that; `None` if that takes more than
/// there may be. `Memory` if an allocation fails.
#[inline(always)]
fn settle(
    alloc: Global,
    tables: &Tables,
    samples: &[u32],
    memo: &mut Memo,
    state: usize,
) -> Result<Option<usize>, Memory>
    requires targets { GiveTargets (flat_of tables.now) tables.now.targets.items }
    requires memo { IsMemo tables.now samples.now memo.old }
    ensures memo { IfOk result (λ reported. IsMemo tables.now samples.now memo.new) }
    ensures settled { IfOk result (λ reported. IfSome reported (λ t. (x : List ℕ) (j : ℕ) →
        RunsOver tables.now memo.old state x j → RunsAt tables.now memo.new t x j)) }
{
    let mut now = state;
    'suffixes: while memo.suffixes.len() > 0 {
        if !has_ended(&memo.cache, now) {
            return Ok(Some(now));
        }
        let Some(suffix) = memo.suffixes.pop() else {
            return Ok(Some(now));
        };
        let Some(known) = resumed(alloc, tables, samples, memo, now, suffix)? else {
            return Ok(None);
        };
        if known.below > 0 {
            memo.suffixes.push(known.below)?;
            return Ok(Some(known.to));
        }
        now = known.to;
    }
    Ok(Some(now))
}

/// A step of a run. `To`: the row of the next state. `Dead`: the symbol cannot follow. `Over`: a bound is exceeded.
#[derive(Clone, Copy)]
pub(crate) enum RunStep {
    To(usize),
    Dead,
    Over,
}

// Returns the step to a state, where rows have so many words.
#[inline(always)]
fn step_to(state: usize, stride: usize) -> RunStep
    ensures { IsStepTo state stride result }
{
    match dot(state, stride, 0) {
        Some(row) => RunStep::To(row),
        None => RunStep::Over,
    }
}

/// Takes a transition from the state of a row by a class, and pushes or pops shared suffixes. It is looked up among
/// `transitions` first. `Memory` if an allocation fails.
#[inline(always)]
fn take_step(
    alloc: Global,
    tables: &Tables,
    samples: &[u32],
    memo: &mut Memo,
    row: usize,
    class: usize,
) -> Result<RunStep, Memory>
    requires targets { GiveTargets (flat_of tables.now) tables.now.targets.items }
    requires memo { IsMemo tables.now samples.now memo.old }
    ensures memo { IfOk result (λ step. IsMemo tables.now samples.now memo.new) }
    ensures taken { IfOk result (λ step. (x : List ℕ) (j c : ℕ) → slice_get x j ≡ Some c →
        IsClassOf (flat_of tables.now) samples.now c class → TracksAt tables.now samples.now memo.old x row j →
        IsStepTaken tables.now samples.now memo.new x row j step) }
{
    let stride = samples.len() + 1;
    if let Some(next) = next_row(&memo.transitions, samples.len(), false, row, class) {
        return Ok(RunStep::To(next));
    }
    match cell_of(alloc, tables, samples, memo, row, class)? {
        Cell::To(t) => match settle(alloc, tables, samples, memo, t)? {
            Some(settled) => Ok(step_to(settled, stride)),
            None => Ok(RunStep::Over),
        },
        Cell::Push(t, suffix) => {
            memo.suffixes.push(suffix)?;
            Ok(step_to(t, stride))
        }
        Cell::Dead => Ok(RunStep::Dead),
        Cell::Unknown | Cell::Over => Ok(RunStep::Over),
    }
}

/// Prepares a memo for a line of `letters` symbols.
#[inline(always)]
fn prepare(memo: &mut Memo, letters: usize)
    ensures conts { memo.new.cache.conts.items ≡ memo.old.cache.conts.items }
    ensures states { memo.new.cache.states ≡ memo.old.cache.states }
    ensures cells { memo.new.cache.cells ≡ memo.old.cache.cells }
    ensures transitions { memo.new.transitions ≡ memo.old.transitions }
    ensures resumes { memo.new.resumes ≡ memo.old.resumes }
    ensures leads { memo.new.leads ≡ memo.old.leads }
    ensures suffixes { memo.new.suffixes.items ≡ [] }
{
    memo.suffixes.clear();
    memo.cache.budget.earn(letters);
}

// Returns whether the state of a row has ended.
#[inline(always)]
fn ends_at(memo: &Memo, samples: &[u32], row: usize) -> bool
    ensures { IsEndOf samples.now memo.now row result }
{
    match end_of(&memo.transitions, samples.len(), row) {
        Some(ended) => ended,
        None => has_ended(&memo.cache, row / (samples.len() + 1)),
    }
}

/// Returns the verdict on a line of so many symbols, by where a run over it stopped.
#[inline(always)]
pub(crate) fn verdict_at(memo: &Memo, samples: &[u32], stop: Track, letters: usize) -> Verdict
    ensures { (tables : the_tables) (x : List ℕ) → IsMemo tables samples.now memo.now → letters ≡ length x →
        IsRunStop tables samples.now memo.now x stop → IsRunVerdict (flat_of tables) (last_of tables) x result }
{
    if stop.at < letters {
        return Verdict::No(stop.at);
    }
    if ends_at(memo, samples, stop.row) {
        Verdict::Yes
    } else {
        Verdict::No(stop.at)
    }
}

/// The classes of symbols.
#[derive(Clone, Copy)]
pub(crate) struct ClassTable<'a> {
    /// Of each number below 256 its class.
    pub(crate) low: &'a [u8; 256],
    /// Of each class its first number.
    pub(crate) samples: &'a [u32],
}

/// Goes on with a run over a line, as `follow` does, from where a glide stopped.
#[inline(never)]
fn go_on<L: Letter>(
    alloc: Global,
    tables: &Tables,
    classes: ClassTable<'_>,
    memo: &mut Memo,
    line: &[L],
    from: Track,
) -> Result<Option<Track>, Memory>
    requires targets { GiveTargets (flat_of tables.now) tables.now.targets.items }
    requires classes { AreClasses (flat_of tables.now) classes.low.now classes.samples.now }
    requires memo { IsMemo tables.now classes.samples.now memo.old }
    requires within { from.at ≤ length line.now }
    requires tracks { IsTrack tables.now classes.samples.now memo.old (map L.number line.now) from }
    ensures memo { IfOk result (λ reported. IsMemo tables.now classes.entry.samples.now memo.new) }
    ensures stops { IfOk result (λ reported. IfSome reported (IsRunStop tables.now classes.entry.samples.now memo.new
        (map L.number line.now))) }
{
    let low = classes.low;
    let samples = classes.samples;
    let mut track = from;
    while track.at < line.len() {
        let class = class_of(low, samples, line[track.at].value());
        match take_step(alloc, tables, samples, memo, track.row, class)? {
            RunStep::To(row) => {
                let next = Track {
                    row,
                    at: track.at + 1,
                };
                track = glide(memo, low, samples, line, next);
            }
            RunStep::Dead => {
                return Ok(Some(track));
            }
            RunStep::Over => {
                return Ok(None);
            }
        }
    }
    Ok(Some(track))
}

/// Returns whether the next symbol of a line cannot follow, if its cell says so.
#[inline(always)]
fn dies_at<L: Letter>(classes: ClassTable<'_>, memo: &Memo, line: &[L], at: Track) -> bool
    requires within { at.at < length line.now }
    ensures { IsTrue result → (tables : the_tables) → GiveTargets (flat_of tables) tables.targets.items
        → AreClasses (flat_of tables) classes.entry.low.now classes.entry.samples.now
        → IsMemo tables classes.entry.samples.now memo.now
        → IsTrack tables classes.entry.samples.now memo.now (map L.number line.now) at
        → IsRunStop tables classes.entry.samples.now memo.now (map L.number line.now) at }
{
    let class = class_of(classes.low, classes.samples, line[at.at].value());
    match look(&memo.cache, at.row, class) {
        Cell::Dead => true,
        Cell::Unknown | Cell::Over | Cell::To(_) | Cell::Push(_, _) => false,
    }
}

/// Runs over a line. Returns where that stops: at the end of the line, or after its longest viable prefix; `None` if it
/// exceeds a bound. `Memory` if an allocation fails.
#[inline(always)]
fn follow<L: Letter>(
    alloc: Global,
    tables: &Tables,
    classes: ClassTable<'_>,
    memo: &mut Memo,
    line: &[L],
) -> Result<Option<Track>, Memory>
    requires targets { GiveTargets (flat_of tables.now) tables.now.targets.items }
    requires classes { AreClasses (flat_of tables.now) classes.low.now classes.samples.now }
    requires memo { IsMemo tables.now classes.samples.now memo.old }
    ensures memo { IfOk result (λ reported. IsMemo tables.now classes.entry.samples.now memo.new) }
    ensures stops { IfOk result (λ reported. IfSome reported (IsRunStop tables.now classes.entry.samples.now memo.new
        (map L.number line.now))) }
{
    let samples = classes.samples;
    prepare(memo, line.len());
    if !begin(alloc, tables, samples, &mut memo.cache)? {
        return Ok(None);
    }
    let track = glide(memo, classes.low, samples, line, Track { row: 0, at: 0 });
    if track.at < line.len() {
        if dies_at(classes, memo, line, track) {
            return Ok(Some(track));
        }
        return go_on(alloc, tables, classes, memo, line, track);
    }
    Ok(Some(track))
}

/// Runs over a line as `follow` does. If an allocation fails, it empties the memo and returns `Memory`.
#[inline(always)]
pub(crate) fn run<L: Letter>(
    alloc: Global,
    tables: &Tables,
    classes: ClassTable<'_>,
    memo: &mut Memo,
    line: &[L],
) -> Result<Option<Track>, Memory>
    requires targets { GiveTargets (flat_of tables.now) tables.now.targets.items }
    requires classes { AreClasses (flat_of tables.now) classes.low.now classes.samples.now }
    requires memo { IsMemo tables.now classes.samples.now memo.old }
    ensures memo { IsMemo tables.now classes.entry.samples.now memo.new }
    ensures stops { IfOk result (λ reported. IfSome reported (IsRunStop tables.now classes.entry.samples.now memo.new
        (map L.number line.now))) }
{
    match follow(alloc, tables, classes, memo, line) {
        Ok(reported) => Ok(reported),
        Err(error) => {
            forget_all(memo);
            Err(error)
        }
    }
}

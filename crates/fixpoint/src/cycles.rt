//! Numbers on cycles of steps, and ranks that all other steps lower.
//!
//! The search keeps a path whose numbers each lead to the next, and divides it into parts whose numbers lead to each
//! other (Gabow, "Path-based depth-first search for strong and biconnected components", 2000). It has no recursion: the
//! targets of the steps from the path lie on a stack of their own.
ghost use Rattle.std.specs.Prelude.{◌≡◌, ℕ, ◌+◌, ◌<◌, ◌≤◌, List, [], ◌∷◌, ◌++◌, length, drop, Contains, Some, IfOk};
ghost use Rattle.fixpoint.specs.Leads.{AreCycleMarks, AreRanksBut};
ghost use Rattle.fixpoint.specs.NumberMarks.{AreBelow};
ghost use Rattle.fixpoint.specs.StepRows.{slices_of, row_at, AreStepsWithin};
ghost use Rattle.fixpoint.specs.Way.{Way, way_of, At, Opens, Joins, Meets, Finishes, Closes, GoesOn, IsKept, IsWay};
ghost use Rattle.fixpoint.specs.Way.{IsOwing, IsSource, IsThrough, IsLast, AreShort, ComesToEnd, before_step, tally_of};
ghost use Rattle.fixpoint.specs.Way.{SetsAll, Ranks, IsRanked, KeepsDone};
ghost use Rattle.fixpoint.specs.declared.cycles.SearchPosition.TheVariants as position;

use crate::marks::mark;
use std::alloc::{AllocError, Global};

// How far the search is with a number.
#[derive(Clone, Copy)]
enum SearchPosition {
    // The search has not met it.
    New,
    // It is on the path, at this index.
    On(usize),
    // The search is done with it and with all numbers that chains of steps reach from it.
    Done,
}

/// A part of the path. Its numbers all lead to each other.
#[derive(Clone, Copy)]
struct Part {
    /// The index on the path at which it begins.
    first: usize,
    /// The index in `ahead` at which the targets of its steps begin.
    rest: usize,
}

/// The state of a depth-first search for strongly connected components (Gabow 2000): the components of the path stand
/// on a stack, and a step back to the path joins them. All stacks are vectors, so a long path takes no call stack.
#[derive(Drop)]
struct Search {
    /// Of each number where the search has it.
    positions: Vec<SearchPosition>,
    /// Numbers that each lead to the next.
    path: Vec<usize>,
    /// The targets of steps from the path that the search has not looked at.
    ahead: Vec<usize>,
    /// The parts of the path, in its order.
    parts: Vec<Part>,
    /// Of each number whether it is on a cycle.
    marks: Vec<bool>,
    /// Of each number that is done, how many parts were done before its part.
    ranks: Vec<usize>,
    /// The number of parts that are done.
    done: usize,
}

// Drops the parts that begin after `position`, so that the part of `position` is the last.
fn join(parts: &mut Vec<Part>, position: usize)
    ensures { Joins position parts.old.items parts.new.items }
{
    while let Some(part) = parts.last() {
        if part.first <= position {
            break;
        }
        parts.pop();
    }
}

// Sets the position of each number in `these` to `Done`.
fn finish(these: &[usize], positions: &mut [SearchPosition])
    requires { AreBelow these.now (length positions.old) }
    ensures { Finishes these.now positions.old positions.new }
{
    for n in these {
        positions[*n] = SearchPosition::Done;
    }
}

// Sets the rank of each number in `these`.
fn set_all(these: &[usize], rank: usize, ranks: &mut [usize])
    requires { AreBelow these.now (length ranks.old) }
    ensures { SetsAll these.now rank ranks.old ranks.new }
{
    for n in these {
        ranks[*n] = rank;
    }
}

impl Search {
    // Appends `n` to the path, as a part of its own, and its row to the targets ahead.
    fn open(&mut self, n: usize, row: &[usize]) -> Result<(), AllocError>
        requires { n < length self.old.positions.items }
        ensures opens { IfOk result (λ _. Opens n row.now (way_of self.old) (way_of self.new)) }
        ensures tally { IfOk result (λ _. tally_of self.new ≡ tally_of self.old) }
    {
        let first = self.path.len();
        let rest = self.ahead.len();
        self.positions[n] = SearchPosition::On(first);
        self.parts.push(Part { first, rest })?;
        self.path.push(n)?;
        self.ahead.extend_from_slice(row)?;
        Ok(())
    }

    // Takes a step back to `n`, which is on the path: marks it, and joins all numbers after it on the path to its part.
    fn meet(&mut self, n: usize, position: usize)
        requires { n < length self.old.marks.items }
        ensures meets { Meets position n (way_of self.old) (way_of self.new) }
        ensures tally { tally_of self.new ≡ tally_of self.old }
    {
        self.marks[n] = true;
        join(&mut self.parts, position);
    }

    // Ends the last part, which begins at index `first` of the path. If it has several numbers, it marks them.
    fn close(&mut self, first: usize)
        requires first { first ≤ length self.old.path.items }
        requires positions { AreBelow self.old.path.items (length self.old.positions.items) }
        requires marks { AreBelow self.old.path.items (length self.old.marks.items) }
        requires ranks { AreBelow self.old.path.items (length self.old.ranks.items) }
        requires room { self.old.done < length self.old.ranks.items }
        ensures closes { Closes first (way_of self.old) (way_of self.new) }
        ensures ranks { Ranks (drop first self.old.path.items) (tally_of self.old) (tally_of self.new) }
    {
        let these = &self.path[first..];
        if these.len() > 1 {
            mark(these, &mut self.marks);
        }
        finish(these, &mut self.positions);
        set_all(these, self.done, &mut self.ranks);
        self.done += 1;
        self.path.truncate(first);
    }

    // Takes the step to `target`, the last target ahead.
    fn look(&mut self, steps: &[&[usize]], target: usize) -> Result<(), AllocError>
        requires within { target < length (slices_of steps.now) }
        requires way { IsWay (slices_of steps.now) (before_step (way_of self.old) target) }
        requires short { AreShort (way_of self.old) }
        ensures goes { IfOk result (λ _. GoesOn (slices_of steps.now) (before_step (way_of self.old) target)
            (way_of self.new)) }
        ensures keeps { IfOk result (λ _. KeepsDone (way_of self.old) (way_of self.new)) }
        ensures tally { IfOk result (λ _. tally_of self.new ≡ tally_of self.old) }
    {
        match self.positions[target] {
            SearchPosition::New => {
                self.open(target, steps[target])?;
            }
            SearchPosition::On(position) => {
                self.meet(target, position);
            }
            SearchPosition::Done => {}
        }
        Ok(())
    }

    // Takes one step from the last part, or ends the part if no target of it is ahead.
    fn go_on(&mut self, steps: &[&[usize]], last: Part) -> Result<(), AllocError>
        requires within { AreStepsWithin (slices_of steps.now) }
        requires way { IsWay (slices_of steps.now) (way_of self.old) }
        requires last { IsLast self.old.parts.items last }
        requires ranked { IsRanked (slices_of steps.now) (way_of self.old) (tally_of self.old) }
        ensures goes { IfOk result (λ _. GoesOn (slices_of steps.now) (way_of self.old) (way_of self.new)) }
        ensures ranked { IfOk result (λ _. IsRanked (slices_of steps.now) (way_of self.new) (tally_of self.new)) }
    {
        if self.ahead.len() > last.rest {
            if let Some(target) = self.ahead.pop() {
                self.look(steps, target)?;
            }
        } else {
            self.parts.pop();
            self.close(last.first);
        }
        Ok(())
    }

    // Goes on until the path is empty.
    fn follow(&mut self, steps: &[&[usize]]) -> Result<(), AllocError>
        requires within { AreStepsWithin (slices_of steps.now) }
        requires way { IsWay (slices_of steps.now) (way_of self.old) }
        requires ranked { IsRanked (slices_of steps.now) (way_of self.old) (tally_of self.old) }
        ensures comes { IfOk result (λ _. ComesToEnd (slices_of steps.now) (way_of self.old) (way_of self.new)) }
        ensures ranked { IfOk result (λ _. IsRanked (slices_of steps.now) (way_of self.new) (tally_of self.new)) }
    {
        while let Some(last) = self.parts.last() {
            let last = *last;
            self.go_on(steps, last)?;
        }
        Ok(())
    }

    // Searches from `n` if the search has not met it.
    fn search_from(&mut self, steps: &[&[usize]], n: usize) -> Result<(), AllocError>
        requires n { n < length (slices_of steps.now) }
        requires within { AreStepsWithin (slices_of steps.now) }
        requires through { IsThrough (slices_of steps.now) (way_of self.old) n }
        requires ranked { IsRanked (slices_of steps.now) (way_of self.old) (tally_of self.old) }
        ensures through { IfOk result (λ _. IsThrough (slices_of steps.now) (way_of self.new) (n + 1)) }
        ensures ranked { IfOk result (λ _. IsRanked (slices_of steps.now) (way_of self.new) (tally_of self.new)) }
    {
        if let SearchPosition::New = self.positions[n] {
            self.open(n, steps[n])?;
            self.follow(steps)?;
        }
        Ok(())
    }

    // Returns the state before the search.
    fn new(alloc: Global, steps: &[&[usize]]) -> Result<Search, AllocError>
        ensures through { IfOk result (λ search. IsThrough (slices_of steps.now) (way_of search) 0) }
        ensures ranked { IfOk result (λ search. IsRanked (slices_of steps.now) (way_of search) (tally_of search)) }
    {
        Ok(Search {
            positions: vec![in alloc; SearchPosition::New; steps.len()]?,
            path: Vec::new(alloc),
            ahead: Vec::new(alloc),
            parts: Vec::new(alloc),
            marks: vec![in alloc; false; steps.len()]?,
            ranks: vec![in alloc; 0; steps.len()]?,
            done: 0,
        })
    }

    // Searches from each number.
    fn search_all(&mut self, steps: &[&[usize]]) -> Result<(), AllocError>
        requires within { AreStepsWithin (slices_of steps.now) }
        requires through { IsThrough (slices_of steps.now) (way_of self.old) 0 }
        requires ranked { IsRanked (slices_of steps.now) (way_of self.old) (tally_of self.old) }
        ensures through { IfOk result (λ _. IsThrough (slices_of steps.now) (way_of self.new)
            (length (slices_of steps.now))) }
        ensures ranked { IfOk result (λ _. IsRanked (slices_of steps.now) (way_of self.new) (tally_of self.new)) }
    {
        for n in 0..steps.len() {
            self.search_from(steps, n)?;
        }
        Ok(())
    }
}

/// The numbers on cycles, and ranks that steps from all others lower.
#[derive(Drop)]
pub struct Cycles {
    /// One mark for each number: set if a chain of steps leads from it back to it.
    pub marks: Vec<bool>,
    /// One rank for each number.
    pub ranks: Vec<usize>,
}

/// Marks exactly the numbers from which a chain of at least one step leads back to them. Ranks all numbers so that each
/// step from an unmarked number lowers the rank.
///
/// `steps[n]` lists the numbers to which steps lead from `n`. The time is linear in rows and steps.
///
/// # Errors
/// `AllocError` if an allocation fails.
pub fn on_cycle(alloc: Global, steps: &[&[usize]]) -> Result<Cycles, AllocError>
    requires { AreStepsWithin (slices_of steps.now) }
    ensures count { IfOk result (λ found. length found.marks.items ≡ length steps.now) }
    ensures marks { IfOk result (λ found. AreCycleMarks (slices_of steps.now) found.marks.items) }
    ensures ranks { IfOk result (λ found. AreRanksBut (slices_of steps.now) found.marks.items found.ranks.items) }
{
    let mut search = Search::new(alloc, steps)?;
    search.search_all(steps)?;
    Ok(Cycles {
        marks: search.marks,
        ranks: search.ranks,
    })
}

//! Tables of what each byte decides of a node, and runs of bytes that it takes.
ghost use Rattle.std.specs.Prelude.{◌≡◌, ◌↔◌, ◌<◌, ◌≤◌, ℕ, length, IfOk, IfSome, slice_get, true, Some};
ghost use Rattle.pegnodes.specs.Decides.{mark_in, tail_in};
ghost use Rattle.pegnodes.specs.Nodes.{shapes_of};
ghost use Rattle.pegnodes.specs.RunTables.{IsTable, iteration_evals, OthersTake, IsStop, IsRun, IsRunTo};
ghost use Rattle.pegnodes.specs.declared.by_byte.Decided.{Decided};

use crate::by_byte::{ByteVerdict, Decided, MarkedNodes, decide};
use memchr::memchr;
use ruletable::Memory;
use std::alloc::Global;

/// The only byte that a node is not known to take. A run of such a node ends at that byte, which `memchr` finds.
#[derive(Clone, Copy)]
pub struct StopByte {
    /// The byte.
    pub byte: u8,
    /// How many evaluations an iteration over each other byte begins.
    pub evals: u64,
}

/// A run of bytes that a node takes, one at a time.
#[derive(Clone, Copy)]
pub struct Run {
    /// The position after the last byte.
    pub end: usize,
    /// How many evaluations the iterations of a repetition over it begin.
    pub evals: u128,
}

/// The outcomes of a node that one byte decides, by that byte. A repetition of the node takes a run of bytes by it.
#[derive(Drop)]
pub struct RunTable {
    /// Of each of the 256 bytes the outcome, if the byte decides it.
    pub entries: Vec<Option<Decided>>,
    /// The only byte that the node is not known to take, if there is just one.
    pub stop: Option<StopByte>,
    pub ghost whole: { length entries.items ≡ 256 },
    pub ghost stops: { IsStop entries.items stop },
}

// Returns how many evaluations an iteration over the byte of this entry is, or 0 if the byte is not taken.
fn evals_of(entry: Option<Decided>) -> u64
    ensures evals { result ≡ iteration_evals (Some entry) }
    ensures fits { result ≤ 65536 }
{
    match entry {
        Some(decided) => match decided.verdict {
            ByteVerdict::Takes => u64::from(decided.count) + 1,
            ByteVerdict::Stays => 0,
            ByteVerdict::Fails => 0,
        },
        None => 0,
    }
}

// Returns the first byte that is not known to be taken.
fn first_left(entries: &[Option<Decided>]) -> Option<u8>
    requires { length entries.now ≡ 256 }
    ensures { IfSome result (λ b. iteration_evals (slice_get entries.now b) ≡ 0) }
{
    for b in 0..=u8::MAX {
        if evals_of(entries[usize::from(b)]) == 0 {
            return Some(b);
        }
    }
    None
}

// Returns whether all bytes but one are taken, with so many evaluations.
fn others_take(entries: &[Option<Decided>], byte: u8, evals: u64) -> bool
    requires { length entries.now ≡ 256 }
    ensures { result ≡ true → OthersTake entries.now byte evals }
{
    for b in 0..entries.len() {
        if b != usize::from(byte) && evals_of(entries[b]) != evals {
            return false;
        }
    }
    true
}

// Returns the byte that alone is not taken, if there is one and an iteration over each other byte is as many
// evaluations.
fn find_stop(entries: &[Option<Decided>]) -> Option<StopByte>
    requires { length entries.now ≡ 256 }
    ensures { IsStop entries.now result }
{
    let byte = first_left(entries)?;
    let other = if byte == 0 { 1 } else { 0 };
    let evals = evals_of(entries[other]);
    if evals == 0 || !others_take(entries, byte, evals) {
        return None;
    }
    Some(StopByte { byte, evals })
}

// Returns of each byte what it decides of a node.
fn entries_of(
    alloc: Global,
    grammar: &MarkedNodes<'_>,
    n: usize,
) -> Result<Vec<Option<Decided>>, Memory>
    ensures count { IfOk result (λ entries. length entries.items ≡ 256) }
    ensures table { IfOk result (λ entries. IsTable (shapes_of grammar.now.nodes.now) grammar.now.bodies.now
        (mark_in grammar.now) (tail_in grammar.now) n entries.items) }
{
    let mut entries = Vec::with_capacity(alloc, 256)?;
    for b in 0..256_usize {
        entries.push(decide(grammar, n, b as u8))?;
    }
    Ok(entries)
}

// Returns how far bytes are taken, where one byte alone is not taken.
fn run_to(stop: StopByte, window: &[u8], from: usize, to: usize) -> Run
    requires from { from ≤ to }
    requires to { to ≤ length window.now }
    ensures { IsRunTo stop window.now from to result }
{
    let end = match memchr(stop.byte, &window[from..to]) {
        Some(i) => from + i,
        None => to,
    };
    let iterations = (end - from) as u128;
    let evals = iterations * u128::from(stop.evals);
    Run { end, evals }
}

// Returns how far bytes are taken, with the sum of their numbers.
#[inline(always)]
fn run_along(entries: &[Option<Decided>], window: &[u8], from: usize, to: usize) -> Run
    requires whole { length entries.now ≡ 256 }
    requires from { from ≤ to }
    requires to { to ≤ length window.now }
    ensures { IsRun entries.now window.now from to result }
{
    let mut evals: u128 = 0;
    for end in from..to {
        let iteration = evals_of(entries[usize::from(window[end])]);
        if iteration == 0 {
            return Run { end, evals };
        }
        evals += u128::from(iteration);
    }
    Run { end: to, evals }
}

impl RunTable {
    /// Returns the table of a node.
    ///
    /// `Memory` if an allocation fails.
    pub fn new(alloc: Global, grammar: &MarkedNodes<'_>, n: usize) -> Result<RunTable, Memory>
        ensures { IfOk result (λ table. IsTable (shapes_of grammar.now.nodes.now) grammar.now.bodies.now
            (mark_in grammar.now) (tail_in grammar.now) n table.entries.items) }
    {
        let entries = entries_of(alloc, grammar, n)?;
        let stop = find_stop(&entries);
        Ok(RunTable { entries, stop })
    }

    /// Returns whether some byte decides anything of the node.
    pub(crate) fn decides_some(&self) -> bool
        ensures { (result ≡ true) ↔ ((b : ℕ) × (d : Decided) × (slice_get self.now.entries.items b ≡ Some (Some d))) }
    {
        for b in 0..self.entries.len() {
            if self.entries[b].is_some() {
                return true;
            }
        }
        false
    }

    /// Returns the outcome of the node that a byte decides, if it does.
    pub fn decided(&self, b: u8) -> Option<Decided>
        ensures { slice_get self.now.entries.items b ≡ Some result }
    {
        self.entries[usize::from(b)]
    }

    /// Returns how far the node takes the bytes of a window from a position up to another, and how many evaluations the
    /// iterations of a repetition over them are.
    #[inline(always)]
    pub fn run(&self, window: &[u8], from: usize, to: usize) -> Run
        requires from { from ≤ to }
        requires to { to ≤ length window.now }
        ensures { IsRun self.now.entries.items window.now from to result }
    {
        match self.stop {
            Some(stop) => run_to(stop, window, from, to),
            None => run_along(&self.entries, window, from, to),
        }
    }
}

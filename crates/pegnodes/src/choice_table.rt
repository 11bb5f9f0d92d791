//! Tables of how many of the first alternatives of a choice each byte decides to fail.
ghost use Rattle.std.specs.Prelude.{◌≡◌, ◌+◌, ◌≤◌, ◌↔◌, ◌≢◌, ℕ, length, IfOk, IfSome, slice_get, true, Some};
ghost use Rattle.pegnodes.specs.ByByte.{Below};
ghost use Rattle.pegnodes.specs.ChoiceTables.{FailFirst, IsChoiceTable};
ghost use Rattle.pegnodes.specs.Decides.{mark_in, tail_in};
ghost use Rattle.pegnodes.specs.Nodes.{Choice, shapes_of};
ghost use Rattle.pegnodes.specs.declared.by_byte.ByteVerdict.TheVariants.{Fails};
ghost use Rattle.pegnodes.specs.declared.choice_table.Skip.{Skip as Skipped};

use crate::by_byte::{ByteVerdict, MarkedNodes, decide, summed};
use crate::keys::mark_or;
use ruletable::Memory;
use std::alloc::Global;

/// How many of the first alternatives of a choice a byte decides to fail, and how many evaluations that evaluates.
#[derive(Clone, Copy)]
pub struct Skip {
    pub index: u16,
    pub evals: u32,
}

/// Of each byte how many of the first alternatives of a choice it decides to fail.
#[derive(Drop)]
pub struct ChoiceTable {
    pub entries: Vec<Skip>,
    pub ghost whole: { length entries.items ≡ 256 },
}

// How many alternatives a choice with a table has at most.
pub(crate) const MOST_ALTERNATIVES: usize = 1000;

// Returns how many evaluations are evaluated up to an alternative's end, if a byte decides that it fails and it is no
// key.
fn failing(grammar: &MarkedNodes<'_>, m: usize, b: u8, before: u16) -> Option<u16>
    ensures { IfSome result (λ sum. (c : ℕ) × (sum ≡ before + c)
        × Below (shapes_of grammar.now.nodes.now) grammar.now.bodies.now (mark_in grammar.now) (tail_in grammar.now) b m
        Fails c) }
{
    if mark_or(grammar.keys, m, true) {
        return None;
    }
    let decided = decide(grammar, m, b)?;
    match decided.verdict {
        ByteVerdict::Fails => {
            let sum = summed(ByteVerdict::Fails, before, decided.count)?;
            Some(sum.count)
        }
        ByteVerdict::Stays => None,
        ByteVerdict::Takes => None,
    }
}

// Returns how many of the first alternatives of a choice a byte decides to fail.
fn skip_by(grammar: &MarkedNodes<'_>, alternatives: &[usize], b: u8) -> Skip
    requires { length alternatives.now ≤ 1000 }
    ensures { (n : ℕ) → slice_get (shapes_of grammar.now.nodes.now) n ≡ Some (Choice alternatives.now) →
        FailFirst (shapes_of grammar.now.nodes.now) grammar.now.bodies.now (mark_in grammar.now) (tail_in grammar.now) b
        n alternatives.now result.index result.evals }
{
    let mut evals = 0;
    for i in 0..alternatives.len() {
        let Some(sum) = failing(grammar, alternatives[i], b, evals) else {
            return Skip {
                index: i as u16,
                evals: u32::from(evals),
            };
        };
        evals = sum;
    }
    Skip {
        index: alternatives.len() as u16,
        evals: u32::from(evals),
    }
}

// Returns of each byte how many of the first alternatives of a choice it decides to fail.
fn skips_of(
    alloc: Global,
    grammar: &MarkedNodes<'_>,
    alternatives: &[usize],
) -> Result<Vec<Skip>, Memory>
    requires { length alternatives.now ≤ 1000 }
    ensures count { IfOk result (λ entries. length entries.items ≡ 256) }
    ensures table { IfOk result (λ entries. (n : ℕ) →
        slice_get (shapes_of grammar.now.nodes.now) n ≡ Some (Choice alternatives.now) →
        IsChoiceTable (shapes_of grammar.now.nodes.now) grammar.now.bodies.now (mark_in grammar.now)
        (tail_in grammar.now) n alternatives.now entries.items) }
{
    let mut entries = Vec::with_capacity(alloc, 256)?;
    for b in 0..256_usize {
        entries.push(skip_by(grammar, alternatives, b as u8))?;
    }
    Ok(entries)
}

impl ChoiceTable {
    // Returns the table of a choice.
    pub(crate) fn new(
        alloc: Global,
        grammar: &MarkedNodes<'_>,
        alternatives: &[usize],
    ) -> Result<ChoiceTable, Memory>
        requires { length alternatives.now ≤ 1000 }
        ensures { IfOk result (λ table. (n : ℕ) →
            slice_get (shapes_of grammar.now.nodes.now) n ≡ Some (Choice alternatives.now) →
            IsChoiceTable (shapes_of grammar.now.nodes.now) grammar.now.bodies.now (mark_in grammar.now)
            (tail_in grammar.now) n alternatives.now table.entries.items) }
    {
        let entries = skips_of(alloc, grammar, alternatives)?;
        Ok(ChoiceTable { entries })
    }

    // Returns whether some byte decides that the first alternative fails.
    pub(crate) fn skips_some(&self) -> bool
        ensures { (result ≡ true) ↔ ((b : ℕ) × (s : Skipped) × (slice_get self.now.entries.items b ≡ Some s)
            × (s.index ≢ 0)) }
    {
        for b in 0..self.entries.len() {
            if self.entries[b].index != 0 {
                return true;
            }
        }
        false
    }

    /// Returns how many of the first alternatives a byte decides to fail.
    pub fn skip(&self, b: u8) -> Skip
        ensures { slice_get self.now.entries.items b ≡ Some result }
    {
        self.entries[usize::from(b)]
    }
}

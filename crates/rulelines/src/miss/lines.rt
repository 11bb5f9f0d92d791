//! The lines that a rule does not derive, one after another.
ghost use Rattle.std.specs.Prelude.{◌≡◌, ◌∷◌, ◌++◌, ℕ, List, [], IfOk, IfSome};
ghost use Rattle.abnfread.specs.AbnfViews.{rules_of};
ghost use Rattle.abnfread.specs.Element.{Rule};
ghost use Rattle.rulelines.specs.Misses.{prefix_lines, refused_lines, wrong_lines};
ghost use Rattle.rulelines.specs.MissLists.{AreMissesOf, IsMissStep, IsRefilled, AreOfRule, item_lines, waiting_lines};

use crate::list::NextLine;
use crate::miss::prefixes::{MissSet, NextPrefix, StatePrefix, StatePrefixes};
use abnfcheck::SoundAbnf;
use ruletable::Memory;
use std::alloc::Global;
use std::marker::Model;

/// Lines that a rule does not derive: for each state the first prefix that leads there, if the rule does not derive it,
/// and it with the first symbol that cannot follow it. With `edges` it comes with each symbol that cannot follow it,
/// next to one that can, too. The prefixes come in the order of lines, each followed by its own lines with a symbol
/// more. The lines have at most `limit` symbols, and not the one that ends a line.
#[derive(Drop)]
pub struct Misses {
    /// Allocates the lines.
    alloc: Global,
    /// The first prefixes of the states.
    prefixes: StatePrefixes,
    /// The lines of the last prefix that are left, the last one first.
    left: Vec<Vec<u32>>,
}

impl Model for Misses {
    ghost use Rattle.std.specs.Prelude.{true};
    ghost use Rattle.rulelines.specs.MissLists.{MissList, waiting_lines};

    ghost Value = { MissList };

    ghost view = { λ m. record { prefixes = m.prefixes; waiting = waiting_lines m.left.items } };
}

// Adds a prefix, if it is refused. `Memory` if an allocation fails.
fn push_refused(
    alloc: Global,
    prefix: &[u32],
    is_refused: bool,
    lines: &mut Vec<Vec<u32>>,
) -> Result<(), Memory>
    ensures { IfOk result (λ done. item_lines lines.new.items ≡ item_lines lines.old.items
        ++ refused_lines is_refused prefix.now) }
{
    if is_refused {
        lines.push(Vec::from_slice(alloc, prefix)?)?;
    }
    Ok(())
}

// Adds a prefix with a symbol after it. `Memory` if an allocation fails.
fn push_longer(
    alloc: Global,
    prefix: &[u32],
    symbol: u32,
    lines: &mut Vec<Vec<u32>>,
) -> Result<(), Memory>
    ensures { IfOk result (λ done. item_lines lines.new.items ≡ item_lines lines.old.items
        ++ (prefix.now ++ symbol ∷ []) ∷ []) }
{
    let mut line = Vec::from_slice(alloc, prefix)?;
    line.push(symbol)?;
    lines.push(line)?;
    Ok(())
}

// Adds a prefix with each of some symbols after it. `Memory` if an allocation fails.
fn push_wrong(
    alloc: Global,
    prefix: &[u32],
    wrong: &[u32],
    lines: &mut Vec<Vec<u32>>,
) -> Result<(), Memory>
    ensures { IfOk result (λ done. item_lines lines.new.items ≡ item_lines lines.old.items
        ++ wrong_lines prefix.now wrong.now) }
{
    for symbol in wrong {
        push_longer(alloc, prefix, *symbol, lines)?;
    }
    Ok(())
}

// Returns the lines of a prefix, the last one first. `Memory` if an allocation fails.
fn lines_from(alloc: Global, prefix: &StatePrefix) -> Result<Vec<Vec<u32>>, Memory>
    ensures { IfOk result (λ lines. waiting_lines lines.items ≡ prefix_lines prefix.now) }
{
    let mut lines = Vec::new(alloc);
    push_refused(alloc, &prefix.prefix, prefix.is_refused, &mut lines)?;
    push_wrong(alloc, &prefix.prefix, &prefix.wrong, &mut lines)?;
    lines.reverse();
    Ok(lines)
}

impl Misses {
    /// Returns the lines of a set that the judged rule of a grammar does not derive, before the first one. They have
    /// room for `room` entries of states. `None` if the grammar counts how often something nullable is repeated, or
    /// there is no room. `Memory` if an allocation fails.
    pub fn new(
        alloc: Global,
        grammar: &SoundAbnf,
        set: MissSet,
        room: usize,
    ) -> Result<Option<Misses>, Memory>
        ensures { IfOk result (λ reported. IfSome reported (AreMissesOf set.alphabet set.terminator set.limit set.edges
            (rules_of grammar.now.rules) grammar.now.judged)) }
    {
        let Some(prefixes) = StatePrefixes::new(alloc, grammar, set, room)? else {
            return Ok(None);
        };
        Ok(Some(Misses {
            alloc,
            prefixes,
            left: Vec::new(alloc),
        }))
    }

    // Takes the lines of the next prefix, and returns whether there is one; `None` if there is no room. `Memory` if an
    // allocation fails.
    fn refill(&mut self) -> Result<Option<bool>, Memory>
        ensures same { self.new.prefixes.set ≡ self.old.prefixes.set }
        ensures filled { IfOk result (λ reported. IfSome reported (λ some. (rules : List Rule) (id : ℕ) →
            AreOfRule rules id self.old → IsRefilled rules id self.old self.new some)) }
    {
        match self.prefixes.next()? {
            None => Ok(None),
            Some(NextPrefix::Done) => Ok(Some(false)),
            Some(NextPrefix::Prefix(prefix)) => {
                self.left = lines_from(self.alloc, &prefix)?;
                Ok(Some(true))
            }
        }
    }

    /// Returns the next line, and `Done` if there is none. `None` if there is no room for the states, and from then on.
    /// `Memory` if an allocation fails, and `None` from then on.
    pub fn next(&mut self) -> Result<Option<NextLine>, Memory>
        ensures same { self.new.prefixes.set ≡ self.old.prefixes.set }
        ensures next { IfOk result (λ reported. IfSome reported (λ step. (rules : List Rule) (id : ℕ) →
            AreOfRule rules id self.old → IsMissStep rules id self.old self.new step)) }
    {
        for _ in 0..u64::MAX {
            if let Some(line) = self.left.pop() {
                return Ok(Some(NextLine::Line(line)));
            }
            match self.refill()? {
                None => return Ok(None),
                Some(false) => return Ok(Some(NextLine::Done)),
                Some(true) => {}
            }
        }
        Ok(None)
    }
}

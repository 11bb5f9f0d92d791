//! The lines that a rule derives, one after another.
ghost use Rattle.std.specs.Prelude.{◌≡◌, IfOk, IfSome};
ghost use Rattle.abnfread.specs.AbnfViews.{rules_of};
ghost use Rattle.rulelines.specs.LineSets.{AreRuleLines, IsLineAfter, IsFirstStep, IsLineIn, IsSomeLine};
ghost use Rattle.rulelines.specs.ListedSets.{listed_in, symbol_set};
ghost use Rattle.rulelines.specs.SampleLines.{AreSampleLines};
ghost use Rattle.rulelines.specs.Starts.{AreClassStarts};
ghost use Rattle.rulelines.specs.StateTables.{IsTableFor, flat_lines};
ghost use Rattle.std.specs.List.Sorted.{IsStrictlyIncreasing};

use crate::list::firsts::first_keys;
use crate::list::keys::LineSymbols;
use crate::list::listed::ListedSymbols;
use crate::list::lots::Lots;
use crate::list::random::line_by_lot;
use crate::list::search::{line_after, line_from};
use crate::list::starts::find_starts;
use crate::list::table::Table;
use abnfcheck::{SoundAbnf, reached_grammar};
use flatgrammar::Flat;
use lazydfa::States;
use lowering::lower;
use ruletable::{Alphabet, Memory};
use std::alloc::Global;
use std::marker::Model;

/// The line after another. `Line`: its symbols. `Done`: there is none.
#[derive(Drop)]
pub enum NextLine {
    Line(Vec<u32>),
    Done,
}

/// The lines over an alphabet that a rule derives, in their order: shorter lines first, and else by the first symbol
/// that differs: %x21-7E, then the space, then others by number. They have at most `limit` symbols, and not the one
/// that ends a line. They are all such lines, or those of some symbols alone.
#[derive(Drop)]
pub struct Lines {
    /// Allocates the table and the lines.
    alloc: Global,
    /// The lowered rule.
    flat: Flat,
    /// The greatest length of a line.
    limit: u32,
    /// The symbols of the lines.
    symbols: ListedSymbols,
    /// The states that were reached; none after an allocation failed.
    table: Option<Table>,
}

impl Model for Lines {
    ghost use Rattle.std.specs.Prelude.{IfSome};
    ghost use Rattle.rulelines.specs.LineSets.{LineSet};
    ghost use Rattle.rulelines.specs.ListedSets.{listed_in, symbol_set};
    ghost use Rattle.rulelines.specs.StateTables.{IsTableFor};

    ghost Value = { LineSet };

    ghost view = { λ l. record {
      flat = l.flat;
      symbols = symbol_set l.symbols;
      limit = l.limit;
    } };

    ghost invariant = { λ l. IfSome l.table (IsTableFor l.flat (symbol_set l.symbols)) };
}

// Returns the table of a flat grammar with its start state, with so much room for states and as much for entries.
// `None` if the grammar counts how often something nullable is repeated, or there is no room. `Memory` if an allocation
// fails.
fn begin_table(
    alloc: Global,
    flat: &Flat,
    symbols: ListedSymbols,
    starts: Vec<u32>,
    room: usize,
) -> Result<Option<Table>, Memory>
    requires starts { AreClassStarts flat.now (listed_in symbols) starts.items }
    requires rise { IsStrictlyIncreasing starts.items }
    ensures { IfOk result (λ reported. IfSome reported (IsTableFor flat.now (symbol_set symbols))) }
{
    let Some(mut states) = States::new(alloc, flat, room)? else {
        return Ok(None);
    };
    let Some(start) = states.start()? else {
        return Ok(None);
    };
    Ok(Some(Table {
        symbols,
        states,
        start,
        seen: start.saturating_add(1),
        starts,
        rows: Vec::new(alloc),
        levels: Vec::new(alloc),
        cells: 0,
        room,
    }))
}

// Returns the lines of these symbols that a flat grammar derives. `starts` are the keys at which classes of the symbols
// start. `None` and `Memory` as `begin_table`.
fn lines_of(
    alloc: Global,
    flat: Flat,
    symbols: ListedSymbols,
    starts: Vec<u32>,
    limit: u32,
    room: usize,
) -> Result<Option<Lines>, Memory>
    requires starts { AreClassStarts flat (listed_in symbols) starts.items }
    requires rise { IsStrictlyIncreasing starts.items }
    ensures { IfOk result (λ reported. IfSome reported (λ lines. lines ≡ flat_lines flat (symbol_set symbols) limit)) }
{
    let copy = symbols.copied(alloc)?;
    let Some(table) = begin_table(alloc, &flat, copy, starts, room)? else {
        return Ok(None);
    };
    Ok(Some(Lines {
        alloc,
        flat,
        limit,
        symbols,
        table: Some(table),
    }))
}

impl Lines {
    /// Returns the lines that the judged rule of a grammar derives, of at most `limit` symbols, with room for `room`
    /// entries of states, and as many of the table. `None` if a rule that is reached bounds the repetitions of what may
    /// be empty, or there is no room. `Memory` if an allocation fails.
    pub fn new(
        alloc: Global,
        grammar: &SoundAbnf,
        alphabet: Alphabet,
        terminator: u8,
        limit: u32,
        room: usize,
    ) -> Result<Option<Lines>, Memory>
        ensures { IfOk result (λ reported. IfSome reported (AreRuleLines alphabet terminator limit
            (rules_of grammar.now.rules)
            grammar.now.judged)) }
    {
        let inner = LineSymbols {
            alphabet,
            terminator,
        };
        let kept = reached_grammar(alloc, grammar)?;
        let flat = lower(alloc, &kept, limit as usize)?;
        let starts = find_starts(alloc, inner, &flat, false)?;
        let symbols = ListedSymbols { inner, only: None };
        lines_of(alloc, flat, symbols, starts, limit, room)
    }

    /// Returns those of the lines of `new` that have only the first of symbols that no set distinguishes. The sets are
    /// values, ranges, and the symbols that may stand for one of a text, in the rules that the judged one reaches.
    /// `None` and `Memory` as `new`.
    pub fn of_samples(
        alloc: Global,
        grammar: &SoundAbnf,
        alphabet: Alphabet,
        terminator: u8,
        limit: u32,
        room: usize,
    ) -> Result<Option<Lines>, Memory>
        ensures { IfOk result (λ reported. IfSome reported (AreSampleLines alphabet terminator limit
            (rules_of grammar.now.rules)
            grammar.now.judged)) }
    {
        let inner = LineSymbols {
            alphabet,
            terminator,
        };
        let kept = reached_grammar(alloc, grammar)?;
        let flat = lower(alloc, &kept, limit as usize)?;
        let starts = first_keys(alloc, inner, &flat, kept.rules())?;
        let only = Some(Vec::from_slice(alloc, &starts)?);
        let symbols = ListedSymbols { inner, only };
        lines_of(alloc, flat, symbols, starts, limit, room)
    }

    /// Returns the first line; `None` if there is no room for the states. `Memory` if an allocation fails, and `None`
    /// from then on.
    pub fn first(&mut self) -> Result<Option<NextLine>, Memory>
        ensures same { self.new ≡ self.old }
        ensures first { IfOk result (λ reported. IfSome reported (IsFirstStep (IsLineIn self.old))) }
    {
        let Some(mut table) = self.table.take() else {
            return Ok(None);
        };
        let step = line_from(self.alloc, &mut table, 0, self.limit)?;
        self.table = Some(table);
        Ok(step)
    }

    /// Returns the line after another, and `Done` if there is none. `None` if there is no room for the states, or the
    /// other is no line. `Memory` if an allocation fails, and `None` from then on.
    pub fn after(&mut self, line: &[u32]) -> Result<Option<NextLine>, Memory>
        ensures same { self.new ≡ self.old }
        ensures after { IfOk result (λ reported. IfSome reported (IsLineAfter (IsLineIn self.old) line.now)) }
    {
        let Some(mut table) = self.table.take() else {
            return Ok(None);
        };
        let step = line_after(self.alloc, &mut table, line, self.limit)?;
        self.table = Some(table);
        Ok(step)
    }

    /// Returns a line by lot, and `Done` if there is no line: one of the lengths that lines have, as far as there is
    /// room for the states of so many symbols, then the class of each symbol, and the symbol. `None` if there is no
    /// room for the states. `Memory` if an allocation fails, and `None` from then on.
    pub fn by_lot(&mut self, lots: &mut Lots) -> Result<Option<NextLine>, Memory>
        ensures same { self.new ≡ self.old }
        ensures is { IfOk result (λ reported. IfSome reported (IsSomeLine (IsLineIn self.old))) }
    {
        let Some(mut table) = self.table.take() else {
            return Ok(None);
        };
        let step = line_by_lot(self.alloc, &mut table, self.limit, lots)?;
        self.table = Some(table);
        Ok(step)
    }
}

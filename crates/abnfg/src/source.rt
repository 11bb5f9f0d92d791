//! The lines that are asked for, one after another.
ghost use Rattle.std.specs.Prelude.{◌≡◌, ℕ, List, [], IfOk, IfSome, false};
ghost use Rattle.abnfg.specs.ListedLines.{AreListed, IsListStep, IsStepOf, end_of};
ghost use Rattle.abnfg.specs.ListModes.{AreOrderedAsked, HasReturned, IsReturnStep, reaches_goals};
ghost use Rattle.abnfg.specs.declared.lines.ListSettings.{ListSettings as the_settings};
ghost use Rattle.abnfread.specs.AbnfViews.{rules_of};
ghost use Rattle.abnfread.specs.Element.{Rule};
ghost use Rattle.rulelines.specs.LineSets.{AreRuleLines, IsLineIn};
ghost use Rattle.rulelines.specs.MissLists.{AreMissesOf};

use crate::lines::{ListMode, ListSettings, end_byte};
use abnfcheck::SoundAbnf;
use rulelines::{Lines, Lots, MissSet, Misses, NextLine};
use ruletable::Memory;
use std::alloc::Global;

/// How many entries the states of a grammar may have.
const ROOM: usize = 500_000;

/// The lines that a rule derives, in order.
#[derive(Drop)]
pub(crate) struct DerivedLines {
    /// Allocates the lines.
    alloc: Global,
    /// The lines.
    lines: Lines,
    /// The last line that was returned.
    last: Option<Vec<u32>>,
}

impl DerivedLines {
    // Returns the line after the last one; the first, if there is none. `None` if there is no room for the states.
    // `Memory` if an allocation fails.
    fn step(&mut self) -> Result<Option<NextLine>, Memory>
        ensures lines { self.new.lines ≡ self.old.lines }
        ensures last { self.new.last ≡ self.old.last }
        ensures next { IfOk result (λ reported. IfSome reported (λ step. (ws : List (List ℕ)) →
            AreListed (IsLineIn self.old.lines) self.old.last ws → IsStepOf (IsLineIn self.old.lines) ws step)) }
    {
        match &self.last {
            None => self.lines.first(),
            Some(last) => self.lines.after(last),
        }
    }

    // Returns the next line, and `Done` if there is none. `None` if there is no room for the states. `Memory` if an
    // allocation fails.
    fn next(&mut self) -> Result<Option<NextLine>, Memory>
        ensures same { self.new.lines ≡ self.old.lines }
        ensures next { IfOk result (λ reported. IfSome reported (λ step. (ws : List (List ℕ)) →
            AreListed (IsLineIn self.old.lines) self.old.last ws →
            IsListStep (IsLineIn self.old.lines) self.new.last ws step)) }
    {
        let step = self.step()?;
        if let Some(NextLine::Line(line)) = &step {
            self.last = Some(Vec::from_slice(self.alloc, line)?);
        }
        Ok(step)
    }
}

// Returns the lines that the judged rule of a grammar derives. `None` if there is no room for the states. `Memory` if
// an allocation fails.
fn derived_lines(
    alloc: Global,
    settings: &ListSettings<'_>,
    grammar: &SoundAbnf,
) -> Result<Option<Lines>, Memory>
    ensures { IfOk result (λ reported. IfSome reported (AreRuleLines settings.now.letters (end_of settings.now.nul)
        settings.now.limit (rules_of grammar.now.rules) grammar.now.judged)) }
{
    let end = end_byte(settings);
    Lines::new(alloc, grammar, settings.letters, end, settings.limit, ROOM)
}

// Returns the lines that the judged rule of a grammar derives: all, or if settings ask for them, those that have only
// the first of symbols that no set distinguishes. `None` if there is no room for the states. `Memory` if an allocation
// fails.
fn ordered_lines(
    alloc: Global,
    settings: &ListSettings<'_>,
    grammar: &SoundAbnf,
) -> Result<Option<Lines>, Memory>
    ensures { IfOk result (λ reported. IfSome reported (AreOrderedAsked settings.now (rules_of grammar.now.rules)
        grammar.now.judged)) }
{
    if settings.alike {
        let end = end_byte(settings);
        return Lines::of_samples(alloc, grammar, settings.letters, end, settings.limit, ROOM);
    }
    derived_lines(alloc, settings, grammar)
}

// Returns the lines that miss the judged rule of a grammar. `None` if there is no room for the states. `Memory` if an
// allocation fails.
fn missed_lines(
    alloc: Global,
    settings: &ListSettings<'_>,
    grammar: &SoundAbnf,
) -> Result<Option<Misses>, Memory>
    ensures { IfOk result (λ reported. IfSome reported (AreMissesOf settings.now.letters (end_of settings.now.nul)
        settings.now.limit settings.now.edges (rules_of grammar.now.rules) grammar.now.judged)) }
{
    let set = MissSet {
        alphabet: settings.letters,
        terminator: end_byte(settings),
        limit: settings.limit,
        edges: settings.edges,
    };
    Misses::new(alloc, grammar, set, ROOM)
}

/// The lines that a mode lists, one after another.
#[derive(Drop)]
pub(crate) enum LineSource {
    /// Those that the rule derives.
    Derived(DerivedLines),
    /// Near ones that it does not derive.
    Missed(Misses),
    /// Some that it derives, by lot.
    Drawn(Lines, Lots),
}

impl LineSource {
    /// Returns the lines that are asked for of the judged rule of a grammar, before the first one. The mode is not
    /// `Cover`. `None` if there is no room for the states. `Memory` if an allocation fails.
    pub(crate) fn new(
        alloc: Global,
        settings: &ListSettings<'_>,
        grammar: &SoundAbnf,
    ) -> Result<Option<LineSource>, Memory>
        requires { reaches_goals settings.now.mode ≡ false }
        ensures { IfOk result (λ reported. IfSome reported (λ source. HasReturned settings.now
            (rules_of grammar.now.rules) grammar.now.judged source [])) }
    {
        match settings.mode {
            ListMode::All => {
                let Some(lines) = ordered_lines(alloc, settings, grammar)? else {
                    return Ok(None);
                };
                let last = None;
                Ok(Some(LineSource::Derived(DerivedLines { alloc, lines, last })))
            }
            ListMode::Miss => {
                let Some(misses) = missed_lines(alloc, settings, grammar)? else {
                    return Ok(None);
                };
                Ok(Some(LineSource::Missed(misses)))
            }
            ListMode::Random => {
                let Some(lines) = derived_lines(alloc, settings, grammar)? else {
                    return Ok(None);
                };
                Ok(Some(LineSource::Drawn(lines, Lots::new(settings.seed))))
            }
            ListMode::Cover => unreachable!(),
        }
    }

    /// Returns the next line, and `Done` if there is none. `None` if there is no room for the states. `Memory` if an
    /// allocation fails. Lines by lot have no end, unless there is none.
    pub(crate) fn next(&mut self) -> Result<Option<NextLine>, Memory>
        ensures { IfOk result (λ reported. IfSome reported (λ step. (settings : the_settings) (rules : List Rule)
            (id : ℕ) (ws : List (List ℕ)) → HasReturned settings rules id self.old ws →
            IsReturnStep settings rules id self.new ws step)) }
    {
        match self {
            LineSource::Derived(derived) => derived.next(),
            LineSource::Missed(misses) => misses.next(),
            LineSource::Drawn(lines, lots) => lines.by_lot(lots),
        }
    }
}

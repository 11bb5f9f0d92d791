//! Lines of a rule, one after another.
ghost use Rattle.std.specs.Prelude.{◌≡◌, ◌≤◌, IfOk, IfSome, None, Some};
ghost use Rattle.abnfread.specs.AbnfViews.{rules_of};
ghost use Rattle.capi.specs.NextLineCall.{IsLineCall, c_line_status};
ghost use Rattle.capi.specs.LineLists.{AreCoverLines, IsListFor, IsListingFor, IsNextListed, IsTaken, kind_by};
ghost use Rattle.capi.specs.LineLists.{line_end, symbols_of};
ghost use Rattle.rulelines.specs.MissLists.{AreMissesOf};
ghost use Rattle.rulelines.specs.LineSets.{AreRuleLines, IsFirstStep, IsLineAfter, IsLineIn, IsSomeLine};
ghost use Rattle.rulelines.specs.SampleLines.{AreSampleLines};
ghost use Rattle.coverlines.specs.CoverLines.{line_items};
ghost use Rattle.std.specs.Vec.Iter.{into_iter_items};

use abnfcheck::SoundAbnf;
use abnfrun::{AbnfSettings, Alphabet};
use coverlines::{CoverLine, LineBounds, cover_lines};
use memoryrun::lay;
use rulelines::{Lines, Lots, MissSet, Misses, NextLine, line_bytes};
use ruletable::Memory;
use std::alloc::Global;
use std::vec::IntoIter;
use toolrun::Status;

/// How many entries the states of a grammar may have.
const ROOM: usize = 500_000;

/// The next line.
#[repr(C)]
#[derive(Clone, Copy)]
pub struct CLine {
    /// How many bytes it has; else 0.
    pub len: usize,
    /// 0: there is a line; 1: there is none; 3: the grammar has too many states; 5: an allocation failed;
    /// `BAD_SETTINGS`: nothing is open.
    pub status: u8,
}

/// Which lines are listed.
#[derive(Clone, Copy)]
pub(crate) enum ListKind {
    /// Those that the rule derives.
    Derived,
    /// Near ones that it does not; with wrong symbols next to those that can follow, too, if that is asked for.
    Missed(bool),
    /// Some that it derives, by lot from this seed.
    Drawn(u64),
    /// Those that it derives and that have only the first of symbols that no set distinguishes.
    Sampled,
    /// Some that it derives: one of them reaches each goal.
    Covering,
}

/// Lines of a rule, one after another.
#[derive(Drop)]
pub enum LineList {
    /// Those that the rule derives.
    Derived(Lines),
    /// Near ones that it does not.
    Missed(Misses),
    /// Some that it derives, by lot.
    Drawn(Lines, Lots),
    /// Those of a list that are left.
    Listed(IntoIter<Vec<u32>>),
}

/// Lines that C lists.
#[derive(Drop)]
pub struct Listing {
    /// The lines; none if the grammar has too many states.
    pub list: Option<LineList>,
    /// The alphabet of lines.
    pub letters: Alphabet,
    /// The last line that was returned, if there is one.
    pub last: Option<Vec<u32>>,
}

/// Returns which lines a number asks for. Those by lot are drawn from this seed.
pub(crate) fn kind_of(which: u8, seed: u64) -> Option<ListKind>
    ensures { result ≡ kind_by which seed }
{
    match which {
        0 => Some(ListKind::Derived),
        1 => Some(ListKind::Missed(false)),
        2 => Some(ListKind::Missed(true)),
        3 => Some(ListKind::Drawn(seed)),
        4 => Some(ListKind::Sampled),
        5 => Some(ListKind::Covering),
        _ => None,
    }
}

/// Returns the result of a call that gives no line: this status.
pub(crate) fn no_line(status: u8) -> CLine
    ensures { result ≡ c_line_status status }
{
    CLine { len: 0, status }
}

/// Returns the byte that ends a line.
fn end_byte(settings: &AbnfSettings<'_>) -> u8
    ensures { result ≡ line_end settings.now.options.nul }
{
    if settings.options.nul { 0 } else { b'\n' }
}

/// Returns the lines that the judged rule of a grammar derives, as settings ask, before the first one; `None` if it has
/// too many states. `Memory` if an allocation fails.
fn derived_lines(
    alloc: Global,
    grammar: &SoundAbnf,
    settings: &AbnfSettings<'_>,
) -> Result<Option<Lines>, Memory>
    ensures { IfOk result (λ reported. IfSome reported (AreRuleLines settings.now.options.letters
        (line_end settings.now.options.nul) settings.now.limit (rules_of grammar.now.rules) grammar.now.judged)) }
{
    let end = end_byte(settings);
    let limit = settings.limit as u32;
    Lines::new(alloc, grammar, settings.options.letters, end, limit, ROOM)
}

/// Returns those of the lines of `derived_lines` that have only the first of symbols that no set distinguishes, before
/// the first one; `None` if the grammar has too many states. `Memory` if an allocation fails.
fn sampled_lines(
    alloc: Global,
    grammar: &SoundAbnf,
    settings: &AbnfSettings<'_>,
) -> Result<Option<Lines>, Memory>
    ensures { IfOk result (λ reported. IfSome reported (AreSampleLines settings.now.options.letters
        (line_end settings.now.options.nul) settings.now.limit (rules_of grammar.now.rules) grammar.now.judged)) }
{
    let end = end_byte(settings);
    let limit = settings.limit as u32;
    Lines::of_samples(alloc, grammar, settings.options.letters, end, limit, ROOM)
}

/// Returns near lines that the judged rule of a grammar does not derive, as settings ask, before the first one; `None`
/// if it has too many states. `Memory` if an allocation fails.
fn missed_lines(
    alloc: Global,
    edges: bool,
    grammar: &SoundAbnf,
    settings: &AbnfSettings<'_>,
) -> Result<Option<Misses>, Memory>
    ensures { IfOk result (λ reported. IfSome reported (AreMissesOf settings.now.options.letters
        (line_end settings.now.options.nul) settings.now.limit edges (rules_of grammar.now.rules)
        grammar.now.judged)) }
{
    let set = MissSet {
        alphabet: settings.options.letters,
        terminator: end_byte(settings),
        limit: settings.limit as u32,
        edges,
    };
    Misses::new(alloc, grammar, set, ROOM)
}

/// Returns lines without the goals that they reach. `Memory` if an allocation fails.
fn without_goals(alloc: Global, lines: Vec<CoverLine<'_>>) -> Result<Vec<Vec<u32>>, Memory>
    ensures { IfOk result (λ all. symbols_of all.items ≡ line_items lines.entry.items) }
{
    let mut all = Vec::with_capacity(alloc, lines.len())?;
    for line in lines {
        all.push(line.line)?;
    }
    Ok(all)
}

/// Returns lines that the judged rule of a grammar derives, as settings ask: one of them reaches each goal that some
/// line reaches. `Memory` if an allocation fails.
fn covering_lines(
    alloc: Global,
    grammar: &SoundAbnf,
    settings: &AbnfSettings<'_>,
) -> Result<Vec<Vec<u32>>, Memory>
    ensures { IfOk result (λ all. AreCoverLines settings.now.options.letters
        (line_end settings.now.options.nul) settings.now.limit (rules_of grammar.now.rules) grammar.now.judged
        (symbols_of all.items)) }
{
    let bounds = LineBounds {
        alphabet: settings.options.letters,
        terminator: u32::from(end_byte(settings)),
        limit: settings.limit,
    };
    let cover = cover_lines(alloc, grammar, bounds)?;
    without_goals(alloc, cover.lines)
}

/// Returns the lines that settings ask for of a grammar, before the first one; `None` if it has too many states.
/// `Memory` if an allocation fails.
fn list_of(
    alloc: Global,
    kind: ListKind,
    grammar: &SoundAbnf,
    settings: &AbnfSettings<'_>,
) -> Result<Option<LineList>, Memory>
    ensures { IfOk result (λ reported. IfSome reported (IsListFor kind settings.now.options.letters
        (line_end settings.now.options.nul) settings.now.limit (rules_of grammar.now.rules) grammar.now.judged)) }
{
    match kind {
        ListKind::Derived => match derived_lines(alloc, grammar, settings)? {
            Some(lines) => Ok(Some(LineList::Derived(lines))),
            None => Ok(None),
        },
        ListKind::Missed(edges) => match missed_lines(alloc, edges, grammar, settings)? {
            Some(misses) => Ok(Some(LineList::Missed(misses))),
            None => Ok(None),
        },
        ListKind::Drawn(seed) => match derived_lines(alloc, grammar, settings)? {
            Some(lines) => Ok(Some(LineList::Drawn(lines, Lots::new(seed)))),
            None => Ok(None),
        },
        ListKind::Sampled => match sampled_lines(alloc, grammar, settings)? {
            Some(lines) => Ok(Some(LineList::Derived(lines))),
            None => Ok(None),
        },
        ListKind::Covering => {
            let lines = covering_lines(alloc, grammar, settings)?;
            Ok(Some(LineList::Listed(lines.into_iter())))
        }
    }
}

/// Returns what C lists of a grammar as settings ask, before the first line. `Memory` if an allocation fails.
pub(crate) fn listing_of(
    alloc: Global,
    kind: ListKind,
    grammar: &SoundAbnf,
    settings: &AbnfSettings<'_>,
) -> Result<Listing, Memory>
    ensures { IfOk result (IsListingFor kind settings.now grammar.now) }
{
    let list = list_of(alloc, kind, grammar, settings)?;
    Ok(Listing {
        list,
        letters: settings.options.letters,
        last: None,
    })
}

/// Returns the line after the last one; the first, if there is none. `None` if there is no room for the states.
/// `Memory` if an allocation fails.
fn derived_step(lines: &mut Lines, last: &Option<Vec<u32>>) -> Result<Option<NextLine>, Memory>
    ensures same { lines.new ≡ lines.old }
    ensures next { IfOk result (λ reported. IfSome reported (IsNextListed (LineList.Derived lines.old) last.now
        (LineList.Derived lines.old))) }
{
    match last {
        None => lines.first(),
        Some(last) => lines.after(last.as_slice()),
    }
}

/// Returns the next of the lines of a list that are left.
fn listed_step(left: &mut IntoIter<Vec<u32>>) -> NextLine
    ensures { IsTaken (into_iter_items left.old) (into_iter_items left.new) result }
{
    match left.next() {
        Some(line) => NextLine::Line(line),
        None => NextLine::Done,
    }
}

/// Returns the next line of a list. `None` if there is no room for the states. `Memory` if an allocation fails.
fn step(list: &mut LineList, last: &Option<Vec<u32>>) -> Result<Option<NextLine>, Memory>
    ensures { IfOk result (λ reported. IfSome reported (IsNextListed list.old last.now list.new)) }
{
    match list {
        LineList::Derived(lines) => derived_step(lines, last),
        LineList::Missed(misses) => misses.next(),
        LineList::Drawn(lines, lots) => lines.by_lot(lots),
        LineList::Listed(left) => Ok(Some(listed_step(left))),
    }
}

/// Lays the next line into the buffer, as much of it as there is room for.
pub(crate) fn next_line(alloc: Global, listing: &mut Listing, room: &mut [u8]) -> CLine
    ensures { IsLineCall (record { old = room.old; new = room.new }) result (Some listing.old) (Some listing.new) }
{
    let Some(mut list) = listing.list.take() else {
        return no_line(Status::Overlong.code());
    };
    let found = step(&mut list, &listing.last);
    listing.list = Some(list);
    match found {
        Ok(Some(NextLine::Line(line))) => match line_bytes(
            alloc,
            listing.letters,
            line.as_slice(),
        ) {
            Ok(bytes) => {
                listing.last = Some(line);
                CLine {
                    len: lay(bytes.as_slice(), room),
                    status: Status::Done.code(),
                }
            }
            Err(Memory) => no_line(Status::NoMemory.code()),
        },
        Ok(Some(NextLine::Done)) => no_line(Status::NoMatch.code()),
        Ok(None) => no_line(Status::Overlong.code()),
        Err(Memory) => no_line(Status::NoMemory.code()),
    }
}

//! The lines of a grammar, written one after another.
ghost use Rattle.std.specs.Prelude.{◌≡◌, ◌∷◌, ◌++◌, ℕ, List, [], IfOk, MatchResult, OnErr, OnOk, false, length};
ghost use Rattle.abnfg.specs.ListedLines.{AreWritten, EndsExplained, HaltEnds, IsHaltAt, IsRecordWritten};
ghost use Rattle.abnfg.specs.ListedLines.{IsWrittenNext, LinesReply, end_of, record_text};
ghost use Rattle.abnfg.specs.ListModes.{AreExplained, AreFirstAsked, AreLinesKept, AreWholeAsked, HasReturned};
ghost use Rattle.abnfg.specs.ListModes.{WithKept, explained_asked, reaches_goals};
ghost use Rattle.abnfg.specs.ListRefusals.{AreRefusalsFrom, explains_by};
ghost use Rattle.abnfg.specs.declared.lines.ListSettings.{ListSettings as the_settings};
ghost use Rattle.abnfread.specs.AbnfViews.{rules_of};
ghost use Rattle.abnfread.specs.Element.{Rule};
ghost use Rattle.abnfrun.specs.AbnfReply.{unit_for};
ghost use Rattle.rulelines.specs.MissLists.{item_lines};
ghost use Rattle.ruletable.specs.Writing.{Flags};
ghost use Rattle.toolrun.specs.Stopped.{Fulfils};
ghost use Rattle.toolrun.specs.Stream.{no_input, passed};

use crate::covered::list_cover;
use crate::refusals::explain_lines;
use crate::source::LineSource;
use abnfcheck::SoundAbnf;
use refusedlines::LineUnit;
use rulelines::{NextLine, line_bytes};
use ruletable::{Alphabet, Memory, Sink, WriteFault, write_whole};
use std::alloc::Global;
use toolrun::{Ending, ReportedRefusals, Status, Stop};

/// Which lines are listed. `All`: those that the rule derives. `Cover`: of these, some that reach each goal. `Random`:
/// some, by lot. `Miss`: near ones that it does not derive.
#[derive(Clone, Copy)]
pub(crate) enum ListMode {
    All,
    Cover,
    Miss,
    Random,
}

/// Which lines are listed, and how.
#[derive(Clone, Copy)]
pub(crate) struct ListSettings<'a> {
    /// Which lines.
    pub(crate) mode: ListMode,
    /// The rule; the first one if there is no name.
    pub(crate) rule: Option<&'a str>,
    /// The alphabet of lines.
    pub(crate) letters: Alphabet,
    /// The greatest length of a line, in symbols.
    pub(crate) limit: u32,
    /// The greatest number of lines.
    pub(crate) count: u32,
    /// Whether a NUL byte ends a line, in place of LF.
    pub(crate) nul: bool,
    /// Whether lines in order have only the first of symbols that no set distinguishes.
    pub(crate) alike: bool,
    /// Whether each symbol that cannot follow a prefix is listed after it, next to one that can.
    pub(crate) edges: bool,
    /// Whether it is explained why lines that miss the rule are rejected, and which goals others reach.
    pub(crate) explain: bool,
    /// The seed of lines by lot.
    pub(crate) seed: u64,
}

/// Why no more lines are written.
#[derive(Clone, Copy)]
pub(crate) enum Halt {
    /// All lines that are asked for are written.
    All,
    /// There is no line.
    Nothing,
    /// There is no room for more states.
    TooMany,
    /// An allocation failed.
    NoMemory,
}

/// Returns the byte that ends a line.
pub(crate) fn end_byte(settings: &ListSettings<'_>) -> u8
    ensures { result ≡ end_of settings.now.nul }
{
    if settings.nul { 0 } else { b'\n' }
}

/// Returns the text of a line with its end. `Memory` if an allocation fails.
pub(crate) fn line_text(
    alloc: Global,
    settings: &ListSettings<'_>,
    line: &[u32],
) -> Result<Vec<u8>, Memory>
    ensures { IfOk result (λ text. text.items ≡ record_text settings.now.letters (end_of settings.now.nul) line.now) }
{
    let mut text = line_bytes(alloc, settings.letters, line)?;
    text.push(end_byte(settings))?;
    Ok(text)
}

// Returns the next line after so many, or why there is none.
fn next_line(source: &mut LineSource, done: u32) -> Result<Vec<u32>, Halt>
    ensures { (settings : the_settings) (rules : List Rule) (id : ℕ) (ws : List (List ℕ)) →
        HasReturned settings rules id source.old ws → length ws ≡ done →
        MatchResult result (λ line. HasReturned settings rules id source.new (ws ++ line.items ∷ []))
        (IsHaltAt (AreWholeAsked settings rules id) ws) }
{
    match source.next() {
        Ok(Some(NextLine::Line(line))) => Ok(line),
        Ok(Some(NextLine::Done)) => Err(if done == 0 { Halt::Nothing } else { Halt::All }),
        Ok(None) => Err(Halt::TooMany),
        Err(Memory) => Err(Halt::NoMemory),
    }
}

// Returns whether the lines are explained.
fn explains(settings: &ListSettings<'_>) -> bool
    ensures { result ≡ explains_by settings.now.mode settings.now.explain }
{
    match settings.mode {
        ListMode::Miss => settings.explain,
        ListMode::All | ListMode::Cover | ListMode::Random => false,
    }
}

// Keeps the bytes of a line, if lines are explained. `Memory` if an allocation fails; then nothing is kept.
fn keep_line(
    alloc: Global,
    settings: &ListSettings<'_>,
    line: &[u32],
    kept: &mut Vec<Vec<u8>>,
) -> Result<(), Memory>
    ensures ok { OnOk result (item_lines kept.new.items ≡ item_lines kept.old.items
        ++ explained_asked settings.now (line.now ∷ [])) }
    ensures err { OnErr result (item_lines kept.new.items ≡ item_lines kept.old.items) }
{
    if !explains(settings) {
        return Ok(());
    }
    let bytes = line_bytes(alloc, settings.letters, line)?;
    kept.push(bytes)?;
    Ok(())
}

// Writes a line with its end, and keeps its bytes, if lines are explained. Returns `NoMemory` if an allocation fails;
// then nothing is kept. `WriteFault` if the output fails; then a prefix is written.
fn write_record<O: Sink>(
    alloc: Global,
    settings: &ListSettings<'_>,
    line: &[u32],
    kept: &mut Vec<Vec<u8>>,
    out: &mut O,
) -> Result<Option<Halt>, WriteFault>
    requires { O.failed out.old ≡ false }
    ensures next { IsRecordWritten (item_lines kept.old.items) (item_lines kept.new.items)
        (explained_asked settings.now (line.now ∷ []))
        (record_text settings.now.letters (end_of settings.now.nul) line.now) (O.contents out.old) (O.contents out.new)
        result }
    ensures flag { Flags (O.failed out.old) (O.failed out.new) result }
{
    let Ok(text) = line_text(alloc, settings, line) else {
        return Ok(Some(Halt::NoMemory));
    };
    let Ok(()) = keep_line(alloc, settings, line, kept) else {
        return Ok(Some(Halt::NoMemory));
    };
    match write_whole(out, &text) {
        Ok(()) => Ok(None),
        Err(fault) => Err(fault),
    }
}

// Writes the next line after so many, and returns why there is none. Keeps its bytes, if lines are explained.
// `WriteFault` if the output fails; then a prefix of the line is written.
fn write_next<O: Sink>(
    alloc: Global,
    settings: &ListSettings<'_>,
    source: &mut LineSource,
    done: u32,
    kept: &mut Vec<Vec<u8>>,
    out: &mut O,
) -> Result<Option<Halt>, WriteFault>
    requires { O.failed out.old ≡ false }
    ensures next { (rules : List Rule) (id : ℕ) (ws : List (List ℕ)) →
        HasReturned settings.now rules id source.old ws → AreLinesKept settings.now kept.old.items ws →
        length ws ≡ done →
        IsWrittenNext (HasReturned settings.now rules id source.new) (AreLinesKept settings.now kept.new.items)
        (AreWholeAsked settings.now rules id) (record_text settings.now.letters (end_of settings.now.nul)) ws
        (O.contents out.old) (O.contents out.new) result }
    ensures flag { Flags (O.failed out.old) (O.failed out.new) result }
{
    match next_line(source, done) {
        Ok(line) => write_record(alloc, settings, &line, kept, out),
        Err(halt) => Ok(Some(halt)),
    }
}

// Writes lines, as many as are asked for, and returns why no more are written. Keeps their bytes, if they are
// explained. `WriteFault` if the output fails; then a prefix of a line is written after whole lines.
fn write_lines<O: Sink>(
    alloc: Global,
    settings: &ListSettings<'_>,
    source: &mut LineSource,
    kept: &mut Vec<Vec<u8>>,
    out: &mut O,
) -> Result<Halt, WriteFault>
    requires { O.failed out.old ≡ false }
    ensures lines { (rules : List Rule) (id : ℕ) → HasReturned settings.now rules id source.old [] →
        AreLinesKept settings.now kept.old.items [] →
        AreWritten (WithKept settings.now kept.new.items (AreFirstAsked settings.now rules id))
        (AreWholeAsked settings.now rules id)
        (record_text settings.now.letters (end_of settings.now.nul)) settings.now.count (O.contents out.old)
        (O.contents out.new) result }
    ensures flag { Flags (O.failed out.old) (O.failed out.new) result }
{
    for done in 0..settings.count {
        match write_next(alloc, settings, source, done, kept, out) {
            Ok(None) => {}
            Ok(Some(halt)) => return Ok(halt),
            Err(fault) => return Err(fault),
        }
    }
    Ok(Halt::All)
}

/// Returns what explanations call the lines: records, if NUL ends them.
pub(crate) fn unit_of(settings: &ListSettings<'_>) -> LineUnit
    ensures { result ≡ unit_for settings.now.nul }
{
    if settings.nul {
        LineUnit::Record
    } else {
        LineUnit::Line
    }
}

// Returns the end of a run that explains lines, and then writes a message; or that has no memory for that.
fn explained(
    alloc: Global,
    settings: &ListSettings<'_>,
    grammar: &SoundAbnf,
    lines: &[Vec<u8>],
    message: &[u8],
    status: Status,
) -> Ending
    ensures { EndsExplained (AreRefusalsFrom (unit_for settings.now.nul) settings.now.letters
        (rules_of grammar.now.rules) grammar.now.judged 1 (item_lines lines.now)) message.now status result }
{
    let mut why = Vec::new(alloc);
    if why.extend_from_slice(message).is_err() {
        return Ending::Plain(Stop::NoMemory);
    }
    let unit = unit_of(settings);
    let Ok(text) = explain_lines(alloc, settings.letters, unit, grammar, lines) else {
        return Ending::Plain(Stop::NoMemory);
    };
    Ending::Explained {
        reported: ReportedRefusals { text, more: 0 },
        stop: Stop::Quiet(status),
        why,
    }
}

// Returns the end of a run that writes no more lines, and explains those that were kept.
fn ending_of(
    alloc: Global,
    settings: &ListSettings<'_>,
    grammar: &SoundAbnf,
    halt: Halt,
    kept: &[Vec<u8>],
) -> Ending
    ensures { HaltEnds (AreRefusalsFrom (unit_for settings.now.nul) settings.now.letters (rules_of grammar.now.rules)
        grammar.now.judged 1 (item_lines kept.now)) halt result }
{
    match halt {
        Halt::All => explained(alloc, settings, grammar, kept, b"", Status::Done),
        Halt::Nothing => Ending::Plain(Stop::Quiet(Status::NoMatch)),
        Halt::TooMany => {
            let message = b"too many stacks\n";
            explained(alloc, settings, grammar, kept, message, Status::Overlong)
        }
        Halt::NoMemory => Ending::Plain(Stop::NoMemory),
    }
}

// Writes the lines of a grammar that are asked for, and returns why no more are written. Keeps the bytes of those that
// are explained. `WriteFault` if the output fails; then a prefix of a line is written after whole lines.
fn write_asked<O: Sink>(
    alloc: Global,
    settings: &ListSettings<'_>,
    grammar: &SoundAbnf,
    kept: &mut Vec<Vec<u8>>,
    out: &mut O,
) -> Result<Halt, WriteFault>
    requires mode { reaches_goals settings.now.mode ≡ false }
    requires fresh { O.failed out.old ≡ false }
    requires none { kept.old.items ≡ [] }
    ensures lines { AreWritten (WithKept settings.now kept.new.items (AreFirstAsked settings.now
        (rules_of grammar.now.rules) grammar.now.judged))
        (AreWholeAsked settings.now (rules_of grammar.now.rules) grammar.now.judged)
        (record_text settings.now.letters (end_of settings.now.nul)) settings.now.count (O.contents out.old)
        (O.contents out.new) result }
    ensures flag { Flags (O.failed out.old) (O.failed out.new) result }
{
    match LineSource::new(alloc, settings, grammar) {
        Ok(Some(mut source)) => write_lines(alloc, settings, &mut source, kept, out),
        Ok(None) => Ok(Halt::TooMany),
        Err(Memory) => Ok(Halt::NoMemory),
    }
}

// Writes the lines of a source that are asked for, each with its end, and returns how the run ends: with why they are
// rejected, if that is asked for. `WriteFault` if the output fails; then a prefix of a line is written after whole
// lines.
fn list_source<O: Sink>(
    alloc: Global,
    settings: &ListSettings<'_>,
    grammar: &SoundAbnf,
    out: &mut O,
) -> Result<Ending, WriteFault>
    requires mode { reaches_goals settings.now.mode ≡ false }
    requires fresh { O.failed out.old ≡ false }
    ensures { Fulfils (λ input. LinesReply (AreFirstAsked settings.now (rules_of grammar.now.rules) grammar.now.judged)
        (AreWholeAsked settings.now (rules_of grammar.now.rules) grammar.now.judged)
        (AreExplained settings.now (rules_of grammar.now.rules) grammar.now.judged)
        (record_text settings.now.letters (end_of settings.now.nul)) settings.now.count) no_input
        (passed O.contents O.failed out.old out.new) result }
{
    let mut kept = Vec::new(alloc);
    match write_asked(alloc, settings, grammar, &mut kept, out) {
        Ok(halt) => Ok(ending_of(alloc, settings, grammar, halt, &kept)),
        Err(fault) => Err(fault),
    }
}

/// Writes the lines that are asked for of those by the judged rule of a grammar, each with its end, and returns how the
/// run ends: with the explanations of lines, if they are asked for. `WriteFault` if the output fails; then a prefix of
/// a line is written after whole lines.
pub(crate) fn list_lines<O: Sink>(
    alloc: Global,
    settings: &ListSettings<'_>,
    grammar: &SoundAbnf,
    out: &mut O,
) -> Result<Ending, WriteFault>
    requires { O.failed out.old ≡ false }
    ensures { Fulfils (λ input. LinesReply (AreFirstAsked settings.now (rules_of grammar.now.rules) grammar.now.judged)
        (AreWholeAsked settings.now (rules_of grammar.now.rules) grammar.now.judged)
        (AreExplained settings.now (rules_of grammar.now.rules) grammar.now.judged)
        (record_text settings.now.letters (end_of settings.now.nul)) settings.now.count) no_input
        (passed O.contents O.failed out.old out.new) result }
{
    match settings.mode {
        ListMode::Cover => list_cover(alloc, settings, grammar, out),
        ListMode::All | ListMode::Miss | ListMode::Random => {
            list_source(alloc, settings, grammar, out)
        }
    }
}

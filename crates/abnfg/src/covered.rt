//! Lines that reach the goals of a grammar, and what they are for.
ghost use Rattle.std.specs.Prelude.{◌≡◌, ◌≤◌, [], IfOk, false, length, take};
ghost use Rattle.abnfg.specs.CoverGoals.{asked_text};
ghost use Rattle.abnfg.specs.CoverLists.{AreAllWritten, AreMissedBy, IsCoverOf, IsLineWritten, listed_status};
ghost use Rattle.abnfg.specs.ListedLines.{EndsExplained, LinesReply, end_of, record_text};
ghost use Rattle.abnfg.specs.ListModes.{AreExplained, AreFirstAsked, AreWholeAsked};
ghost use Rattle.abnfread.specs.AbnfViews.{rules_of};
ghost use Rattle.abnfrun.specs.AbnfReply.{unit_for};
ghost use Rattle.coverlines.specs.CoverLines.{line_items};
ghost use Rattle.ruletable.specs.Writing.{Flags};
ghost use Rattle.toolrun.specs.Stopped.{Fulfils};
ghost use Rattle.toolrun.specs.Stream.{no_input, passed};

use crate::goal_texts::explain_cover;
use crate::lines::{ListMode, ListSettings, end_byte, line_text, unit_of};
use abnfcheck::SoundAbnf;
use coverlines::{Cover, CoverLine, LineBounds, cover_lines};
use ruletable::{Memory, Sink, WriteFault, write_whole};
use std::alloc::Global;
use toolrun::{Ending, ReportedRefusals, Status, Stop};

// Returns lines that reach the goals of a grammar, and the goals that no line reaches. `Memory` if an allocation fails.
fn asked_cover<'a>(
    alloc: Global,
    settings: &ListSettings<'_>,
    grammar: &'a SoundAbnf,
) -> Result<Cover<'a>, Memory>
    ensures lines { IfOk result (λ cover. IsCoverOf settings.now (rules_of grammar.now.rules) grammar.now.judged
        cover.lines.items) }
    ensures missed { IfOk result (λ cover. AreMissedBy settings.now (rules_of grammar.now.rules) grammar.now.judged
        cover.missed.items) }
{
    let bounds = LineBounds {
        alphabet: settings.letters,
        terminator: u32::from(end_byte(settings)),
        limit: settings.limit as usize,
    };
    cover_lines(alloc, grammar, bounds)
}

// Writes a line with its end. Returns whether it is written; if not, an allocation failed. `WriteFault` if the output
// fails; then a prefix is written.
fn write_line<O: Sink>(
    alloc: Global,
    settings: &ListSettings<'_>,
    line: &[u32],
    out: &mut O,
) -> Result<bool, WriteFault>
    requires { O.failed out.old ≡ false }
    ensures line { IsLineWritten (record_text settings.now.letters (end_of settings.now.nul) line.now)
        (O.contents out.old) (O.contents out.new) result }
    ensures flag { Flags (O.failed out.old) (O.failed out.new) result }
{
    let Ok(text) = line_text(alloc, settings, line) else {
        return Ok(false);
    };
    match write_whole(out, &text) {
        Ok(()) => Ok(true),
        Err(fault) => Err(fault),
    }
}

// Writes lines with their ends. Returns whether all are written; if not, an allocation failed after the first ones.
// `WriteFault` if the output fails; then a prefix of their text is written.
fn write_covered<O: Sink>(
    alloc: Global,
    settings: &ListSettings<'_>,
    lines: &[CoverLine<'_>],
    out: &mut O,
) -> Result<bool, WriteFault>
    requires { O.failed out.old ≡ false }
    ensures lines { AreAllWritten (record_text settings.now.letters (end_of settings.now.nul)) lines.now
        (O.contents out.old) (O.contents out.new) result }
    ensures flag { Flags (O.failed out.old) (O.failed out.new) result }
{
    for line in lines {
        match write_line(alloc, settings, &line.line, out) {
            Ok(true) => {}
            Ok(false) => return Ok(false),
            Err(fault) => return Err(fault),
        }
    }
    Ok(true)
}

// Returns the status of a run that lists all lines that reach goals, or some of them.
fn cover_status(lines: &[CoverLine<'_>]) -> Status
    ensures { result ≡ listed_status lines.now }
{
    if lines.is_empty() {
        Status::NoMatch
    } else {
        Status::Done
    }
}

// Returns the end of a run that has listed the first lines that reach goals: it says what they are for, and which goals
// no line reaches, if that is asked for. Or it has no memory for that.
fn cover_ending(
    alloc: Global,
    settings: &ListSettings<'_>,
    grammar: &SoundAbnf,
    cover: &Cover<'_>,
    count: usize,
) -> Ending
    requires { count ≤ length cover.now.lines.items }
    ensures { EndsExplained (λ text. text ≡ asked_text settings.now.explain (unit_for settings.now.nul)
        (rules_of grammar.now.rules) (take count cover.now.lines.items) cover.now.missed.items) []
        (listed_status cover.now.lines.items) result }
{
    let status = cover_status(&cover.lines);
    if !settings.explain {
        return Ending::Plain(Stop::Quiet(status));
    }
    let first = &cover.lines[..count];
    let unit = unit_of(settings);
    let Ok(text) = explain_cover(alloc, unit, grammar.rules(), first, &cover.missed) else {
        return Ending::Plain(Stop::NoMemory);
    };
    Ending::Explained {
        reported: ReportedRefusals { text, more: 0 },
        stop: Stop::Quiet(status),
        why: Vec::new(alloc),
    }
}

/// Writes lines that reach the goals of a grammar, as many as are asked for, each with its end, and returns how the run
/// ends: with what they are for, and the goals that no line reaches, if that is asked for. `WriteFault` if the output
/// fails; then a prefix of a line is written after whole lines.
pub(crate) fn list_cover<O: Sink>(
    alloc: Global,
    settings: &ListSettings<'_>,
    grammar: &SoundAbnf,
    out: &mut O,
) -> Result<Ending, WriteFault>
    requires mode { settings.now.mode ≡ ListMode.Cover }
    requires fresh { O.failed out.old ≡ false }
    ensures { Fulfils (λ input. LinesReply (AreFirstAsked settings.now (rules_of grammar.now.rules) grammar.now.judged)
        (AreWholeAsked settings.now (rules_of grammar.now.rules) grammar.now.judged)
        (AreExplained settings.now (rules_of grammar.now.rules) grammar.now.judged)
        (record_text settings.now.letters (end_of settings.now.nul)) settings.now.count) no_input
        (passed O.contents O.failed out.old out.new) result }
{
    let Ok(cover) = asked_cover(alloc, settings, grammar) else {
        return Ok(Ending::Plain(Stop::NoMemory));
    };
    let count = cover.lines.len().min(settings.count as usize);
    match write_covered(alloc, settings, &cover.lines[..count], out) {
        Ok(true) => Ok(cover_ending(alloc, settings, grammar, &cover, count)),
        Ok(false) => Ok(Ending::Plain(Stop::NoMemory)),
        Err(fault) => Err(fault),
    }
}

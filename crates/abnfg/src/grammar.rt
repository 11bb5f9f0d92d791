//! Opens a grammar, reports the notes on it, and lists its lines.
ghost use Rattle.std.specs.Prelude.{◌≡◌, IfSome, false, option_copied};
ghost use Rattle.abnfcheck.specs.AbnfGrammar.{IsSoundGrammar};
ghost use Rattle.abnfg.specs.ListAnswers.{JudgedReply, OpenedStates, TextStates};
ghost use Rattle.abnfread.specs.AbnfViews.{rules_of};
ghost use Rattle.toolrun.specs.Right.{RunIsRight};
ghost use Rattle.toolrun.specs.Status.{code_of};
ghost use Rattle.toolrun.specs.Stop.{unread};
ghost use Rattle.toolrun.specs.Stopped.{Fulfils};
ghost use Rattle.toolrun.specs.Stream.{no_input, passed};

use crate::lines::{ListSettings, list_lines};
use abnfcheck::{AllRules, SoundAbnf};
use abnfrun::{
    AbnfLanguage, AbnfOptions, Alphabet, DEFAULT_LIMIT, Mode, Printed, Settings as Opening,
};
use ruletable::{ReadFault, Sink, WriteFault, write_whole};
use std::alloc::Global;
use toolrun::{Ending, Opened, Status, Stop, close_run, conclude_run, end_run, open};

// Returns the settings by which a grammar is opened: from the rule of that name, without explanations.
fn opening_settings(rule: Option<&str>) -> Opening<'_, AbnfOptions>
    ensures start { option_copied result.start ≡ option_copied rule.entry }
    ensures plain { result.explain ≡ false }
{
    Opening {
        mode: Mode::Check,
        limit: DEFAULT_LIMIT,
        start: rule,
        input: "-",
        explain: false,
        options: AbnfOptions {
            letters: Alphabet::Bytes,
            viable: false,
            nul: false,
            keeps: false,
            printed: Printed::Answers,
            named: false,
            numbered: false,
            quiet: false,
            line_buffered: false,
            budget: None,
        },
    }
}

// Returns the stop of a run whose grammar was not opened.
fn stop_unopened(fault: ReadFault) -> Stop
    ensures { result ≡ unread fault }
{
    match fault {
        ReadFault::Memory => Stop::NoMemory,
        _ => Stop::Refused(fault),
    }
}

// Writes the lines of rules by the judged one; nothing if notes reject them. `WriteFault` if the output fails.
fn write_judged<O: Sink>(
    alloc: Global,
    settings: &ListSettings<'_>,
    rules: AllRules,
    judged: Option<usize>,
    out: &mut O,
) -> Result<Ending, WriteFault>
    requires sound { IfSome judged (λ id. IsSoundGrammar (record { rules = rules.rules; judged = id })) }
    requires fresh { O.failed out.old ≡ false }
    ensures { Fulfils (λ input. JudgedReply settings.now (rules_of rules.rules) judged) no_input
        (passed O.contents O.failed out.old out.new) result }
{
    match judged {
        Some(id) => list_lines(alloc, settings, &SoundAbnf::new(rules.rules, id), out),
        None => Ok(Ending::Plain(Stop::Quiet(Status::Refused))),
    }
}

// Writes the notes on a grammar that was opened, and then its lines, and ends.
fn list_opened<O: Sink, E: Sink>(
    alloc: Global,
    settings: &ListSettings<'_>,
    opened: Opened<AllRules, usize>,
    out: &mut O,
    err: &mut E,
) -> Status
    requires sound { IfSome opened.judged (λ id. IsSoundGrammar (record { rules = opened.rules.rules; judged = id })) }
    requires out_is_fresh { O.failed out.old ≡ false }
    requires err_is_fresh { E.failed err.old ≡ false }
    ensures right { RunIsRight (OpenedStates settings.now opened.diagnostics.items (rules_of opened.rules.rules)
        opened.judged) no_input (passed O.contents O.failed out.old out.new)
        (passed E.contents E.failed err.old err.new) (code_of result) }
{
    if write_whole(err, &opened.diagnostics).is_err() {
        return close_run(out, err);
    }
    let ending = write_judged(alloc, settings, opened.rules, opened.judged, out);
    conclude_run(ending, out, err)
}

/// Lists the lines of a grammar's text: reports its fault, or the notes on it, and writes the lines that are asked for,
/// unless notes reject the grammar. Then it ends the run.
pub(crate) fn list_text<O: Sink, E: Sink>(
    alloc: Global,
    settings: &ListSettings<'_>,
    text: &[u8],
    out: &mut O,
    err: &mut E,
) -> Status
    requires out_is_fresh { O.failed out.old ≡ false }
    requires err_is_fresh { E.failed err.old ≡ false }
    ensures right { RunIsRight (TextStates text.now settings.now) no_input
        (passed O.contents O.failed out.old out.new) (passed E.contents E.failed err.old err.new) (code_of result) }
{
    let opening = opening_settings(settings.rule);
    match open::<AbnfLanguage>(alloc, text, &opening) {
        Ok(opened) => list_opened(alloc, settings, opened, out, err),
        Err(fault) => end_run(Ok(stop_unopened(fault)), out, err),
    }
}

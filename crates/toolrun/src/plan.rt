//! Plans for a grammar's text.
ghost use Rattle.std.specs.Prelude.{◌≡◌, ◌≢◌, ℕ, List, Option, Some, [], Err, IfOk, IfErr, IfSome, map, true};
ghost use Rattle.std.specs.Prelude.{option_copied};
ghost use Rattle.ruletable.specs.Notes.{Said, said_of};
ghost use Rattle.toolrun.specs.AskedPositions.{AreAsked};
ghost use Rattle.toolrun.specs.Plan.{IsPlanned, first_text};
ghost use Rattle.toolrun.specs.Stop.{unread};
ghost use Rattle.toolrun.specs.Tasks.{IsTask, task_does};
ghost use Rattle.toolrun.specs.ReportedNotes.{AreReportedBefore, HintedNotes};
ghost use Rattle.toolrun.specs.declared.settings.Mode.TheVariants.{Print};
ghost use Rattle.toolrun.specs.declared.status.Status.TheVariants.{Refused};
ghost use Rattle.toolrun.specs.declared.stop.Stop.TheVariants.{Quiet};
ghost use Rattle.toolrun.specs.declared.settings.Settings.{Settings as AllSettings};

use crate::language::{Checked, Language, ReadText};
use crate::opening::{CheckedText, read_checked};
use crate::reported::{HintText, NoteText, reported_hints, reported_notes};
use crate::settings::{Mode, Settings};
use crate::status::Status;
use crate::stop::{Stop, stop_unread};
use ruletable::{Memory, Note, ReadFault};
use std::alloc::Global;

/// The task with a grammar that follows its notes.
#[derive(Drop)]
pub enum Task<G, S> {
    /// Its canonical text is printed.
    Prints(G),
    /// It is run on the input.
    Runs(S),
}

/// The messages before any input is read.
#[derive(Drop)]
pub enum First {
    /// The notes on the grammar.
    Notes(Vec<Note>),
    /// Notes on the grammar, each with the lines that explain it.
    Reported(Vec<u8>),
    /// The fault of its text, and the lines that explain it.
    Fault { fault: ReadFault, why: Vec<u8> },
}

/// The plan for a grammar's text. It is made before any output, so that a run, a call from C and a run on windows share
/// it.
#[derive(Drop)]
pub struct Plan<G, S> {
    /// The messages to write first.
    pub first: First,
    /// The task to perform then, or the stop of a run that ends at once.
    pub task: Result<Task<G, S>, Stop>,
}

/// A grammar that is only to be printed.
#[derive(Drop)]
struct Printable<G, P> {
    /// The grammar.
    grammar: G,
    /// Where its text defines rules and mentions them, if explanations are asked for.
    positions: Option<P>,
    /// The notes on the rules that it defines again.
    again: Vec<Note>,
}

/// Reads a grammar's text to print it.
fn read_again<L: Language>(
    alloc: Global,
    text: &[u8],
    explain: bool,
) -> Result<Printable<L::Grammar, L::TextPositions>, ReadFault>
    ensures printable { IfOk result (λ p. L.is_printable text.now p.grammar (map said_of p.again.items)) }
    ensures positions { IfOk result (λ p. AreAsked L.are_text_positions explain text.now p.positions) }
    ensures read { IfOk result (λ p. L.is_read text.now p.grammar) }
    ensures fault { IfErr result (λ f. L.has_fault text.now f) }
{
    L::follows();
    let ReadText { grammar, positions } = L::read(alloc, text, explain)?;
    match L::redefinitions(alloc, &grammar) {
        Ok(again) => Ok(Printable {
            grammar,
            positions,
            again,
        }),
        Err(Memory) => Err(ReadFault::Memory),
    }
}

/// Makes the task with a checked grammar: makes the grammar ready to run, unless it was to be checked alone. `Memory`
/// if an allocation fails.
fn task_of<L: Language>(
    alloc: Global,
    mode: Mode,
    rules: L::Rules,
    judged: Option<L::Judged>,
) -> Result<Result<Task<L::Grammar, L::Sound>, Stop>, Memory>
    requires { IfSome judged (L.belongs rules) }
    ensures { IfOk result (IsTask (λ j sound. (text : List ℕ) (start : Option (List ℕ)) (notes : List Said)
        → L.is_checked text start notes rules (Some j) → L.is_ready text start notes sound) mode judged) }
{
    let Some(judged) = judged else {
        return Ok(Err(Stop::Quiet(Status::Refused)));
    };
    match mode {
        Mode::Run => {
            let sound = L::ready(alloc, rules, judged)?;
            Ok(Ok(Task::Runs(sound)))
        }
        Mode::Check | Mode::Print => Ok(Err(Stop::Quiet(Status::Done))),
    }
}

/// Returns the plan where no grammar was read: the run stops at once.
fn plan_stop<G, S>(alloc: Global, fault: ReadFault) -> Plan<G, S>
    ensures first { first_text result.first ≡ [] }
    ensures task { result.task ≡ Err (unread fault) }
{
    Plan {
        first: First::Notes(Vec::new(alloc)),
        task: Err(stop_unread(fault)),
    }
}

/// Returns the plan for a text whose fault is explained: the fault is written, and the run stops at once.
fn plan_explained<L: Language>(
    alloc: Global,
    text: &[u8],
    fault: ReadFault,
) -> Plan<L::Grammar, L::Sound>
    requires fault { L.has_fault text.now fault }
    requires other { fault ≢ ReadFault.Memory }
    ensures { (settings : AllSettings L.Options) → settings.explain ≡ true → IsPlanned (L.states text.now settings)
        (first_text result.first) (λ t. task_does L.canonical L.runs t settings) result.task }
{
    L::follows();
    match L::explain_fault(alloc, text, fault) {
        Ok(why) => Plan {
            first: First::Fault { fault, why },
            task: Err(Stop::Quiet(Status::Refused)),
        },
        Err(Memory) => Plan {
            first: First::Fault {
                fault,
                why: Vec::new(alloc),
            },
            task: Err(Stop::NoMemory),
        },
    }
}

/// Returns the plan for a text that has a fault, which is explained if settings ask for that and it is not `Memory`.
fn plan_fault<L: Language>(
    alloc: Global,
    text: &[u8],
    settings: &Settings<'_, L::Options>,
    fault: ReadFault,
) -> Plan<L::Grammar, L::Sound>
    requires { L.has_fault text.now fault }
    ensures { IsPlanned (L.states text.now settings.now) (first_text result.first)
        (λ t. task_does L.canonical L.runs t settings.now) result.task }
{
    L::follows();
    if fault == ReadFault::Memory {
        return plan_stop(alloc, fault);
    }
    if !settings.explain {
        return plan_stop(alloc, fault);
    }
    plan_explained::<L>(alloc, text, fault)
}

/// Returns the plan for a grammar that is only to be printed, but has these notes: it writes them, each explained if
/// settings ask for that, and the run stops. Where an allocation fails in explaining them, it writes the notes before.
fn plan_again<L: Language>(
    alloc: Global,
    found: Option<L::TextPositions>,
    settings: &Settings<'_, L::Options>,
    grammar: L::Grammar,
    notes: Vec<Note>,
) -> Plan<L::Grammar, L::Sound>
    requires { (text : List ℕ) × AreAsked L.are_text_positions settings.now.explain text found
        × L.is_read text grammar }
    ensures { (text : List ℕ) → AreAsked L.are_text_positions settings.now.explain text found → L.is_read text grammar
        → AreReportedBefore settings.now (L.explains_note text) (map said_of notes.items)
        (first_text result.first) (Err (Quiet Refused)) result.task }
{
    let task = Err(Stop::Quiet(Status::Refused));
    let Some(found) = found else {
        return Plan {
            first: First::Notes(notes),
            task,
        };
    };
    match reported_notes::<L>(alloc, found, settings.start, grammar, notes.as_slice()) {
        NoteText::Whole(reported) => Plan {
            first: First::Reported(reported),
            task,
        },
        NoteText::Part(reported) => Plan {
            first: First::Reported(reported),
            task: Err(Stop::NoMemory),
        },
    }
}

/// Returns the plan that writes these messages on a checked grammar before the task with it. If an allocation fails in
/// making it ready, the run stops at once.
fn plan_task<L: Language>(
    alloc: Global,
    settings: &Settings<'_, L::Options>,
    first: First,
    rules: L::Rules,
    judged: Option<L::Judged>,
) -> Plan<L::Grammar, L::Sound>
    requires mode { settings.now.mode ≢ Print }
    requires belongs { IfSome judged (L.belongs rules) }
    ensures { (text : List ℕ) (notes : List Said)
        → L.is_checked text (option_copied settings.now.start) notes rules judged
        → HintedNotes settings.now (L.explains_note text) (L.are_hints text settings.now) notes (first_text first)
        → IsPlanned (L.states text settings.now) (first_text result.first)
        (λ t. task_does L.canonical L.runs t settings.now) result.task }
{
    L::follows();
    match task_of::<L>(alloc, settings.mode, rules, judged) {
        Ok(task) => Plan { first, task },
        Err(Memory) => plan_stop(alloc, ReadFault::Memory),
    }
}

/// Returns the plan for a checked grammar that is to be run, or to be checked alone: it writes the notes before the
/// task, each explained and with hints after them if settings ask for that. Where an allocation fails in that, the run
/// stops after the notes before.
fn plan_opened<L: Language>(
    alloc: Global,
    settings: &Settings<'_, L::Options>,
    opened: CheckedText<L::Rules, L::Judged, L::TextPositions>,
) -> Plan<L::Grammar, L::Sound>
    requires mode { settings.now.mode ≢ Print }
    requires belongs { IfSome opened.checked.judged (L.belongs opened.checked.rules) }
    requires found { (text : List ℕ) × AreAsked L.are_text_positions settings.now.explain text opened.positions
        × L.are_rules text opened.checked.rules }
    ensures { (text : List ℕ) → AreAsked L.are_text_positions settings.now.explain text opened.positions
        → L.are_rules text opened.checked.rules → L.is_checked text (option_copied settings.now.start)
        (map said_of opened.checked.notes.items) opened.checked.rules opened.checked.judged
        → IsPlanned (L.states text settings.now) (first_text result.first)
        (λ t. task_does L.canonical L.runs t settings.now) result.task }
{
    L::follows();
    let CheckedText { checked, positions } = opened;
    let Checked {
        notes,
        rules,
        judged,
    } = checked;
    let Some(found) = positions else {
        return plan_task::<L>(alloc, settings, First::Notes(notes), rules, judged);
    };
    match reported_hints::<L>(alloc, found, settings, rules, notes.as_slice()) {
        HintText::Whole(reported, rules) => {
            plan_task::<L>(alloc, settings, First::Reported(reported), rules, judged)
        }
        HintText::Part(reported) => Plan {
            first: First::Reported(reported),
            task: Err(Stop::NoMemory),
        },
    }
}

/// Reads and checks a grammar's text that is to be run, or to be checked alone.
fn plan_checked<L: Language>(
    alloc: Global,
    text: &[u8],
    settings: &Settings<'_, L::Options>,
) -> Plan<L::Grammar, L::Sound>
    requires { settings.now.mode ≢ Print }
    ensures { IsPlanned (L.states text.now settings.now) (first_text result.first)
        (λ t. task_does L.canonical L.runs t settings.now) result.task }
{
    match read_checked::<L>(alloc, text, settings) {
        Ok(opened) => plan_opened::<L>(alloc, settings, opened),
        Err(fault) => plan_fault::<L>(alloc, text, settings, fault),
    }
}

/// Reads a grammar's text that is only to be printed.
fn plan_print<L: Language>(
    alloc: Global,
    text: &[u8],
    settings: &Settings<'_, L::Options>,
) -> Plan<L::Grammar, L::Sound>
    requires { settings.now.mode ≡ Print }
    ensures { IsPlanned (L.states text.now settings.now) (first_text result.first)
        (λ t. task_does L.canonical L.runs t settings.now) result.task }
{
    L::follows();
    match read_again::<L>(alloc, text, settings.explain) {
        Ok(
            Printable {
                grammar,
                positions,
                again,
            },
        ) => {
            if again.is_empty() {
                return Plan {
                    first: First::Notes(again),
                    task: Ok(Task::Prints(grammar)),
                };
            }
            plan_again::<L>(alloc, positions, settings, grammar, again)
        }
        Err(fault) => plan_fault::<L>(alloc, text, settings, fault),
    }
}

/// Reads a grammar's text, and checks it, or looks for redefinitions alone if it is only to be printed.
pub fn plan_of<L: Language>(
    alloc: Global,
    text: &[u8],
    settings: &Settings<'_, L::Options>,
) -> Plan<L::Grammar, L::Sound>
    ensures { IsPlanned (L.states text.now settings.now) (first_text result.first)
        (λ t. task_does L.canonical L.runs t settings.now) result.task }
{
    match settings.mode {
        Mode::Print => plan_print::<L>(alloc, text, settings),
        Mode::Run | Mode::Check => plan_checked::<L>(alloc, text, settings),
    }
}

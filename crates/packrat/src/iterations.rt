//! Iterations of a repetition over bytes that decide them.
ghost use Rattle.std.specs.Prelude.{◌≡◌, ◌+◌, ◌-◌, ◌<◌, ◌≤◌, ◌++◌, ℕ, Bool, true, List, length};
ghost use Rattle.std.specs.Prelude.{slice_get, Some, IfSome, OnOk};
ghost use Rattle.gramcheck.specs.Grammar.{IsSoundGrammar};
ghost use Rattle.pegread.specs.PegViews.{rules_of};
ghost use Rattle.pegnodes.specs.KeyLists.{node_marks};
ghost use Rattle.pegnodes.specs.Nodes.{Star, shapes_of};
ghost use Rattle.memo.specs.KeyLog.{tasks_of, row_of, position_of, run_of};
ghost use Rattle.pegmatch.specs.Answers.{WasEnough};
ghost use Rattle.pegmatch.specs.KeptEvents.{SpellsSome};
ghost use Rattle.memo.specs.declared.task.MatchTask.{MatchTask};
ghost use Rattle.packrat.specs.ByteGives.{AreFresh, operands_on, iterations_closed};
ghost use Rattle.packrat.specs.Stands.{AreGiven, GivenBy};
ghost use Rattle.packrat.specs.Turned.{IsClosing, AreDecided, AreTurnedFrames};
ghost use Rattle.packrat.specs.declared.events.link.Link.{Link};

use crate::frames::{Frame, Frames, Wait};
use gramcheck::SoundPeg;
use memo::{Given, KeyLog, MatchTask};
use pegnodes::{ByteVerdict, RunTable};
use ruletable::Memory;

/// Iterations of a repetition, one byte each, that the bytes alone decide. The machine takes them all in one step.
#[derive(Clone, Copy)]
pub(crate) struct Iterations {
    /// The node of the repetition.
    pub(crate) star: usize,
    /// The node of its operand.
    pub(crate) operand: usize,
    /// The position of the first byte that they take.
    pub(crate) from: usize,
    /// The position after the last byte that they take.
    pub(crate) end: usize,
    /// How many evaluations of a node and a position they begin.
    pub(crate) evals: u128,
    /// Whether the byte at `end` decides that the repetition ends there.
    pub(crate) whole: bool,
}

/// Returns the position up to which the bytes of a window may decide: the last byte may not if more bytes follow it.
#[inline(always)]
pub(crate) fn sure_end(window: &[u8], more: bool) -> usize
    requires { WasEnough window.now more 0 }
    ensures within { result ≤ length window.now }
    ensures last { more ≡ true → result < length window.now }
{
    if more { window.len() - 1 } else { window.len() }
}

// Returns how many evaluations begin where a repetition ends at a position, if the byte there, before `to`, decides
// that its operand fails.
#[inline(always)]
fn closing(table: &RunTable, window: &[u8], at: usize, to: usize) -> Option<u128>
    requires { to ≤ length window.now }
    ensures { IfSome result (λ evals. IsClosing table.now.entries.items window.now at to evals) }
{
    if at >= to {
        return None;
    }
    let decided = table.decided(window[at])?;
    match decided.verdict {
        ByteVerdict::Fails => Some(1 + u128::from(decided.count)),
        ByteVerdict::Stays => None,
        ByteVerdict::Takes => None,
    }
}

/// Finds the iterations, of a repetition of this operand, that the bytes from a position on decide. `None` if they
/// decide neither an iteration nor the end.
#[inline(always)]
pub(crate) fn find_iterations(
    peg: &SoundPeg,
    window: &[u8],
    more: bool,
    star: usize,
    operand: usize,
    from: usize,
) -> Option<Iterations>
    requires some { WasEnough window.now more 0 }
    requires at { slice_get (shapes_of peg.now.nodes) star ≡ Some (Star operand) }
    requires spelled { SpellsSome (rules_of peg.now.rules) (shapes_of peg.now.nodes) star }
    ensures { IfSome result (λ t. AreDecided peg.now window.now more peg.now.keys t
        × (t.star ≡ star) × (t.operand ≡ operand) × (t.from ≡ from)) }
{
    let table = peg.run_table(star)?;
    let to = sure_end(window, more);
    if from >= to {
        return None;
    }
    let run = table.run(window, from, to);
    if let Some(last) = closing(table, window, run.end, to) {
        return Some(Iterations {
            star,
            operand,
            from,
            end: run.end,
            evals: run.evals.checked_add(last)?,
            whole: true,
        });
    }
    if run.end == from {
        return None;
    }
    Some(Iterations {
        star,
        operand,
        from,
        end: run.end,
        evals: run.evals,
        whole: false,
    })
}

/// Returns whether no evaluation of a node is stored from a position on, if the node is a key.
#[inline(always)]
pub(crate) fn is_fresh(log: &KeyLog, peg: &SoundPeg, node: usize, from: usize) -> bool
    ensures { result ≡ true → (n : ℕ) →
        AreFresh (node_marks peg.now.keys node) node from n (tasks_of log.now.stored) }
{
    if peg.is_key_node(node) {
        return log.is_new(node, from);
    }
    true
}

/// Stores the results of a repetition's operand in the iterations, if the operand is a key.
#[inline(always)]
pub(crate) fn put_operands(
    log: &mut KeyLog,
    peg: &SoundPeg,
    iterations: Iterations,
) -> Result<(), Memory>
    requires sound { IsSoundGrammar peg.now }
    requires rows { log.old.rows ≡ length peg.now.nodes }
    requires operand { iterations.operand < length peg.now.nodes }
    ensures rows { OnOk result (log.new.rows ≡ length peg.now.nodes) }
    ensures tasks { OnOk result (tasks_of log.new.stored ≡ operands_on (node_marks peg.now.keys iterations.operand)
        iterations.operand iterations.from (iterations.end - iterations.from) (tasks_of log.old.stored)) }
    ensures keeps { OnOk result ((window : List ℕ) (more : Bool) (links : List Link) →
        AreDecided peg.now window more peg.now.keys iterations →
        AreGiven peg.now window more links log.old.stored → AreGiven peg.now window more links log.new.stored) }
{
    if peg.is_key_node(iterations.operand) {
        if iterations.from < iterations.end {
            log.put_steps(iterations.operand, iterations.from, iterations.end)?;
        }
    }
    Ok(())
}

/// Stores the result of a repetition that ends after its iterations, at their positions and there, if it is a key.
#[inline(always)]
pub(crate) fn put_iterations(
    log: &mut KeyLog,
    peg: &SoundPeg,
    iterations: Iterations,
    given: Given,
) -> Result<(), Memory>
    requires rows { log.old.rows ≡ length peg.now.nodes }
    requires star { iterations.star < length peg.now.nodes }
    ensures rows { OnOk result (log.new.rows ≡ length peg.now.nodes) }
    ensures tasks { OnOk result (tasks_of log.new.stored ≡ iterations_closed (node_marks peg.now.keys iterations.star)
        iterations.star iterations.from (iterations.end + 1 - iterations.from) (tasks_of log.old.stored)) }
    ensures keeps { OnOk result ((window : List ℕ) (more : Bool) (links : List Link) →
        ((p : ℕ) → iterations.from ≤ p → p < iterations.from + (iterations.end + 1 - iterations.from) →
        GivenBy peg.now window more links (MatchTask.Eval iterations.star p) given) →
        AreGiven peg.now window more links log.old.stored → AreGiven peg.now window more links log.new.stored) }
{
    if peg.is_key_node(iterations.star) {
        log.put_run(iterations.star, iterations.from, iterations.end, given)?;
    }
    Ok(())
}

/// Pushes a frame that awaits the result of a repetition after its iterations. One that is no key pushes none.
#[inline(always)]
pub(crate) fn wait_turned(
    frames: &mut Frames,
    peg: &SoundPeg,
    iterations: Iterations,
) -> Result<(), Memory>
    requires some { iterations.from < iterations.end }
    ensures { OnOk result (AreTurnedFrames (node_marks peg.now.keys iterations.star) iterations frames.old frames.new) }
{
    if peg.is_key_node(iterations.star) {
        frames.push(Frame {
            task: MatchTask::Eval {
                node: iterations.star,
                position: iterations.from,
            },
            key: true,
            wait: Wait::Turned(iterations.end - 1),
        })?;
    }
    Ok(())
}

/// Stores the result of a repetition at its position and after its iterations, up to the last one. It is inlined
/// wholly: a task whose address goes to a call is written to memory at each pass of the loop.
#[inline(always)]
pub(crate) fn put_turned(
    log: &mut KeyLog,
    star: MatchTask,
    last: usize,
    given: Given,
) -> Result<(), Memory>
    requires { row_of star < log.old.rows }
    ensures stored { OnOk result
        (log.new.stored ≡ run_of (row_of star) (position_of star) last given ++ log.old.stored) }
    ensures rows { log.new.rows ≡ log.old.rows }
{
    log.put_run(star.row(), star.position(), last, given)
}

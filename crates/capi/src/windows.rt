//! The windows of an input, each run by itself.
ghost use Rattle.std.specs.Prelude.{◌≡◌, ℕ, List, ◌≤◌, ◌+◌, ◌<◌, length, IsSome, MatchOption};
ghost use Rattle.std.specs.Io.KnownBytes.{Appends};
ghost use Rattle.capi.specs.WindowRuns.{HaveRun, IsWindowRun, WindowRun, window_bytes, planned, result_of};
ghost use Rattle.capi.specs.WindowWrites.{sink_contents};
ghost use Rattle.toolrun.specs.Plan.{does_of};
ghost use Rattle.toolrun.specs.Tasks.{task_does};

use crate::result::{CResult, nothing_done};
use memoryrun::{BufferSink, run_plan_into};
use std::alloc::Global;
use toolrun::{Language, Plan, Settings};

/// A part of an input, as C writes it.
#[repr(C)]
#[derive(Clone, Copy)]
pub struct CWindow {
    /// How many bytes of the input stand before it.
    pub at: usize,
    /// How many bytes it has.
    pub len: usize,
}

/// Returns the bytes of a window; `None` if it does not lie in the input.
fn part(input: &[u8], window: CWindow) -> Option<&[u8]>
    ensures { MatchOption result (length input.entry.now < window.at + window.len)
        (λ p. (p.now ≡ window_bytes input.entry.now window) × (window.at + window.len ≤ length input.entry.now)) }
{
    if window.at > input.len() {
        return None;
    }
    let rest = &input[window.at..];
    if window.len > rest.len() {
        return None;
    }
    Some(&rest[..window.len])
}

/// An input, its windows, and the settings of their runs.
#[derive(Drop)]
pub struct WindowsOf<'a, O> {
    /// The settings.
    pub settings: &'a Settings<'a, O>,
    /// The input.
    pub input: &'a [u8],
    /// The windows.
    pub windows: &'a [CWindow],
}

/// Runs a plan on bytes. Returns the lengths of what the run writes, and its status.
fn run_part<L: Language>(
    alloc: Global,
    plan: &Plan<L::Grammar, L::Sound>,
    settings: &Settings<'_, L::Options>,
    bytes: &[u8],
    out: &mut BufferSink<'_>,
    err: &mut BufferSink<'_>,
) -> CResult
    requires out_known { IsSome (sink_contents out.old) }
    requires err_known { IsSome (sink_contents err.old) }
    ensures { (run : WindowRun)
        × planned (does_of (λ t. task_does L.canonical L.runs t settings.now) plan.now.task) bytes.now run
        × Appends (sink_contents out.old) (sink_contents out.new) run.out
        × Appends (sink_contents err.old) (sink_contents err.new) run.err × (result ≡ result_of run) }
{
    let out_before = out.len;
    let err_before = err.len;
    out.resume();
    err.resume();
    let status = run_plan_into::<L, _, _>(alloc, plan, settings, bytes, out, err);
    CResult {
        out_len: out.len - out_before,
        err_len: err.len - err_before,
        status: status.code(),
    }
}

/// Runs a plan on a window, if it lies in the input. Returns the lengths of what the run writes, and its status.
fn run_window<L: Language>(
    alloc: Global,
    plan: &Plan<L::Grammar, L::Sound>,
    of: &WindowsOf<'_, L::Options>,
    window: CWindow,
    out: &mut BufferSink<'_>,
    err: &mut BufferSink<'_>,
) -> CResult
    requires out_known { IsSome (sink_contents out.old) }
    requires err_known { IsSome (sink_contents err.old) }
    ensures { (run : WindowRun)
        × IsWindowRun (planned (does_of (λ t. task_does L.canonical L.runs t of.now.settings.now) plan.now.task))
        of.now.input.now window run × Appends (sink_contents out.old) (sink_contents out.new) run.out
        × Appends (sink_contents err.old) (sink_contents err.new) run.err × (result ≡ result_of run) }
{
    match part(of.input, window) {
        Some(bytes) => run_part::<L>(alloc, plan, of.settings, bytes, out, err),
        None => nothing_done(),
    }
}

/// Runs a plan on each window of an input. The runs write one after the other.
pub fn run_windows<L: Language>(
    alloc: Global,
    plan: &Plan<L::Grammar, L::Sound>,
    of: &WindowsOf<'_, L::Options>,
    results: &mut [CResult],
    out: &mut BufferSink<'_>,
    err: &mut BufferSink<'_>,
)
    requires count { length results.old ≡ length of.now.windows.now }
    requires out_known { IsSome (sink_contents out.old) }
    requires err_known { IsSome (sink_contents err.old) }
    ensures { (printed : List ℕ) × (reported : List ℕ)
        × HaveRun (planned (does_of (λ t. task_does L.canonical L.runs t of.now.settings.now) plan.now.task))
        of.now.input.now of.now.windows.now printed reported results.new
        × Appends (sink_contents out.old) (sink_contents out.new) printed
        × Appends (sink_contents err.old) (sink_contents err.new) reported }
{
    for n in 0..of.windows.len() {
        results[n] = run_window::<L>(alloc, plan, of, of.windows[n], out, err);
    }
}

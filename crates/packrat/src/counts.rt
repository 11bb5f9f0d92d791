//! How many evaluations are begun.
ghost use Rattle.std.specs.Prelude.{◌≡◌, ◌+◌, ◌^◌, ◌≤◌};
ghost use Rattle.packrat.specs.View.{weight};

use memo::MatchTask;

/// Returns how many evaluations are begun with this task.
#[inline(always)]
pub(crate) fn counted(begun: u64, task: MatchTask) -> u64
    requires { begun + 2 ^ 33 ≤ 2 ^ 64 }
    ensures { result ≡ begun + weight task }
{
    match task {
        MatchTask::Eval { .. } => begun + 1,
        MatchTask::Tail { .. } => begun,
    }
}

/// Returns how many evaluations are begun with a choice and with those of its alternatives that fail.
#[inline(always)]
pub(crate) fn counted_skips(begun: u64, evals: u32) -> u64
    requires { begun + 2 ^ 33 ≤ 2 ^ 64 }
    ensures { result ≡ begun + (1 + evals) }
{
    begun + (1 + u64::from(evals))
}

/// Returns how many evaluations are begun with those of a node that a byte decides.
#[inline(always)]
pub(crate) fn counted_known(begun: u64, evals: u32) -> u64
    requires { begun + 2 ^ 33 ≤ 2 ^ 64 }
    ensures { result ≡ begun + evals }
{
    begun + u64::from(evals)
}

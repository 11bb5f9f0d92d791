//! The open grammar of peg(1) that C holds.
ghost use Rattle.std.specs.Prelude.{◌≡◌, is_some, None, Some, true};

use crate::loose::Loose;
use crate::runner::Runner;
use crate::runner_box::RunnerBox;
use std::alloc::Global;
use std::mem::replace;

/// A grammar of peg(1) that C holds, or none. C gives it back as it was given.
#[repr(C)]
#[derive(Drop)]
pub struct CRunner {
    /// The grammar.
    pub runner: RunnerBox,
    /// Whether there is one.
    pub is_open: bool,
    ghost right: { is_open ≡ is_some runner.held },
}

/// Puts an open grammar into C's handle.
pub(crate) fn put_runner(runner: Box<Runner>, slot: &mut CRunner)
    ensures { slot.new.runner.held ≡ Some runner.value }
{
    *slot = CRunner {
        runner: RunnerBox::seal(Loose::of(runner)),
        is_open: true,
    };
}

/// Takes the open grammar out of C's handle, where there is one.
pub(crate) fn take_runner(alloc: Global, slot: &mut CRunner) -> Box<Runner>
    requires { slot.old.is_open ≡ true }
    ensures runner { slot.old.runner.held ≡ Some result.value }
    ensures none { slot.new.runner.held ≡ None }
{
    let none = CRunner {
        runner: RunnerBox::empty(alloc),
        is_open: false,
    };
    let CRunner { runner, is_open: _ } = replace(slot, none);
    runner.unseal().into_box()
}

//! A grammar of peg(1) that was opened as a pointer that C may hold.
ghost use Rattle.std.specs.Prelude.{◌≡◌, IsSome, None, Option, Some};
ghost use Rattle.capi.specs.PointerOwns.{pointer_owns};
ghost use Rattle.capi.specs.contracts.runner.Runner.{the_row};
ghost use Rattle.capi.specs.declared.runner.Runner.{Runner as Held};
ghost use Rattle.std.specs.Coded.{coded_option};

use crate::loose::Loose;
use crate::runner::Runner;
use std::alloc::Global;
use std::marker::Model;
use std::ptr::null_mut;

/// The pointer of the box of an open grammar, or none. C sees a pointer alone. Dropping it frees nothing: C frees the
/// grammar by a call.
#[repr(C)]
#[derive(Drop)]
pub struct RunnerBox {
    /// The address of the box, or null.
    at: *mut u8,
    /// The allocator of the box.
    alloc: Global,
    /// The grammar, if there is one.
    pub ghost held: { Option Held } by { coded_option the_row.coded },
}

impl Model for RunnerBox {
    ghost use Rattle.capi.specs.PointerOwns.{pointer_owns};
    ghost use Rattle.capi.specs.contracts.runner.Runner.{the_row};

    ghost also_owns = { λ b. pointer_owns (⟦<Global as std::alloc::Allocator>⟧.dealloc_token b.alloc) the_row b.at
        b.held };
}

impl RunnerBox {
    /// Returns the pointer of a box, for C.
    pub(crate) fn seal(loose: Loose<Runner, Global>) -> RunnerBox
        ensures { result.held ≡ Some loose.value }
    {
        let Loose { at, alloc } = loose;
        RunnerBox {
            at: at as *mut u8,
            alloc,
        }
    }

    /// Returns none.
    pub(crate) fn empty(alloc: Global) -> RunnerBox
        ensures { result.held ≡ None }
    {
        RunnerBox {
            at: null_mut(),
            alloc,
        }
    }

    /// Returns the pointer of the box. There must be one.
    pub(crate) fn unseal(self) -> Loose<Runner, Global>
        requires { IsSome self.held }
        ensures { self.held ≡ Some result.value }
    {
        let RunnerBox { at, alloc } = self;
        Loose {
            at: at as *mut Runner,
            alloc,
        }
    }
}

//! A judge of lines as a pointer that C may hold.
ghost use Rattle.std.specs.Prelude.{◌≡◌, IsSome, None, Option, Some};
ghost use Rattle.abnfrun.specs.OpenJudge.{OpenJudge};
ghost use Rattle.abnfrun.specs.contracts.opened.AbnfJudge.{the_row};
ghost use Rattle.capi.specs.PointerOwns.{pointer_owns};
ghost use Rattle.std.specs.Coded.{coded_option};

use crate::loose::Loose;
use abnfrun::AbnfJudge;
use std::alloc::Global;
use std::marker::Model;
use std::ptr::null_mut;

/// The pointer of a judge's box, or none. C sees a pointer alone. Dropping it frees nothing: C frees the judge by a
/// call.
#[repr(C)]
#[derive(Drop)]
pub struct JudgeBox {
    /// The address of the box, or null.
    at: *mut u8,
    /// The allocator of the box.
    alloc: Global,
    /// The judge, if there is one.
    pub ghost held: { Option OpenJudge } by { coded_option the_row.coded },
}

impl Model for JudgeBox {
    ghost use Rattle.abnfrun.specs.contracts.opened.AbnfJudge.{the_row};
    ghost use Rattle.capi.specs.PointerOwns.{pointer_owns};

    ghost also_owns = { λ b. pointer_owns (⟦<Global as std::alloc::Allocator>⟧.dealloc_token b.alloc) the_row b.at
        b.held };
}

impl JudgeBox {
    /// Returns the pointer of a box, for C.
    pub(crate) fn seal(loose: Loose<AbnfJudge, Global>) -> JudgeBox
        ensures { result.held ≡ Some loose.value }
    {
        let Loose { at, alloc } = loose;
        JudgeBox {
            at: at as *mut u8,
            alloc,
        }
    }

    /// Returns none.
    pub(crate) fn empty(alloc: Global) -> JudgeBox
        ensures { result.held ≡ None }
    {
        JudgeBox {
            at: null_mut(),
            alloc,
        }
    }

    /// Returns the pointer of the box. There must be one.
    pub(crate) fn unseal(self) -> Loose<AbnfJudge, Global>
        requires { IsSome self.held }
        ensures { self.held ≡ Some result.value }
    {
        let JudgeBox { at, alloc } = self;
        Loose {
            at: at as *mut AbnfJudge,
            alloc,
        }
    }
}

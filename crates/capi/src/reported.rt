//! The messages on a grammar that C opens.
ghost use Rattle.std.specs.Prelude.{◌≡◌, false};
ghost use Rattle.capi.specs.BufferRun.{IsLaid};
ghost use Rattle.capi.specs.OpenCall.{IsFaultReported, code_reported, text_reported};

use crate::front::text_of_first;
use crate::result::CResult;
use memoryrun::lay;
use ruletable::{Memory, ReadFault};
use std::alloc::Global;
use toolrun::{First, Language, Settings, Status};

/// Returns the fault of a grammar's text, with the lines that explain it if the settings ask for them. Returns `Memory`
/// if an allocation fails.
pub(crate) fn text_of_fault<L: Language>(
    alloc: Global,
    grammar: &[u8],
    settings: &Settings<'_, L::Options>,
    fault: ReadFault,
) -> Result<Vec<u8>, Memory>
    requires { L.has_fault grammar.now fault }
    ensures { IsFaultReported (L.has_fault grammar.now) (L.explains grammar.now) settings.now (text_reported result)
        (code_reported result false) }
{
    if fault == ReadFault::Memory {
        return Err(Memory);
    }
    let why = if settings.explain {
        L::explain_fault(alloc, grammar, fault)?
    } else {
        Vec::new(alloc)
    };
    text_of_first(alloc, &First::Fault { fault, why })
}

/// Copies the diagnostics on a grammar into a buffer, cut to the length of the buffer. Returns the result of the call
/// that opens the grammar. `is_open` says whether the call opened it.
pub(crate) fn lay_reported(
    reported: Result<Vec<u8>, Memory>,
    is_open: bool,
    err: &mut [u8],
) -> CResult
    ensures out { result.out_len ≡ 0 }
    ensures err { IsLaid (text_reported reported) (record { old = err.old; new = err.new; len = result.err_len }) }
    ensures status { result.status ≡ code_reported reported is_open }
{
    let Ok(text) = reported else {
        return CResult {
            out_len: 0,
            err_len: 0,
            status: Status::NoMemory.code(),
        };
    };
    let status = if is_open {
        Status::Done
    } else {
        Status::Refused
    };
    CResult {
        out_len: 0,
        err_len: lay(text.as_slice(), err),
        status: status.code(),
    }
}

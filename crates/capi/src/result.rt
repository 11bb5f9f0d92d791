//! Results of calls.
ghost use Rattle.std.specs.Prelude.{◌≡◌};

use crate::asked::BAD_SETTINGS;

/// The result of a run: its status, and how many bytes it wrote on each output, whether there was room for them or not.
#[repr(C)]
#[derive(Clone, Copy)]
pub struct CResult {
    /// The length of all of the output.
    pub out_len: usize,
    /// The length of all of the error output.
    pub err_len: usize,
    /// The exit status of the program, from 0 to 5, or `BAD_SETTINGS`.
    pub status: u8,
}

/// Returns the result of a call whose settings are invalid.
pub fn nothing_done() -> CResult
    ensures { result ≡ record { out_len = 0; err_len = 0; status = 6 } }
{
    CResult {
        out_len: 0,
        err_len: 0,
        status: BAD_SETTINGS,
    }
}

//! Outputs of a run.

use toolrun::Status;

/// The result of a run in memory.
#[derive(Drop)]
pub struct Outputs {
    /// All of the output.
    pub out: Vec<u8>,
    /// All of the error output.
    pub err: Vec<u8>,
    /// The exit status.
    pub status: Status,
}

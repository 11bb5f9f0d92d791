//! Bytes that exist in proofs alone.
ghost use Rattle.std.specs.Prelude.{◌≡◌, ◌++◌, [], ℕ, List};
ghost use Rattle.std.specs.Coded.{coded_ℕ, coded_list};
ghost use base.Fml.{ftrue};

use std::marker::Model;

/// Bytes that exist in proofs alone. It takes no memory.
#[derive(Drop)]
pub struct GhostBytes {
    /// The bytes.
    pub ghost bytes: { List ℕ } by { coded_list coded_ℕ },
}

impl Model for GhostBytes {
    ghost also_owns = { λ _. ftrue };
}

/// Bytes that `then` adds.
#[derive(Clone, Copy, Drop)]
pub(crate) struct Piece<'a> {
    /// The bytes.
    pub(crate) bytes: &'a [u8],
}

impl GhostBytes {
    /// Returns no bytes.
    pub(crate) fn none() -> GhostBytes
        ensures { result.bytes ≡ [] }
    {
        GhostBytes {}
    }

    /// Returns the bytes, and a piece after them.
    pub(crate) fn then(&self, _piece: &Piece<'_>) -> GhostBytes
        ensures { result.bytes ≡ self.now.bytes ++ _piece.now.bytes.now }
    {
        GhostBytes {}
    }
}

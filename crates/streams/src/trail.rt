//! The bytes that passed a device. They exist only in proofs.
ghost use Rattle.std.specs.Prelude.{◌≡◌, ◌++◌, ℕ, List, []};
ghost use base.Fml.{ftrue};
ghost use Rattle.streams.specs.steps.Trail.{bytes_code};

use std::marker::Model;

#[derive(Drop)]
pub(crate) struct Trail {
    ghost bytes: { List ℕ } by { bytes_code },
}

impl Model for Trail {
    ghost also_owns = { λ _. ftrue };
}

/// Bytes that pass at once.
#[derive(Drop)]
pub(crate) struct Piece<'a> {
    pub(crate) bytes: &'a [u8],
}

impl Trail {
    pub(crate) fn new() -> Trail
        ensures { result.bytes ≡ [] }
    {
        Trail {}
    }

    #[inline(always)]
    pub(crate) fn then(&self, _piece: &Piece<'_>) -> Trail
        ensures { result.bytes ≡ self.now.bytes ++ _piece.now.bytes.now }
    {
        Trail {}
    }
}

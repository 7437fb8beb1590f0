//! Why a token can't be made.
ghost use Rattle.std.specs.Prelude.{◌≡◌};
ghost use Rattle.cq_lex.specs.declared.fault.Fault.TheVariants.{Memory};

use std::alloc::{AllocError, AllocFailed};

/// A fault, and the bytes from its place on.
#[derive(Drop)]
pub(crate) enum Fault<'a> {
    Memory,
    BadByte(&'a [u8]),
    OpenText(&'a [u8]),
    OpenComment(&'a [u8]),
    LongName(&'a [u8]),
}

impl From<AllocError> for Fault<'_> {
    ghost from_gives = { λ _ e. e ≡ Memory };

    fn from(_error: AllocError) -> Self {
        Fault::Memory
    }
}

impl<T: Drop> From<AllocFailed<T>> for Fault<'_> {
    ghost from_gives = { λ _ e. e ≡ Memory };

    fn from(_error: AllocFailed<T>) -> Self {
        Fault::Memory
    }
}

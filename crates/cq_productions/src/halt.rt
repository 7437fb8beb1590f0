//! Where reading halts.
ghost use Rattle.std.specs.Prelude.{◌≡◌};
ghost use Rattle.cq_productions.specs.declared.halt.Halt.TheVariants.{Memory};

use crate::cursor::Cursor;
use cq_rules::Why;
use std::alloc::{AllocError, AllocFailed};

/// Where reading halts: at the next token of the cursor, and why.
#[derive(Drop)]
pub enum Halt<'a> {
    Memory,
    At(Why, Cursor<'a>),
}

impl From<AllocError> for Halt<'_> {
    ghost from_gives = { λ _ e. e ≡ Memory };

    fn from(_error: AllocError) -> Self {
        Halt::Memory
    }
}

impl<T: Drop> From<AllocFailed<T>> for Halt<'_> {
    ghost from_gives = { λ _ e. e ≡ Memory };

    fn from(_error: AllocFailed<T>) -> Self {
        Halt::Memory
    }
}

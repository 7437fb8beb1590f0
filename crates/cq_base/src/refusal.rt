//! Why a name could not be made, or not be added.
ghost use Rattle.std.specs.Prelude.{◌≡◌};

use std::alloc::{AllocError, AllocFailed};

/// Why a text could not be made a name.
#[derive(Clone, Copy, Debug, PartialEq, Eq)]
pub enum NameRefusal {
    /// The text has more than 255 bytes.
    Long,
    Memory,
}

impl From<AllocError> for NameRefusal {
    ghost use Rattle.cq_base.specs.declared.refusal.NameRefusal.TheVariants.{Memory};

    ghost from_gives = { λ _ e. e ≡ Memory };

    fn from(_error: AllocError) -> NameRefusal {
        NameRefusal::Memory
    }
}

impl<T: Drop> From<AllocFailed<T>> for NameRefusal {
    ghost use Rattle.cq_base.specs.declared.refusal.NameRefusal.TheVariants.{Memory};

    ghost from_gives = { λ _ e. e ≡ Memory };

    fn from(_error: AllocFailed<T>) -> NameRefusal {
        NameRefusal::Memory
    }
}

/// Why a name could not be added.
#[derive(Clone, Copy, Debug, PartialEq, Eq)]
pub enum NamesRefusal {
    /// The name is there already, with this number.
    Taken(u32),
    Memory,
}

impl From<AllocError> for NamesRefusal {
    ghost use Rattle.cq_base.specs.declared.refusal.NamesRefusal.TheVariants.{Memory};

    ghost from_gives = { λ _ e. e ≡ Memory };

    fn from(_error: AllocError) -> NamesRefusal {
        NamesRefusal::Memory
    }
}

impl<T: Drop> From<AllocFailed<T>> for NamesRefusal {
    ghost use Rattle.cq_base.specs.declared.refusal.NamesRefusal.TheVariants.{Memory};

    ghost from_gives = { λ _ e. e ≡ Memory };

    fn from(_error: AllocFailed<T>) -> NamesRefusal {
        NamesRefusal::Memory
    }
}

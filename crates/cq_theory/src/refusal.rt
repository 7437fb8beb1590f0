//! Why theories, terms, arrows between theories, and presentations of others can't be made.
ghost use Rattle.std.specs.Prelude.{◌≡◌};

use cq_base::Name;
use std::alloc::{AllocError, AllocFailed};

/// Why a term could not be looked up.
#[derive(Clone, Copy, Debug, PartialEq, Eq)]
pub enum TermRefusal {
    Unknown,
    WrongCount,
    WrongSort,
    Reserved,
    TooLarge,
    Memory,
}

impl From<AllocError> for TermRefusal {
    ghost use Rattle.cq_theory.specs.declared.refusal.TermRefusal.TheVariants.{Memory};

    ghost from_gives = { λ _ e. e ≡ Memory };

    fn from(_error: AllocError) -> TermRefusal {
        TermRefusal::Memory
    }
}

/// Why parts make no typeside, schema or presentation, with the number of the first wrong part. Reserved is a
/// declared constant that is empty or begins with `?` or `=`, or under a typeside with an open type a text of a term
/// that is so.
#[derive(Clone, Copy, Debug, PartialEq, Eq)]
pub enum TheoryRefusal {
    Duplicate(u32),
    Unknown(u32),
    WrongCount(u32),
    WrongSort(u32),
    Reserved(u32),
    TooLarge(u32),
    Memory,
}

impl From<AllocError> for TheoryRefusal {
    ghost use Rattle.cq_theory.specs.declared.refusal.TheoryRefusal.TheVariants.{Memory};

    ghost from_gives = { λ _ e. e ≡ Memory };

    fn from(_error: AllocError) -> TheoryRefusal {
        TheoryRefusal::Memory
    }
}

impl<T: Drop> From<AllocFailed<T>> for TheoryRefusal {
    ghost use Rattle.cq_theory.specs.declared.refusal.TheoryRefusal.TheVariants.{Memory};

    ghost from_gives = { λ _ e. e ≡ Memory };

    fn from(_error: AllocFailed<T>) -> TheoryRefusal {
        TheoryRefusal::Memory
    }
}

/// Why parts make no mapping or query: a rule of `TheoryRefusal`, broken by the part with this number, or the first
/// entity, foreign key or attribute that has no image.
#[derive(Drop)]
pub enum ArrowRefusal {
    Duplicate(u32),
    Unknown(u32),
    WrongCount(u32),
    WrongSort(u32),
    Reserved(u32),
    TooLarge(u32),
    Missing(Name),
    Memory,
}

impl From<AllocError> for ArrowRefusal {
    ghost use Rattle.cq_theory.specs.declared.refusal.ArrowRefusal.TheVariants.{Memory};

    ghost from_gives = { λ _ e. e ≡ Memory };

    fn from(_error: AllocError) -> ArrowRefusal {
        ArrowRefusal::Memory
    }
}

/// Why no presentation could be made of another one: a term would have over 1,024 symbols, or there would be over
/// 16,000,000 generators.
#[derive(Clone, Copy, Debug, PartialEq, Eq)]
pub enum SizeRefusal {
    TooLarge,
    Memory,
}

impl From<AllocError> for SizeRefusal {
    ghost use Rattle.cq_theory.specs.declared.refusal.SizeRefusal.TheVariants.{Memory};

    ghost from_gives = { λ _ e. e ≡ Memory };

    fn from(_error: AllocError) -> SizeRefusal {
        SizeRefusal::Memory
    }
}

impl<T: Drop> From<AllocFailed<T>> for SizeRefusal {
    ghost use Rattle.cq_theory.specs.declared.refusal.SizeRefusal.TheVariants.{Memory};

    ghost from_gives = { λ _ e. e ≡ Memory };

    fn from(_error: AllocFailed<T>) -> SizeRefusal {
        SizeRefusal::Memory
    }
}

//! Why there is no listed model.
ghost use Rattle.std.specs.Prelude.{◌≡◌};

use cq_theory::Con;
use std::alloc::AllocError;

/// Why there is no instance.
#[derive(Drop)]
pub enum BuildRefusal {
    /// The presentation closes at no depth up to the given one.
    Depth,
    /// A stage of the rows ended with more than 200,000 of them.
    TooManyRows,
    /// Two constants are equal: the least, in the order of constants, that is equal to a greater one, and the least
    /// such greater one.
    Inconsistent(Con, Con),
    Memory,
}

impl From<AllocError> for BuildRefusal {
    ghost use Rattle.cq_model.specs.declared.refusal.BuildRefusal.TheVariants.{Memory};

    ghost from_gives = { λ _ e. e ≡ Memory };

    fn from(_error: AllocError) -> BuildRefusal {
        BuildRefusal::Memory
    }
}

/// Why there is no instance that is built of other instances. `TooLarge` is tried first, the others are those of
/// `build`.
#[derive(Drop)]
pub enum MoveRefusal {
    /// The presentation closes at no depth up to the given one.
    Depth,
    /// A stage of the rows ended with more than 200,000 of them.
    TooManyRows,
    /// Two constants are equal: the least, in the order of constants, that is equal to a greater one, and the least
    /// such greater one.
    Inconsistent(Con, Con),
    /// A term of the presentation has over 1,024 symbols, or there are over 16,000,000 generators.
    TooLarge,
    Memory,
}

impl From<AllocError> for MoveRefusal {
    ghost use Rattle.cq_model.specs.declared.refusal.MoveRefusal.TheVariants.{Memory};

    ghost from_gives = { λ _ e. e ≡ Memory };

    fn from(_error: AllocError) -> MoveRefusal {
        MoveRefusal::Memory
    }
}

impl From<BuildRefusal> for MoveRefusal {
    ghost use Rattle.cq_model.specs.Moving.{of_building};

    ghost from_gives = { λ refusal e. e ≡ of_building refusal };

    fn from(refusal: BuildRefusal) -> MoveRefusal {
        match refusal {
            BuildRefusal::Depth => MoveRefusal::Depth,
            BuildRefusal::TooManyRows => MoveRefusal::TooManyRows,
            BuildRefusal::Inconsistent(least, greater) => {
                MoveRefusal::Inconsistent(least, greater)
            }
            BuildRefusal::Memory => MoveRefusal::Memory,
        }
    }
}

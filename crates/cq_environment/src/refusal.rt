//! Why a program has no meaning.
ghost use Rattle.std.specs.Prelude.{◌≡◌};

use crate::reason::Reason;
use cq_base::Place;
use std::alloc::AllocError;

/// Why a file was not read.
#[derive(Clone, Copy, Debug, PartialEq, Eq)]
pub enum ReadCause {
    Absent,
    TooLong,
    Failed,
}

/// Why a program has no meaning.
#[derive(Drop)]
pub enum ProgramRefusal {
    /// The first rule that a declaration breaks, with the place to which its line points.
    Broken(Place, Reason),
    /// A file that a declaration names was not read, and why.
    Read(String, ReadCause),
    Memory,
}

impl From<AllocError> for ProgramRefusal {
    ghost use Rattle.cq_environment.specs.declared.refusal.ProgramRefusal.TheVariants.{Memory};

    ghost from_gives = { λ _ e. e ≡ Memory };

    fn from(_error: AllocError) -> ProgramRefusal {
        ProgramRefusal::Memory
    }
}

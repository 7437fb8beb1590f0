//! Why schemas could not be joined.
ghost use Rattle.std.specs.Prelude.{◌≡◌};
ghost use Rattle.cq_colimit.specs.Faults.{of_colimit as refusal_of_colimit};

use cq_theory::TheoryRefusal;
use std::alloc::AllocError;

/// Why parts make no colimit. The first six are those of `TheoryRefusal`, with the number of the first wrong part.
#[derive(Clone, Copy, Debug, PartialEq, Eq)]
pub enum ColimitRefusal {
    Duplicate(u32),
    Unknown(u32),
    WrongCount(u32),
    WrongSort(u32),
    Reserved(u32),
    TooLarge(u32),
    /// Two joined names of one table are equal: the least pair of parts that give them, the lesser part first. Or the
    /// typeside has a joined name in its own table: the least part that gives one, twice.
    NameClash(u32, u32),
    /// The first part that gives a joined name of over 255 bytes.
    LongName(u32),
    /// The entities, foreign keys, attributes and equations of the parts and the added equations are over 1,000,000.
    TooMany,
    Memory,
}

impl From<AllocError> for ColimitRefusal {
    ghost use Rattle.std.specs.Prelude.{◌≡◌};
    ghost use Rattle.cq_colimit.specs.declared.refusal.ColimitRefusal.TheVariants.{Memory};

    ghost from_gives = { λ _ e. e ≡ Memory };

    fn from(_error: AllocError) -> ColimitRefusal {
        ColimitRefusal::Memory
    }
}

/// The same refusal, of a colimit.
pub(crate) fn of_colimit(refusal: TheoryRefusal) -> ColimitRefusal
    ensures { result ≡ refusal_of_colimit refusal }
{
    match refusal {
        TheoryRefusal::Duplicate(part) => ColimitRefusal::Duplicate(part),
        TheoryRefusal::Unknown(part) => ColimitRefusal::Unknown(part),
        TheoryRefusal::WrongCount(part) => ColimitRefusal::WrongCount(part),
        TheoryRefusal::WrongSort(part) => ColimitRefusal::WrongSort(part),
        TheoryRefusal::Reserved(part) => ColimitRefusal::Reserved(part),
        TheoryRefusal::TooLarge(part) => ColimitRefusal::TooLarge(part),
        TheoryRefusal::Memory => ColimitRefusal::Memory,
    }
}

//! Why there is no transform by given images.
ghost use Rattle.std.specs.Prelude.{◌≡◌};
ghost use Rattle.cq_transform.specs.Images.{of_transform as refusal_of_transform};

use cq_base::Name;
use cq_theory::TheoryRefusal;
use std::alloc::AllocError;

/// Why there is no transform by given images: a rule of `ArrowRefusal`, broken by the image with this number, from 0;
/// the first generator that has no image; or the number, from 1, of the first equation that isn't kept. Generators are
/// told apart by their numbers, and a name stands for the first generator that has it: of the source, one with the name
/// of an earlier one has no image.
#[derive(Drop)]
pub enum TransformRefusal {
    Duplicate(u32),
    Unknown(u32),
    WrongCount(u32),
    WrongSort(u32),
    Reserved(u32),
    TooLarge(u32),
    Missing(Name),
    Broken(u64),
    Memory,
}

impl From<AllocError> for TransformRefusal {
    ghost use Rattle.cq_transform.specs.declared.refusal.TransformRefusal.TheVariants.{Memory};

    ghost from_gives = { λ _ e. e ≡ Memory };

    fn from(_error: AllocError) -> TransformRefusal {
        TransformRefusal::Memory
    }
}

/// The same refusal, of a transform.
pub(crate) fn of_transform(refusal: TheoryRefusal) -> TransformRefusal
    ensures { result ≡ refusal_of_transform refusal }
{
    match refusal {
        TheoryRefusal::Duplicate(part) => TransformRefusal::Duplicate(part),
        TheoryRefusal::Unknown(part) => TransformRefusal::Unknown(part),
        TheoryRefusal::WrongCount(part) => TransformRefusal::WrongCount(part),
        TheoryRefusal::WrongSort(part) => TransformRefusal::WrongSort(part),
        TheoryRefusal::Reserved(part) => TransformRefusal::Reserved(part),
        TheoryRefusal::TooLarge(part) => TransformRefusal::TooLarge(part),
        TheoryRefusal::Memory => TransformRefusal::Memory,
    }
}

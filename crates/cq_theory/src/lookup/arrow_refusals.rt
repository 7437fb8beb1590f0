//! Why parts make no mapping or query.
ghost use Rattle.std.specs.Prelude.{◌≡◌, ◌⊎◌, IfOk, IfErr, Some, None};
ghost use Rattle.cq_theory.specs.ArrowRefusals.{of_arrow as refusal_of_arrow, first_missing};

use crate::refusal::{ArrowRefusal, TheoryRefusal};
use cq_base::{Name, Names};

/// The same refusal, of a mapping or a query.
pub fn of_arrow(refusal: TheoryRefusal) -> ArrowRefusal
    ensures { result ≡ refusal_of_arrow refusal }
{
    match refusal {
        TheoryRefusal::Duplicate(part) => ArrowRefusal::Duplicate(part),
        TheoryRefusal::Unknown(part) => ArrowRefusal::Unknown(part),
        TheoryRefusal::WrongCount(part) => ArrowRefusal::WrongCount(part),
        TheoryRefusal::WrongSort(part) => ArrowRefusal::WrongSort(part),
        TheoryRefusal::Reserved(part) => ArrowRefusal::Reserved(part),
        TheoryRefusal::TooLarge(part) => ArrowRefusal::TooLarge(part),
        TheoryRefusal::Memory => ArrowRefusal::Memory,
    }
}

/// That this name has no part, or want of memory.
pub fn missing(name: &Name) -> ArrowRefusal
    ensures { (result ≡ ArrowRefusal.Memory) ⊎ (result ≡ ArrowRefusal.Missing name.now) }
{
    match name.clone() {
        Ok(name) => ArrowRefusal::Missing(name),
        Err(_) => ArrowRefusal::Memory,
    }
}

/// Whether each name is given. Otherwise the first one that isn't.
pub fn check_given(given: &Names, names: &[Name]) -> Result<(), ArrowRefusal>
    ensures accepted { IfOk result (λ _. first_missing given.now names.now ≡ None) }
    ensures refused { IfErr result (λ refusal. (refusal ≡ ArrowRefusal.Memory)
        ⊎ (first_missing given.now names.now ≡ Some refusal)) }
{
    for name in names {
        if given.find(name).is_none() {
            return Err(missing(name));
        }
    }
    Ok(())
}

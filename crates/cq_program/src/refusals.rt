//! The rules that parts of literals break, at the places of these parts.
ghost use Rattle.std.specs.Prelude.{◌≡◌};
ghost use Rattle.cq_program.specs.Posed.{arrow_breach, part_breach, place_of};
ghost use Rattle.cq_environment.specs.Environment.{Tells};

use cq_base::Place;
use cq_environment::{ProgramRefusal, Reason};
use cq_theory::{ArrowRefusal, TheoryRefusal};

/// The rule that a part breaks, at the part's place; a part without a place stands where its declaration does.
pub fn tell_part(place: Place, places: &[Place], refusal: TheoryRefusal) -> ProgramRefusal
    ensures { Tells result (part_breach place places.now refusal) }
{
    match refusal {
        TheoryRefusal::Duplicate(part) => ProgramRefusal::Broken(
            place_of(place, places, part),
            Reason::Duplicate,
        ),
        TheoryRefusal::Unknown(part) => ProgramRefusal::Broken(
            place_of(place, places, part),
            Reason::Unknown,
        ),
        TheoryRefusal::WrongCount(part) => ProgramRefusal::Broken(
            place_of(place, places, part),
            Reason::WrongCount,
        ),
        TheoryRefusal::WrongSort(part) => ProgramRefusal::Broken(
            place_of(place, places, part),
            Reason::WrongSort,
        ),
        TheoryRefusal::Reserved(part) => ProgramRefusal::Broken(
            place_of(place, places, part),
            Reason::Reserved,
        ),
        TheoryRefusal::TooLarge(part) => ProgramRefusal::Broken(
            place_of(place, places, part),
            Reason::TooLarge,
        ),
        TheoryRefusal::Memory => ProgramRefusal::Memory,
    }
}

/// The rule that a part of a mapping breaks, at the part's place, or the missing part, at the declaration's place.
pub fn tell_arrow(place: Place, places: &[Place], refusal: ArrowRefusal) -> ProgramRefusal
    ensures { Tells result (arrow_breach place places.now refusal) }
{
    match refusal {
        ArrowRefusal::Duplicate(part) => ProgramRefusal::Broken(
            place_of(place, places, part),
            Reason::Duplicate,
        ),
        ArrowRefusal::Unknown(part) => ProgramRefusal::Broken(
            place_of(place, places, part),
            Reason::Unknown,
        ),
        ArrowRefusal::WrongCount(part) => ProgramRefusal::Broken(
            place_of(place, places, part),
            Reason::WrongCount,
        ),
        ArrowRefusal::WrongSort(part) => ProgramRefusal::Broken(
            place_of(place, places, part),
            Reason::WrongSort,
        ),
        ArrowRefusal::Reserved(part) => ProgramRefusal::Broken(
            place_of(place, places, part),
            Reason::Reserved,
        ),
        ArrowRefusal::TooLarge(part) => ProgramRefusal::Broken(
            place_of(place, places, part),
            Reason::TooLarge,
        ),
        ArrowRefusal::Missing(name) => ProgramRefusal::Broken(place, Reason::Missing(name)),
        ArrowRefusal::Memory => ProgramRefusal::Memory,
    }
}

/// The place of the part of a number, or else the declaration's.
pub fn place_of(place: Place, places: &[Place], part: u32) -> Place
    ensures { result ≡ place_of place places.now part }
{
    match places.get(part as usize) {
        Some(found) => *found,
        None => place,
    }
}

//! Declarations whose duties aren't derived.
ghost use Rattle.std.specs.Prelude.{ℕ, ◌≡◌};
ghost use Rattle.cq_check.specs.declared.refusal.CheckRefusal.TheVariants as of_check;
ghost use Rattle.cq_program.specs.Program.{Exceeds, Fails};
ghost use Rattle.cq_program.specs.Posed.{Posed};
ghost use Rattle.cq_program.specs.Judging.{TellsUnmade};
ghost use Rattle.cq_environment.specs.declared.reason.Reason.TheVariants as reason;

use cq_base::Place;
use cq_check::CheckRefusal;
use cq_environment::{ProgramRefusal, Reason};

/// The refusal of the declaration at a place, of whose duties one isn't derived.
pub fn tell_unmet(place: Place, refusal: CheckRefusal) -> ProgramRefusal
    ensures { (depth : ℕ) (posed : Posed)
        → ((n : ℕ) → refusal ≡ of_check.NotPreserved n → Fails posed (reason.NotPreserved n))
        → ((n : ℕ) → refusal ≡ of_check.Depth n → Exceeds depth posed (reason.DutyDepth n))
        → ((n : ℕ) → refusal ≡ of_check.TooManyRows n → Exceeds depth posed (reason.DutyRows n))
        → TellsUnmade depth place posed result }
{
    match refusal {
        CheckRefusal::NotPreserved(duty) => {
            ProgramRefusal::Broken(place, Reason::NotPreserved(duty))
        }
        CheckRefusal::Depth(duty) => ProgramRefusal::Broken(place, Reason::DutyDepth(duty)),
        CheckRefusal::TooManyRows(duty) => ProgramRefusal::Broken(place, Reason::DutyRows(duty)),
        CheckRefusal::Memory => ProgramRefusal::Memory,
    }
}

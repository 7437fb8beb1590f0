//! The declaration at which a program is refused: the names before it, its number, and what is wrong with it.
ghost use Rattle.std.specs.Prelude.{◌≡◌};
ghost use Rattle.cq_program.specs.Stop.{IsHalt, refusal_at, refusal_of};

use cq_base::Place;
use cq_environment::{Environment, ProgramRefusal, ReadCause, Reason};
use std::alloc::AllocError;

/// What is wrong with a declaration.
#[derive(Drop)]
pub enum Fault {
    /// The first rule that it breaks, with the place to which its line points.
    Broken(Place, Reason),
    /// A file that it names was not read, and why.
    Unread(String, ReadCause),
}

/// The first declaration that is refused.
pub struct Stop {
    /// What the names before it stand for.
    pub env: Environment,
    /// How many declarations stand before it.
    pub number: usize,
    pub fault: Fault,
}

impl Drop for Stop {
    fn drop(self) {
        let Self {
            env: _,
            number: _,
            fault: _,
        } = self;
    }
}

impl Stop {
    /// What is wrong.
    pub fn into_fault(self) -> Fault
        ensures { result ≡ self.fault }
    {
        let Self {
            env: _,
            number: _,
            fault,
        } = self;
        fault
    }
}

/// Why a walk over declarations ends early.
#[derive(Drop)]
pub enum Halt {
    /// One is refused.
    Stopped(Stop),
    Memory,
}

impl From<AllocError> for Halt {
    ghost use Rattle.cq_program.specs.declared.stops.Halt.TheVariants.{Memory};

    ghost from_gives = { λ _ h. h ≡ Memory };

    fn from(_error: AllocError) -> Halt {
        Halt::Memory
    }
}

/// The halt at the declaration of a number, which is refused.
pub fn halt_at(env: Environment, number: usize, refusal: ProgramRefusal) -> Halt
    ensures { IsHalt env number refusal result }
{
    match refusal {
        ProgramRefusal::Broken(place, reason) => Halt::Stopped(Stop {
            env,
            number,
            fault: Fault::Broken(place, reason),
        }),
        ProgramRefusal::Read(file, cause) => Halt::Stopped(Stop {
            env,
            number,
            fault: Fault::Unread(file, cause),
        }),
        ProgramRefusal::Memory => Halt::Memory,
    }
}

/// The refusal that a halt comes from.
pub fn refusal_of(halt: Halt) -> ProgramRefusal
    ensures { result ≡ refusal_of halt }
{
    match halt {
        Halt::Stopped(stop) => refusal_at(stop.into_fault()),
        Halt::Memory => ProgramRefusal::Memory,
    }
}

fn refusal_at(fault: Fault) -> ProgramRefusal
    ensures { result ≡ refusal_at fault }
{
    match fault {
        Fault::Broken(place, reason) => ProgramRefusal::Broken(place, reason),
        Fault::Unread(file, cause) => ProgramRefusal::Read(file, cause),
    }
}

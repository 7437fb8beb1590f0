//! Typesides: what is posed of them.
ghost use Rattle.std.specs.Prelude.{◌<◌, ◌^◌, IfOk};
ghost use Rattle.cq_parts.specs.Parts.{typeside_count};
ghost use Rattle.cq_program.specs.Typesides.{typeside_given, typeside_posed};
ghost use Rattle.cq_environment.specs.Environment.{Answers};
ghost use Rattle.cq_program.specs.Posing.{IsPosed, posed_as};

use crate::refusals::tell_part;
use crate::statement::Statement;
use cq_base::Place;
use cq_environment::ProgramRefusal;
use cq_parts::{typeside_parts, typeside_places};
use cq_syntax::TypesideLit;
use cq_theory::Typeside;
use std::alloc::Global;

/// The typeside of a literal.
pub fn pose_typeside(
    alloc: Global,
    place: Place,
    literal: &TypesideLit,
) -> Result<Statement, ProgramRefusal>
    requires { typeside_count literal.now < 2 ^ 32 }
    ensures posed { Answers posed_as result (typeside_posed place literal.now) }
    ensures well_sorted { IfOk result IsPosed }
{
    match make_typeside(alloc, place, literal) {
        Ok(typeside) => Ok(Statement::Typeside(typeside)),
        Err(refusal) => Err(refusal),
    }
}

/// The typeside of a literal, or the first part that breaks a rule.
fn make_typeside(
    alloc: Global,
    place: Place,
    literal: &TypesideLit,
) -> Result<Typeside, ProgramRefusal>
    requires { typeside_count literal.now < 2 ^ 32 }
    ensures { Answers (λ typeside. typeside) result (typeside_given place literal.now) }
{
    let parts = typeside_parts(alloc, literal)?;
    match Typeside::new(alloc, parts) {
        Ok(typeside) => Ok(typeside),
        Err(refusal) => {
            let places = typeside_places(alloc, literal)?;
            Err(tell_part(place, places.as_slice(), refusal))
        }
    }
}

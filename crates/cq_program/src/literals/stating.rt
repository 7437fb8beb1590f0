//! Instances that are given by their parts: what is posed of them.
ghost use Rattle.std.specs.Prelude.{◌<◌, ◌^◌, IfOk};
ghost use Rattle.cq_base.specs.declared.name.Name.{Name as TheName};
ghost use Rattle.cq_theory.specs.Presentation.{IsPresentation};
ghost use Rattle.cq_parts.specs.Parts.{instance_count};
ghost use Rattle.cq_program.specs.Literals.{instance_posed, presentation_given};
ghost use Rattle.cq_environment.specs.Environment.{Answers, AreSettled, environment_of};
ghost use Rattle.cq_program.specs.Posing.{IsGrounded, IsPosed, posed_as};

use crate::refusals::tell_part;
use crate::statement::Statement;
use cq_base::Place;
use cq_environment::{Environment, ProgramRefusal};
use cq_parts::{instance_parts, instance_places};
use cq_syntax::InstanceLit;
use cq_theory::{Presentation, Schema};
use std::alloc::Global;

/// The presentation of a literal over the schema for which a used name stands.
pub fn pose_literal(
    alloc: Global,
    env: &Environment,
    place: Place,
    literal: &InstanceLit,
) -> Result<Statement, ProgramRefusal>
    requires few { instance_count literal.now < 2 ^ 32 }
    requires settled { AreSettled (environment_of env.now.names.entries) }
    ensures posed { Answers posed_as result (instance_posed (environment_of env.now.names.entries) place literal.now) }
    ensures well_sorted { IfOk result IsPosed }
    ensures grounded { (name : TheName) → IfOk result
        (λ statement. IsGrounded (environment_of env.now.names.entries) name (posed_as statement)) }
{
    let over = env.schema(&literal.schema)?;
    let presentation = make_presentation(alloc, place, &over.schema, literal)?;
    Ok(Statement::Presentation(over.name, over.schema, presentation))
}

/// The presentation of a literal over a schema, or the first part that breaks a rule.
fn make_presentation(
    alloc: Global,
    place: Place,
    schema: &Schema,
    literal: &InstanceLit,
) -> Result<Presentation, ProgramRefusal>
    requires { instance_count literal.now < 2 ^ 32 }
    ensures given { Answers (λ presentation. presentation) result (presentation_given place schema.now literal.now) }
    ensures presentation { IfOk result (IsPresentation schema.now) }
{
    let parts = instance_parts(alloc, literal)?;
    match Presentation::new(alloc, schema, parts) {
        Ok(presentation) => Ok(presentation),
        Err(refusal) => {
            let places = instance_places(alloc, literal)?;
            Err(tell_part(place, places.as_slice(), refusal))
        }
    }
}

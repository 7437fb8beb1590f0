//! Schemas: what is posed of them.
ghost use Rattle.std.specs.Prelude.{◌≡◌, ◌<◌, ◌^◌, IfOk};
ghost use Rattle.cq_parts.specs.Parts.{schema_count};
ghost use Rattle.cq_program.specs.Schemas.{schema_given, schema_posed};
ghost use Rattle.cq_environment.specs.Environment.{schema_meant, Answers, environment_of};
ghost use Rattle.cq_program.specs.Posing.{IsGrounded, IsPosed, posed_as};

use crate::refusals::tell_part;
use crate::statement::Statement;
use cq_base::{Name, Place};
use cq_environment::{Environment, NamedSchema, ProgramRefusal};
use cq_parts::{schema_parts, schema_places};
use cq_syntax::SchemaLit;
use cq_theory::{Schema, Typeside};
use std::alloc::{AllocError, Global};
use std::rc::Rc;

/// The schema of a literal over the typeside for which a used name stands.
pub fn pose_schema(
    alloc: Global,
    env: &Environment,
    place: Place,
    name: &Name,
    literal: &SchemaLit,
) -> Result<Statement, ProgramRefusal>
    requires { schema_count literal.now < 2 ^ 32 }
    ensures posed { Answers posed_as result (schema_posed (environment_of env.now.names.entries) place name.now
        literal.now) }
    ensures well_sorted { IfOk result IsPosed }
    ensures grounded { IfOk result (λ statement. IsGrounded (environment_of env.now.names.entries) name.now
        (posed_as statement)) }
{
    let typeside = env.typeside(&literal.typeside)?;
    let schema = make_schema(alloc, place, typeside, literal)?;
    let shared = share_schema(alloc, schema)?;
    Ok(Statement::Schema(name_schema(name, &literal.typeside.name, &shared)?))
}

/// A schema under its name, with the name of its typeside.
fn name_schema(name: &Name, typeside: &Name, schema: &Rc<Schema>) -> Result<NamedSchema, AllocError>
    ensures { IfOk result (λ named. schema_meant named
        ≡ record { name = name.now; typeside = typeside.now; schema = schema.now.value }) }
{
    Ok(NamedSchema {
        name: name.clone()?,
        typeside: typeside.clone()?,
        schema: schema.clone()?,
    })
}

fn share_schema(alloc: Global, schema: Schema) -> Result<Rc<Schema>, AllocError>
    ensures { IfOk result (λ shared. shared.value ≡ schema) }
{
    let shared = Rc::new(alloc, schema)?;
    Ok(shared)
}

/// The schema of a literal over a typeside, or the first part that breaks a rule.
fn make_schema(
    alloc: Global,
    place: Place,
    typeside: Rc<Typeside>,
    literal: &SchemaLit,
) -> Result<Schema, ProgramRefusal>
    requires { schema_count literal.now < 2 ^ 32 }
    ensures given { Answers (λ schema. schema) result (schema_given place typeside.value literal.now) }
    ensures over { IfOk result (λ schema. schema.typeside ≡ typeside.value) }
{
    let parts = schema_parts(alloc, literal)?;
    match Schema::new(alloc, typeside, parts) {
        Ok(schema) => Ok(schema),
        Err(refusal) => {
            let places = schema_places(alloc, literal)?;
            Err(tell_part(place, places.as_slice(), refusal))
        }
    }
}

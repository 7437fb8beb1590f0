//! Mappings and identities: what is posed of them.
ghost use Rattle.std.specs.Prelude.{◌≡◌, ◌<◌, ◌^◌, IfOk};
ghost use Rattle.cq_base.specs.declared.name.Name.{Name as TheName};
ghost use Rattle.cq_parts.specs.Parts.{mapping_count};
ghost use Rattle.cq_program.specs.Mappings.{identity_posed, mapping_given, mapping_posed};
ghost use Rattle.cq_environment.specs.Environment.{Answers, AreSettled, environment_of};
ghost use Rattle.cq_program.specs.Posing.{IsGrounded, IsPosed, posed_as};

use crate::refusals::tell_arrow;
use crate::statement::Statement;
use cq_base::Place;
use cq_environment::{Environment, ProgramRefusal, Reason};
use cq_mapping::Mapping;
use cq_parts::{mapping_parts, mapping_places};
use cq_syntax::{MappingLit, Spot};
use cq_theory::Schema;
use std::alloc::Global;
use std::rc::Rc;

/// A mapping between schemas over one typeside declaration.
pub fn pose_mapping(
    alloc: Global,
    env: &Environment,
    place: Place,
    literal: &MappingLit,
) -> Result<Statement, ProgramRefusal>
    requires few { mapping_count literal.now < 2 ^ 32 }
    requires settled { AreSettled (environment_of env.now.names.entries) }
    ensures posed { Answers posed_as result (mapping_posed (environment_of env.now.names.entries) place literal.now) }
    ensures well_sorted { IfOk result IsPosed }
    ensures grounded { (name : TheName) → IfOk result
        (λ statement. IsGrounded (environment_of env.now.names.entries) name (posed_as statement)) }
{
    let source = env.schema(&literal.source)?;
    let target = env.schema(&literal.target)?;
    if source.typeside != target.typeside {
        return Err(ProgramRefusal::Broken(literal.target.place, Reason::WrongSchema));
    }
    match make_mapping(alloc, place, source.schema, target.schema, literal) {
        Ok(mapping) => Ok(Statement::Mapping(source.name, target.name, mapping)),
        Err(refusal) => Err(refusal),
    }
}

/// The identity of the schema for which a used name stands.
pub fn pose_identity(env: &Environment, used: &Spot) -> Result<Statement, ProgramRefusal>
    requires settled { AreSettled (environment_of env.now.names.entries) }
    ensures posed { Answers posed_as result (identity_posed (environment_of env.now.names.entries) used.now) }
    ensures well_sorted { IfOk result IsPosed }
    ensures grounded { (name : TheName) → IfOk result
        (λ statement. IsGrounded (environment_of env.now.names.entries) name (posed_as statement)) }
{
    let over = env.schema(used)?;
    over.schema.is_well_sorted();
    Ok(Statement::Identity(over.name, over.schema))
}

/// The mapping of a literal between schemas of one typeside, or the first part that breaks a rule or is missing.
fn make_mapping(
    alloc: Global,
    place: Place,
    source: Rc<Schema>,
    target: Rc<Schema>,
    literal: &MappingLit,
) -> Result<Mapping, ProgramRefusal>
    requires typeside { source.value.typeside ≡ target.value.typeside }
    requires few { mapping_count literal.now < 2 ^ 32 }
    ensures given { Answers (λ mapping. mapping) result (mapping_given place source.value target.value literal.now) }
    ensures over { IfOk result (λ mapping. (mapping.source ≡ source.value) × (mapping.target ≡ target.value)) }
{
    let parts = mapping_parts(alloc, literal)?;
    match Mapping::new(alloc, source, target, parts) {
        Ok(mapping) => Ok(mapping),
        Err(refusal) => {
            let places = mapping_places(alloc, literal)?;
            Err(tell_arrow(place, places.as_slice(), refusal))
        }
    }
}

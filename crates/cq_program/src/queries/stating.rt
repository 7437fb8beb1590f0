//! Queries: what is posed of them.
ghost use Rattle.std.specs.Prelude.{◌≡◌, ◌<◌, ◌^◌, IfOk};
ghost use Rattle.cq_base.specs.declared.name.Name.{Name as TheName};
ghost use Rattle.cq_program.specs.Queries.{composite_posed, mapping_query_posed, query_given, query_posed};
ghost use Rattle.cq_environment.specs.Environment.{Answers, AreSettled, environment_of};
ghost use Rattle.cq_parts.specs.Parts.{query_count};
ghost use Rattle.cq_program.specs.Posing.{IsGrounded, IsPosed, posed_as};

use crate::refusals::tell_arrow;
use crate::statement::Statement;
use cq_base::Place;
use cq_environment::{Environment, ProgramRefusal, Reason, mapping_of, query_of};
use cq_parts::{query_parts, query_places};
use cq_query::Query;
use cq_syntax::{QueryLit, Spot};
use cq_theory::Schema;
use std::alloc::Global;
use std::rc::Rc;

/// A query between schemas over one typeside declaration.
pub fn pose_query(
    alloc: Global,
    env: &Environment,
    place: Place,
    literal: &QueryLit,
) -> Result<Statement, ProgramRefusal>
    requires few { query_count literal.now < 2 ^ 32 }
    requires settled { AreSettled (environment_of env.now.names.entries) }
    ensures posed { Answers posed_as result (query_posed (environment_of env.now.names.entries) place literal.now) }
    ensures well_sorted { IfOk result IsPosed }
    ensures grounded { (name : TheName) → IfOk result
        (λ statement. IsGrounded (environment_of env.now.names.entries) name (posed_as statement)) }
{
    let source = env.schema(&literal.source)?;
    let target = env.schema(&literal.target)?;
    if source.typeside != target.typeside {
        return Err(ProgramRefusal::Broken(literal.target.place, Reason::WrongSchema));
    }
    match make_query(alloc, place, source.schema, target.schema, literal) {
        Ok(query) => Ok(Statement::Query(source.name, target.name, query)),
        Err(refusal) => Err(refusal),
    }
}

/// The query of a literal between schemas of one typeside, or the first part that breaks a rule or is missing.
fn make_query(
    alloc: Global,
    place: Place,
    source: Rc<Schema>,
    target: Rc<Schema>,
    literal: &QueryLit,
) -> Result<Query, ProgramRefusal>
    requires typeside { source.value.typeside ≡ target.value.typeside }
    requires few { query_count literal.now < 2 ^ 32 }
    ensures given { Answers (λ query. query) result (query_given place source.value target.value literal.now) }
    ensures over { IfOk result (λ query. (query.source ≡ source.value) × (query.target ≡ target.value)) }
{
    let parts = query_parts(alloc, literal)?;
    match Query::new(alloc, source, target, parts) {
        Ok(query) => Ok(query),
        Err(refusal) => {
            let places = query_places(alloc, literal)?;
            Err(tell_arrow(place, places.as_slice(), refusal))
        }
    }
}

/// Two queries that are to be composed, of which the second starts where the first ends.
pub fn pose_composite(
    env: &Environment,
    first: &Spot,
    second: &Spot,
) -> Result<Statement, ProgramRefusal>
    requires settled { AreSettled (environment_of env.now.names.entries) }
    ensures posed { Answers posed_as result
        (composite_posed (environment_of env.now.names.entries) first.now second.now) }
    ensures well_sorted { IfOk result IsPosed }
    ensures grounded { (name : TheName) → IfOk result
        (λ statement. IsGrounded (environment_of env.now.names.entries) name (posed_as statement)) }
{
    let before = query_of(env, first)?;
    let after = query_of(env, second)?;
    if before.target != after.source {
        return Err(ProgramRefusal::Broken(second.place, Reason::WrongSchema));
    }
    Ok(Statement::Composite(before.source, after.target, before.query, after.query))
}

/// A mapping whose query is wanted, from the mapping's target to its source.
pub fn pose_mapping_query(env: &Environment, used: &Spot) -> Result<Statement, ProgramRefusal>
    requires settled { AreSettled (environment_of env.now.names.entries) }
    ensures posed { Answers posed_as result
        (mapping_query_posed (environment_of env.now.names.entries) used.now) }
    ensures well_sorted { IfOk result IsPosed }
    ensures grounded { (name : TheName) → IfOk result
        (λ statement. IsGrounded (environment_of env.now.names.entries) name (posed_as statement)) }
{
    let named = mapping_of(env, used)?;
    Ok(Statement::MappingQuery(named.target, named.source, named.mapping))
}

//! What a declaration states, or the first rule of names and parts that it breaks.
ghost use Rattle.std.specs.Prelude.{◌<◌, ◌^◌, IfOk};
ghost use Rattle.cq_base.specs.declared.name.Name.{Name as TheName};
ghost use Rattle.cq_syntax.specs.declared.program.Body.TheVariants.{Instance as Instanced};
ghost use Rattle.cq_parts.specs.Few.{part_count};
ghost use Rattle.cq_program.specs.Checks.{body_posed, body_stated, stated_by};
ghost use Rattle.cq_environment.specs.Environment.{Answers, AreSettled, environment_of};
ghost use Rattle.cq_program.specs.Posing.{IsGrounded, IsPosed, IsStated, IsStatedOver, posed_as, stated_as};

use crate::colimits::stating::{pose_colimit, pose_inclusion, pose_joined_schema};
use crate::evals::stating::{pose_coeval, pose_eval};
use crate::gluing::stating::{pose_coproduct, pose_pushout};
use crate::imports::stating::{folder_of, state_folder};
use crate::literals::stating::pose_literal;
use crate::mappings::stating::{pose_identity, pose_mapping};
use crate::movements::stating::pose_move;
use crate::moves::stating::{pose_delta, pose_sigma};
use crate::queries::stating::{pose_composite, pose_mapping_query, pose_query};
use crate::schemas::stating::pose_schema;
use crate::statement::{Stated, Statement};
use crate::transforms::stating::{pose_identical, pose_transform};
use crate::typesides::stating::pose_typeside;
use cq_base::{Name, Place};
use cq_environment::{Environment, ProgramRefusal, Reason};
use cq_syntax::{Body, Decl, InstanceExp, MappingExp, QueryExp, SchemaExp, TransformExp};
use std::alloc::Global;

/// What a declaration states, or the first rule of names and parts that it breaks.
pub fn state(alloc: Global, env: &Environment, decl: &Decl) -> Result<Stated, ProgramRefusal>
    requires few { part_count decl.now.body < 2 ^ 32 }
    requires settled { AreSettled (environment_of env.now.names.entries) }
    ensures stated { Answers stated_as result (stated_by (environment_of env.now.names.entries) decl.now) }
    ensures well_sorted { IfOk result IsStated }
    ensures grounded { IfOk result (λ s. IsStatedOver (environment_of env.now.names.entries) decl.now.name
        (stated_as s)) }
{
    if env.find(&decl.name).is_some() {
        return Err(ProgramRefusal::Broken(decl.name_place, Reason::NameTaken));
    }
    state_body(alloc, env, decl.place, &decl.name, &decl.body)
}

/// What the body of a declaration states, or the first rule of names and parts that it breaks.
fn state_body(
    alloc: Global,
    env: &Environment,
    place: Place,
    name: &Name,
    body: &Body,
) -> Result<Stated, ProgramRefusal>
    requires few { part_count body.now < 2 ^ 32 }
    requires settled { AreSettled (environment_of env.now.names.entries) }
    ensures stated { Answers stated_as result (body_stated (environment_of env.now.names.entries) place
        name.now body.now) }
    ensures well_sorted { IfOk result IsStated }
    ensures grounded { IfOk result (λ s. IsStatedOver (environment_of env.now.names.entries) name.now (stated_as s)) }
{
    match folder_of(body) {
        Some((format, dir, used)) => state_folder(env, format, dir, used),
        None => match pose_body(alloc, env, place, name, body) {
            Ok(statement) => Ok(Stated::AtOnce(statement)),
            Err(refusal) => Err(refusal),
        },
    }
}

/// What the body of a declaration poses, or the first rule of names and parts that it breaks. A folder of files poses
/// what these give, and nothing by itself.
fn pose_body(
    alloc: Global,
    env: &Environment,
    place: Place,
    name: &Name,
    body: &Body,
) -> Result<Statement, ProgramRefusal>
    requires few { part_count body.now < 2 ^ 32 }
    requires settled { AreSettled (environment_of env.now.names.entries) }
    ensures posed { Answers posed_as result (body_posed (environment_of env.now.names.entries) place
        name.now body.now) }
    ensures well_sorted { IfOk result IsPosed }
    ensures grounded { IfOk result (λ statement. IsGrounded (environment_of env.now.names.entries) name.now
        (posed_as statement)) }
{
    match body {
        Body::Typeside(literal) => pose_typeside(alloc, place, literal),
        Body::Schema(SchemaExp::Literal(literal)) => pose_schema(alloc, env, place, name, literal),
        Body::Mapping(MappingExp::Literal(literal)) => pose_mapping(alloc, env, place, literal),
        Body::Mapping(MappingExp::Identity(used)) => pose_identity(env, used),
        Body::Query(QueryExp::Literal(literal)) => pose_query(alloc, env, place, literal),
        Body::Query(QueryExp::Compose(first, second)) => pose_composite(env, first, second),
        Body::Query(QueryExp::OfMapping(used)) => pose_mapping_query(env, used),
        Body::Instance(expression) => pose_instance(alloc, env, place, expression),
        Body::Transform(TransformExp::Literal(literal)) => {
            pose_transform(alloc, env, place, literal)
        }
        Body::Transform(TransformExp::Identity(used)) => pose_identical(alloc, env, used),
        Body::Transform(TransformExp::Move(form, along, moved, source, target)) => {
            pose_move(env, *form, along, moved, source, target)
        }
        Body::Schema(SchemaExp::GetSchema(used)) => pose_joined_schema(env, used),
        Body::Mapping(MappingExp::GetMapping(along, used)) => pose_inclusion(env, along, used),
        Body::Colimit(literal) => pose_colimit(alloc, env, place, name, literal),
    }
}

fn pose_instance(
    alloc: Global,
    env: &Environment,
    place: Place,
    expression: &InstanceExp,
) -> Result<Statement, ProgramRefusal>
    requires few { part_count (Instanced expression.now) < 2 ^ 32 }
    requires settled { AreSettled (environment_of env.now.names.entries) }
    ensures posed { (name : TheName) → Answers posed_as result
        (body_posed (environment_of env.now.names.entries) place name (Instanced expression.now)) }
    ensures well_sorted { IfOk result IsPosed }
    ensures grounded { (name : TheName) → IfOk result
        (λ statement. IsGrounded (environment_of env.now.names.entries) name (posed_as statement)) }
{
    match expression {
        InstanceExp::Literal(literal) => pose_literal(alloc, env, place, literal),
        InstanceExp::Delta(along, used) => pose_delta(env, along, used),
        InstanceExp::Sigma(along, used) => pose_sigma(env, along, used),
        InstanceExp::Eval(along, used) => pose_eval(env, along, used),
        InstanceExp::Coeval(along, used) => pose_coeval(env, along, used),
        InstanceExp::Coproduct(operands, used) => pose_coproduct(
            alloc,
            env,
            operands.as_slice(),
            used,
        ),
        InstanceExp::Pushout(first, second) => pose_pushout(env, first, second),
        InstanceExp::ImportCsv(_, _, _) | InstanceExp::ImportCsv2(_, _, _) => {
            Err(ProgramRefusal::Broken(place, Reason::WrongKind))
        }
    }
}

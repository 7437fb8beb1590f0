//! What the part of a literal at a place names, and the names that may stand there.
mod arrows;
mod blocks;
mod theories;

use crate::scope::Look;
use cq_base::Place;
use cq_environment::Environment;
use cq_syntax::{Body, InstanceExp, MappingExp, QueryExp, SchemaExp, TransformExp};
use std::alloc::{AllocError, Global};
pub use theories::{joined_name, schema_of};

/// The uses of the part at a place, where the body of a declaration is a literal, over the names that are known there.
pub fn look_at(
    alloc: Global,
    env: &Environment,
    body: &Body,
    place: Place,
) -> Result<Look, AllocError> {
    let mut look = Look::new(alloc);
    match body {
        Body::Typeside(literal) => look.at_typeside(literal, place)?,
        Body::Schema(SchemaExp::Literal(literal)) => look.at_schema(env, literal, place)?,
        Body::Schema(SchemaExp::GetSchema(_)) => {}
        Body::Colimit(literal) => look.at_colimit(alloc, env, literal, place)?,
        Body::Mapping(MappingExp::Literal(literal)) => look.at_mapping(env, literal, place)?,
        Body::Mapping(_) => {}
        Body::Query(QueryExp::Literal(literal)) => look.at_query(env, literal, place)?,
        Body::Query(_) => {}
        Body::Instance(InstanceExp::Literal(literal)) => look.at_instance(env, literal, place)?,
        Body::Instance(_) => {}
        Body::Transform(TransformExp::Literal(literal)) => {
            look.at_transform(env, literal, place)?
        }
        Body::Transform(_) => {}
    }
    Ok(look)
}

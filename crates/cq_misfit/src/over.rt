//! The names over which the terms of a literal are, and those for which it gives something, with their sorts.
use crate::joined::Joined;
use crate::signature::Signature;
use cq_base::Name;
use cq_environment::{Environment, Meaning};
use cq_known::{Kind, schema_of};
use cq_syntax::{
    Body, ColimitLit, InstanceExp, InstanceLit, MappingExp, QueryExp, SchemaExp, SchemaLit, Spot,
    TransformExp,
};
use std::alloc::{AllocError, Global};

/// The names over which the terms of a literal are. The variables of its parts are left out.
pub fn terms_over(alloc: Global, env: &Environment, body: &Body) -> Result<Signature, AllocError> {
    let mut made = Signature::new(alloc);
    match body {
        Body::Schema(SchemaExp::Literal(literal)) => made.add_declared(alloc, env, literal)?,
        Body::Colimit(literal) => add_joined(alloc, env, literal, &mut made)?,
        Body::Mapping(MappingExp::Literal(literal)) => {
            made.add_used(alloc, env, &literal.target.name)?
        }
        Body::Query(QueryExp::Literal(literal)) => {
            made.add_used(alloc, env, &literal.source.name)?
        }
        Body::Instance(InstanceExp::Literal(literal)) => { made.add_literal(alloc, env, literal)? }
        Body::Transform(TransformExp::Literal(literal)) => {
            made.add_instance(alloc, env, &literal.target)?
        }
        _ => {}
    }
    Ok(made)
}

/// The names for which a mapping, a query or a transform gives something.
pub fn given_for(alloc: Global, env: &Environment, body: &Body) -> Result<Signature, AllocError> {
    let mut made = Signature::new(alloc);
    match body {
        Body::Mapping(MappingExp::Literal(literal)) => {
            made.add_used(alloc, env, &literal.source.name)?
        }
        Body::Query(QueryExp::Literal(literal)) => {
            made.add_used(alloc, env, &literal.target.name)?
        }
        Body::Transform(TransformExp::Literal(literal)) => {
            made.add_instance(alloc, env, &literal.source)?
        }
        _ => {}
    }
    Ok(made)
}

/// Adds the names of the schema that a colimit makes.
fn add_joined(
    alloc: Global,
    env: &Environment,
    literal: &ColimitLit,
    made: &mut Signature,
) -> Result<(), AllocError> {
    made.add_used_typeside(alloc, env, &literal.typeside)?;
    let joined = Joined::new(alloc, env, literal)?;
    joined.add_names(alloc, made)
}

impl Signature {
    /// Adds the names of the schema for which a used name stands.
    fn add_used(
        &mut self,
        alloc: Global,
        env: &Environment,
        used: &Name,
    ) -> Result<(), AllocError> {
        match schema_of(env, used) {
            Some(schema) => self.add_schema(alloc, schema),
            None => Ok(()),
        }
    }

    fn add_used_typeside(
        &mut self,
        alloc: Global,
        env: &Environment,
        used: &Spot,
    ) -> Result<(), AllocError> {
        match env.find(&used.name) {
            Some(Meaning::Typeside(typeside)) => self.add_typeside(alloc, typeside),
            _ => Ok(()),
        }
    }

    /// Adds the names that a schema declares.
    fn add_declared(
        &mut self,
        alloc: Global,
        env: &Environment,
        literal: &SchemaLit,
    ) -> Result<(), AllocError> {
        self.add_used_typeside(alloc, env, &literal.typeside)?;
        for entity in literal.entities.as_slice() {
            self.add_sort(Kind::Entity, &entity.name)?;
        }
        self.add_edge_groups(alloc, Kind::Key, literal.keys.as_slice())?;
        self.add_edge_groups(alloc, Kind::Attribute, literal.attributes.as_slice())
    }

    /// Adds the names of an instance's schema, and the generators that it declares.
    fn add_literal(
        &mut self,
        alloc: Global,
        env: &Environment,
        literal: &InstanceLit,
    ) -> Result<(), AllocError> {
        self.add_used(alloc, env, &literal.schema.name)?;
        self.add_groups(literal.generators.as_slice())
    }

    /// Adds the names of the schema of an instance for which a used name stands, and its generators.
    fn add_instance(
        &mut self,
        alloc: Global,
        env: &Environment,
        used: &Spot,
    ) -> Result<(), AllocError> {
        if let Some(Meaning::Instance(_, instance)) = env.find(&used.name) {
            self.add_schema(alloc, instance.schema())?;
            self.add_presentation(instance.schema(), instance.presentation())?;
        }
        Ok(())
    }
}

//! What doesn't fit together in the part at a place.
use crate::misfit::{Halt, Misfit};
use crate::over::{given_for, terms_over};
use crate::part::{Part, part_at};
use crate::signature::Signature;
use crate::sorted::{Arrow, NamedSort, kind_of_end};
use cq_base::{Name, Place};
use cq_environment::Environment;
use cq_known::{Kind, schema_of};
use cq_syntax::{Body, EdgeSyn, PairSyn};
use cq_theory::Sort;
use std::alloc::{AllocError, Global};

/// What doesn't fit together in the part at a place: the first that is found. None: no sorts are found there that don't
/// fit.
pub fn missorted_in_part(
    alloc: Global,
    env: &Environment,
    body: &Body,
    place: Place,
) -> Result<Option<Misfit>, AllocError> {
    let Some(part) = part_at(body, place) else {
        return Ok(None);
    };
    let given = given_for(alloc, env, body)?;
    let mut terms = terms_over(alloc, env, body)?;
    match check_part(env, &given, &mut terms, part) {
        Ok(()) => Ok(None),
        Err(Halt::Found(misfit)) => Ok(Some(misfit)),
        Err(Halt::Lost) => Ok(None),
        Err(Halt::Memory) => Err(AllocError),
    }
}

/// Whether the sorts in a part fit together.
fn check_part(
    env: &Environment,
    given: &Signature,
    terms: &mut Signature,
    part: Part<'_>,
) -> Result<(), Halt> {
    match part {
        Part::Edges(kind, group) => terms.check_edges(kind, group),
        Part::Paths(equation) => terms.check_paths(equation),
        Part::Observation(equation) => terms.check_observation(equation),
        Part::Equation(equation) => terms.check_sides(&equation.left.raw, &equation.right.raw),
        Part::Pair(pair) => check_pair(env, pair),
        Part::EntityImage(block) => {
            given.check_entity(&block.entity)?;
            terms.check_entity(&block.image)
        }
        Part::KeyImage(literal, block, image) => {
            terms.check_key_image(given, literal, block, image)
        }
        Part::AttributeImage(literal, block, image) => {
            terms.check_attribute_image(given, literal, block, image)
        }
        Part::Block(block) => given.check_entity(&block.entity),
        Part::Variables(group) => terms.check_entity(&group.sort),
        Part::Test(block, equation) => terms.check_test(block, equation),
        Part::Attribute(block, bind) => terms.check_attribute(given, block, bind),
        Part::Key(block, key) => given.check_key(block, key),
        Part::Assigned(literal, block, key, bind) => {
            terms.check_assigned(given, literal, block, key, bind)
        }
        Part::Image(bind) => terms.check_image(given, bind),
    }
}

/// Whether two entities of schemas that are joined are no types.
fn check_pair(env: &Environment, pair: &PairSyn) -> Result<(), Halt> {
    check_end(env, &pair.left)?;
    check_end(env, &pair.right)
}

fn check_end(env: &Environment, end: &(Name, Name)) -> Result<(), Halt> {
    let Some(schema) = schema_of(env, &end.0) else {
        return Err(Halt::Lost);
    };
    match schema.find_sort(&end.1) {
        Some(Sort::Plain(_)) => Err(Halt::Found(Misfit::Kinds(
            end.1.clone()?,
            Kind::Type,
            Kind::Entity,
        ))),
        Some(Sort::Entity(_)) => Ok(()),
        None => Err(Halt::Lost),
    }
}

impl Signature {
    /// The entity of a name.
    pub fn entity(&self, name: &Name) -> Result<&NamedSort, Halt> {
        self.sort_as(Kind::Entity, name)
    }

    fn sort_as(&self, kind: Kind, name: &Name) -> Result<&NamedSort, Halt> {
        let Some(sort) = self.find_sort(name) else {
            return Err(Halt::Lost);
        };
        if sort.kind == kind {
            return Ok(sort);
        }
        Err(Halt::Found(Misfit::Kinds(name.clone()?, sort.kind, kind)))
    }

    /// The foreign key or the attribute of a name.
    pub fn arrow_as(&self, kind: Kind, name: &Name) -> Result<&Arrow, Halt> {
        let Some(arrow) = self.find_arrow(name) else {
            return Err(Halt::Lost);
        };
        if arrow.kind == kind {
            return Ok(arrow);
        }
        Err(Halt::Found(Misfit::Kinds(name.clone()?, arrow.kind, kind)))
    }

    fn check_entity(&self, name: &Name) -> Result<(), Halt> {
        let _entity = self.entity(name)?;
        Ok(())
    }

    fn check_edges(&self, kind: Kind, group: &EdgeSyn) -> Result<(), Halt> {
        let _from = self.sort_as(Kind::Entity, &group.from)?;
        let _to = self.sort_as(kind_of_end(kind), &group.to)?;
        Ok(())
    }
}

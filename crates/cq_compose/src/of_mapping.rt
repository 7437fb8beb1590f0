//! The query of a mapping, which answers what the mapping pulls back.
ghost use Rattle.std.specs.Prelude.{◌≡◌, ◌<◌, [], ◌∷◌, IfOk, map, length};
ghost use Rattle.cq_theory.specs.Canonical.{below};
ghost use Rattle.cq_theory.specs.Groups.{edge_sources, AreGroups};
ghost use Rattle.cq_mapping.specs.Images.{entity_image, key_image, attribute_image};
ghost use Rattle.cq_theory.specs.Tables.{Tables, IsWellFormed};
ghost use Rattle.cq_mapping.specs.Duties.{Preserves};
ghost use Rattle.cq_mapping.specs.Moved.{delta_tables};
ghost use Rattle.cq_query.specs.Duties.{Sound};
ghost use Rattle.cq_query.specs.Answers.{IsEval};
ghost use Rattle.cq_compose.specs.MappingQuery.{mapping_query as query_of_mapping, mapping_block, from_variable};

use crate::numbered::number_entities;
use cq_base::Seq;
use cq_mapping::Mapping;
use cq_query::{Block, Query};
use cq_terms::copy_type_term;
use cq_theory::{Con, EntTerm, Groups, Path, TypeTerm, attributes_by_entity, keys_by_entity};
use std::alloc::{AllocError, Global};

fn image_of_entity(mapping: &Mapping, entity: u32) -> u32
    ensures { result ≡ entity_image mapping.now entity }
{
    match mapping.entities.as_slice().get(entity as usize) {
        Some(image) => *image,
        None => 0,
    }
}

/// The term of an attribute.
fn image_of_attribute(
    alloc: Global,
    mapping: &Mapping,
    attribute: u32,
) -> Result<TypeTerm, AllocError>
    ensures { IfOk result (λ made. made ≡ attribute_image mapping.now attribute) }
{
    match mapping.attributes.as_slice().get(attribute as usize) {
        Some(term) => copy_type_term(alloc, term),
        None => Ok(TypeTerm::Const(Con::Named(0))),
    }
}

/// The path of a foreign key, from the one variable.
fn image_of_key(alloc: Global, mapping: &Mapping, key: u32) -> Result<EntTerm, AllocError>
    ensures { IfOk result (λ made. made ≡ from_variable mapping.now (key_image mapping.now key)) }
{
    let path = match mapping.keys.as_slice().get(key as usize) {
        Some(path) => Path::from_slice(alloc, path.as_slice())?,
        None => Path::empty(),
    };
    Ok(EntTerm { generator: 0, path })
}

/// The terms of these attributes.
fn images_of_attributes(
    alloc: Global,
    mapping: &Mapping,
    attributes: &[u32],
) -> Result<Vec<TypeTerm>, AllocError>
    ensures { IfOk result (λ made. made.items ≡ map (attribute_image mapping.now) attributes.now) }
{
    let mut made = Vec::with_capacity(alloc, attributes.len())?;
    for attribute in attributes {
        made.push(image_of_attribute(alloc, mapping, *attribute)?)?;
    }
    Ok(made)
}

/// What a key assigns to the one variable of its target's block.
fn assignment(alloc: Global, mapping: &Mapping, key: u32) -> Result<Seq<EntTerm>, AllocError>
    ensures { IfOk result (λ made. made ≡ from_variable mapping.now (key_image mapping.now key) ∷ []) }
{
    let mut made = Vec::new(alloc);
    made.push(image_of_key(alloc, mapping, key)?)?;
    Ok(Seq::from_vec(made))
}

/// What each of these keys assigns.
fn assignments(
    alloc: Global,
    mapping: &Mapping,
    keys: &[u32],
) -> Result<Vec<Seq<EntTerm>>, AllocError>
    ensures { IfOk result (λ made. made.items
        ≡ map (λ key. from_variable mapping.now (key_image mapping.now key) ∷ []) keys.now) }
{
    let mut made = Vec::with_capacity(alloc, keys.len())?;
    for key in keys {
        made.push(assignment(alloc, mapping, *key)?)?;
    }
    Ok(made)
}

/// The attributes and the foreign keys that begin at each entity of a mapping's source.
struct Sources {
    attributes: Groups,
    keys: Groups,
}

impl Drop for Sources {
    fn drop(self) {
        let Self {
            attributes: _,
            keys: _,
        } = self;
    }
}

/// The block of an entity.
fn build_block(
    alloc: Global,
    mapping: &Mapping,
    sources: &Sources,
    entity: u32,
) -> Result<Block, AllocError>
    requires attributes { AreGroups (edge_sources mapping.now.source.attributes)
        (length mapping.now.source.entities) sources.now.attributes }
    requires keys { AreGroups (edge_sources mapping.now.source.keys) (length mapping.now.source.entities)
        sources.now.keys }
    requires entity { entity < length mapping.now.source.entities }
    ensures { IfOk result (λ made. made ≡ mapping_block mapping.now (entity, entity_image mapping.now entity)) }
{
    let image = image_of_entity(mapping, entity);
    let vars = number_entities(alloc, &[image])?;
    let from_here = sources.attributes.of(entity);
    let attributes = images_of_attributes(alloc, mapping, from_here)?;
    let away = sources.keys.of(entity);
    let keys = assignments(alloc, mapping, away)?;
    let tests = Vec::new(alloc);
    Ok(Block {
        vars: Seq::from_vec(vars),
        tests: Seq::from_vec(tests),
        attributes: Seq::from_vec(attributes),
        keys: Seq::from_vec(keys),
    })
}

/// The blocks of all entities.
#[tactic(auto, using(cq_mapping::proofs::Ranges::map_below_more))]
fn build_blocks(
    alloc: Global,
    mapping: &Mapping,
    sources: &Sources,
) -> Result<Vec<Block>, AllocError>
    requires attributes { AreGroups (edge_sources mapping.now.source.attributes)
        (length mapping.now.source.entities) sources.now.attributes }
    requires keys { AreGroups (edge_sources mapping.now.source.keys) (length mapping.now.source.entities)
        sources.now.keys }
    ensures { IfOk result (λ made. made.items
        ≡ map (λ e. mapping_block mapping.now (e, entity_image mapping.now e))
        (below (length mapping.now.source.entities))) }
{
    let count = entity_count(mapping);
    let mut made = Vec::new(alloc);
    for entity in 0..count {
        made.push(build_block(alloc, mapping, sources, entity)?)?;
    }
    Ok(made)
}

/// How many entities a mapping's source has.
fn entity_count(mapping: &Mapping) -> u32
    ensures { result ≡ length mapping.now.source.entities }
{
    let source = &mapping.source;
    source.is_well_sorted();
    source.entities.len() as u32
}

/// The query of a mapping, from the mapping's target to its source: for each entity one variable `x1` of its image, for
/// each attribute its image, and for each foreign key its path (Schultz and Wisnesky, Algebraic Data Integration:
/// uber-flower queries). Its only refusal is want of memory.
pub fn mapping_query(alloc: Global, mapping: &Mapping) -> Result<Query, AllocError>
    ensures query { IfOk result (λ made. made ≡ query_of_mapping mapping.now) }
    // If the mapping preserves equality, its query is sound.
    ensures sound { IfOk result (λ made. Preserves mapping.now → Sound made) }
    // On tables of the mapping's target the query answers what the mapping pulls back.
    ensures evals { IfOk result (λ made. (M : Tables) → IsWellFormed mapping.now.target M
        → IsEval made M (delta_tables mapping.now M)) }
{
    mapping.is_well_sorted();
    let attributes = attributes_by_entity(alloc, &mapping.source)?;
    let keys = keys_by_entity(alloc, &mapping.source)?;
    let sources = Sources { attributes, keys };
    let blocks = build_blocks(alloc, mapping, &sources)?;
    let source = mapping.target.clone()?;
    let target = mapping.source.clone()?;
    Query::of_blocks(alloc, source, target, Seq::from_vec(blocks))
}

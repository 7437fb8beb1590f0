//! The images of entities.
ghost use Rattle.std.specs.Prelude.{◌≡◌, ◌-◌, ◌<◌, ◌^◌, ◌⊎◌, ◌++◌, ◌∷◌, [], IfOk, IfErr, Some, None, length, map};
ghost use Rattle.std.specs.Prelude.{option_map};
ghost use Rattle.cq_theory.specs.ArrowRefusals.{of_arrow as refusal_of_arrow, first_missing};
ghost use Rattle.cq_theory.specs.Resolve.{or_else};
ghost use Rattle.cq_theory.specs.Schema.{edge_names};
ghost use Rattle.cq_mapping.specs.MappingParts.{entity_ends_fault as fault_of_ends, entity_part_fault};
ghost use Rattle.cq_mapping.specs.MappingParts.{entity_parts_fault, given_entities, made_entity, made_entities};

use cq_base::{Name, Names};
use cq_theory::lookup::{check_given, declare, entity_of_sort, missing, of_arrow};
use cq_theory::{ArrowRefusal, Edge, Schema, TheoryRefusal};
use std::alloc::{AllocError, Global};

/// Whether each foreign key or attribute is given. Otherwise the first one that isn't.
pub(crate) fn check_edges(given: &Names, edges: &[Edge]) -> Result<(), ArrowRefusal>
    ensures accepted { IfOk result (λ _. first_missing given.now (edge_names edges.now) ≡ None) }
    ensures refused { IfErr result (λ refusal. (refusal ≡ ArrowRefusal.Memory)
        ⊎ (first_missing given.now (edge_names edges.now) ≡ Some refusal)) }
{
    for edge in edges {
        if given.find(&edge.name).is_none() {
            return Err(missing(&edge.name));
        }
    }
    Ok(())
}

/// The fault of a part that gives an entity an image, where it has none yet.
fn entity_ends_fault(
    source: &Schema,
    target: &Schema,
    part: u32,
    names: &(Name, Name),
) -> Option<TheoryRefusal>
    ensures { result ≡ fault_of_ends source.now target.now part names.now }
{
    let entity = source.find_sort(&names.0);
    let image = target.find_sort(&names.1);
    if entity.is_none() || image.is_none() {
        return Some(TheoryRefusal::Unknown(part));
    }
    if entity_of_sort(entity).is_none() || entity_of_sort(image).is_none() {
        return Some(TheoryRefusal::WrongSort(part));
    }
    None
}

/// Adds the entity to which a part gives an image to the table of those that have one.
fn add_entity(
    source: &Schema,
    target: &Schema,
    table: &mut Names,
    part: u32,
    names: &(Name, Name),
) -> Result<(), TheoryRefusal>
    requires { length table.old < 2 ^ 32 - 1 }
    ensures ok { IfOk result (λ _. (entity_part_fault source.now target.now table.old part names.now ≡ None)
        × (table.new ≡ table.old ++ names.now.0 ∷ [])) }
    ensures refused { IfErr result (λ refusal. (refusal ≡ TheoryRefusal.Memory)
        ⊎ (entity_part_fault source.now target.now table.old part names.now ≡ Some refusal)) }
{
    declare(table, part, &names.0)?;
    match entity_ends_fault(source, target, part, names) {
        Some(refusal) => Err(refusal),
        None => Ok(()),
    }
}

/// The table of the entities that have an image.
fn add_entities(
    alloc: Global,
    source: &Schema,
    target: &Schema,
    parts: &[(Name, Name)],
) -> Result<Names, TheoryRefusal>
    requires { length parts.now < 2 ^ 32 }
    ensures accepted { IfOk result (λ _. entity_parts_fault source.now target.now parts.now ≡ None) }
    ensures made { IfOk result (λ table. table ≡ given_entities parts.now) }
    ensures refused { IfErr result (λ refusal. (refusal ≡ TheoryRefusal.Memory)
        ⊎ (entity_parts_fault source.now target.now parts.now ≡ Some refusal)) }
{
    let mut table = Names::new(alloc);
    let mut part = 0;
    for names in parts {
        add_entity(source, target, &mut table, part, names)?;
        part += 1;
    }
    Ok(table)
}

/// The image of the entity of a name.
fn image_of(target: &Schema, given: &Names, parts: &[(Name, Name)], name: &Name) -> u32
    ensures { result ≡ made_entity target.now given.now parts.now name.now }
{
    let Some(place) = given.find(name) else {
        return 0;
    };
    let Some(part) = parts.get(place as usize) else {
        return 0;
    };
    match entity_of_sort(target.find_sort(&part.1)) {
        Some(image) => image,
        None => 0,
    }
}

fn build_entities(
    alloc: Global,
    source: &Schema,
    target: &Schema,
    given: &Names,
    parts: &[(Name, Name)],
) -> Result<Vec<u32>, AllocError>
    ensures { IfOk result (λ images. images.items ≡ map (made_entity target.now given.now parts.now)
        source.now.entities) }
{
    let mut images = Vec::new(alloc);
    for name in source.entities.as_slice() {
        images.push(image_of(target, given, parts, name))?;
    }
    Ok(images)
}

/// The image of each entity of the source.
pub(crate) fn make_entities(
    alloc: Global,
    source: &Schema,
    target: &Schema,
    parts: &[(Name, Name)],
) -> Result<Vec<u32>, ArrowRefusal>
    requires { length parts.now < 2 ^ 32 }
    ensures accepted { IfOk result (λ _. (entity_parts_fault source.now target.now parts.now ≡ None)
        × (first_missing (given_entities parts.now) source.now.entities ≡ None)) }
    ensures made { IfOk result (λ images. images.items ≡ made_entities source.now target.now parts.now) }
    ensures refused { IfErr result (λ refusal. (refusal ≡ ArrowRefusal.Memory)
        ⊎ (or_else (option_map refusal_of_arrow (entity_parts_fault source.now target.now parts.now))
        (first_missing (given_entities parts.now) source.now.entities) ≡ Some refusal)) }
{
    match add_entities(alloc, source, target, parts) {
        Ok(given) => finish_entities(alloc, source, target, &given, parts),
        Err(refusal) => Err(of_arrow(refusal)),
    }
}

fn finish_entities(
    alloc: Global,
    source: &Schema,
    target: &Schema,
    given: &Names,
    parts: &[(Name, Name)],
) -> Result<Vec<u32>, ArrowRefusal>
    ensures accepted { IfOk result (λ _. first_missing given.now source.now.entities ≡ None) }
    ensures made { IfOk result (λ images. images.items ≡ map (made_entity target.now given.now parts.now)
        source.now.entities) }
    ensures refused { IfErr result (λ refusal. (refusal ≡ ArrowRefusal.Memory)
        ⊎ (first_missing given.now source.now.entities ≡ Some refusal)) }
{
    check_given(given, source.entities.as_slice())?;
    let images = build_entities(alloc, source, target, given, parts)?;
    Ok(images)
}

//! The attributes and the foreign keys of each entity.
ghost use Rattle.std.specs.Prelude.{◌<◌, ◌^◌, [], All, IfOk, length};
ghost use Rattle.cq_text.specs.Grouped.{IsGrouped};

use cq_instance::Instance;
use cq_theory::Edge;
use std::alloc::{AllocError, Global};

/// The numbers of the attributes of each entity, in their order.
pub fn attributes_by_entity(alloc: Global, instance: &Instance) -> Result<Vec<Vec<u32>>, AllocError>
    ensures { IfOk result (λ groups. IsGrouped instance.now.schema.attributes (length instance.now.schema.entities)
        groups.items) }
{
    let schema = instance.schema();
    group_by_source(alloc, schema.attributes.as_slice(), schema.entities.len())
}

/// The numbers of the foreign keys of each entity, in their order.
pub fn keys_by_entity(alloc: Global, instance: &Instance) -> Result<Vec<Vec<u32>>, AllocError>
    ensures { IfOk result (λ groups. IsGrouped instance.now.schema.keys (length instance.now.schema.entities)
        groups.items) }
{
    let schema = instance.schema();
    group_by_source(alloc, schema.keys.as_slice(), schema.entities.len())
}

/// The numbers of the edges from each entity, in their order: one list for each entity.
pub fn group_by_source(
    alloc: Global,
    edges: &[Edge],
    entities: usize,
) -> Result<Vec<Vec<u32>>, AllocError>
    requires count { length edges.now < 2 ^ 32 }
    requires sources { All (λ edge. edge.from < entities) edges.now }
    ensures { IfOk result (λ groups. IsGrouped edges.now entities groups.items) }
{
    let mut groups = empty_groups(alloc, entities)?;
    for (number, edge) in edges.iter().enumerate() {
        groups[edge.from as usize].push(number as u32)?;
    }
    Ok(groups)
}

fn empty_groups(alloc: Global, entities: usize) -> Result<Vec<Vec<u32>>, AllocError>
    ensures { IfOk result (λ groups. IsGrouped [] entities groups.items) }
{
    let mut groups = Vec::with_capacity(alloc, entities)?;
    for _ in 0..entities {
        groups.push(Vec::new(alloc))?;
    }
    Ok(groups)
}

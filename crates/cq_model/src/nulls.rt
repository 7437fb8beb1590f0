//! Nulls counted out over the cells, entity by entity, row by row and attribute by attribute.
ghost use Rattle.std.specs.Prelude.{ℕ, ◌≡◌, ◌<◌, ◌≤◌, ◌+◌, ◌*◌, ◌^◌, ◌++◌, [], map, length, All, IfOk, OnOk};
ghost use Rattle.std.specs.Prelude.{slice_index, slice_index_or};
ghost use Rattle.std.specs.List.{flat_map};
ghost use Rattle.cq_model.specs.Numbering as numbering;

use cq_base::Seq;
use std::alloc::{AllocError, Global};

/// The type of each null, and the number of each entity's first null.
#[derive(Drop)]
pub struct Nulls {
    pub types: Vec<u32>,
    pub starts: Vec<u64>,
}

/// One null for each row and attribute of each entity, where `targets` has the type of each attribute.
pub fn count_nulls(
    alloc: Global,
    rows: &[Seq<u32>],
    attributes: &[Seq<u32>],
    targets: &[u32],
) -> Result<Nulls, AllocError>
    requires entities { length attributes.now ≡ length rows.now }
    requires within { All (λ places. All (λ a. a < length targets.now) places) attributes.now }
    ensures types { IfOk result (λ nulls. nulls.types.items ≡ numbering.types rows.now attributes.now targets.now
        (length rows.now)) }
    ensures starts { IfOk result (λ nulls. nulls.starts.items ≡ numbering.starts rows.now attributes.now targets.now
        (length rows.now)) }
{
    let mut types = Vec::new(alloc);
    let mut starts = Vec::new(alloc);
    for entity in 0..rows.len() {
        starts.push(types.len() as u64)?;
        push_entity(
            &mut types,
            rows[entity].as_slice(),
            attributes[entity].as_slice(),
            targets,
        )?;
    }
    Ok(Nulls { types, starts })
}

/// Appends the types of an entity's nulls.
fn push_entity(
    types: &mut Vec<u32>,
    rows: &[u32],
    places: &[u32],
    targets: &[u32],
) -> Result<(), AllocError>
    requires { All (λ a. a < length targets.now) places.now }
    ensures { OnOk result (types.new.items ≡ types.old.items
        ++ flat_map (λ row. map (slice_index targets.now) places.now) rows.now) }
{
    for _row in rows {
        push_row(types, places, targets)?;
    }
    Ok(())
}

/// Appends the types of a row's nulls.
fn push_row(types: &mut Vec<u32>, places: &[u32], targets: &[u32]) -> Result<(), AllocError>
    requires { All (λ a. a < length targets.now) places.now }
    ensures { OnOk result (types.new.items ≡ types.old.items ++ map (slice_index targets.now) places.now) }
{
    for place in places {
        types.push(targets[*place as usize])?;
    }
    Ok(())
}

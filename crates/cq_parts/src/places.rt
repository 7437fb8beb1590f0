//! The places of the parts of a literal, in the order in which the parts are numbered.
ghost use Rattle.std.specs.Prelude.{◌≡◌, ◌++◌, IfOk, OnOk, option_to_list};
ghost use Rattle.cq_parts.specs.Parts.{places_of, typeside_places, schema_places, instance_places};
ghost use Rattle.cq_parts.specs.Parts.{colimit_places, mapping_places, transform_places};

use crate::placed::{push_all, push_each};
use cq_base::Place;
use cq_syntax::{ColimitLit, InstanceLit, MappingLit, SchemaLit, Spot, TransformLit, TypesideLit};
use std::alloc::{AllocError, Global};

/// The places of the parts of a typeside.
#[tactic(auto, unfolding(crate::specs::Parts::typeside_places))]
pub fn typeside_places(alloc: Global, literal: &TypesideLit) -> Result<Vec<Place>, AllocError>
    ensures { IfOk result (λ places. places.items ≡ typeside_places literal.now) }
{
    let mut places = Vec::new(alloc);
    push_each(&mut places, literal.types.as_slice())?;
    push_optional(&mut places, &literal.literals)?;
    push_all(&mut places, literal.constants.as_slice())?;
    push_all(&mut places, literal.functions.as_slice())?;
    Ok(places)
}

/// The places of the parts of a schema.
#[tactic(auto, unfolding(crate::specs::Parts::schema_places))]
pub fn schema_places(alloc: Global, literal: &SchemaLit) -> Result<Vec<Place>, AllocError>
    ensures { IfOk result (λ places. places.items ≡ schema_places literal.now) }
{
    let mut places = Vec::new(alloc);
    push_each(&mut places, literal.entities.as_slice())?;
    push_all(&mut places, literal.keys.as_slice())?;
    push_each(&mut places, literal.path_eqs.as_slice())?;
    push_all(&mut places, literal.attributes.as_slice())?;
    push_each(&mut places, literal.obs_eqs.as_slice())?;
    Ok(places)
}

/// The places of the parts of a presentation.
#[tactic(auto, unfolding(crate::specs::Parts::instance_places))]
pub fn instance_places(alloc: Global, literal: &InstanceLit) -> Result<Vec<Place>, AllocError>
    ensures { IfOk result (λ places. places.items ≡ instance_places literal.now) }
{
    let mut places = Vec::new(alloc);
    push_all(&mut places, literal.generators.as_slice())?;
    push_each(&mut places, literal.equations.as_slice())?;
    Ok(places)
}

/// The places of the parts of a mapping.
#[tactic(auto, unfolding(crate::specs::Parts::mapping_places))]
pub fn mapping_places(alloc: Global, literal: &MappingLit) -> Result<Vec<Place>, AllocError>
    ensures { IfOk result (λ places. places.items ≡ mapping_places literal.now) }
{
    let mut places = Vec::new(alloc);
    push_each(&mut places, literal.blocks.as_slice())?;
    push_all(&mut places, literal.blocks.as_slice())?;
    Ok(places)
}

/// The places of the parts of a colimit.
#[tactic(auto, unfolding(crate::specs::Parts::colimit_places))]
pub fn colimit_places(alloc: Global, literal: &ColimitLit) -> Result<Vec<Place>, AllocError>
    ensures { IfOk result (λ places. places.items ≡ colimit_places literal.now) }
{
    let mut places = Vec::new(alloc);
    push_each(&mut places, literal.parts.as_slice())?;
    push_each(&mut places, literal.pairs.as_slice())?;
    push_each(&mut places, literal.path_eqs.as_slice())?;
    push_each(&mut places, literal.obs_eqs.as_slice())?;
    Ok(places)
}

/// The places of the images of a transform.
#[tactic(auto, unfolding(crate::specs::Parts::transform_places))]
pub fn transform_places(alloc: Global, literal: &TransformLit) -> Result<Vec<Place>, AllocError>
    ensures { IfOk result (λ places. places.items ≡ transform_places literal.now) }
{
    let mut places = Vec::new(alloc);
    push_each(&mut places, literal.images.as_slice())?;
    Ok(places)
}

fn push_optional(places: &mut Vec<Place>, spot: &Option<Spot>) -> Result<(), AllocError>
    ensures { OnOk result (places.new.items ≡ places.old.items ++ places_of (option_to_list spot.now)) }
{
    if let Some(spot) = spot {
        places.push(spot.place)?;
    }
    Ok(())
}

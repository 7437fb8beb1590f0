//! Instances that are pushed forward along mappings.
ghost use Rattle.std.specs.Prelude.{◌≡◌, ◌≤◌};
ghost use Rattle.cq_mapping.specs.Images.{sigma as moved};
ghost use Rattle.cq_model.specs.Moving.{IsModelOrCause};

use cq_mapping::Mapping;
use cq_model::{Instance, MoveRefusal, build_presented};
use std::alloc::Global;

/// The listed model of the presentation to which the mapping sends the instance's presentation, made of rows up to a
/// depth of at most 64.
///
/// `TooLarge` is tried first: it is answered exactly where a term of that presentation has over 1,024 symbols. Then
/// the refusals are those of `build`, in its order.
pub fn sigma(
    alloc: Global,
    mapping: &Mapping,
    instance: &Instance,
    depth: u32,
) -> Result<Instance, MoveRefusal>
    requires over { instance.now.schema ≡ mapping.now.source }
    requires depth { depth ≤ 64 }
    ensures { IsModelOrCause mapping.now.target (moved mapping.now instance.now.presentation) depth result }
{
    instance.is_instance();
    let target = mapping.target.clone()?;
    let presented = mapping.sigma_presentation(alloc, instance.presentation());
    build_presented(alloc, target, presented, depth)
}

//! Transforms between instances that a mapping pushes forward.
ghost use Rattle.std.specs.Prelude.{◌≡◌, false, map, IfOk, IfErr};
ghost use Rattle.cq_theory.specs.Tables.{Initial};
ghost use Rattle.cq_mapping.specs.Duties.{Preserves};
ghost use Rattle.cq_mapping.specs.Images.{ent_image};
ghost use Rattle.cq_move.specs.Pulling.{TellsSize};
ghost use Rattle.cq_transform.specs.Composing.{has_long};
ghost use Rattle.cq_transform.specs.Transforms.{GoesFrom};
ghost use Rattle.cq_adjoint.specs.Moved.{IsSigmaOf};
ghost use Rattle.cq_adjoint.specs.Moves.{image_along as along_mapping, sigma_images};

use crate::limits::push_image;
use cq_instance::{Image, Instance, Transform};
use cq_mapping::Mapping;
use cq_theory::{EntTerm, Path, SizeRefusal};
use cq_transform::transform_of_images;
use std::alloc::{AllocError, Global};

/// The image of an entity term.
fn entity_along(alloc: Global, mapping: &Mapping, term: &EntTerm) -> Result<EntTerm, AllocError>
    ensures { IfOk result (λ made. made ≡ ent_image mapping.now term.now) }
{
    let path = mapping.image_path(alloc, term.path.as_slice())?;
    Ok(EntTerm {
        generator: term.generator,
        path: Path::from_vec(path)?,
    })
}

/// The mapping's image of an image.
fn image_along(alloc: Global, mapping: &Mapping, image: &Image) -> Result<Image, AllocError>
    ensures { IfOk result (λ made. made ≡ along_mapping mapping.now image.now) }
{
    match image {
        Image::Row(term) => Ok(Image::Row(entity_along(alloc, mapping, term)?)),
        Image::Value(term) => Ok(Image::Value(mapping.image_term(alloc, term)?)),
    }
}

/// The mapping's images of images.
fn images_along(
    alloc: Global,
    mapping: &Mapping,
    images: &[Image],
) -> Result<Vec<Image>, SizeRefusal>
    ensures made { IfOk result (λ made. made.items ≡ map (along_mapping mapping.now) images.now) }
    ensures fits { IfOk result (λ made. has_long made.items ≡ false) }
    ensures refused { IfErr result (TellsSize (has_long (map (along_mapping mapping.now) images.now))) }
{
    let Ok(mut made) = Vec::with_capacity(alloc, images.len()) else {
        return Err(SizeRefusal::Memory);
    };
    for image in images {
        let Ok(along) = image_along(alloc, mapping, image) else {
            return Err(SizeRefusal::Memory);
        };
        if let Err(refusal) = push_image(along, &mut made) {
            return Err(refusal);
        }
    }
    Ok(made)
}

/// The transform along a mapping's sigma: from `a`, which is what the mapping makes of `i`, to `b`, which it makes of
/// `j`, where `h` goes from `i` to `j`. Its images are those of `h` along the mapping. `TooLarge` is answered exactly
/// where an image would have over 1,024 symbols, and `Memory` for want of memory. Source: Algebraic Data Integration
/// (data migration functors).
pub fn sigma_map(
    alloc: Global,
    mapping: &Mapping,
    h: &Transform,
    i: &Instance,
    j: &Instance,
    a: &Instance,
    b: &Instance,
) -> Result<Transform, SizeRefusal>
    requires preserves { Preserves mapping.now }
    requires initial { Initial j.now.schema j.now.presentation j.now.tables j.now.assignment }
    requires first { IsSigmaOf mapping.now i.now a.now }
    requires second { IsSigmaOf mapping.now j.now b.now }
    requires goes { GoesFrom h.now i.now j.now }
    ensures images { IfOk result (λ made. made.images ≡ sigma_images mapping.now h.now) }
    ensures fits { IfOk result (λ _. has_long (sigma_images mapping.now h.now) ≡ false) }
    ensures goes { IfOk result (λ made. GoesFrom made a.now b.now) }
    ensures refused { IfErr result (TellsSize (has_long (sigma_images mapping.now h.now))) }
{
    mapping.is_well_sorted();
    i.is_instance();
    j.is_instance();
    b.is_instance();
    let images = images_along(alloc, mapping, h.images.as_slice())?;
    match transform_of_images(alloc, a, b, images) {
        Ok(made) => Ok(made),
        Err(_) => Err(SizeRefusal::Memory),
    }
}

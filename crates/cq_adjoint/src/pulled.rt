//! Transforms into instances that a mapping pulls back.
ghost use Rattle.std.specs.Prelude.{◌≡◌, ◌≤◌, false, IfOk, IfErr, length};
ghost use Rattle.cq_mapping.specs.Moved.{delta_tables};
ghost use Rattle.cq_move.specs.Pulling.{TellsSize};
ghost use Rattle.cq_transform.specs.Composing.{has_long};
ghost use Rattle.cq_transform.specs.Nulls.{IsInitial};
ghost use Rattle.cq_transform.specs.Transforming.{AreKept, AreSorted};
ghost use Rattle.cq_transform.specs.Transforms.{GoesFrom};
ghost use Rattle.cq_adjoint.specs.Moved.{IsSigmaOf, IsDeltaOf};
ghost use Rattle.cq_adjoint.specs.Moves.{delta_images as images_of_delta, to_delta_images as images_to_delta};
ghost use Rattle.cq_adjoint.specs.Transposed.{Transposed, IsOnlyInto};

use crate::spelled::spelled_images;
use cq_instance::{Image, Instance, Transform};
use cq_mapping::Mapping;
use cq_theory::SizeRefusal;
use cq_transform::transform_of_images;
use std::alloc::Global;

/// The images of `delta_map`.
fn delta_images(
    alloc: Global,
    mapping: &Mapping,
    h: &Transform,
    i: &Instance,
    j: &Instance,
    a: &Instance,
    b: &Instance,
) -> Result<Vec<Image>, SizeRefusal>
    requires first { IsDeltaOf mapping.now i.now a.now }
    requires second { IsDeltaOf mapping.now j.now b.now }
    requires goes { GoesFrom h.now i.now j.now }
    ensures images { IfOk result (λ made. made.items ≡ images_of_delta mapping.now h.now i.now j.now a.now b.now) }
    ensures fits { IfOk result (λ _. has_long (images_of_delta mapping.now h.now i.now j.now a.now b.now) ≡ false) }
    ensures sorted { IfOk result (λ made. AreSorted a.now b.now made.items) }
    ensures kept { IfOk result (λ made. AreKept a.now b.now made.items) }
    ensures refused { IfErr result (TellsSize (has_long (images_of_delta mapping.now h.now i.now j.now a.now
        b.now))) }
{
    mapping.is_well_sorted();
    i.is_instance();
    j.is_instance();
    b.is_instance();
    let presentation = a.presentation();
    match spelled_images(alloc, mapping, h, a, b, presentation.generators.as_slice()) {
        Ok(images) => Ok(images),
        Err(refusal) => Err(refusal),
    }
}

/// The transform along a mapping's delta: from `a`, which the mapping pulls back from `i`, to `b`, which it pulls back
/// from `j`, where `h` goes from `i` to `j`. The generator of a row goes to the generator of the row to which `h` sends
/// the row, and that of a null to the spelling of the value to which `h` sends it. `TooLarge` is answered exactly where
/// an image would have over 1,024 symbols, and `Memory` for want of memory. Source: Algebraic Data Integration (data
/// migration functors).
pub fn delta_map(
    alloc: Global,
    mapping: &Mapping,
    h: &Transform,
    i: &Instance,
    j: &Instance,
    a: &Instance,
    b: &Instance,
) -> Result<Transform, SizeRefusal>
    requires first { IsDeltaOf mapping.now i.now a.now }
    requires second { IsDeltaOf mapping.now j.now b.now }
    requires goes { GoesFrom h.now i.now j.now }
    ensures images { IfOk result (λ made. made.images ≡ images_of_delta mapping.now h.now i.now j.now a.now b.now) }
    ensures fits { IfOk result (λ _. has_long (images_of_delta mapping.now h.now i.now j.now a.now b.now) ≡ false) }
    ensures goes { IfOk result (λ made. GoesFrom made a.now b.now) }
    ensures refused { IfErr result (TellsSize (has_long (images_of_delta mapping.now h.now i.now j.now a.now
        b.now))) }
{
    mapping.is_well_sorted();
    i.is_instance();
    j.is_instance();
    a.is_instance();
    b.is_instance();
    let images = delta_images(alloc, mapping, h, i, j, a, b)?;
    match transform_of_images(alloc, a, b, images) {
        Ok(made) => Ok(made),
        Err(_) => Err(SizeRefusal::Memory),
    }
}

/// The images of `to_delta`.
fn to_delta_images(
    alloc: Global,
    mapping: &Mapping,
    h: &Transform,
    i: &Instance,
    a: &Instance,
    j: &Instance,
    d: &Instance,
) -> Result<Vec<Image>, SizeRefusal>
    requires pushed { IsSigmaOf mapping.now i.now a.now }
    requires pulled { IsDeltaOf mapping.now j.now d.now }
    requires goes { GoesFrom h.now a.now j.now }
    ensures images { IfOk result (λ made. made.items ≡ images_to_delta mapping.now h.now i.now a.now j.now d.now) }
    ensures fits { IfOk result (λ _. has_long (images_to_delta mapping.now h.now i.now a.now j.now d.now) ≡ false) }
    ensures sorted { IfOk result (λ made. AreSorted i.now d.now made.items) }
    ensures kept { IfOk result (λ made. AreKept i.now d.now made.items) }
    ensures refused { IfErr result (TellsSize (has_long (images_to_delta mapping.now h.now i.now a.now j.now
        d.now))) }
{
    mapping.is_well_sorted();
    a.is_instance();
    j.is_instance();
    d.is_instance();
    let presentation = i.presentation();
    match spelled_images(alloc, mapping, h, a, d, presentation.generators.as_slice()) {
        Ok(images) => Ok(images),
        Err(refusal) => Err(refusal),
    }
}

/// The transform into delta to which a transform out of sigma is transposed: `a` is what the mapping makes of `i` by
/// sigma, `d` what it pulls back from `j`, and `h` goes from `a` to `j`. The answer goes from `i` to `d`. A generator
/// goes to the spelling in `d` of what `h` makes of what the generator stands for in `a`; so from an identity it is the
/// unit. No other homomorphism is transposed to `h`. `TooLarge` is answered exactly where an image would have over
/// 1,024 symbols, and `Memory` for want of memory. Source: Algebraic Data Integration (data migration functors).
pub fn to_delta(
    alloc: Global,
    mapping: &Mapping,
    h: &Transform,
    i: &Instance,
    a: &Instance,
    j: &Instance,
    d: &Instance,
) -> Result<Transform, SizeRefusal>
    requires initial { IsInitial i.now }
    requires pushed { IsSigmaOf mapping.now i.now a.now }
    requires pulled { IsDeltaOf mapping.now j.now d.now }
    requires goes { GoesFrom h.now a.now j.now }
    ensures images { IfOk result (λ made. made.images ≡ images_to_delta mapping.now h.now i.now a.now j.now d.now) }
    ensures fits { IfOk result (λ _. has_long (images_to_delta mapping.now h.now i.now a.now j.now d.now) ≡ false) }
    ensures goes { IfOk result (λ made. GoesFrom made i.now d.now) }
    ensures transposed { IfOk result (λ made. Transposed mapping.now i.now a.now j.now d.now h.now made) }
    ensures only { IfOk result (λ made. IsOnlyInto mapping.now i.now a.now j.now d.now h.now made) }
    ensures refused { IfErr result (TellsSize (has_long (images_to_delta mapping.now h.now i.now a.now j.now
        d.now))) }
{
    mapping.is_well_sorted();
    i.is_instance();
    a.is_instance();
    j.is_instance();
    d.is_instance();
    let images = to_delta_images(alloc, mapping, h, i, a, j, d)?;
    match transform_of_images(alloc, i, d, images) {
        Ok(made) => Ok(made),
        Err(_) => Err(SizeRefusal::Memory),
    }
}

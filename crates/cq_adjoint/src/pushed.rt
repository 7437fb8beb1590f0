//! Transforms out of instances that a mapping pushes forward.
ghost use Rattle.std.specs.Prelude.{◌≡◌, false, IfOk, IfErr};
ghost use Rattle.cq_move.specs.Pulling.{TellsSize};
ghost use Rattle.cq_transform.specs.Composing.{has_long};
ghost use Rattle.cq_transform.specs.Nulls.{IsInitial};
ghost use Rattle.cq_transform.specs.Transforming.{AreKept, AreSorted};
ghost use Rattle.cq_transform.specs.Transforms.{GoesFrom};
ghost use Rattle.cq_adjoint.specs.Moved.{IsSigmaOf, IsDeltaOf};
ghost use Rattle.cq_adjoint.specs.Moves.{from_delta_images as images_from_delta};
ghost use Rattle.cq_instance.specs.Spelling.{AreNullsSpelled, null_term_of, term_among};
ghost use Rattle.cq_adjoint.specs.Transposed.{Transposed, IsOnlyOutOf};

use crate::named::{Naming, named_images};
use cq_instance::{Image, Instance, Transform};
use cq_mapping::Mapping;
use cq_theory::SizeRefusal;
use cq_transform::transform_of_images;
use std::alloc::Global;

/// The images of `from_delta_by`.
fn from_delta_images(
    alloc: Global,
    mapping: &Mapping,
    k: &Transform,
    i: &Instance,
    a: &Instance,
    d: &Instance,
    naming: &Naming,
) -> Result<Vec<Image>, SizeRefusal>
    requires initial { IsInitial i.now }
    requires least { IsInitial naming.now.to.now }
    requires pushed { IsSigmaOf mapping.now i.now a.now }
    requires pulled { IsDeltaOf mapping.now naming.now.to.now d.now }
    requires spelled { AreNullsSpelled naming.now.to.now (term_among naming.now.null_terms.now) }
    requires goes { GoesFrom k.now i.now d.now }
    ensures images { IfOk result (λ made. made.items ≡ images_from_delta mapping.now k.now
        (term_among naming.now.null_terms.now) i.now naming.now.to.now d.now) }
    ensures fits { IfOk result (λ _. has_long (images_from_delta mapping.now k.now
        (term_among naming.now.null_terms.now) i.now naming.now.to.now d.now) ≡ false) }
    ensures sorted { IfOk result (λ made. AreSorted a.now naming.now.to.now made.items) }
    ensures kept { IfOk result (λ made. AreKept a.now naming.now.to.now made.items) }
    ensures refused { IfErr result (TellsSize (has_long (images_from_delta mapping.now k.now
        (term_among naming.now.null_terms.now) i.now naming.now.to.now d.now))) }
{
    let to = naming.to;
    mapping.is_well_sorted();
    to.is_instance();
    d.is_instance();
    a.is_instance();
    let presentation = i.presentation();
    match named_images(
        alloc,
        mapping,
        k,
        i,
        naming,
        presentation.generators.as_slice(),
    ) {
        Ok(images) => Ok(images),
        Err(refusal) => Err(refusal),
    }
}

/// The transform out of sigma that is transposed to a transform into delta: `a` is what the mapping makes of `i` by
/// sigma, `d` what it pulls back from the instance j of `naming`, and `k` goes from `i` to `d`. The answer goes from
/// `a` to j. A generator of an entity goes to the least name, in j, of the row to which `k` sends its row, and one of a
/// type to the value to which `k` sends its value, in which each null is spelled by its term. So from an identity it is
/// the counit. `k` is transposed to no other homomorphism. `TooLarge` is answered exactly where an image would have
/// over 1,024 symbols, and `Memory` for want of memory. Source: Algebraic Data Integration (data migration functors).
pub fn from_delta_by(
    alloc: Global,
    mapping: &Mapping,
    k: &Transform,
    i: &Instance,
    a: &Instance,
    d: &Instance,
    naming: &Naming,
) -> Result<Transform, SizeRefusal>
    requires initial { IsInitial i.now }
    requires least { IsInitial naming.now.to.now }
    requires pushed { IsSigmaOf mapping.now i.now a.now }
    requires pulled { IsDeltaOf mapping.now naming.now.to.now d.now }
    requires spelled { AreNullsSpelled naming.now.to.now (term_among naming.now.null_terms.now) }
    requires goes { GoesFrom k.now i.now d.now }
    ensures images { IfOk result (λ made. made.images ≡ images_from_delta mapping.now k.now
        (term_among naming.now.null_terms.now) i.now naming.now.to.now d.now) }
    ensures fits { IfOk result (λ _. has_long (images_from_delta mapping.now k.now
        (term_among naming.now.null_terms.now) i.now naming.now.to.now d.now) ≡ false) }
    ensures goes { IfOk result (λ made. GoesFrom made a.now naming.now.to.now) }
    ensures transposed { IfOk result (λ made. Transposed mapping.now i.now a.now naming.now.to.now d.now made k.now) }
    ensures only { IfOk result (λ made. IsOnlyOutOf mapping.now i.now a.now naming.now.to.now d.now made k.now) }
    ensures refused { IfErr result (TellsSize (has_long (images_from_delta mapping.now k.now
        (term_among naming.now.null_terms.now) i.now naming.now.to.now d.now))) }
{
    let to = naming.to;
    mapping.is_well_sorted();
    i.is_instance();
    to.is_instance();
    d.is_instance();
    let images = from_delta_images(alloc, mapping, k, i, a, d, naming)?;
    match transform_of_images(alloc, a, to, images) {
        Ok(made) => Ok(made),
        Err(_) => Err(SizeRefusal::Memory),
    }
}

/// The transform out of sigma that is transposed to a transform into delta: `a` is what the mapping makes of `i` by
/// sigma, `d` what it pulls back from `j`, and `k` goes from `i` to `d`. The answer goes from `a` to `j`. A generator
/// of an entity goes to the least name, in `j`, of the row to which `k` sends its row, and one of a type to the value
/// to which `k` sends its value, in which each null of `j` is spelled by its term. So from an identity it is the
/// counit. `k` is transposed to no other homomorphism. `TooLarge` is answered exactly where an image would have over
/// 1,024 symbols, and `Memory` for want of memory. Source: Algebraic Data Integration (data migration functors).
pub fn from_delta(
    alloc: Global,
    mapping: &Mapping,
    k: &Transform,
    i: &Instance,
    a: &Instance,
    j: &Instance,
    d: &Instance,
) -> Result<Transform, SizeRefusal>
    requires initial { IsInitial i.now }
    requires least { IsInitial j.now }
    requires pushed { IsSigmaOf mapping.now i.now a.now }
    requires pulled { IsDeltaOf mapping.now j.now d.now }
    requires spelled { AreNullsSpelled j.now (null_term_of j.now) }
    requires goes { GoesFrom k.now i.now d.now }
    ensures images { IfOk result (λ made. made.images
        ≡ images_from_delta mapping.now k.now (null_term_of j.now) i.now j.now d.now) }
    ensures fits { IfOk result (λ _. has_long (images_from_delta mapping.now k.now (null_term_of j.now) i.now j.now
        d.now) ≡ false) }
    ensures goes { IfOk result (λ made. GoesFrom made a.now j.now) }
    ensures transposed { IfOk result (λ made. Transposed mapping.now i.now a.now j.now d.now made k.now) }
    ensures only { IfOk result (λ made. IsOnlyOutOf mapping.now i.now a.now j.now d.now made k.now) }
    ensures refused { IfErr result (TellsSize (has_long (images_from_delta mapping.now k.now (null_term_of j.now) i.now
        j.now d.now))) }
{
    let Ok(null_terms) = j.null_terms(alloc) else {
        return Err(SizeRefusal::Memory);
    };
    let named = null_terms.as_slice();
    let naming = Naming {
        to: j,
        null_terms: named,
    };
    from_delta_by(alloc, mapping, k, i, a, d, &naming)
}

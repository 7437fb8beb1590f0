//! Coproducts.
ghost use Rattle.std.specs.Prelude.{◌≡◌, ◌≤◌, ◌<◌, ◌⊎◌, IfOk, IfErr, All, length, map};
ghost use Rattle.cq_theory.specs.SchemaData.{SchemaData as AnySchema};
ghost use Rattle.cq_theory.specs.Presentation.{IsPresentation};
ghost use Rattle.cq_model.specs.Moving.{Presents, IsModelOrCause};
ghost use Rattle.cq_transform.specs.Gluing.{sorts_of, equations_from, coproduct_of};

use crate::gluing::Gluing;
use cq_model::{Instance, MoveRefusal, build_presented};
use cq_theory::{Presentation, Schema, SizeRefusal};
use std::alloc::Global;
use std::rc::Rc;

/// The listed model of the disjoint union of the presentations of any number of instances over one schema, made of
/// rows up to a depth of at most 64. Source: Algebraic Data Integration (colimits of instances).
///
/// `TooLarge` is tried first: it is answered exactly where there would be over 16,000,000 generators. Then the
/// refusals are those of `build`, in its order.
pub fn coproduct(
    alloc: Global,
    schema: Rc<Schema>,
    parts: &[Rc<Instance>],
    depth: u32,
) -> Result<Instance, MoveRefusal>
    requires over { All (λ part. part.value.schema ≡ schema.value) parts.now }
    requires depth { depth ≤ 64 }
    ensures { IsModelOrCause schema.value (coproduct_of (map (λ part. part.value.presentation) parts.now)) depth
        result }
{
    let presented = coproduct_presentation(alloc, parts);
    build_presented(alloc, schema, presented, depth)
}

/// The presentation of which `coproduct` makes the model. It is one over a schema that all instances are over.
fn coproduct_presentation(
    alloc: Global,
    parts: &[Rc<Instance>],
) -> Result<Presentation, SizeRefusal>
    ensures presents { Presents (coproduct_of (map (λ part. part.value.presentation) parts.now)) result }
    ensures presentation { (S : AnySchema) → All (λ part. part.value.schema ≡ S) parts.now
        → IfOk result (λ made. IsPresentation S made) }
{
    match side_by_side(alloc, parts) {
        Ok(gluing) => gluing.into_presentation(alloc),
        Err(refusal) => Err(refusal),
    }
}

/// The presentations of instances beside one another. `TooLarge` is answered exactly where there would be over
/// 16,000,000 generators, and `Memory` for want of memory.
fn side_by_side(alloc: Global, parts: &[Rc<Instance>]) -> Result<Gluing, SizeRefusal>
    ensures few { IfOk result (λ made. length made.sorts.items ≤ 16000000) }
    ensures sorts { IfOk result (λ made.
        made.sorts.items ≡ sorts_of (map (λ part. part.value.presentation) parts.now)) }
    ensures equations { IfOk result (λ made.
        made.equations.items ≡ equations_from 0 (map (λ part. part.value.presentation) parts.now)) }
    ensures presented { (S : AnySchema) → All (λ part. part.value.schema ≡ S) parts.now
        → IfOk result (λ _. All (IsPresentation S) (map (λ part. part.value.presentation) parts.now)) }
    ensures refused { IfErr result (λ refusal. (refusal ≡ SizeRefusal.Memory)
        ⊎ ((refusal ≡ SizeRefusal.TooLarge)
        × (16000000 < length (sorts_of (map (λ part. part.value.presentation) parts.now))))) }
{
    let mut gluing = Gluing::new(alloc);
    for part in parts {
        if let Err(refusal) = gluing.add(alloc, part.presentation()) {
            return Err(refusal);
        }
    }
    Ok(gluing)
}

//! Transforms: what they stand for.
ghost use Rattle.std.specs.Prelude.{IfOk};
ghost use Rattle.cq_program.specs.Program.{Stands};
ghost use Rattle.cq_environment.specs.Environment.{IsModelled, ends_meant, meant};
ghost use Rattle.cq_program.specs.Posing.{IsTransformOf};
ghost use Rattle.cq_program.specs.Posed.{a_transform};

use cq_environment::{Meaning, NamedEnds, NamedTransform};
use cq_model::Transform;
use std::alloc::{AllocError, Global};
use std::rc::Rc;

/// A transform that goes from its one end to the other stands for itself.
pub fn mean_transform(
    alloc: Global,
    ends: NamedEnds,
    transform: Transform,
) -> Result<Meaning, AllocError>
    requires { IsTransformOf (ends_meant ends) transform.images transform }
    ensures stands { IfOk result (λ meaning. Stands (a_transform (ends_meant ends) transform.images) (meant meaning)) }
    ensures modelled { IfOk result (λ meaning. IsModelled (meant meaning)) }
{
    let shared = Rc::new(alloc, transform)?;
    Ok(Meaning::Transform(NamedTransform {
        ends,
        transform: shared,
    }))
}

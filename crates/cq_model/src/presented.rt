//! The listed model of a presentation that is made of others.
ghost use Rattle.std.specs.Prelude.{◌≤◌, IfOk};
ghost use Rattle.cq_theory.specs.declared.presentation.Presentation.{Presentation as Presented};
ghost use Rattle.cq_theory.specs.Presentation.{IsPresentation};
ghost use Rattle.cq_model.specs.Moving.{Presents, IsModelOrCause};

use crate::building::build;
use crate::refusal::MoveRefusal;
use cq_instance::Instance;
use cq_theory::{Presentation, Schema, SizeRefusal};
use std::alloc::Global;
use std::rc::Rc;

/// The listed model of the presentation that another call answers, made of rows up to a depth of at most 64.
///
/// `TooLarge` is answered exactly where that call says so. Then the refusals are those of `build`, in its order.
pub fn build_presented(
    alloc: Global,
    schema: Rc<Schema>,
    presented: Result<Presentation, SizeRefusal>,
    depth: u32,
) -> Result<Instance, MoveRefusal>
    requires presentation { IfOk presented (λ made. IsPresentation schema.value made) }
    requires depth { depth ≤ 64 }
    ensures { (P : Presented) → Presents P presented → IsModelOrCause schema.value P depth result }
{
    let presentation = match presented {
        Ok(presentation) => presentation,
        Err(SizeRefusal::TooLarge) => return Err(MoveRefusal::TooLarge),
        Err(SizeRefusal::Memory) => return Err(MoveRefusal::Memory),
    };
    match build(alloc, schema, presentation, depth) {
        Ok(made) => Ok(made),
        Err(refusal) => Err(MoveRefusal::from(refusal)),
    }
}

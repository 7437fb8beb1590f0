//! Instances that are given by their parts, or read of files: what they stand for.
ghost use Rattle.std.specs.Prelude.{◌≤◌, IfOk, IfErr};
ghost use Rattle.cq_theory.specs.Presentation.{IsPresentation};
ghost use Rattle.cq_program.specs.Program.{Stands};
ghost use Rattle.cq_environment.specs.Environment.{IsModelled, meant};
ghost use Rattle.cq_program.specs.Judging.{TellsUnmade};
ghost use Rattle.cq_program.specs.Posed.{a_presentation};

use crate::made::{share_instance, tell_clash};
use cq_base::{Name, Place};
use cq_environment::{Meaning, ProgramRefusal, Reason};
use cq_model::{BuildRefusal, build};
use cq_theory::{Presentation, Schema};
use std::alloc::Global;
use std::rc::Rc;

/// The listed model of a presentation, made of rows up to a depth.
pub fn mean_presentation(
    alloc: Global,
    place: Place,
    name: Name,
    schema: Rc<Schema>,
    presentation: Presentation,
    depth: u32,
) -> Result<Meaning, ProgramRefusal>
    requires presentation { IsPresentation schema.value presentation }
    requires depth { depth ≤ 64 }
    ensures stands { IfOk result (λ meaning. Stands (a_presentation name schema.value presentation) (meant meaning)) }
    ensures modelled { IfOk result (λ meaning. IsModelled (meant meaning)) }
    ensures refused { IfErr result (TellsUnmade depth place (a_presentation name schema.value presentation)) }
{
    schema.is_well_sorted();
    let over = schema.clone()?;
    match build(alloc, schema, presentation, depth) {
        Ok(model) => Ok(share_instance(alloc, name, model)?),
        Err(BuildRefusal::Depth) => Err(ProgramRefusal::Broken(place, Reason::Depth)),
        Err(BuildRefusal::TooManyRows) => Err(ProgramRefusal::Broken(place, Reason::TooManyRows)),
        Err(BuildRefusal::Inconsistent(least, greater)) => {
            Err(tell_clash(alloc, place, &over.typeside, least, greater))
        }
        Err(BuildRefusal::Memory) => Err(ProgramRefusal::Memory),
    }
}

//! Instances that are moved along mappings: what they stand for.
ghost use Rattle.std.specs.Prelude.{ℕ, ◌≡◌, ◌≤◌, IfOk, IfErr};
ghost use Rattle.cq_mapping.specs.Duties.{Preserves};
ghost use Rattle.cq_mapping.specs.Images.{sigma as moved};
ghost use Rattle.cq_program.specs.Posed.{a_delta, a_made};
ghost use Rattle.cq_environment.specs.Environment.{IsModelled, meant};
ghost use Rattle.cq_program.specs.Judging.{TellsUnmade};
ghost use Rattle.cq_program.specs.Program.{Stands};

use crate::made::{mean_model, share_instance};
use cq_base::{Name, Place};
use cq_environment::{Meaning, ProgramRefusal, Reason};
use cq_mapping::Mapping;
use cq_model::Instance;
use cq_move::{delta, sigma};
use cq_theory::SizeRefusal;
use std::alloc::Global;

/// The instance of the tables that a mapping pulls back.
pub fn mean_delta(
    alloc: Global,
    place: Place,
    name: Name,
    mapping: &Mapping,
    instance: &Instance,
) -> Result<Meaning, ProgramRefusal>
    requires preserves { Preserves mapping.now }
    requires over { instance.now.schema ≡ mapping.now.target }
    ensures stands { IfOk result (λ meaning. Stands (a_delta name mapping.now instance.now.tables) (meant meaning)) }
    ensures modelled { IfOk result (λ meaning. IsModelled (meant meaning)) }
    ensures refused { (depth : ℕ) → IfErr result (TellsUnmade depth place
        (a_delta name mapping.now instance.now.tables)) }
{
    match delta(alloc, mapping, instance) {
        Ok(made) => Ok(share_instance(alloc, name, made)?),
        Err(SizeRefusal::TooLarge) => Err(ProgramRefusal::Broken(place, Reason::Oversized)),
        Err(SizeRefusal::Memory) => Err(ProgramRefusal::Memory),
    }
}

/// The listed model of the presentation to which a mapping sends an instance's, made of rows up to a depth.
pub fn mean_sigma(
    alloc: Global,
    place: Place,
    name: Name,
    mapping: &Mapping,
    instance: &Instance,
    depth: u32,
) -> Result<Meaning, ProgramRefusal>
    requires over { instance.now.schema ≡ mapping.now.source }
    requires depth { depth ≤ 64 }
    ensures stands { IfOk result (λ meaning. Stands
        (a_made name mapping.now.target (moved mapping.now instance.now.presentation)) (meant meaning)) }
    ensures modelled { IfOk result (λ meaning. IsModelled (meant meaning)) }
    ensures refused { IfErr result (TellsUnmade depth place
        (a_made name mapping.now.target (moved mapping.now instance.now.presentation))) }
{
    mapping.is_well_sorted();
    instance.is_instance();
    let answer = sigma(alloc, mapping, instance, depth);
    mean_model(alloc, place, name, &mapping.target.typeside, answer)
}

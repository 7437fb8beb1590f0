//! Mappings and identities: what they stand for.
ghost use Rattle.std.specs.Prelude.{◌≡◌, ◌≤◌, IfOk, IfErr};
ghost use Rattle.cq_program.specs.Program.{Stands};
ghost use Rattle.cq_environment.specs.Environment.{IsModelled, meant};
ghost use Rattle.cq_program.specs.Judging.{TellsUnmade};
ghost use Rattle.cq_environment.specs.Meanings.{mapping};
ghost use Rattle.cq_program.specs.Posed.{a_mapping, an_identity};

use crate::duties::tell_unmet;
use cq_base::{Name, Place};
use cq_check::check_mapping;
use cq_environment::{Meaning, ProgramRefusal};
use cq_mapping::Mapping;
use cq_theory::Schema;
use std::alloc::{AllocError, Global};
use std::rc::Rc;

/// A mapping, each of whose duties is derived up to a depth.
pub fn mean_mapping(
    alloc: Global,
    place: Place,
    source: Name,
    target: Name,
    mapping: Mapping,
    depth: u32,
) -> Result<Meaning, ProgramRefusal>
    requires depth { depth ≤ 64 }
    ensures stands { IfOk result (λ meaning. Stands (a_mapping source target mapping) (meant meaning)) }
    ensures modelled { IfOk result (λ meaning. IsModelled (meant meaning)) }
    ensures refused { IfErr result (TellsUnmade depth place (a_mapping source target mapping)) }
{
    match check_mapping(alloc, &mapping, depth) {
        Ok(()) => Ok(share_mapping(alloc, source, target, mapping)?),
        Err(refusal) => Err(tell_unmet(place, refusal)),
    }
}

/// The identity of a schema.
pub fn mean_identity(alloc: Global, name: Name, schema: Rc<Schema>) -> Result<Meaning, AllocError>
    ensures stands { IfOk result (λ meaning. Stands (an_identity name schema.value) (meant meaning)) }
    ensures modelled { IfOk result (λ meaning. IsModelled (meant meaning)) }
{
    let copy = name.clone()?;
    let mapping = Mapping::identity(alloc, schema)?;
    share_mapping(alloc, copy, name, mapping)
}

fn share_mapping(
    alloc: Global,
    source: Name,
    target: Name,
    made: Mapping,
) -> Result<Meaning, AllocError>
    ensures { IfOk result (λ meaning. meant meaning ≡ mapping source target made) }
{
    let shared = Rc::new(alloc, made)?;
    Ok(Meaning::Mapping(source, target, shared))
}

//! Transforms along mappings, and the units and counits of sigma and delta.
ghost use Rattle.std.specs.Prelude.{◌≡◌, IfOk, IfErr};
ghost use Rattle.cq_adjoint.specs.Units.{identity_of};
ghost use Rattle.cq_environment.specs.Environment.{IsTermModel};
ghost use Rattle.cq_program.specs.Posing.{IsMovingAlong, IsMovingAround};
ghost use Rattle.cq_environment.specs.Routes.{by_sigma, by_delta};
ghost use Rattle.cq_transform.specs.Transforms.{GoesFrom};
ghost use Rattle.cq_program.specs.Carrying.{carried_as};
ghost use Rattle.cq_program.specs.MovedImages.{AreAround, AreMoved, HasImages, TellsLong};

use crate::movements::carrying::Carrying;
use crate::transforms::stating::is_over_schema;
use cq_adjoint::{delta_map, from_delta, sigma_map, to_delta};
use cq_instance::laws::null_terms_spell;
use cq_mapping::Mapping;
use cq_model::{Instance, Transform};
use cq_theory::SizeRefusal;
use cq_transform::identity;
use std::alloc::{AllocError, Global};

/// A transform along sigma.
pub fn move_by_sigma(
    alloc: Global,
    mapping: &Mapping,
    carrying: &Carrying,
) -> Result<Transform, SizeRefusal>
    requires { IsMovingAlong (by_sigma mapping.now) (carried_as carrying.now) }
    ensures made { IfOk result (HasImages (AreMoved (by_sigma mapping.now) (carried_as carrying.now))
        carrying.now.start.now carrying.now.finish.now) }
    ensures refused { IfErr result (TellsLong (AreMoved (by_sigma mapping.now) (carried_as carrying.now))) }
{
    let source = carrying.source;
    let target = carrying.target;
    sigma_map(
        alloc,
        mapping,
        carrying.moved,
        source,
        target,
        carrying.start,
        carrying.finish,
    )
}

/// A transform along delta.
pub fn move_by_delta(
    alloc: Global,
    mapping: &Mapping,
    carrying: &Carrying,
) -> Result<Transform, SizeRefusal>
    requires { IsMovingAlong (by_delta mapping.now) (carried_as carrying.now) }
    ensures made { IfOk result (HasImages (AreMoved (by_delta mapping.now) (carried_as carrying.now))
        carrying.now.start.now carrying.now.finish.now) }
    ensures refused { IfErr result (TellsLong (AreMoved (by_delta mapping.now) (carried_as carrying.now))) }
{
    let source = carrying.source;
    let target = carrying.target;
    delta_map(
        alloc,
        mapping,
        carrying.moved,
        source,
        target,
        carrying.start,
        carrying.finish,
    )
}

/// The identity of an instance.
pub fn make_identity(alloc: Global, instance: &Instance) -> Result<Transform, AllocError>
    requires { IsTermModel instance.now }
    ensures is { IfOk result (λ made. made ≡ identity_of instance.now) }
    ensures goes { IfOk result (λ made. GoesFrom made instance.now instance.now) }
{
    let made = identity(alloc, instance)?;
    Ok(made)
}

/// The unit from an instance to delta of its sigma, which is there.
pub fn make_unit(
    alloc: Global,
    mapping: &Mapping,
    start: &Instance,
    finish: &Instance,
    there: &Instance,
) -> Result<Transform, SizeRefusal>
    requires { IsMovingAround (by_sigma mapping.now) start.now finish.now there.now }
    ensures made { IfOk result (HasImages (AreAround (by_sigma mapping.now) start.now finish.now there.now)
        start.now finish.now) }
    ensures refused { IfErr result (TellsLong (AreAround (by_sigma mapping.now) start.now finish.now there.now)) }
{
    let Ok(itself) = make_identity(alloc, there) else {
        return Err(SizeRefusal::Memory);
    };
    to_delta(alloc, mapping, &itself, start, there, there, finish)
}

/// The counit to an instance from sigma of its delta, which is there.
pub fn make_counit(
    alloc: Global,
    mapping: &Mapping,
    start: &Instance,
    finish: &Instance,
    there: &Instance,
) -> Result<Transform, SizeRefusal>
    requires { IsMovingAround (by_delta mapping.now) start.now finish.now there.now }
    ensures made { IfOk result (HasImages (AreAround (by_delta mapping.now) start.now finish.now there.now)
        start.now finish.now) }
    ensures refused { IfErr result (TellsLong (AreAround (by_delta mapping.now) start.now finish.now there.now)) }
{
    let Ok(itself) = make_identity(alloc, there) else {
        return Err(SizeRefusal::Memory);
    };
    is_over_schema(finish);
    finish.is_instance();
    null_terms_spell();
    from_delta(alloc, mapping, &itself, there, start, finish, there)
}

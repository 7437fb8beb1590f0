//! Transforms that operations move, and units and counits: what they stand for.
ghost use Rattle.std.specs.Prelude.{ℕ, ◌≡◌, IfOk, IfErr};
ghost use Rattle.cq_program.specs.Posed.{a_move};
ghost use Rattle.cq_environment.specs.Environment.{IsModelled, ends_meant, meant};
ghost use Rattle.cq_program.specs.Views.{move_meant, movement_meant, route_meant};
ghost use Rattle.cq_environment.specs.Environment.{transform_meant};
ghost use Rattle.cq_environment.specs.Meanings.{transform as meant_transform};
ghost use Rattle.cq_program.specs.Posing.{IsMovement, IsMoving, IsMovingAlong, IsMovingAround, carried};
ghost use Rattle.cq_program.specs.Carrying.{carried_as};
ghost use Rattle.cq_program.specs.Judging.{TellsUnmade};
ghost use Rattle.cq_program.specs.MovedImages.{AreAround, AreImages, AreMoved, HasImages, TellsLong};
ghost use Rattle.cq_program.specs.Program.{Stands};

use crate::movements::carrying::Carrying;
use crate::movements::mapped::{make_counit, make_unit, move_by_delta, move_by_sigma};
use crate::movements::queried::{make_query_counit, make_query_unit, move_by_coeval, move_by_eval};
use crate::movements::stating::{Movement, Moving, Route};
use crate::transforms::stating::is_over_schema;
use cq_base::Place;
use cq_environment::{Meaning, NamedEnds, NamedTransform, ProgramRefusal, Reason};
use cq_model::{Instance, Transform};
use cq_theory::SizeRefusal;
use std::alloc::{AllocError, Global};
use std::rc::Rc;

/// The transform that a movement gives between its ends.
pub fn mean_move(alloc: Global, place: Place, moving: Moving) -> Result<Meaning, ProgramRefusal>
    requires { IsMoving (move_meant moving) }
    ensures stands { IfOk result (λ meaning. Stands (a_move (move_meant moving)) (meant meaning)) }
    ensures modelled { IfOk result (λ meaning. IsModelled (meant meaning)) }
    ensures refused { (depth : ℕ) → IfErr result (TellsUnmade depth place (a_move (move_meant moving))) }
{
    let start: &Instance = &moving.ends.start.instance;
    is_over_schema(start);
    match transform_of(alloc, &moving.ends, &moving.movement) {
        Ok(transform) => Ok(share_transform(alloc, moving.ends, transform)?),
        Err(SizeRefusal::TooLarge) => Err(ProgramRefusal::Broken(place, Reason::Oversized)),
        Err(SizeRefusal::Memory) => Err(ProgramRefusal::Memory),
    }
}

/// A transform between its ends.
fn share_transform(
    alloc: Global,
    ends: NamedEnds,
    transform: Transform,
) -> Result<Meaning, AllocError>
    ensures { IfOk result (λ meaning. meant meaning ≡ meant_transform (ends_meant ends) transform) }
{
    let shared = Rc::new(alloc, transform)?;
    Ok(Meaning::Transform(NamedTransform {
        ends,
        transform: shared,
    }))
}

/// The transform between two ends that a movement gives, if no image of it is too large.
fn transform_of(
    alloc: Global,
    ends: &NamedEnds,
    movement: &Movement,
) -> Result<Transform, SizeRefusal>
    requires { IsMovement (movement_meant movement.now) (ends_meant ends.now) }
    ensures made { IfOk result (HasImages (AreImages (movement_meant movement.now) (ends_meant ends.now))
        ends.now.start.instance.value ends.now.finish.instance.value) }
    ensures refused { IfErr result (TellsLong (AreImages (movement_meant movement.now) (ends_meant ends.now))) }
{
    match movement {
        Movement::Along(route, transform) => move_along(alloc, route, ends, transform),
        Movement::Around(route, there) => make_around(alloc, route, ends, there),
    }
}

/// A transform that is moved along a route.
fn move_along(
    alloc: Global,
    route: &Route,
    ends: &NamedEnds,
    transform: &NamedTransform,
) -> Result<Transform, SizeRefusal>
    requires { IsMovingAlong (route_meant route.now) (carried (transform_meant transform.now) (ends_meant ends.now)) }
    ensures made { IfOk result (HasImages
        (AreMoved (route_meant route.now) (carried (transform_meant transform.now) (ends_meant ends.now)))
        ends.now.start.instance.value ends.now.finish.instance.value) }
    ensures refused { IfErr result (TellsLong
        (AreMoved (route_meant route.now) (carried (transform_meant transform.now) (ends_meant ends.now)))) }
{
    let carrying = carrying_of(ends, transform);
    match route {
        Route::Sigma(mapping) => move_by_sigma(alloc, mapping, &carrying),
        Route::Delta(mapping) => move_by_delta(alloc, mapping, &carrying),
        Route::Eval(query) => move_by_eval(alloc, query, &carrying),
        Route::Coeval(query) => move_by_coeval(alloc, query, &carrying),
    }
}

/// A transform, and the ends of the one to which it is moved.
fn carrying_of<'a>(ends: &'a NamedEnds, transform: &'a NamedTransform) -> Carrying<'a>
    ensures { carried_as result ≡ carried (transform_meant transform.now) (ends_meant ends.now) }
{
    let moved: &Transform = &transform.transform;
    let source: &Instance = &transform.ends.start.instance;
    let target: &Instance = &transform.ends.finish.instance;
    let start: &Instance = &ends.start.instance;
    let finish: &Instance = &ends.finish.instance;
    Carrying {
        moved,
        source,
        target,
        start,
        finish,
    }
}

/// The unit or the counit between two ends, with the instance there.
fn make_around(
    alloc: Global,
    route: &Route,
    ends: &NamedEnds,
    there: &Instance,
) -> Result<Transform, SizeRefusal>
    requires { IsMovingAround (route_meant route.now) ends.now.start.instance.value ends.now.finish.instance.value
        there.now }
    ensures made { IfOk result (HasImages (AreAround (route_meant route.now) ends.now.start.instance.value
        ends.now.finish.instance.value there.now) ends.now.start.instance.value ends.now.finish.instance.value) }
    ensures refused { IfErr result (TellsLong (AreAround (route_meant route.now) ends.now.start.instance.value
        ends.now.finish.instance.value there.now)) }
{
    let start: &Instance = &ends.start.instance;
    let finish: &Instance = &ends.finish.instance;
    match route {
        Route::Sigma(mapping) => make_unit(alloc, mapping, start, finish, there),
        Route::Delta(mapping) => make_counit(alloc, mapping, start, finish, there),
        Route::Eval(query) => make_query_counit(alloc, query, start, finish, there),
        Route::Coeval(query) => make_query_unit(alloc, query, start, finish, there),
    }
}

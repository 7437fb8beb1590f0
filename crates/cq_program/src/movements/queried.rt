//! Transforms along queries, and the units and counits of coeval and eval.
ghost use Rattle.std.specs.Prelude.{◌≡◌, IfOk, IfErr, map};
ghost use Rattle.cq_adjoint.specs.Copies.{AreAllAnswers};
ghost use Rattle.cq_program.specs.Posing.{IsMovingAlong, IsMovingAround};
ghost use Rattle.cq_environment.specs.Routes.{by_eval, by_coeval};
ghost use Rattle.cq_program.specs.Carrying.{carried_as};
ghost use Rattle.cq_program.specs.MovedImages.{AreAround, AreMoved, HasImages, TellsLong};

use crate::movements::carrying::Carrying;
use crate::movements::mapped::make_identity;
use crate::transforms::stating::is_over_schema;
use cq_adjoint::{coeval_map, eval_map, from_eval, to_eval};
use cq_eval::answers;
use cq_instance::laws::null_terms_spell;
use cq_lazy::LazyQuery;
use cq_model::{Instance, Transform};
use cq_query::Query;
use cq_theory::SizeRefusal;
use std::alloc::{AllocError, Global};

/// The answers of a query for each entity of its target. Where the instance of the answers was made, no entity has too
/// many of them, and only memory can be wanting.
fn find_all_answers(
    alloc: Global,
    query: &Query,
    instance: &Instance,
) -> Result<Vec<Vec<Vec<u32>>>, AllocError>
    requires { instance.now.schema ≡ query.now.source }
    ensures { IfOk result (λ made. AreAllAnswers query.now instance.now.tables
        (map (λ list. map (λ rows. rows.items) list.items) made.items)) }
{
    let mut made = Vec::new(alloc);
    for entity in 0..query.entity_count() {
        let Ok(found) = answers(alloc, query, instance, entity) else {
            return Err(AllocError);
        };
        made.push(found)?;
    }
    Ok(made)
}

/// A transform along eval.
pub fn move_by_eval(
    alloc: Global,
    query: &LazyQuery,
    carrying: &Carrying,
) -> Result<Transform, SizeRefusal>
    requires { IsMovingAlong (by_eval query.now) (carried_as carrying.now) }
    ensures made { IfOk result (HasImages (AreMoved (by_eval query.now) (carried_as carrying.now))
        carrying.now.start.now carrying.now.finish.now) }
    ensures refused { IfErr result (TellsLong (AreMoved (by_eval query.now) (carried_as carrying.now))) }
{
    let Ok(made) = query.query(alloc) else {
        return Err(SizeRefusal::Memory);
    };
    move_by_eval_made(alloc, &made, carrying)
}

/// The same of a query that is made.
fn move_by_eval_made(
    alloc: Global,
    query: &Query,
    carrying: &Carrying,
) -> Result<Transform, SizeRefusal>
    requires { IsMovingAlong (by_eval query.now) (carried_as carrying.now) }
    ensures made { IfOk result (HasImages (AreMoved (by_eval query.now) (carried_as carrying.now))
        carrying.now.start.now carrying.now.finish.now) }
    ensures refused { IfErr result (TellsLong (AreMoved (by_eval query.now) (carried_as carrying.now))) }
{
    let source = carrying.source;
    let target = carrying.target;
    let Ok(from) = find_all_answers(alloc, query, source) else {
        return Err(SizeRefusal::Memory);
    };
    let Ok(to) = find_all_answers(alloc, query, target) else {
        return Err(SizeRefusal::Memory);
    };
    eval_map(
        alloc,
        query,
        carrying.moved,
        source,
        target,
        carrying.start,
        carrying.finish,
        from.as_slice(),
        to.as_slice(),
    )
}

/// A transform along coeval.
pub fn move_by_coeval(
    alloc: Global,
    query: &LazyQuery,
    carrying: &Carrying,
) -> Result<Transform, SizeRefusal>
    requires { IsMovingAlong (by_coeval query.now) (carried_as carrying.now) }
    ensures made { IfOk result (HasImages (AreMoved (by_coeval query.now) (carried_as carrying.now))
        carrying.now.start.now carrying.now.finish.now) }
    ensures refused { IfErr result (TellsLong (AreMoved (by_coeval query.now) (carried_as carrying.now))) }
{
    let Ok(made) = query.query(alloc) else {
        return Err(SizeRefusal::Memory);
    };
    move_by_coeval_made(alloc, &made, carrying)
}

/// The same of a query that is made.
fn move_by_coeval_made(
    alloc: Global,
    query: &Query,
    carrying: &Carrying,
) -> Result<Transform, SizeRefusal>
    requires { IsMovingAlong (by_coeval query.now) (carried_as carrying.now) }
    ensures made { IfOk result (HasImages (AreMoved (by_coeval query.now) (carried_as carrying.now))
        carrying.now.start.now carrying.now.finish.now) }
    ensures refused { IfErr result (TellsLong (AreMoved (by_coeval query.now) (carried_as carrying.now))) }
{
    let source = carrying.source;
    let target = carrying.target;
    coeval_map(
        alloc,
        query,
        carrying.moved,
        source,
        target,
        carrying.start,
        carrying.finish,
    )
}

/// The unit from an instance to eval of its coeval, which is there.
pub fn make_query_unit(
    alloc: Global,
    query: &LazyQuery,
    start: &Instance,
    finish: &Instance,
    there: &Instance,
) -> Result<Transform, SizeRefusal>
    requires { IsMovingAround (by_coeval query.now) start.now finish.now there.now }
    ensures made { IfOk result (HasImages (AreAround (by_coeval query.now) start.now finish.now there.now)
        start.now finish.now) }
    ensures refused { IfErr result (TellsLong (AreAround (by_coeval query.now) start.now finish.now there.now)) }
{
    let Ok(made) = query.query(alloc) else {
        return Err(SizeRefusal::Memory);
    };
    make_query_unit_made(alloc, &made, start, finish, there)
}

/// The same of a query that is made.
fn make_query_unit_made(
    alloc: Global,
    query: &Query,
    start: &Instance,
    finish: &Instance,
    there: &Instance,
) -> Result<Transform, SizeRefusal>
    requires { IsMovingAround (by_coeval query.now) start.now finish.now there.now }
    ensures made { IfOk result (HasImages (AreAround (by_coeval query.now) start.now finish.now there.now)
        start.now finish.now) }
    ensures refused { IfErr result (TellsLong (AreAround (by_coeval query.now) start.now finish.now there.now)) }
{
    let Ok(itself) = make_identity(alloc, there) else {
        return Err(SizeRefusal::Memory);
    };
    let Ok(found) = find_all_answers(alloc, query, there) else {
        return Err(SizeRefusal::Memory);
    };
    to_eval(
        alloc,
        query,
        &itself,
        start,
        there,
        there,
        finish,
        found.as_slice(),
    )
}

/// The counit to an instance from coeval of its eval, which is there.
pub fn make_query_counit(
    alloc: Global,
    query: &LazyQuery,
    start: &Instance,
    finish: &Instance,
    there: &Instance,
) -> Result<Transform, SizeRefusal>
    requires { IsMovingAround (by_eval query.now) start.now finish.now there.now }
    ensures made { IfOk result (HasImages (AreAround (by_eval query.now) start.now finish.now there.now)
        start.now finish.now) }
    ensures refused { IfErr result (TellsLong (AreAround (by_eval query.now) start.now finish.now there.now)) }
{
    let Ok(made) = query.query(alloc) else {
        return Err(SizeRefusal::Memory);
    };
    make_query_counit_made(alloc, &made, start, finish, there)
}

/// The same of a query that is made.
fn make_query_counit_made(
    alloc: Global,
    query: &Query,
    start: &Instance,
    finish: &Instance,
    there: &Instance,
) -> Result<Transform, SizeRefusal>
    requires { IsMovingAround (by_eval query.now) start.now finish.now there.now }
    ensures made { IfOk result (HasImages (AreAround (by_eval query.now) start.now finish.now there.now)
        start.now finish.now) }
    ensures refused { IfErr result (TellsLong (AreAround (by_eval query.now) start.now finish.now there.now)) }
{
    let Ok(itself) = make_identity(alloc, there) else {
        return Err(SizeRefusal::Memory);
    };
    let Ok(found) = find_all_answers(alloc, query, finish) else {
        return Err(SizeRefusal::Memory);
    };
    is_over_schema(finish);
    finish.is_instance();
    null_terms_spell();
    from_eval(
        alloc,
        query,
        &itself,
        there,
        start,
        finish,
        there,
        found.as_slice(),
    )
}

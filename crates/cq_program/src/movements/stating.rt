//! Transforms that operations move, and units and counits: what is posed of them.
ghost use Rattle.std.specs.Prelude.{◌≡◌, true, false, IfOk, option_map};
ghost use Rattle.cq_base.specs.declared.name.Name.{Name as TheName};
ghost use Rattle.cq_program.specs.Checks.{move_posed};
ghost use Rattle.cq_environment.specs.Environment.{Answers, AreEnds, AreSettled, ends_meant, environment_of, meant};
ghost use Rattle.cq_program.specs.Views.{move_meant};
ghost use Rattle.cq_program.specs.Views.{named_route_meant};
ghost use Rattle.cq_environment.specs.Moves.{is_left};
ghost use Rattle.cq_program.specs.Movements as check;
ghost use Rattle.cq_program.specs.Posing.{IsGrounded, IsMoving, IsPosed, posed_as};

use crate::statement::Statement;
use crate::transforms::stating::name_ends;
use cq_base::Name;
use cq_environment::{
    Environment, Meaning, NamedEnds, NamedTransform, Operation, ProgramRefusal, Reason,
    instance_of, mapping_of, query_of, transform_of,
};
use cq_instance::Instance;
use cq_lazy::LazyQuery;
use cq_mapping::Mapping;
use cq_syntax::{MoveForm, Spot};
use std::rc::Rc;

/// An operation, and the mapping or the query along which it moves.
#[derive(Drop)]
pub enum Route {
    Sigma(Rc<Mapping>),
    Delta(Rc<Mapping>),
    Eval(Rc<LazyQuery>),
    Coeval(Rc<LazyQuery>),
}

/// A route, with the name under which the schema is printed whose instances it moves.
#[derive(Drop)]
pub(crate) struct NamedRoute {
    pub taken: Name,
    pub route: Route,
}

/// What is moved along a route: a transform; or an instance, there and back, with what is made of it there. From an
/// instance by `Sigma` or `Coeval` goes a unit, there and back; to an instance by `Delta` or `Eval` goes a counit.
#[derive(Drop)]
pub enum Movement {
    Along(Route, NamedTransform),
    Around(Route, Rc<Instance>),
}

/// A movement, and the ends of the transform that it gives.
#[derive(Drop)]
pub struct Moving {
    pub ends: NamedEnds,
    pub movement: Movement,
}

/// A transform that an operation moves, or a unit or a counit, between two instances that are declared so.
pub fn pose_move(
    env: &Environment,
    form: MoveForm,
    along: &Spot,
    moved: &Spot,
    source: &Spot,
    target: &Spot,
) -> Result<Statement, ProgramRefusal>
    requires settled { AreSettled (environment_of env.now.names.entries) }
    ensures posed { Answers posed_as result (move_posed (environment_of env.now.names.entries) form along.now moved.now
        source.now target.now) }
    ensures well_sorted { IfOk result IsPosed }
    ensures grounded { (name : TheName) → IfOk result
        (λ statement. IsGrounded (environment_of env.now.names.entries) name (posed_as statement)) }
{
    match check_move(env, form, along, moved, source, target) {
        Ok(moving) => Ok(Statement::Move(moving)),
        Err(refusal) => Err(refusal),
    }
}

/// The movement of a form.
fn check_move(
    env: &Environment,
    form: MoveForm,
    along: &Spot,
    moved: &Spot,
    source: &Spot,
    target: &Spot,
) -> Result<Moving, ProgramRefusal>
    requires settled { AreSettled (environment_of env.now.names.entries) }
    ensures checked { Answers move_meant result (check.move_checked (environment_of env.now.names.entries) form
        along.now moved.now source.now target.now) }
    ensures moving { IfOk result (λ moving. IsMoving (move_meant moving)) }
    ensures ends { IfOk result (λ moving. AreEnds (environment_of env.now.names.entries) (ends_meant moving.ends)) }
{
    match form {
        MoveForm::Sigma => check_along(env, Operation::Sigma, along, moved, source, target),
        MoveForm::Delta => check_along(env, Operation::Delta, along, moved, source, target),
        MoveForm::Eval => check_along(env, Operation::Eval, along, moved, source, target),
        MoveForm::Coeval => check_along(env, Operation::Coeval, along, moved, source, target),
        MoveForm::Unit => check_unit(env, Operation::Sigma, along, moved, source, target),
        MoveForm::Counit => check_counit(env, Operation::Delta, along, moved, source, target),
        MoveForm::UnitQuery => check_unit(env, Operation::Coeval, along, moved, source, target),
        MoveForm::CounitQuery => check_counit(env, Operation::Eval, along, moved, source, target),
    }
}

/// A transform along an operation, between what the operation makes of its two ends.
fn check_along(
    env: &Environment,
    operation: Operation,
    along: &Spot,
    moved: &Spot,
    source: &Spot,
    target: &Spot,
) -> Result<Moving, ProgramRefusal>
    requires settled { AreSettled (environment_of env.now.names.entries) }
    ensures checked { Answers move_meant result (check.along_checked (environment_of env.now.names.entries) operation
        along.now moved.now source.now target.now) }
    ensures moving { IfOk result (λ moving. IsMoving (move_meant moving)) }
    ensures ends { IfOk result (λ moving. AreEnds (environment_of env.now.names.entries) (ends_meant moving.ends)) }
{
    let named = route_of(env, operation, along)?;
    let transform = transform_of(env, moved)?;
    let ends = ends_of(env, source, target)?;
    if named.taken != transform.ends.start.schema {
        return Err(ProgramRefusal::Broken(moved.place, Reason::WrongSchema));
    }
    if !is_declared(
        env,
        operation,
        &along.name,
        &transform.ends.source,
        &source.name,
    ) {
        return Err(ProgramRefusal::Broken(source.place, Reason::WrongOperand));
    }
    if !is_declared(
        env,
        operation,
        &along.name,
        &transform.ends.target,
        &target.name,
    ) {
        return Err(ProgramRefusal::Broken(target.place, Reason::WrongOperand));
    }
    Ok(Moving {
        ends,
        movement: Movement::Along(named.route, transform),
    })
}

/// The unit from an instance to what an operation and the one that goes back make of it.
fn check_unit(
    env: &Environment,
    operation: Operation,
    along: &Spot,
    moved: &Spot,
    source: &Spot,
    target: &Spot,
) -> Result<Moving, ProgramRefusal>
    requires settled { AreSettled (environment_of env.now.names.entries) }
    requires left { is_left operation ≡ true }
    ensures checked { Answers move_meant result (check.unit_checked (environment_of env.now.names.entries) operation
        along.now moved.now source.now target.now) }
    ensures moving { IfOk result (λ moving. IsMoving (move_meant moving)) }
    ensures ends { IfOk result (λ moving. AreEnds (environment_of env.now.names.entries) (ends_meant moving.ends)) }
{
    let named = route_of(env, operation, along)?;
    let part = instance_of(env, moved)?;
    let ends = ends_of(env, source, target)?;
    if named.taken != part.schema {
        return Err(ProgramRefusal::Broken(moved.place, Reason::WrongSchema));
    }
    if moved.name != source.name {
        return Err(ProgramRefusal::Broken(source.place, Reason::WrongOperand));
    }
    let there = share_between(env, operation, along, moved, target)?;
    Ok(Moving {
        ends,
        movement: Movement::Around(named.route, there),
    })
}

/// The counit to an instance from what an operation and the one that goes back make of it.
fn check_counit(
    env: &Environment,
    operation: Operation,
    along: &Spot,
    moved: &Spot,
    source: &Spot,
    target: &Spot,
) -> Result<Moving, ProgramRefusal>
    requires settled { AreSettled (environment_of env.now.names.entries) }
    requires right { is_left operation ≡ false }
    ensures checked { Answers move_meant result (check.counit_checked (environment_of env.now.names.entries) operation
        along.now moved.now source.now target.now) }
    ensures moving { IfOk result (λ moving. IsMoving (move_meant moving)) }
    ensures ends { IfOk result (λ moving. AreEnds (environment_of env.now.names.entries) (ends_meant moving.ends)) }
{
    let named = route_of(env, operation, along)?;
    let part = instance_of(env, moved)?;
    let ends = ends_of(env, source, target)?;
    if named.taken != part.schema {
        return Err(ProgramRefusal::Broken(moved.place, Reason::WrongSchema));
    }
    let there = share_between(env, operation, along, moved, source)?;
    if moved.name != target.name {
        return Err(ProgramRefusal::Broken(target.place, Reason::WrongOperand));
    }
    Ok(Moving {
        ends,
        movement: Movement::Around(named.route, there),
    })
}

/// The route of an operation along what a used name stands for.
fn route_of(
    env: &Environment,
    operation: Operation,
    along: &Spot,
) -> Result<NamedRoute, ProgramRefusal>
    ensures { Answers named_route_meant result
        (check.route_used (environment_of env.now.names.entries) operation along.now) }
{
    match operation {
        Operation::Sigma => {
            let named = mapping_of(env, along)?;
            Ok(NamedRoute {
                taken: named.source,
                route: Route::Sigma(named.mapping),
            })
        }
        Operation::Delta => {
            let named = mapping_of(env, along)?;
            Ok(NamedRoute {
                taken: named.target,
                route: Route::Delta(named.mapping),
            })
        }
        Operation::Eval => {
            let named = query_of(env, along)?;
            Ok(NamedRoute {
                taken: named.source,
                route: Route::Eval(named.query),
            })
        }
        Operation::Coeval => {
            let named = query_of(env, along)?;
            Ok(NamedRoute {
                taken: named.target,
                route: Route::Coeval(named.query),
            })
        }
    }
}

/// The instances for which the names of two ends stand.
fn ends_of(env: &Environment, source: &Spot, target: &Spot) -> Result<NamedEnds, ProgramRefusal>
    ensures { Answers ends_meant result
        (check.ends_used (environment_of env.now.names.entries) source.now target.now) }
{
    let start = instance_of(env, source)?;
    let finish = instance_of(env, target)?;
    match name_ends(&source.name, &target.name, start, finish) {
        Ok(ends) => Ok(ends),
        Err(_) => Err(ProgramRefusal::Memory),
    }
}

/// The operand of what an instance is declared by, where this is an operation along a name.
fn operand_of<'a>(
    env: &'a Environment,
    operation: Operation,
    along: &Name,
    name: &Name,
) -> Option<&'a Name>
    ensures { option_map (λ operand. operand.now) result
        ≡ check.operand_of (environment_of env.now.names.entries) operation along.now name.now }
{
    match env.moved(name) {
        Some(moved) => {
            if operation.is(moved.operation) && *along == moved.along {
                Some(&moved.operand)
            } else {
                None
            }
        }
        None => None,
    }
}

/// Whether the instance of a name is declared by an operation, along a name, of an operand.
fn is_declared(
    env: &Environment,
    operation: Operation,
    along: &Name,
    operand: &Name,
    name: &Name,
) -> bool
    ensures { result ≡ check.is_declared (environment_of env.now.names.entries) operation along.now operand.now
        name.now }
{
    match operand_of(env, operation, along, name) {
        Some(found) => *operand == *found,
        None => false,
    }
}

/// The instance for which a name stands, if it stands for one.
fn find_instance<'a>(env: &'a Environment, name: &Name) -> Option<&'a Rc<Instance>>
    ensures { option_map (λ found. found.now.value) result
        ≡ check.instance_named (environment_of env.now.names.entries) name.now }
{
    match env.find(name) {
        Some(meaning) => instance_in(meaning),
        None => None,
    }
}

fn instance_in(meaning: &Meaning) -> Option<&Rc<Instance>>
    ensures { option_map (λ found. found.now.value) result ≡ check.instance_by (meant meaning.now) }
{
    match meaning {
        Meaning::Instance(_, instance) => Some(instance),
        _ => None,
    }
}

/// The instance between an operand and the instance of a name, where this is declared by the operation that goes back,
/// of one that is declared by the operation, of the operand.
fn find_between<'a>(
    env: &'a Environment,
    operation: Operation,
    along: &Name,
    operand: &Name,
    name: &Name,
) -> Option<&'a Rc<Instance>>
    ensures { option_map (λ found. found.now.value) result
        ≡ check.instance_between (environment_of env.now.names.entries) operation along.now operand.now name.now }
{
    match operand_of(env, operation.back(), along, name) {
        Some(middle) => {
            if is_declared(env, operation, along, operand, middle) {
                find_instance(env, middle)
            } else {
                None
            }
        }
        None => None,
    }
}

/// The same of used names.
fn share_between(
    env: &Environment,
    operation: Operation,
    along: &Spot,
    operand: &Spot,
    end: &Spot,
) -> Result<Rc<Instance>, ProgramRefusal>
    ensures { Answers (λ found. found.value) result (check.between_used (environment_of env.now.names.entries)
        operation along.now operand.now end.now) }
{
    match find_between(env, operation, &along.name, &operand.name, &end.name) {
        Some(found) => Ok(found.clone()?),
        None => Err(ProgramRefusal::Broken(end.place, Reason::WrongOperand)),
    }
}

//! Coproducts and pushouts: what is posed of them.
ghost use Rattle.std.specs.Prelude.{◌≡◌, ◌++◌, ◌∷◌, [], IfOk, IfErr, OnOk, Ok, map};
ghost use Rattle.cq_base.specs.declared.name.Name.{Name as TheName};
ghost use Rattle.cq_environment.specs.Meanings.{InstanceMeant, instance_used};
ghost use Rattle.cq_program.specs.Gluing.{coproduct_posed, first_misfit, operands_used, pushout_posed};
ghost use Rattle.cq_environment.specs.Environment.{Answers, AreSettled, TellsChecked, environment_of};
ghost use Rattle.cq_program.specs.Views.{operands_meant};
ghost use Rattle.cq_program.specs.Posing.{IsGrounded, IsPosed, posed_as};

use crate::statement::Statement;
use cq_base::{Name, Place, Seq};
use cq_environment::{
    Environment, NamedInstance, ProgramRefusal, Reason, instance_of, transform_of,
};
use cq_instance::Instance;
use cq_syntax::Spot;
use std::alloc::{AllocError, Global};
use std::rc::Rc;

/// An operand of a coproduct, with its place.
#[derive(Drop)]
pub(crate) struct Operand {
    pub place: Place,
    pub part: NamedInstance,
}

/// Instances over one schema, of which a coproduct is to be made.
pub fn pose_coproduct(
    alloc: Global,
    env: &Environment,
    used: &[Spot],
    schema: &Spot,
) -> Result<Statement, ProgramRefusal>
    requires settled { AreSettled (environment_of env.now.names.entries) }
    ensures posed { Answers posed_as result (coproduct_posed (environment_of env.now.names.entries) used.now
        schema.now) }
    ensures well_sorted { IfOk result IsPosed }
    ensures grounded { (name : TheName) → IfOk result
        (λ statement. IsGrounded (environment_of env.now.names.entries) name (posed_as statement)) }
{
    let operands = operands_of(alloc, env, used)?;
    let over = env.schema(schema)?;
    if let Some(place) = find_misfit(&over.name, operands.as_slice()) {
        return Err(ProgramRefusal::Broken(place, Reason::WrongSchema));
    }
    let instances = instances_of(alloc, operands)?;
    Ok(Statement::Coproduct(over.name, over.schema, instances))
}

/// The instances for which used names stand, in order.
fn operands_of(
    alloc: Global,
    env: &Environment,
    used: &[Spot],
) -> Result<Vec<Operand>, ProgramRefusal>
    ensures { Answers (λ operands. operands_meant operands.items) result
        (operands_used (environment_of env.now.names.entries) used.now) }
{
    let mut operands = Vec::new(alloc);
    for spot in used {
        push_operand(env, spot, &mut operands)?;
    }
    Ok(operands)
}

/// Puts the instance for which a used name stands behind others.
fn push_operand(
    env: &Environment,
    used: &Spot,
    operands: &mut Vec<Operand>,
) -> Result<(), ProgramRefusal>
    ensures given { OnOk result ((part : InstanceMeant)
        × (instance_used (environment_of env.now.names.entries) used.now ≡ Ok part)
        × (operands_meant operands.new.items ≡ operands_meant operands.old.items ++ (used.now.place, part) ∷ [])) }
    ensures refused { IfErr result (λ refusal. TellsChecked refusal
        (instance_used (environment_of env.now.names.entries) used.now)) }
{
    let part = instance_of(env, used)?;
    let place = used.place;
    match operands.push(Operand { place, part }) {
        Ok(()) => Ok(()),
        Err(_) => Err(ProgramRefusal::Memory),
    }
}

/// The place of the first operand that isn't over the schema of a printed name.
fn find_misfit(name: &Name, operands: &[Operand]) -> Option<Place>
    ensures { result ≡ first_misfit name.now (operands_meant operands.now) }
{
    for operand in operands {
        if *name != operand.part.schema {
            return Some(operand.place);
        }
    }
    None
}

fn instances_of(alloc: Global, operands: Vec<Operand>) -> Result<Seq<Rc<Instance>>, AllocError>
    ensures { IfOk result (λ instances. instances ≡ map (λ operand. operand.part.instance) operands.items) }
{
    let mut instances = Vec::new(alloc);
    for operand in operands {
        let Operand { place: _, part } = operand;
        let NamedInstance {
            schema: _,
            instance,
        } = part;
        instances.push(instance)?;
    }
    Ok(Seq::from_vec(instances))
}

/// Two transforms that start in one instance declaration, along which the instances where they end are to be glued.
pub fn pose_pushout(
    env: &Environment,
    first: &Spot,
    second: &Spot,
) -> Result<Statement, ProgramRefusal>
    requires settled { AreSettled (environment_of env.now.names.entries) }
    ensures posed { Answers posed_as result (pushout_posed (environment_of env.now.names.entries) first.now
        second.now) }
    ensures well_sorted { IfOk result IsPosed }
    ensures grounded { (name : TheName) → IfOk result
        (λ statement. IsGrounded (environment_of env.now.names.entries) name (posed_as statement)) }
{
    let left = transform_of(env, first)?;
    let right = transform_of(env, second)?;
    if left.ends.source != right.ends.source {
        return Err(ProgramRefusal::Broken(second.place, Reason::NotASpan));
    }
    Ok(Statement::Pushout(left, right))
}

//! Instances that are moved along mappings: what is posed of them.
ghost use Rattle.std.specs.Prelude.{IfOk};
ghost use Rattle.cq_program.specs.Moves.{delta_posed, sigma_posed};
ghost use Rattle.cq_environment.specs.Environment.{Answers, AreSettled, environment_of};
ghost use Rattle.cq_program.specs.Posing.{IsGrounded, IsPosed, posed_as};
ghost use Rattle.cq_base.specs.declared.name.Name.{Name as TheName};

use crate::statement::Statement;
use cq_environment::{Environment, ProgramRefusal, Reason, instance_of, mapping_of};
use cq_syntax::Spot;

/// An instance that is to be pulled back along a mapping, which is over the mapping's target.
pub fn pose_delta(env: &Environment, along: &Spot, used: &Spot) -> Result<Statement, ProgramRefusal>
    requires settled { AreSettled (environment_of env.now.names.entries) }
    ensures posed { Answers posed_as result (delta_posed (environment_of env.now.names.entries) along.now used.now) }
    ensures well_sorted { IfOk result IsPosed }
    ensures grounded { (name : TheName) → IfOk result
        (λ statement. IsGrounded (environment_of env.now.names.entries) name (posed_as statement)) }
{
    let named = mapping_of(env, along)?;
    let moved = instance_of(env, used)?;
    if named.target != moved.schema {
        return Err(ProgramRefusal::Broken(used.place, Reason::WrongSchema));
    }
    Ok(Statement::Delta(named.source, named.mapping, moved.instance))
}

/// An instance that is to be moved along a mapping, which is over the mapping's source.
pub fn pose_sigma(env: &Environment, along: &Spot, used: &Spot) -> Result<Statement, ProgramRefusal>
    requires settled { AreSettled (environment_of env.now.names.entries) }
    ensures posed { Answers posed_as result (sigma_posed (environment_of env.now.names.entries) along.now used.now) }
    ensures well_sorted { IfOk result IsPosed }
    ensures grounded { (name : TheName) → IfOk result
        (λ statement. IsGrounded (environment_of env.now.names.entries) name (posed_as statement)) }
{
    let named = mapping_of(env, along)?;
    let moved = instance_of(env, used)?;
    if named.source != moved.schema {
        return Err(ProgramRefusal::Broken(used.place, Reason::WrongSchema));
    }
    Ok(Statement::Sigma(named.target, named.mapping, moved.instance))
}

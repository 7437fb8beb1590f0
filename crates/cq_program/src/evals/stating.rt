//! Instances that are moved along queries: what is posed of them.
ghost use Rattle.std.specs.Prelude.{IfOk};
ghost use Rattle.cq_base.specs.declared.name.Name.{Name as TheName};
ghost use Rattle.cq_program.specs.Evals.{coeval_posed, eval_posed};
ghost use Rattle.cq_environment.specs.Environment.{Answers, AreSettled, environment_of};
ghost use Rattle.cq_program.specs.Posing.{IsGrounded, IsPosed, posed_as};

use crate::statement::Statement;
use cq_environment::{Environment, ProgramRefusal, Reason, instance_of, query_of};
use cq_syntax::Spot;

/// An instance over the source of a query that is to be answered.
pub fn pose_eval(env: &Environment, along: &Spot, used: &Spot) -> Result<Statement, ProgramRefusal>
    requires settled { AreSettled (environment_of env.now.names.entries) }
    ensures posed { Answers posed_as result (eval_posed (environment_of env.now.names.entries) along.now used.now) }
    ensures well_sorted { IfOk result IsPosed }
    ensures grounded { (name : TheName) → IfOk result
        (λ statement. IsGrounded (environment_of env.now.names.entries) name (posed_as statement)) }
{
    let named = query_of(env, along)?;
    let moved = instance_of(env, used)?;
    if named.source != moved.schema {
        return Err(ProgramRefusal::Broken(used.place, Reason::WrongSchema));
    }
    Ok(Statement::Eval(named.target, named.query, moved.instance))
}

/// An instance over the target of a query that is to be read backwards.
pub fn pose_coeval(
    env: &Environment,
    along: &Spot,
    used: &Spot,
) -> Result<Statement, ProgramRefusal>
    requires settled { AreSettled (environment_of env.now.names.entries) }
    ensures posed { Answers posed_as result (coeval_posed (environment_of env.now.names.entries) along.now used.now) }
    ensures well_sorted { IfOk result IsPosed }
    ensures grounded { (name : TheName) → IfOk result
        (λ statement. IsGrounded (environment_of env.now.names.entries) name (posed_as statement)) }
{
    let named = query_of(env, along)?;
    let moved = instance_of(env, used)?;
    if named.target != moved.schema {
        return Err(ProgramRefusal::Broken(used.place, Reason::WrongSchema));
    }
    Ok(Statement::Coeval(named.source, named.query, moved.instance))
}

//! Instances that are moved along queries: what they stand for.
ghost use Rattle.std.specs.Prelude.{ℕ, ◌≡◌, ◌<◌, ◌≤◌, IfOk, IfErr, Some, None, length, option_map, slice_get};
ghost use Rattle.cq_query.specs.Coeval.{coeval_of};
ghost use Rattle.cq_query.specs.Duties.{Sound};
ghost use Rattle.cq_program.specs.Posed.{a_made, an_eval};
ghost use Rattle.cq_environment.specs.Environment.{IsModelled, Tells, meant};
ghost use Rattle.cq_eval.specs.declared.refusal.EvalRefusal.TheVariants.{TooManyAnswers as HasMany, TooLarge, Memory};
ghost use Rattle.cq_environment.specs.declared.reason.Reason.TheVariants.{TooManyAnswers, Oversized};
ghost use Rattle.cq_program.specs.Judging.{TellsUnmade};
ghost use Rattle.cq_program.specs.Program.{Stands};

use crate::made::{mean_model, share_instance};
use cq_base::{Name, Place};
use cq_coeval::coeval;
use cq_environment::{Meaning, ProgramRefusal, Reason};
use cq_eval::{EvalRefusal, eval};
use cq_lazy::LazyQuery;
use cq_model::Instance;
use cq_query::Query;
use std::alloc::Global;

/// The answers of a query to an instance.
pub fn mean_eval(
    alloc: Global,
    place: Place,
    name: Name,
    query: &LazyQuery,
    instance: &Instance,
) -> Result<Meaning, ProgramRefusal>
    requires sound { Sound query.now }
    requires over { instance.now.schema ≡ query.now.source }
    ensures stands { IfOk result (λ meaning. Stands (an_eval name query.now instance.now.tables) (meant meaning)) }
    ensures modelled { IfOk result (λ meaning. IsModelled (meant meaning)) }
    ensures refused { (depth : ℕ) → IfErr result (TellsUnmade depth place
        (an_eval name query.now instance.now.tables)) }
{
    let made = query.query(alloc)?;
    mean_eval_made(alloc, place, name, &made, instance)
}

/// The same of a query that is made.
fn mean_eval_made(
    alloc: Global,
    place: Place,
    name: Name,
    query: &Query,
    instance: &Instance,
) -> Result<Meaning, ProgramRefusal>
    requires sound { Sound query.now }
    requires over { instance.now.schema ≡ query.now.source }
    ensures stands { IfOk result (λ meaning. Stands (an_eval name query.now instance.now.tables) (meant meaning)) }
    ensures modelled { IfOk result (λ meaning. IsModelled (meant meaning)) }
    ensures refused { (depth : ℕ) → IfErr result (TellsUnmade depth place
        (an_eval name query.now instance.now.tables)) }
{
    query.is_well_sorted();
    match eval(alloc, query, instance) {
        Ok(made) => Ok(share_instance(alloc, name, made)?),
        Err(refusal) => Err(tell_eval(place, query, refusal)),
    }
}

/// The refusal of too many or of too large answers, at the declaration's place.
fn tell_eval(place: Place, query: &Query, refusal: EvalRefusal) -> ProgramRefusal
    requires { (n : ℕ) → refusal ≡ HasMany n → n < length query.now.target.entities }
    ensures many { (n : ℕ) → refusal ≡ HasMany n → Tells result
        (option_map (λ name. (place, TooManyAnswers name)) (slice_get query.now.target.entities n)) }
    ensures large { refusal ≡ TooLarge → Tells result (Some (place, Oversized)) }
    ensures memory { refusal ≡ Memory → Tells result None }
{
    match refusal {
        EvalRefusal::TooManyAnswers(entity) => tell_answers(place, query, entity),
        EvalRefusal::TooLarge => ProgramRefusal::Broken(place, Reason::Oversized),
        EvalRefusal::Memory => ProgramRefusal::Memory,
    }
}

/// The refusal that an entity of the target of a query gets too many answers.
fn tell_answers(place: Place, query: &Query, entity: u32) -> ProgramRefusal
    requires { entity < length query.now.target.entities }
    ensures { Tells result (option_map (λ name. (place, TooManyAnswers name))
        (slice_get query.now.target.entities entity)) }
{
    match query.target.entities.as_slice()[entity as usize].clone() {
        Ok(name) => ProgramRefusal::Broken(place, Reason::TooManyAnswers(name)),
        Err(_) => ProgramRefusal::Memory,
    }
}

/// The freest instance of the source of a query that has the rows of an instance among its answers, made of rows up to
/// a depth.
pub fn mean_coeval(
    alloc: Global,
    place: Place,
    name: Name,
    query: &LazyQuery,
    instance: &Instance,
    depth: u32,
) -> Result<Meaning, ProgramRefusal>
    requires over { instance.now.schema ≡ query.now.target }
    requires depth { depth ≤ 64 }
    ensures stands { IfOk result (λ meaning. Stands
        (a_made name query.now.source (coeval_of query.now instance.now.tables)) (meant meaning)) }
    ensures modelled { IfOk result (λ meaning. IsModelled (meant meaning)) }
    ensures refused { IfErr result (TellsUnmade depth place
        (a_made name query.now.source (coeval_of query.now instance.now.tables))) }
{
    let made = query.query(alloc)?;
    mean_coeval_made(alloc, place, name, &made, instance, depth)
}

/// The same of a query that is made.
fn mean_coeval_made(
    alloc: Global,
    place: Place,
    name: Name,
    query: &Query,
    instance: &Instance,
    depth: u32,
) -> Result<Meaning, ProgramRefusal>
    requires over { instance.now.schema ≡ query.now.target }
    requires depth { depth ≤ 64 }
    ensures stands { IfOk result (λ meaning. Stands
        (a_made name query.now.source (coeval_of query.now instance.now.tables)) (meant meaning)) }
    ensures modelled { IfOk result (λ meaning. IsModelled (meant meaning)) }
    ensures refused { IfErr result (TellsUnmade depth place
        (a_made name query.now.source (coeval_of query.now instance.now.tables))) }
{
    query.is_well_sorted();
    instance.is_instance();
    let answer = coeval(alloc, query, instance, depth);
    mean_model(alloc, place, name, &query.source.typeside, answer)
}

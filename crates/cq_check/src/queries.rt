//! Whether a query is sound: each of its duties is derivable.
ghost use Rattle.std.specs.Prelude.{ℕ, ◌≡◌, ◌<◌, ◌≤◌, ◌+◌, Err, IfOk, length};
ghost use Rattle.cq_check.specs.Answers.{AreMetOf, IsUnsoundAt, IsTooDeepAt, IsTooWideAt};
ghost use Rattle.cq_check.specs.Prepared.{IsPreparedFor};
ghost use Rattle.cq_check.specs.declared.refusal.CheckRefusal.TheVariants.{NotPreserved, Depth, TooManyRows};
ghost use Rattle.cq_query.specs.Duties.{Sound, duties_below};

use crate::duties::{check_duty, number_after};
use crate::prepared::Prepared;
use crate::refusal::CheckRefusal;
use cq_query::Query;
use cq_theory::Schema;
use std::alloc::{AllocError, Global};

fn source(query: &Query) -> &Schema
    ensures { result.now ≡ query.now.source }
{
    &query.source
}

/// The first entity of the target that has a duty; where none has, how many entities there are. The source is of no
/// account for a query without duties.
fn first_with_duties(alloc: Global, query: &Query) -> Result<u32, AllocError>
    ensures within { IfOk result (λ entity. entity ≤ length query.now.target.entities) }
    ensures none { IfOk result (λ entity. length (duties_below query.now entity) ≡ 0) }
{
    let count = query.entity_count();
    for entity in 0..count {
        let duties = query.duties(alloc, entity)?;
        if !duties.is_empty() {
            return Ok(entity);
        }
    }
    Ok(count)
}

/// Whether each duty of an entity is derivable, where those of the entities before it are, and how many duties there
/// are up to the end of this entity's. `before` is how many come before them.
fn check_entity(
    alloc: Global,
    query: &Query,
    prepared: &Prepared,
    entity: u32,
    depth: u32,
    before: u64,
) -> Result<u64, CheckRefusal>
    requires prepared { IsPreparedFor query.now.source prepared.now }
    requires depth { depth ≤ 64 }
    requires entity { entity < length query.now.target.entities }
    requires before { before ≡ length (duties_below query.now entity) }
    requires met { AreMetOf query.now before }
    ensures number { IfOk result (λ number. number ≡ length (duties_below query.now (entity + 1))) }
    ensures met { IfOk result (λ number. AreMetOf query.now number) }
    ensures not_sound { (n : ℕ) → result ≡ Err (NotPreserved n) → IsUnsoundAt query.now n }
    ensures deep { (n : ℕ) → result ≡ Err (Depth n) → IsTooDeepAt query.now depth n }
    ensures many { (n : ℕ) → result ≡ Err (TooManyRows n) → IsTooWideAt query.now depth n }
{
    query.is_well_sorted();
    let over = query.frozen(alloc, entity)?;
    let duties = query.duties(alloc, entity)?;
    let mut number = before;
    for duty in duties.iter() {
        number = number_after(number)?;
        let answer = check_duty(alloc, prepared, &over, duty, depth, number);
        if let Err(refusal) = answer {
            return Err(refusal);
        }
    }
    Ok(number)
}

/// Whether each duty of a query is derivable from the frozen presentation of its entity, by `equal` up to the given
/// depth, which is at most 64. The duties are numbered from 1 through the entities of the target, in its order; those
/// of one entity are in the order of `Query::duties`.
pub fn check_query(alloc: Global, query: &Query, depth: u32) -> Result<(), CheckRefusal>
    requires { depth ≤ 64 }
    ensures sound { IfOk result (λ _. Sound query.now) }
    ensures not_sound { (n : ℕ) → result ≡ Err (NotPreserved n) → IsUnsoundAt query.now n }
    ensures deep { (n : ℕ) → result ≡ Err (Depth n) → IsTooDeepAt query.now depth n }
    ensures many { (n : ℕ) → result ≡ Err (TooManyRows n) → IsTooWideAt query.now depth n }
{
    let first = first_with_duties(alloc, query)?;
    if first == query.entity_count() {
        return Ok(());
    }
    let prepared = Prepared::new(alloc, source(query))?;
    let mut number = 0;
    for entity in first..query.entity_count() {
        match check_entity(alloc, query, &prepared, entity, depth, number) {
            Ok(next) => number = next,
            Err(refusal) => return Err(refusal),
        }
    }
    Ok(())
}

//! The answers of a query for an entity.
ghost use Rattle.std.specs.Prelude.{ℕ, List, ◌≡◌, ◌==◌, ◌<◌, ◌≤◌, All, IfOk, OnOk, IfErr, Some, length, map, vec_len};
ghost use Rattle.std.specs.Prelude.{slice_get};
ghost use Rattle.std.specs.List.{list_any};
ghost use Rattle.cq_theory.specs.declared.presentation.Equation.{Equation};
ghost use Rattle.cq_theory.specs.Tables.{count_of};
ghost use Rattle.cq_query.specs.Answers.{AreAnswers, IsTuple};
ghost use Rattle.cq_eval.specs.Join.{IsTested};
ghost use Rattle.cq_eval.specs.Kept.{AreKept};
ghost use Rattle.cq_eval.specs.Made.{answers_with, answers_of, AreAscending, StandOnce};
ghost use Rattle.cq_eval.specs.Order.{IsOrder};
ghost use Rattle.cq_eval.specs.Refused.{TellsMany, TellsOver};
ghost use Rattle.cq_eval.specs.Testing.{IsTestAt};

use crate::borders::borders;
use crate::index::indexes;
use crate::joining::Join;
use crate::kept::Kept;
use crate::order::{Order, picked, renamed_tests};
use crate::plan::order_of;
use crate::reaches::{by_stage, last_stage};
use crate::refusal::EvalRefusal;
use crate::rows::Rows;
use crate::sorted::sorted_back;
use cq_base::{Name, Seq};
use cq_instance::Instance;
use cq_query::{Block, Query};
use cq_theory::Equation;
use std::alloc::{AllocError, Global};

/// All choices of a row for each variable of an entity's block at which the where equations hold, in lexicographic
/// order, each once (Schultz and Wisnesky, Algebraic Data Integration: uber-flower queries). There are at most
/// 1,000,000. `TooManyAnswers` is answered exactly where there are more, and `Memory` for want of memory.
pub fn answers(
    alloc: Global,
    query: &Query,
    instance: &Instance,
    entity: u32,
) -> Result<Vec<Vec<u32>>, EvalRefusal>
    requires over { instance.now.schema ≡ query.now.source }
    requires within { entity < length query.now.target.entities }
    ensures answers { IfOk result (λ made. AreAnswers query.now instance.now.tables entity
        (map (λ rows. rows.items) made.items)) }
    ensures few { IfOk result (λ made. vec_len made ≤ 1000000) }
    ensures refused { IfErr result (TellsMany query.now instance.now.tables entity) }
{
    match lone_answers(alloc, query, instance, entity) {
        Ok(found) => match unwrapped(alloc, found) {
            Ok(lists) => Ok(lists),
            Err(_) => Err(EvalRefusal::Memory),
        },
        Err(refusal) => Err(refusal),
    }
}

/// The answers for an entity, by indexes that are made for them alone.
fn lone_answers(
    alloc: Global,
    query: &Query,
    instance: &Instance,
    entity: u32,
) -> Result<Vec<Rows>, EvalRefusal>
    requires over { instance.now.schema ≡ query.now.source }
    requires within { entity < length query.now.target.entities }
    ensures answers { IfOk result (λ found. found.items ≡ answers_of query.now instance.now.tables entity) }
    ensures few { IfOk result (λ found. length found.items ≤ 1000000) }
    ensures refused { IfErr result (TellsOver entity (length (answers_of query.now instance.now.tables entity))) }
{
    let mut kept = Kept::new(alloc);
    found_answers(alloc, query, instance, &mut kept, entity)
}

/// The same lists of rows.
fn unwrapped(alloc: Global, found: Vec<Rows>) -> Result<Vec<Vec<u32>>, AllocError>
    ensures lists { IfOk result (λ made. map (λ rows. rows.items) made.items ≡ found.items) }
    ensures length { IfOk result (λ made. vec_len made ≡ length found.items) }
{
    let mut made = Vec::with_capacity(alloc, found.len())?;
    for rows in found {
        made.push(rows.into_vec())?;
    }
    Ok(made)
}

/// The answers for an entity.
pub(crate) fn found_answers(
    alloc: Global,
    query: &Query,
    instance: &Instance,
    kept: &mut Kept,
    entity: u32,
) -> Result<Vec<Rows>, EvalRefusal>
    requires kept { AreKept instance.now.tables kept.old }
    requires over { instance.now.schema ≡ query.now.source }
    requires within { entity < length query.now.target.entities }
    ensures kept { OnOk result (AreKept instance.now.tables kept.new) }
    ensures answers { IfOk result (λ found. found.items ≡ answers_of query.now instance.now.tables entity) }
    ensures few { IfOk result (λ found. length found.items ≤ 1000000) }
    ensures refused { IfErr result (TellsOver entity (length (answers_of query.now instance.now.tables entity))) }
    ensures once { StandOnce (answers_of query.now instance.now.tables entity) }
    ensures ascend { AreAscending (answers_of query.now instance.now.tables entity) }
{
    query.is_well_sorted();
    instance.is_instance();
    match query.block(entity) {
        Some(block) => block_answers(alloc, instance, kept, block, entity),
        None => unreachable!(),
    }
}

/// How many rows there are for each variable.
fn variable_counts(
    alloc: Global,
    instance: &Instance,
    variables: &[(Name, u32)],
) -> Result<Seq<u32>, AllocError>
    requires { All (λ v. v.1 < length instance.now.schema.entities) variables.now }
    ensures { IfOk result (λ counts. counts ≡ map (λ v. count_of instance.now.tables v.1) variables.now) }
{
    let mut counts = Vec::with_capacity(alloc, variables.len())?;
    for variable in variables {
        counts.push(instance.count(variable.1))?;
    }
    Ok(Seq::from_vec(counts))
}

/// Whether there are no rows for some variable.
fn has_none(counts: &[u32]) -> bool
    ensures { result ≡ list_any (λ count. count == 0) counts.now }
{
    counts.iter().any(|count| *count == 0)
}

/// The choices of a row below each count at which the where equations hold, found one variable after the other.
fn searched(
    alloc: Global,
    instance: &Instance,
    kept: &mut Kept,
    tests: &[Equation],
    counts: Seq<u32>,
    entity: u32,
) -> Result<Vec<Rows>, EvalRefusal>
    requires kept { AreKept instance.now.tables kept.old }
    requires typed { (rows : List ℕ) → IsTuple rows counts → (n : ℕ) (e : Equation) → slice_get tests.now n ≡ Some e
        → IsTestAt instance.now.schema instance.now.tables rows e }
    ensures kept { OnOk result (AreKept instance.now.tables kept.new) }
    ensures answers { IfOk result (λ found. found.items ≡ answers_with instance.now.tables tests.now counts) }
    ensures few { IfOk result (λ found. length found.items ≤ 1000000) }
    ensures refused { IfErr result (TellsOver entity (length (answers_with instance.now.tables tests.now counts))) }
{
    if has_none(counts.as_slice()) {
        return Ok(Vec::new(alloc));
    }
    let groups = by_stage(alloc, tests, counts.as_slice())?;
    let last = last_stage(tests, counts.as_slice());
    let indexes = indexes(alloc, instance, kept, counts.as_slice(), tests)?;
    let borders = borders(alloc, tests, counts.as_slice())?;
    let join = Join {
        alloc,
        entity,
        instance,
        tests,
        groups,
        last,
        counts,
        indexes,
    };
    join.answers(borders)
}

/// The answers for the entity of a block, whose variables are bound in this order.
fn reordered(
    alloc: Global,
    instance: &Instance,
    kept: &mut Kept,
    block: &Block,
    entity: u32,
    order: &Order,
) -> Result<Vec<Rows>, EvalRefusal>
    requires kept { AreKept instance.now.tables kept.old }
    requires entities { All (λ v. v.1 < length instance.now.schema.entities) block.now.vars }
    requires tested { IsTested instance.now.schema instance.now.tables block.now }
    requires order { IsOrder (length block.now.vars) order.now.order order.now.places }
    ensures kept { OnOk result (AreKept instance.now.tables kept.new) }
    ensures answers { IfOk result (λ found. found.items ≡ answers_with instance.now.tables block.now.tests
        (map (λ v. count_of instance.now.tables v.1) block.now.vars)) }
    ensures few { IfOk result (λ found. length found.items ≤ 1000000) }
    ensures refused { IfErr result (TellsOver entity
        (length (answers_with instance.now.tables block.now.tests
        (map (λ v. count_of instance.now.tables v.1) block.now.vars)))) }
{
    let counts = variable_counts(alloc, instance, block.vars.as_slice())?;
    let moved = Seq::from_vec(picked(alloc, order.order.as_slice(), counts.as_slice())?);
    let tests = renamed_tests(alloc, order.places.as_slice(), block.tests.as_slice())?;
    match searched(alloc, instance, kept, tests.as_slice(), moved, entity) {
        Ok(found) => match sorted_back(alloc, order.places.as_slice(), found) {
            Ok(sorted) => Ok(sorted),
            Err(_) => Err(EvalRefusal::Memory),
        },
        Err(refusal) => Err(refusal),
    }
}

/// The answers for the entity of a block.
fn block_answers(
    alloc: Global,
    instance: &Instance,
    kept: &mut Kept,
    block: &Block,
    entity: u32,
) -> Result<Vec<Rows>, EvalRefusal>
    requires kept { AreKept instance.now.tables kept.old }
    requires entities { All (λ v. v.1 < length instance.now.schema.entities) block.now.vars }
    requires tested { IsTested instance.now.schema instance.now.tables block.now }
    ensures kept { OnOk result (AreKept instance.now.tables kept.new) }
    ensures answers { IfOk result (λ found. found.items ≡ answers_with instance.now.tables block.now.tests
        (map (λ v. count_of instance.now.tables v.1) block.now.vars)) }
    ensures few { IfOk result (λ found. length found.items ≤ 1000000) }
    ensures refused { IfErr result (TellsOver entity
        (length (answers_with instance.now.tables block.now.tests
        (map (λ v. count_of instance.now.tables v.1) block.now.vars)))) }
{
    let found = order_of(alloc, block.tests.as_slice(), block.vars.len())?;
    if let Some(order) = found {
        return reordered(alloc, instance, kept, block, entity, &order);
    }
    let counts = variable_counts(alloc, instance, block.vars.as_slice())?;
    searched(
        alloc,
        instance,
        kept,
        block.tests.as_slice(),
        counts,
        entity,
    )
}

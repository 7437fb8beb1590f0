//! Queries: what they stand for.
ghost use Rattle.std.specs.Prelude.{ℕ, ◌≡◌, ◌≤◌, IfOk, IfErr};
ghost use Rattle.cq_mapping.specs.Duties.{Preserves};
ghost use Rattle.cq_query.specs.Duties.{Sound};
ghost use Rattle.cq_base.specs.declared.place.Place.{Place as ThePlace};
ghost use Rattle.cq_environment.specs.Meanings.{query as meant_query};
ghost use Rattle.cq_program.specs.Posed.{a_composite, a_mapping_query, a_query};
ghost use Rattle.cq_environment.specs.Environment.{IsModelled, meant};
ghost use Rattle.cq_program.specs.Judging.{TellsUnmade};
ghost use Rattle.cq_program.specs.Program.{Stands};

use crate::duties::tell_unmet;
use cq_base::{Name, Place};
use cq_check::check_query;
use cq_compose::mapping_query;
use cq_environment::{Meaning, ProgramRefusal, Reason};
use cq_lazy::LazyQuery;
use cq_mapping::Mapping;
use cq_query::Query;
use cq_theory::SizeRefusal;
use std::alloc::{AllocError, Global};
use std::rc::Rc;

/// A query, each of whose duties is derived up to a depth.
pub fn mean_query(
    alloc: Global,
    place: Place,
    source: Name,
    target: Name,
    query: Query,
    depth: u32,
) -> Result<Meaning, ProgramRefusal>
    requires depth { depth ≤ 64 }
    ensures stands { IfOk result (λ meaning. Stands (a_query source target query) (meant meaning)) }
    ensures modelled { IfOk result (λ meaning. IsModelled (meant meaning)) }
    ensures refused { IfErr result (TellsUnmade depth place (a_query source target query)) }
{
    match check_query(alloc, &query, depth) {
        Ok(()) => Ok(share_query(alloc, source, target, query)?),
        Err(refusal) => Err(tell_unmet(place, refusal)),
    }
}

/// A sound query stands for itself.
fn share_query(
    alloc: Global,
    source: Name,
    target: Name,
    query: Query,
) -> Result<Meaning, AllocError>
    requires { Sound query }
    ensures stands { IfOk result (λ meaning. meant meaning ≡ meant_query source target query) }
    ensures modelled { IfOk result (λ meaning. IsModelled (meant meaning)) }
{
    let query = Rc::new(alloc, query)?;
    let lazy = LazyQuery::new(alloc, query)?;
    share_lazy(alloc, source, target, lazy)
}

/// The same of a query that may be made later.
fn share_lazy(
    alloc: Global,
    source: Name,
    target: Name,
    query: LazyQuery,
) -> Result<Meaning, AllocError>
    requires { Sound query }
    ensures stands { IfOk result (λ meaning. meant meaning ≡ meant_query source target query) }
    ensures modelled { IfOk result (λ meaning. IsModelled (meant meaning)) }
{
    let shared = Rc::new(alloc, query)?;
    Ok(Meaning::Query(source, target, shared))
}

/// The composite of two queries, which is made when it is used.
pub fn mean_composite(
    alloc: Global,
    place: Place,
    source: Name,
    target: Name,
    first: &LazyQuery,
    second: &LazyQuery,
) -> Result<Meaning, ProgramRefusal>
    requires first { Sound first.now }
    requires second { Sound second.now }
    requires over { second.now.source ≡ first.now.target }
    ensures stands { IfOk result (λ meaning. Stands
        (a_composite source target first.now second.now) (meant meaning)) }
    ensures modelled { IfOk result (λ meaning. IsModelled (meant meaning)) }
    ensures refused { (depth : ℕ) → IfErr result (TellsUnmade depth place
        (a_composite source target first.now second.now)) }
{
    match LazyQuery::compose(alloc, first, second) {
        Ok(query) => Ok(share_lazy(alloc, source, target, query)?),
        Err(SizeRefusal::TooLarge) => Err(ProgramRefusal::Broken(place, Reason::Oversized)),
        Err(SizeRefusal::Memory) => Err(ProgramRefusal::Memory),
    }
}

/// The query of a mapping.
pub fn mean_mapping_query(
    alloc: Global,
    source: Name,
    target: Name,
    mapping: &Mapping,
) -> Result<Meaning, ProgramRefusal>
    requires preserves { Preserves mapping.now }
    ensures stands { IfOk result (λ meaning. Stands (a_mapping_query source target mapping.now) (meant meaning)) }
    ensures modelled { IfOk result (λ meaning. IsModelled (meant meaning)) }
    ensures refused { (depth : ℕ) (place : ThePlace) → IfErr result (TellsUnmade depth place
        (a_mapping_query source target mapping.now)) }
{
    let query = mapping_query(alloc, mapping)?;
    Ok(share_query(alloc, source, target, query)?)
}

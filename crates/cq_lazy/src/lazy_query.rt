//! Queries that are made when they are used.
ghost use Rattle.std.specs.Prelude.{false, ◌≡◌, ◌≤◌, IfOk, IfErr, IfSome};
ghost use Rattle.cq_query.specs.IsQuery.{IsQuery};
ghost use Rattle.cq_query.specs.Duties.{Sound};
ghost use Rattle.cq_compose.specs.Composite.{composite, is_large as is_query_large};
ghost use Rattle.cq_compose.specs.Sizes.{TellsSize};
ghost use Rattle.cq_lazy.specs.Lengths.{AreLengths, plain as plain_lengths};
ghost use Rattle.cq_lazy.specs.Widths.{widths_of};

use crate::lengths::{Lengths, bound, plain};
use crate::plan::{Plan, make};
use crate::widths::{count_variables, has_many, weigh};
use cq_base::Seq;
use cq_compose::compose_query;
use cq_query::Query;
use cq_theory::SizeRefusal;
use std::alloc::{AllocError, Global};
use std::marker::Model;
use std::rc::Rc;

/// Of so many queries at most a composite is kept that isn't made. More would be made one in another, too deep.
const MOST_PARTS: u32 = 256;

/// A query, or two queries whose composite is made when it is used. Contracts see the query.
pub struct LazyQuery {
    plan: Rc<Plan>,
    widths: Seq<u32>,
    lengths: Option<Lengths>,
    parts: u32,
}

impl Model for LazyQuery {
    ghost use Rattle.std.specs.Coded.{codes};
    ghost use Rattle.cq_theory.specs.contracts.term.TypeTerm as type_term;
    ghost use Rattle.cq_query.specs.QueryData.{QueryData};
    ghost use Rattle.cq_lazy.specs.Plan.{query_of};
    ghost use Rattle.cq_lazy.specs.IsLazy.{IsLazy};

    ghost Value = { QueryData };

    ghost coded = { Prim.hlevel (codes, type_term.the_row.coded) };

    ghost view = { λ q. query_of q.plan.value };

    ghost invariant = { λ q. IsLazy q.plan.value q.widths q.lengths };
}

impl Drop for LazyQuery {
    fn drop(self) {
        let Self {
            plan: _,
            widths: _,
            lengths: _,
            parts: _,
        } = self;
    }
}

impl LazyQuery {
    /// A query that is there.
    pub fn new(alloc: Global, query: Rc<Query>) -> Result<LazyQuery, AllocError>
        ensures { IfOk result (λ lazy. lazy ≡ query.value) }
    {
        query.is_well_sorted();
        let widths = count_variables(alloc, &query)?;
        let plan = Rc::new(alloc, Plan::Made(query))?;
        let lengths = bound(&plan, &plain());
        Ok(LazyQuery {
            plan,
            widths: Seq::from_vec(widths),
            lengths,
            parts: 1,
        })
    }

    /// The composite of two queries, of which the second goes from where the first goes. It is refused as too large
    /// exactly where one of its blocks has over 16,000,000 variables or a term of over 1,024 symbols. Variables and
    /// symbols are counted block by block, without making the composite; it is made at once only where the counts don't
    /// tell that its terms are short, or where it is made of over 256 queries.
    pub fn compose(
        alloc: Global,
        first: &LazyQuery,
        second: &LazyQuery,
    ) -> Result<LazyQuery, SizeRefusal>
        requires { second.now.source ≡ first.now.target }
        ensures composite { IfOk result (λ lazy. lazy ≡ composite first.now second.now) }
        ensures fits { IfOk result (λ _. is_query_large (composite first.now second.now) ≡ false) }
        ensures refused { IfErr result (TellsSize (is_query_large (composite first.now second.now))) }
        // If both queries are sound, the composite is.
        ensures sound { IfOk result (λ lazy. Sound first.now → Sound second.now → Sound lazy) }
    {
        let widths = weigh(alloc, &second.plan, first.widths.as_slice())?;
        if has_many(widths.as_slice()) {
            return Err(SizeRefusal::TooLarge);
        }
        match bound_both(first, second) {
            Some(lengths) => Ok(keep(alloc, first, second, widths, lengths)?),
            None => compose_made(alloc, first, second),
        }
    }

    /// Every query is well sorted. The call does nothing.
    pub fn is_well_sorted(&self)
        ensures { IsQuery self.now }
    {
        let _parts = self.parts;
    }

    /// Whether the query is there.
    pub fn is_made(&self) -> bool {
        let plan: &Plan = &self.plan;
        matches!(plan, Plan::Made(_))
    }

    /// The query. A composite that isn't there is made, and so at each call: `made` keeps it.
    pub fn query(&self, alloc: Global) -> Result<Rc<Query>, AllocError>
        ensures { IfOk result (λ made. made.value ≡ self.now) }
    {
        make(alloc, &self.plan)
    }

    /// The same query, which is there.
    pub fn made(&self, alloc: Global) -> Result<LazyQuery, AllocError>
        ensures { IfOk result (λ made. made ≡ self.now) }
    {
        let query = self.query(alloc)?;
        LazyQuery::new(alloc, query)
    }
}

/// Bounds on the terms of the composite of two queries. They are told only where no term has over 1,024 symbols, and of
/// at most 256 queries.
fn bound_both(first: &LazyQuery, second: &LazyQuery) -> Option<Lengths>
    ensures { IfSome result (λ found. AreLengths plain_lengths (composite first.now second.now) found
        × (found.most ≤ 1024)) }
{
    let under = first.lengths?;
    if first.parts.saturating_add(second.parts) > MOST_PARTS {
        return None;
    }
    bound(&second.plan, &under)
}

/// The composite of two queries, to be made when it is used.
fn keep(
    alloc: Global,
    first: &LazyQuery,
    second: &LazyQuery,
    widths: Vec<u32>,
    lengths: Lengths,
) -> Result<LazyQuery, AllocError>
    requires fits { second.now.source ≡ first.now.target }
    requires small { is_query_large (composite first.now second.now) ≡ false }
    requires widths { widths.items ≡ widths_of (composite first.now second.now) }
    requires lengths { AreLengths plain_lengths (composite first.now second.now) lengths }
    ensures { IfOk result (λ lazy. lazy ≡ composite first.now second.now) }
{
    let parts = first.parts.saturating_add(second.parts);
    let before = first.plan.clone()?;
    let after = second.plan.clone()?;
    let plan = Rc::new(alloc, Plan::Composite(before, after))?;
    Ok(LazyQuery {
        plan,
        widths: Seq::from_vec(widths),
        lengths: Some(lengths),
        parts,
    })
}

/// The composite of two queries, made at once.
fn compose_made(
    alloc: Global,
    first: &LazyQuery,
    second: &LazyQuery,
) -> Result<LazyQuery, SizeRefusal>
    requires { second.now.source ≡ first.now.target }
    ensures composite { IfOk result (λ lazy. lazy ≡ composite first.now second.now) }
    ensures fits { IfOk result (λ _. is_query_large (composite first.now second.now) ≡ false) }
    ensures refused { IfErr result (TellsSize (is_query_large (composite first.now second.now))) }
{
    let before = first.query(alloc)?;
    let after = second.query(alloc)?;
    match compose_query(alloc, &before, &after) {
        Ok(query) => {
            let query = Rc::new(alloc, query)?;
            Ok(LazyQuery::new(alloc, query)?)
        }
        Err(refusal) => Err(refusal),
    }
}

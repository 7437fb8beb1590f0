//! How a query is made.
ghost use Rattle.std.specs.Prelude.{false, ◌≡◌, IfOk};
ghost use Rattle.cq_compose.specs.Composite.{composite, is_large};
ghost use Rattle.cq_lazy.specs.Plan.{IsPlan, query_of};

use cq_compose::compose_query;
use cq_query::Query;
use cq_theory::SizeRefusal;
use std::alloc::{AllocError, Global};
use std::rc::Rc;

/// How a query is made: it is there, or it is the composite of two others.
#[derive(Drop)]
pub(crate) enum Plan {
    Made(Rc<Query>),
    Composite(Rc<Plan>, Rc<Plan>),
}

/// The query of a plan.
pub(crate) fn make(alloc: Global, plan: &Plan) -> Result<Rc<Query>, AllocError>
    requires { IsPlan plan.now }
    ensures { IfOk result (λ made. made.value ≡ query_of plan.now) }
{
    match plan {
        Plan::Made(query) => query.clone(),
        Plan::Composite(first, second) => {
            let first = make(alloc, first)?;
            let second = make(alloc, second)?;
            compose(alloc, &first, &second)
        }
    }
}

/// The composite of two queries, which keeps the limits on queries.
fn compose(alloc: Global, first: &Query, second: &Query) -> Result<Rc<Query>, AllocError>
    requires fits { second.now.source ≡ first.now.target }
    requires small { is_large (composite first.now second.now) ≡ false }
    ensures { IfOk result (λ made. made.value ≡ composite first.now second.now) }
{
    match compose_query(alloc, first, second) {
        Ok(query) => Ok(Rc::new(alloc, query)?),
        Err(SizeRefusal::Memory) => Err(AllocError),
        Err(SizeRefusal::TooLarge) => unreachable!(),
    }
}

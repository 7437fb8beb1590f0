//! How many variables the blocks of a query have, and those of a composite, without making it.
ghost use Rattle.std.specs.Prelude.{◌≡◌, ◌+◌, IfOk, length, map, nat_lt};
ghost use Rattle.std.specs.List.{list_any};
ghost use Rattle.cq_lazy.specs.Plan.{query_of};
ghost use Rattle.cq_lazy.specs.Widths.{capped, weight_of, weighed, widths_of};

use crate::plan::Plan;
use cq_base::{Name, number_at};
use cq_query::{Block, Query};
use std::alloc::{AllocError, Global};

/// The most variables of a block.
const MOST_VARIABLES: u64 = 16_000_000;

/// A number, or that there are more than 16,000,000.
fn cap(number: u64) -> u32
    ensures { result ≡ capped number }
{
    number.min(MOST_VARIABLES + 1) as u32
}

/// How many variables each block has.
fn count_blocks(alloc: Global, blocks: &[Block]) -> Result<Vec<u32>, AllocError>
    ensures { IfOk result (λ made. made.items ≡ map (λ b. capped (length b.vars)) blocks.now) }
{
    let mut made = Vec::new(alloc);
    for block in blocks {
        made.push(cap(block.vars.len() as u64))?;
    }
    Ok(made)
}

/// How many variables each block of a query has.
pub(crate) fn count_variables(alloc: Global, query: &Query) -> Result<Vec<u32>, AllocError>
    ensures { IfOk result (λ made. made.items ≡ widths_of query.now) }
{
    count_blocks(alloc, query.blocks.as_slice())
}

/// The weight of variables, each with that of its entity.
fn weigh_variables(weights: &[u32], vars: &[(Name, u32)]) -> u32
    ensures { result ≡ weight_of weights.now vars.now }
{
    let mut total = 0;
    for var in vars {
        total = cap(total as u64 + number_at(weights, var.1 as usize) as u64);
    }
    total
}

/// The weights of blocks.
fn weigh_blocks(alloc: Global, weights: &[u32], blocks: &[Block]) -> Result<Vec<u32>, AllocError>
    ensures { IfOk result (λ made. made.items ≡ map (λ b. weight_of weights.now b.vars) blocks.now) }
{
    let mut made = Vec::new(alloc);
    for block in blocks {
        made.push(weigh_variables(weights, block.vars.as_slice()))?;
    }
    Ok(made)
}

/// The weights of the blocks of a query.
fn weigh_query(alloc: Global, query: &Query, weights: &[u32]) -> Result<Vec<u32>, AllocError>
    ensures { IfOk result (λ made. made.items ≡ weighed query.now weights.now) }
{
    weigh_blocks(alloc, weights, query.blocks.as_slice())
}

/// The weights of the blocks of the query of a plan. The widths of a first query are weights, and these are then the
/// widths of the composite.
pub(crate) fn weigh(alloc: Global, plan: &Plan, weights: &[u32]) -> Result<Vec<u32>, AllocError>
    ensures { IfOk result (λ made. made.items ≡ weighed (query_of plan.now) weights.now) }
{
    match plan {
        Plan::Made(query) => weigh_query(alloc, query, weights),
        Plan::Composite(first, second) => {
            let inner = weigh(alloc, first, weights)?;
            weigh(alloc, second, inner.as_slice())
        }
    }
}

/// Whether some block has over 16,000,000 variables.
pub(crate) fn has_many(widths: &[u32]) -> bool
    ensures { result ≡ list_any (nat_lt 16000000) widths.now }
{
    widths.iter().any(|width| *width as u64 > MOST_VARIABLES)
}

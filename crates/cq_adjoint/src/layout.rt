//! Where the generators of coeval stand.
ghost use Rattle.std.specs.Prelude.{◌≡◌, ◌≤◌, ◌+◌, ◌*◌, IfOk, length, slice_index};
ghost use Rattle.cq_query.specs.Translation.{variables_at};
ghost use Rattle.cq_query.specs.Coeval.{starts as starts_of, null_start};

use cq_base::number_at;
use cq_query::Query;
use std::alloc::{AllocError, Global};

/// Where the generators of coeval stand: the first of each entity's rows, and the first of the nulls.
#[derive(Drop)]
pub(crate) struct Layout {
    pub starts: Vec<u32>,
    pub first_null: u32,
}

/// How many variables the block of an entity has.
pub(crate) fn width(query: &Query, entity: u32) -> u32
    ensures { result ≡ length (variables_at query.now entity) }
{
    query.is_well_sorted();
    match query.block(entity) {
        Some(block) => block.vars.len() as u32,
        None => 0,
    }
}

/// Where the generators of coeval stand, of which there are few.
pub(crate) fn find_layout(
    alloc: Global,
    query: &Query,
    counts: &[u32],
) -> Result<Layout, AllocError>
    requires { null_start query.now counts.now ≤ 16000000 }
    ensures starts { IfOk result (λ made. made.starts.items ≡ starts_of query.now counts.now) }
    ensures first { IfOk result (λ made. made.first_null ≡ null_start query.now counts.now) }
{
    let mut starts = Vec::new(alloc);
    let mut total = 0;
    for entity in 0..query.entity_count() {
        starts.push(total)?;
        let count = number_at(counts, entity as usize);
        let copies = width(query, entity);
        total += count * copies;
    }
    Ok(Layout {
        starts,
        first_null: total,
    })
}

/// The first of the generators of coeval for a row, where each entity's begin at these starts.
pub(crate) fn copy_at(query: &Query, starts: &[u32], entity: u32, row: u32) -> u32
    requires few { slice_index starts.now entity + row * length (variables_at query.now entity) ≤ 16000000 }
    ensures { result ≡ slice_index starts.now entity + row * length (variables_at query.now entity) }
{
    number_at(starts, entity as usize) + row * width(query, entity)
}

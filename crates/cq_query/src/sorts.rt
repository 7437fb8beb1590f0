//! The generators of the coeval presentation.
ghost use Rattle.std.specs.Prelude.{ℕ, ◌≡◌, ◌++◌, ◌<◌, ◌^◌, [], IfOk, OnOk, length, map};
ghost use Rattle.std.specs.List.{flat_map};
ghost use Rattle.cq_theory.specs.declared.presentation.Sort.TheVariants.{Plain, Entity};
ghost use Rattle.cq_theory.specs.Canonical.{below, named};
ghost use Rattle.cq_query.specs.Coeval.{row_sorts};

use crate::query::Query;
use cq_base::{Name, number_at};
use cq_terms::{name_generators, push_null_sorts};
use cq_theory::Sort;
use std::alloc::{AllocError, Global};

/// Appends the sorts of the generators of a row.
fn push_row_sorts(vars: &[(Name, u32)], made: &mut Vec<Sort>) -> Result<(), AllocError>
    ensures { OnOk result (made.new.items ≡ made.old.items ++ map (λ v. Entity v.1) vars.now) }
{
    for var in vars {
        made.push(Sort::Entity(var.1))?;
    }
    Ok(())
}

/// Appends the sorts of the generators of that many rows.
fn push_rows_sorts(vars: &[(Name, u32)], count: u32, made: &mut Vec<Sort>) -> Result<(), AllocError>
    ensures { OnOk result (made.new.items ≡ made.old.items
        ++ flat_map (λ row. map (λ v. Entity v.1) vars.now) (below count)) }
{
    for _row in 0..count {
        push_row_sorts(vars, made)?;
    }
    Ok(())
}

/// Appends the sorts of the generators of an entity's rows.
fn push_entity_sorts(
    query: &Query,
    counts: &[u32],
    entity: u32,
    made: &mut Vec<Sort>,
) -> Result<(), AllocError>
    ensures { OnOk result (made.new.items ≡ made.old.items ++ row_sorts query.now counts.now entity) }
{
    let count = number_at(counts, entity as usize);
    match query.block(entity) {
        Some(block) => push_rows_sorts(block.vars.as_slice(), count, made),
        None => push_rows_sorts(&[], count, made),
    }
}

/// The sorts of the generators of all rows.
fn push_all_sorts(query: &Query, counts: &[u32], made: &mut Vec<Sort>) -> Result<(), AllocError>
    ensures { OnOk result (made.new.items ≡ made.old.items
        ++ flat_map (row_sorts query.now counts.now) (below (length query.now.target.entities))) }
{
    for entity in 0..query.entity_count() {
        push_entity_sorts(query, counts, entity, made)?;
    }
    Ok(())
}

/// The generators of the rows and the nulls.
pub(crate) fn build_generators(
    alloc: Global,
    query: &Query,
    counts: &[u32],
    nulls: &[u32],
) -> Result<Vec<(Name, Sort)>, AllocError>
    requires { length (flat_map (row_sorts query.now counts.now) (below (length query.now.target.entities))
        ++ map Plain nulls.now) < 2 ^ 32 }
    ensures { IfOk result (λ made. made.items ≡ named
        (flat_map (row_sorts query.now counts.now) (below (length query.now.target.entities)) ++ map Plain nulls.now)) }
{
    let mut sorts = Vec::new(alloc);
    push_all_sorts(query, counts, &mut sorts)?;
    push_null_sorts(nulls, &mut sorts)?;
    let made = name_generators(alloc, sorts.as_slice())?;
    Ok(made)
}

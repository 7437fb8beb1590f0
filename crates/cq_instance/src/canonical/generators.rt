//! The generators of rows and nulls, as terms, with their names and with what they stand for.
ghost use Rattle.std.specs.Prelude.{ℕ, ◌≡◌, ◌+◌, ◌++◌, ◌<◌, ◌≤◌, ◌^◌, [], IfOk, OnOk, length, map};
ghost use Rattle.std.specs.Prelude.{replicate, slice_index, sum};
ghost use Rattle.std.specs.List.{flat_map};
ghost use Rattle.cq_theory.specs.declared.presentation.Sort.TheVariants.{Entity};
ghost use Rattle.cq_theory.specs.declared.value.Value.TheVariants as value_of;
ghost use Rattle.cq_theory.specs.Tables.{AtRow, AtValue};
ghost use Rattle.cq_theory.specs.Canonical.{below, named};
ghost use Rattle.cq_instance.specs.Numbers as made_of;
ghost use Rattle.cq_instance.specs.Standing.{meaning};

use crate::standing::Standing;
use cq_base::{Name, Seq, number_at};
use cq_terms::{name_generators, push_null_sorts};
use cq_theory::{EntTerm, Sort, Value, alone};
use std::alloc::{AllocError, Global};

/// Appends the sorts of that many rows of an entity.
fn push_row_sorts(entity: u32, count: u32, made: &mut Vec<Sort>) -> Result<(), AllocError>
    ensures { OnOk result (made.new.items ≡ made.old.items ++ replicate count (Entity entity)) }
{
    for _row in 0..count {
        made.push(Sort::Entity(entity))?;
    }
    Ok(())
}

/// Appends the sorts of an entity's rows.
fn push_entity_sorts(counts: &[u32], entity: u32, made: &mut Vec<Sort>) -> Result<(), AllocError>
    ensures { OnOk result (made.new.items ≡ made.old.items ++ made_of.row_sorts counts.now entity) }
{
    let count = number_at(counts, entity as usize);
    push_row_sorts(entity, count, made)
}

/// Appends the sorts of all rows.
fn push_all_sorts(counts: &[u32], made: &mut Vec<Sort>) -> Result<(), AllocError>
    requires { length counts.now < 2 ^ 32 }
    ensures { OnOk result (made.new.items ≡ made.old.items
        ++ flat_map (made_of.row_sorts counts.now) (below (length counts.now))) }
{
    for entity in 0..counts.len() as u32 {
        push_entity_sorts(counts, entity, made)?;
    }
    Ok(())
}

/// The generators of the rows, entity by entity, and then those of the nulls.
pub(crate) fn build_generators(
    alloc: Global,
    counts: &[u32],
    nulls: &[u32],
) -> Result<Vec<(Name, Sort)>, AllocError>
    requires entities { length counts.now < 2 ^ 32 }
    requires few { length (made_of.sorts counts.now nulls.now) < 2 ^ 32 }
    ensures { IfOk result (λ made. made.items ≡ named (made_of.sorts counts.now nulls.now)) }
{
    let mut sorts = Vec::new(alloc);
    push_all_sorts(counts, &mut sorts)?;
    push_null_sorts(nulls, &mut sorts)?;
    let made = name_generators(alloc, sorts.as_slice())?;
    Ok(made)
}

/// That many generators from `start` on, as terms.
fn names_from(alloc: Global, start: u32, count: u32) -> Result<Seq<EntTerm>, AllocError>
    requires { start + count < 2 ^ 32 }
    ensures { IfOk result (λ made. made ≡ map (λ row. record { generator = start + row; path = [] }) (below count)) }
{
    let mut made = Vec::with_capacity(alloc, count as usize)?;
    for row in 0..count {
        made.push(alone(alloc, start + row))?;
    }
    Ok(Seq::from_vec(made))
}

/// The names of the rows of each entity.
pub(crate) fn row_names(alloc: Global, counts: &[u32]) -> Result<Seq<Seq<EntTerm>>, AllocError>
    requires { sum counts.now ≤ 16000000 }
    ensures { IfOk result (λ made. made ≡ map (made_of.names counts.now) (below (length counts.now))) }
{
    let mut made = Vec::with_capacity(alloc, counts.len())?;
    let mut start = 0;
    for entity in 0..counts.len() {
        let count = number_at(counts, entity);
        made.push(names_from(alloc, start, count)?)?;
        start += count;
    }
    Ok(Seq::from_vec(made))
}

/// Appends what the generators of that many rows stand for.
fn push_row_standings(count: u32, made: &mut Vec<Standing>) -> Result<(), AllocError>
    ensures { OnOk result (map meaning made.new.items ≡ map meaning made.old.items ++ map AtRow (below count)) }
{
    for row in 0..count {
        made.push(Standing::Row(row))?;
    }
    Ok(())
}

/// Appends what the generators of all rows stand for.
fn push_all_standings(counts: &[u32], made: &mut Vec<Standing>) -> Result<(), AllocError>
    ensures { OnOk result (map meaning made.new.items ≡ map meaning made.old.items
        ++ flat_map (λ entity. map AtRow (below (slice_index counts.now entity))) (below (length counts.now))) }
{
    for entity in 0..counts.len() {
        push_row_standings(number_at(counts, entity), made)?;
    }
    Ok(())
}

/// Appends what the generators of that many nulls stand for.
fn push_null_standings(nulls: u32, made: &mut Vec<Standing>) -> Result<(), AllocError>
    ensures { OnOk result (map meaning made.new.items ≡ map meaning made.old.items
        ++ map (λ n. AtValue (value_of.Null n)) (below nulls)) }
{
    for label in 0..nulls {
        made.push(Standing::Value(Value::Null(label as u64)))?;
    }
    Ok(())
}

/// What the generators of the rows and of that many nulls stand for.
pub(crate) fn standings(
    alloc: Global,
    counts: &[u32],
    nulls: u32,
) -> Result<Vec<Standing>, AllocError>
    ensures { IfOk result (λ made. map meaning made.items ≡ made_of.meanings counts.now nulls) }
{
    let mut made = Vec::new(alloc);
    push_all_standings(counts, &mut made)?;
    push_null_standings(nulls, &mut made)?;
    Ok(made)
}

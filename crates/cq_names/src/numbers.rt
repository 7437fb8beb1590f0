//! Rows numbered by entity.
ghost use Rattle.std.specs.Prelude.{ℕ, ◌≡◌, ◌<◌, ◌^◌, Some, All, length, map, slice_get, slice_index, IfOk};
ghost use Rattle.cq_tables.specs.Content.{made_of, entities_of, IsWhole};
ghost use Rattle.cq_names.specs.RowNumbers.{row_entities, names_by, AreNumbers, AreNumberedAs};

use cq_base::Seq;
use cq_instance::grouped;
use cq_tables::Tables;
use cq_theory::{EntTerm, empty_groups, sealed};
use std::alloc::{AllocError, Global};

/// Rows in one order, and the same by entity.
#[derive(Drop)]
pub struct NumberedRows {
    /// The rows.
    pub rows: Seq<u64>,
    /// The entity of each row.
    pub members: Seq<u32>,
    /// The places of each entity's rows among the rows.
    pub groups: Seq<Seq<u32>>,
    /// The rows of each entity.
    pub order: Seq<Seq<u64>>,
    /// Their names.
    pub names: Seq<Seq<EntTerm>>,
    /// The number of each row among those of its entity, by its number in the tables.
    pub numbers: Seq<u32>,
}

/// The entity of each row.
fn row_entities(alloc: Global, tables: &Tables, rows: &[u64]) -> Result<Vec<u32>, AllocError>
    requires { All (λ row. row < made_of tables.now) rows.now }
    ensures { IfOk result (λ members. members.items ≡ row_entities tables.now rows.now) }
{
    let mut members = Vec::with_capacity(alloc, rows.len())?;
    for row in rows {
        members.push(tables.entity(*row))?;
    }
    Ok(members)
}

/// The rows at the places of each group.
fn rows_in_groups(
    alloc: Global,
    rows: &[u64],
    groups: &[Seq<u32>],
) -> Result<Seq<Seq<u64>>, AllocError>
    requires { All (λ group. All (λ place. place < length rows.now) group) groups.now }
    ensures { IfOk result (λ order. order ≡ map (map (slice_index rows.now)) groups.now) }
{
    let mut order = Vec::with_capacity(alloc, groups.len())?;
    for group in groups {
        order.push(rows_in_group(alloc, rows, group.as_slice())?)?;
    }
    Ok(Seq::from_vec(order))
}

/// The rows at some places.
fn rows_in_group(alloc: Global, rows: &[u64], places: &[u32]) -> Result<Seq<u64>, AllocError>
    requires { All (λ place. place < length rows.now) places.now }
    ensures { IfOk result (λ group. group ≡ map (slice_index rows.now) places.now) }
{
    let mut group = Vec::with_capacity(alloc, places.len())?;
    for place in places {
        group.push(rows[*place as usize])?;
    }
    Ok(Seq::from_vec(group))
}

/// The number of each row among those of its entity, by the number of the row in tables of `made` rows.
fn numbers_of(
    alloc: Global,
    entities: usize,
    made: u64,
    rows: &[u64],
    members: &[u32],
) -> Result<Vec<u32>, AllocError>
    requires rows { All (λ row. row < made) rows.now }
    requires members { All (λ member. member < entities) members.now }
    requires same { length members.now ≡ length rows.now }
    requires few { length rows.now < 2 ^ 32 }
    requires once { (i j r : ℕ) → slice_get rows.now i ≡ Some r → slice_get rows.now j ≡ Some r → i ≡ j }
    ensures { IfOk result (λ numbers. AreNumbers members.now rows.now numbers.items) }
{
    let mut counts = vec![in alloc; 0u32; entities]?;
    let mut numbers = vec![in alloc; 0u32; made as usize]?;
    for (place, row) in rows.iter().enumerate() {
        let entity = members[place] as usize;
        let number = counts[entity];
        numbers[*row as usize] = number;
        counts[entity] = number + 1;
    }
    Ok(numbers)
}

/// The names of each entity's rows, where `members` has the entity of each name.
fn names_in_groups(
    alloc: Global,
    entities: usize,
    members: &[u32],
    names: Vec<EntTerm>,
) -> Result<Seq<Seq<EntTerm>>, AllocError>
    requires members { All (λ member. member < entities) members.now }
    requires same { length members.now ≡ length names.items }
    ensures { IfOk result (λ groups. groups ≡ names_by members.now entities names.items) }
{
    let mut groups = empty_groups(alloc, entities)?;
    let mut place = 0;
    for name in names {
        groups[members[place] as usize].push(name)?;
        place += 1;
    }
    let sorted = sealed(alloc, groups)?;
    Ok(sorted)
}

/// Numbers rows among those of their entity, in the order in which they stand. There is want of memory also where
/// there are 2^32 rows or more.
pub(crate) fn number_rows(
    alloc: Global,
    entities: usize,
    tables: &Tables,
    rows: Vec<u64>,
    names: Vec<EntTerm>,
) -> Result<NumberedRows, AllocError>
    requires whole { IsWhole tables.now }
    requires entities { entities ≡ entities_of tables.now }
    requires rows { All (λ row. row < made_of tables.now) rows.items }
    requires names { length names.items ≡ length rows.items }
    requires once { (i j r : ℕ) → slice_get rows.items i ≡ Some r → slice_get rows.items j ≡ Some r → i ≡ j }
    ensures { IfOk result (λ made. AreNumberedAs tables.now entities rows.items names.items made) }
{
    if rows.len() > u32::MAX as usize {
        return Err(AllocError);
    }
    let members = row_entities(alloc, tables, rows.as_slice())?;
    let groups = grouped(alloc, entities, members.as_slice())?;
    let order = rows_in_groups(alloc, rows.as_slice(), groups.as_slice())?;
    let numbers = numbers_of(
        alloc,
        entities,
        tables.made(),
        rows.as_slice(),
        members.as_slice(),
    )?;
    let names = names_in_groups(alloc, entities, members.as_slice(), names)?;
    Ok(NumberedRows {
        rows: Seq::from_vec(rows),
        members: Seq::from_vec(members),
        groups,
        order,
        names,
        numbers: Seq::from_vec(numbers),
    })
}

//! The tables of a model, read from numbered rows and from the closure of their terms.
ghost use Rattle.std.specs.Prelude.{ℕ, ◌≡◌, ◌<◌, ◌^◌, true, map, length, All, IfOk, IsSome, Some, Option, slice_get};
ghost use Rattle.std.specs.Prelude.{slice_index};
ghost use Rattle.std.specs.List.{enumerate_from};
ghost use Rattle.cq_rows.specs.Plain.{ends_of};
ghost use Rattle.cq_tables.specs.Content.{live_of, entity_of, keys_of, cell_of, step_of};
ghost use Rattle.cq_flat.specs.Values.{value_at};
ghost use Rattle.cq_tables.specs.Content.{Content};
ghost use Rattle.cq_base.specs.declared.name.Name.{Name};
ghost use Rattle.cq_theory.specs.declared.presentation.Presentation.{Presentation};
ghost use Rattle.cq_theory.specs.declared.presentation.Sort.{Sort};
ghost use Rattle.cq_theory.specs.SchemaData.{SchemaData};
ghost use Rattle.cq_names.specs.LeastNames.{rows_at};
ghost use Rattle.cq_model.specs.NodeTerms.{cell_place};
ghost use Rattle.cq_model.specs.Built.{HasPlace, number_in, sheet_of, standing, assignment_of};
ghost use Rattle.cq_instance.specs.Standing.{meaning};

use crate::places::ClosedPlaces;
use cq_base::{Seq, number_at};
use cq_flat::Flat;
use cq_instance::{Standing, copied, copied_entries};
use cq_tables::Tables;
use cq_theory::{Algebra, Edge, Presentation, Schema, Sheet, Sort, Value};
use std::alloc::{AllocError, Global};

/// The place at a number, and 0 past the end.
fn place_at(places: &[u64], number: u64) -> u64
    ensures { result ≡ slice_index places.now number }
{
    match places.get(number as usize) {
        Some(place) => *place,
        None => 0,
    }
}

/// The number of the row that a cell holds, and 0 where the cell is empty.
fn number_of(numbers: &[u32], cell: Option<u64>) -> u32
    ensures { result ≡ number_in numbers.now cell }
{
    match cell {
        Some(row) => number_at(numbers, row as usize),
        None => 0,
    }
}

/// A foreign key's column: the numbers of the rows that its cells hold.
fn key_column(
    alloc: Global,
    tables: &Tables,
    rows: &[u64],
    numbers: &[u32],
    key: u32,
) -> Result<Seq<u32>, AllocError>
    requires live { All (λ r. live_of tables.now r ≡ true) rows.now }
    requires key { All (λ r. IsSome (step_of (keys_of tables.now) (entity_of tables.now r) key)) rows.now }
    ensures { IfOk result (λ column. column ≡ map (λ r. number_in numbers.now (cell_of tables.now r key)) rows.now) }
{
    let mut column = Vec::with_capacity(alloc, rows.len())?;
    for row in rows {
        column.push(number_of(numbers, tables.cell(*row, key)))?;
    }
    Ok(Seq::from_vec(column))
}

/// The column of each foreign key, edge by edge.
fn key_columns(
    alloc: Global,
    tables: &Tables,
    keys: &[Edge],
    order: &[Seq<u64>],
    numbers: &[u32],
) -> Result<Seq<Seq<u32>>, AllocError>
    requires few { length keys.now < 2 ^ 32 }
    requires within { All (λ edge. edge.from < length order.now) keys.now }
    requires keys { keys_of tables.now ≡ map ends_of keys.now }
    requires rows { (e n r : ℕ) → slice_get (rows_at order.now e) n ≡ Some r → (live_of tables.now r ≡ true)
        × (entity_of tables.now r ≡ e) }
    ensures { IfOk result (λ columns. columns ≡ map
        (λ k. map (λ r. number_in numbers.now (cell_of tables.now r k.0)) (rows_at order.now k.1.from))
        (enumerate_from 0 keys.now)) }
{
    let mut columns = Vec::with_capacity(alloc, keys.len())?;
    for (key, edge) in keys.iter().enumerate() {
        let rows = order[edge.from as usize].as_slice();
        columns.push(key_column(alloc, tables, rows, numbers, key as u32)?)?;
    }
    Ok(Seq::from_vec(columns))
}

/// An attribute's column: the values of its cells, each copied once.
fn cell_column(
    alloc: Global,
    rows: &[u64],
    closed: &ClosedPlaces,
    attribute: u32,
) -> Result<Seq<Value>, AllocError>
    requires few { length closed.now.flat.now.values < 2 ^ 64 }
    requires places { All (λ r. cell_place closed.now.places.now r attribute < length closed.now.flat.now.values)
        rows.now }
    ensures { IfOk result (λ column. column ≡ map (λ r. value_at closed.now.flat.now.values
        (cell_place closed.now.places.now r attribute)) rows.now) }
{
    let rank = number_at(closed.places.ranks.as_slice(), attribute as usize) as u64;
    let firsts = closed.places.firsts.as_slice();
    let mut column = Vec::with_capacity(alloc, rows.len())?;
    for row in rows {
        let first = place_at(firsts, *row);
        column.push(copied(alloc, closed.flat.value(first + rank))?)?;
    }
    Ok(Seq::from_vec(column))
}

/// The column of each attribute, edge by edge.
fn cell_columns(
    alloc: Global,
    attributes: &[Edge],
    order: &[Seq<u64>],
    closed: &ClosedPlaces,
) -> Result<Seq<Seq<Value>>, AllocError>
    requires few { length attributes.now < 2 ^ 32 }
    requires few_values { length closed.now.flat.now.values < 2 ^ 64 }
    requires within { All (λ edge. edge.from < length order.now) attributes.now }
    requires places { (a n r : ℕ) (edge : Edge) → slice_get attributes.now a ≡ Some edge
        → slice_get (rows_at order.now edge.from) n ≡ Some r
        → cell_place closed.now.places.now r a < length closed.now.flat.now.values }
    ensures { IfOk result (λ columns. columns ≡ map
        (λ a. map (λ r. value_at closed.now.flat.now.values (cell_place closed.now.places.now r a.0))
        (rows_at order.now a.1.from))
        (enumerate_from 0 attributes.now)) }
{
    let mut columns = Vec::with_capacity(alloc, attributes.len())?;
    for (attribute, edge) in attributes.iter().enumerate() {
        let rows = order[edge.from as usize].as_slice();
        columns.push(cell_column(alloc, rows, closed, attribute as u32)?)?;
    }
    Ok(Seq::from_vec(columns))
}

/// How many rows each entity has. There is want of memory also where these are 2^32 or more.
fn row_counts(alloc: Global, order: &[Seq<u64>]) -> Result<Seq<u32>, AllocError>
    ensures { IfOk result (λ counts. counts ≡ map length order.now) }
{
    let mut counts = Vec::with_capacity(alloc, order.len())?;
    for rows in order {
        if rows.len() > u32::MAX as usize {
            return Err(AllocError);
        }
        counts.push(rows.len() as u32)?;
    }
    Ok(Seq::from_vec(counts))
}

/// The sheet of a model: `order` has the rows of each entity, by their numbers in the tables, `numbers` the number of
/// each row among those of its entity, and `closed` says where its cells stand among the closed terms.
pub fn read_sheet(
    alloc: Global,
    schema: &Schema,
    tables: &Tables,
    order: &[Seq<u64>],
    numbers: &[u32],
    closed: &ClosedPlaces,
) -> Result<Sheet, AllocError>
    requires entities { length order.now ≡ length schema.now.entities }
    requires few_values { length closed.now.flat.now.values < 2 ^ 64 }
    requires keys { keys_of tables.now ≡ map ends_of schema.now.keys }
    requires rows { (e n r : ℕ) → slice_get (rows_at order.now e) n ≡ Some r → (live_of tables.now r ≡ true)
        × (entity_of tables.now r ≡ e) }
    requires places { (a n r : ℕ) (edge : Edge) → slice_get schema.now.attributes a ≡ Some edge
        → slice_get (rows_at order.now edge.from) n ≡ Some r
        → cell_place closed.now.places.now r a < length closed.now.flat.now.values }
    ensures { (P : Presentation) (rows : _) → IfOk result
        (λ sheet. sheet ≡ sheet_of schema.now P tables.now rows order.now numbers.now closed.now.places.now
        closed.now.flat.now.values) }
{
    let counts = row_counts(alloc, order)?;
    let keys = key_columns(alloc, tables, schema.keys.as_slice(), order, numbers)?;
    let cells = cell_columns(alloc, schema.attributes.as_slice(), order, closed)?;
    Ok(Sheet {
        counts,
        keys,
        cells,
    })
}

/// The types of some nodes.
fn types_of_nodes(alloc: Global, types: &[u32], nodes: &[u64]) -> Result<Seq<u32>, AllocError>
    requires { All (λ node. node < length types.now) nodes.now }
    ensures { IfOk result (λ found. found ≡ map (slice_index types.now) nodes.now) }
{
    let mut found = Vec::with_capacity(alloc, nodes.len())?;
    for node in nodes {
        found.push(types[*node as usize])?;
    }
    Ok(Seq::from_vec(found))
}

/// The nulls of a closure with their types, and its entries. `types` has the type of each node.
pub fn read_algebra(alloc: Global, types: &[u32], flat: &Flat) -> Result<Algebra, AllocError>
    requires { All (λ node. node < length types.now) flat.now.nulls }
    ensures nulls { IfOk result (λ algebra. algebra.nulls ≡ map (slice_index types.now) flat.now.nulls) }
    ensures entries { IfOk result (λ algebra. algebra.entries ≡ flat.now.entries) }
{
    let nulls = types_of_nodes(alloc, types, flat.nulls())?;
    let entries = copied_entries(alloc, flat.entries())?;
    Ok(Algebra { nulls, entries })
}

/// What a generator stands for, by its number and its sort.
fn read_standing(
    alloc: Global,
    generator: u64,
    sort: &Sort,
    rows: &[u64],
    numbers: &[u32],
    closed: &ClosedPlaces,
) -> Result<Standing, AllocError>
    requires { HasPlace closed.now.places.now closed.now.flat.now.values generator sort.now }
    ensures { (S : SchemaData) (P : Presentation) (m : Content) (order : _)
        → IfOk result (λ made. meaning made ≡ standing S P m rows.now order numbers.now closed.now.places.now
        closed.now.flat.now.values generator sort.now) }
{
    match sort {
        Sort::Entity(_) => Ok(Standing::Row(number_at(
            numbers,
            place_at(rows, generator) as usize,
        ))),
        Sort::Plain(_) => {
            let place = place_at(closed.places.generators.as_slice(), generator);
            Ok(Standing::Value(copied(alloc, closed.flat.value(place))?))
        }
    }
}

/// What each generator stands for: `rows` has the row of each generator of an entity, `numbers` the number of each
/// row among those of its entity, and `closed` says where the generators of types stand among the closed terms.
pub fn read_standings(
    alloc: Global,
    presentation: &Presentation,
    rows: &[u64],
    numbers: &[u32],
    closed: &ClosedPlaces,
) -> Result<Seq<Standing>, AllocError>
    requires { (n : ℕ) (g : Name × Sort) → slice_get presentation.now.generators n ≡ Some g
        → HasPlace closed.now.places.now closed.now.flat.now.values n g.1 }
    ensures { (S : SchemaData) (m : Content) (order : _)
        → IfOk result (λ made. map meaning made ≡ assignment_of S presentation.now m rows.now order numbers.now
        closed.now.places.now closed.now.flat.now.values) }
{
    let generators = presentation.generators.as_slice();
    let mut made = Vec::with_capacity(alloc, generators.len())?;
    for (number, generator) in generators.iter().enumerate() {
        let sort = &generator.1;
        made.push(read_standing(alloc, number as u64, sort, rows, numbers, closed)?)?;
    }
    Ok(Seq::from_vec(made))
}

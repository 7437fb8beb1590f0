//! The columns of an entity's file.
ghost use Rattle.std.specs.Prelude.{ℕ, ◌≡◌, ◌<◌, ◌^◌, ◌++◌, [], All, IfOk, OnOk, length, codes, slice_get};
ghost use Rattle.cq_import.specs.Columns.{AreColumns, IsGrouped, attribute_columns, attribute_of, column_name};
ghost use Rattle.cq_import.specs.Columns.{edge_name as edge_name_of, header_with as header_of, key_of};

use cq_base::Name;
use cq_theory::{Edge, Schema};
use std::alloc::{AllocError, Global};

/// What stands in a column behind that of the ids: an attribute by its number with its type, or a foreign key with the
/// entity to which it leads.
#[derive(Clone, Copy, Debug)]
pub enum Column {
    Attribute(u32, u32),
    Key(u32, u32),
}

/// The columns of the file of each entity, behind that of the ids: its attributes, and then its foreign keys.
pub fn columns(alloc: Global, schema: &Schema) -> Result<Vec<Vec<Column>>, AllocError>
    ensures { IfOk result (λ lists. AreColumns schema.now lists.items) }
{
    schema.is_well_sorted();
    let count = schema.entities.len();
    let mut lists = empty_lists(alloc, count)?;
    push_attributes(schema.attributes.as_slice(), count, &mut lists)?;
    push_keys(
        schema.attributes.as_slice(),
        schema.keys.as_slice(),
        count,
        &mut lists,
    )?;
    Ok(lists)
}

fn empty_lists(alloc: Global, count: usize) -> Result<Vec<Vec<Column>>, AllocError>
    ensures { IfOk result (λ lists. IsGrouped (λ _. []) attribute_of [] count lists.items) }
{
    let mut lists = Vec::with_capacity(alloc, count)?;
    for _ in 0..count {
        lists.push(Vec::new(alloc))?;
    }
    Ok(lists)
}

fn push_attributes(
    edges: &[Edge],
    count: usize,
    lists: &mut Vec<Vec<Column>>,
) -> Result<(), AllocError>
    requires few { length edges.now < 2 ^ 32 }
    requires sources { All (λ edge. edge.from < count) edges.now }
    requires lists { IsGrouped (λ _. []) attribute_of [] count lists.old.items }
    ensures { OnOk result (IsGrouped (λ _. []) attribute_of edges.now count lists.new.items) }
{
    for (number, edge) in edges.iter().enumerate() {
        lists[edge.from as usize].push(Column::Attribute(number as u32, edge.to))?;
    }
    Ok(())
}

/// Appends the foreign keys to lists of the attributes.
fn push_keys(
    attributes: &[Edge],
    edges: &[Edge],
    count: usize,
    lists: &mut Vec<Vec<Column>>,
) -> Result<(), AllocError>
    requires few { length edges.now < 2 ^ 32 }
    requires sources { All (λ edge. edge.from < count) edges.now }
    requires lists { IsGrouped (λ _. []) attribute_of attributes.now count lists.old.items }
    ensures { OnOk result (IsGrouped (attribute_columns attributes.now) key_of edges.now count lists.new.items) }
{
    for (number, edge) in edges.iter().enumerate() {
        lists[edge.from as usize].push(Column::Key(number as u32, edge.to))?;
    }
    Ok(())
}

fn name_of(alloc: Global, schema: &Schema, column: Column) -> Result<Name, AllocError>
    ensures { IfOk result (λ name. name ≡ column_name schema.now column) }
{
    match column {
        Column::Attribute(attribute, _) => edge_name(
            alloc,
            schema.attributes.as_slice(),
            attribute,
        ),
        Column::Key(key, _) => edge_name(alloc, schema.keys.as_slice(), key),
    }
}

fn edge_name(alloc: Global, edges: &[Edge], number: u32) -> Result<Name, AllocError>
    ensures { IfOk result (λ name. name ≡ edge_name_of (slice_get edges.now number)) }
{
    match edges.get(number as usize) {
        Some(edge) => edge.name.clone(),
        None => Name::empty(alloc),
    }
}

/// The first record of a file with these columns.
pub fn header(alloc: Global, schema: &Schema, columns: &[Column]) -> Result<Vec<Name>, AllocError>
    ensures { IfOk result (λ names. names.items ≡ header_of schema.now columns.now) }
{
    let mut names = Vec::new(alloc);
    names.push(id_name(alloc)?)?;
    for column in columns {
        names.push(name_of(alloc, schema, *column)?)?;
    }
    Ok(names)
}

fn id_name(alloc: Global) -> Result<Name, AllocError>
    ensures { IfOk result (λ name. name ≡ codes "id") }
{
    match Name::new(alloc, "id") {
        Ok(name) => Ok(name),
        Err(_) => Err(AllocError),
    }
}

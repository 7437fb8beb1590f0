//! The values to which nulls go. Generators, cells and entries tell them: what means the null in the source has its
//! value in the target.
ghost use Rattle.std.specs.Prelude.{ℕ, [], ◌≡◌, ◌<◌, IfOk, OnOk, Some, None, length, map, replicate, slice_get};
ghost use Rattle.std.specs.Prelude.{slice_index_or};
ghost use Rattle.cq_theory.specs.declared.schema.Edge.{Edge as AnyEdge};
ghost use Rattle.cq_theory.specs.declared.term.Term.TheVariants.{Typ};
ghost use Rattle.cq_theory.specs.declared.term.TypeTerm.TheVariants.{Gen};
ghost use Rattle.cq_theory.specs.Sorts.{IsGround};
ghost use Rattle.cq_theory.specs.Tables.{Assignment, AtRow, cell_at as cell_in, value_in as value_meant};
ghost use Rattle.cq_instance.specs.InstanceData.{InstanceData};
ghost use Rattle.cq_instance.specs.Standing.{meaning};
ghost use Rattle.cq_transform.specs.Rows.{rows_made};
ghost use Rattle.cq_transform.specs.Nulls.{Keeps, AreSpelled, AreClosed, AreNulls, IsInitial, IsClosed, IsGenerator};
ghost use Rattle.cq_transform.specs.Nulls.{IsGeneratorClosed, IsPlainClosed, AreGeneratorsClosed, IsAttributeClosed};
ghost use Rattle.cq_transform.specs.Nulls.{AreAttributesClosed, IsStandingOf, IsCellOf, IsColumnOf};

use crate::entries::find_entries;
use crate::found::{open_label, put, values_of};
use cq_base::{Seq, number_at};
use cq_instance::{Instance, Standing, copied};
use cq_theory::{Con, Sort, TypeTerm, Value};
use std::alloc::{AllocError, Global};

/// The value for which a generator stands, and a constant where it stands for none.
fn value_in(alloc: Global, standings: &[Standing], generator: u32) -> Result<Value, AllocError>
    ensures { IfOk result (λ made. made
        ≡ value_meant (slice_index_or (map meaning standings.now) generator (AtRow 0))) }
{
    match standings.get(generator as usize) {
        Some(Standing::Row(_)) => Ok(Value::Const(Con::Named(0))),
        Some(Standing::Value(value)) => copied(alloc, value),
        None => Ok(Value::Const(Con::Named(0))),
    }
}

/// The value of an attribute at a row, and a constant where there is none.
fn cell_at(alloc: Global, target: &Instance, attribute: u32, row: u32) -> Result<Value, AllocError>
    ensures { IfOk result (λ made. made ≡ cell_in target.now.tables attribute row) }
{
    match target.sheet().cells.as_slice().get(attribute as usize) {
        Some(column) => match column.as_slice().get(row as usize) {
            Some(value) => copied(alloc, value),
            None => Ok(Value::Const(Con::Named(0))),
        },
        None => Ok(Value::Const(Con::Named(0))),
    }
}

/// Finds the value of the null for which a generator of the source stands, if `value` is one.
fn find_standing(
    alloc: Global,
    standings: &[Standing],
    generator: u32,
    value: &Value,
    found: &mut Vec<Option<Value>>,
) -> Result<(), AllocError>
    ensures keeps { OnOk result (Keeps found.old.items found.new.items) }
    ensures spelled { (i j : InstanceData) → IsStandingOf i generator value.now
        → AreSpelled i j (map meaning standings.now) found.old.items
        → OnOk result (AreSpelled i j (map meaning standings.now) found.new.items) }
    ensures closed { OnOk result (IsClosed found.new.items value.now) }
{
    if let Some(label) = open_label(found.as_slice(), value) {
        put(found, label, value_in(alloc, standings, generator)?);
    }
    Ok(())
}

/// Finds the value of the null for which a generator of a type stands, if it stands for one.
fn find_plain(
    alloc: Global,
    source: &Instance,
    standings: &[Standing],
    generator: u32,
    found: &mut Vec<Option<Value>>,
) -> Result<(), AllocError>
    requires { IsGround source.now.schema source.now.presentation (Typ (Gen generator)) }
    ensures keeps { OnOk result (Keeps found.old.items found.new.items) }
    ensures spelled { (j : InstanceData) → AreSpelled source.now j (map meaning standings.now) found.old.items
        → OnOk result (AreSpelled source.now j (map meaning standings.now) found.new.items) }
    ensures closed { OnOk result (IsGeneratorClosed source.now found.new.items generator) }
{
    let value = source.value_of(alloc, &TypeTerm::Gen(generator))?;
    find_standing(alloc, standings, generator, &value, found)
}

/// Finds the value of the null for which a generator stands, if it is of a type and stands for one.
fn find_generator(
    alloc: Global,
    source: &Instance,
    standings: &[Standing],
    generator: u32,
    sort: Sort,
    found: &mut Vec<Option<Value>>,
) -> Result<(), AllocError>
    requires { IsGenerator source.now generator sort }
    ensures keeps { OnOk result (Keeps found.old.items found.new.items) }
    ensures spelled { (j : InstanceData) → AreSpelled source.now j (map meaning standings.now) found.old.items
        → OnOk result (AreSpelled source.now j (map meaning standings.now) found.new.items) }
    ensures closed { OnOk result (IsPlainClosed source.now found.new.items generator) }
{
    match sort {
        Sort::Plain(_) => match find_plain(alloc, source, standings, generator, found) {
            Ok(()) => Ok(()),
            Err(refusal) => Err(refusal),
        },
        Sort::Entity(_) => Ok(()),
    }
}

/// Finds the values of the nulls for which generators of the source stand.
fn find_generators(
    alloc: Global,
    source: &Instance,
    standings: &[Standing],
    found: &mut Vec<Option<Value>>,
) -> Result<(), AllocError>
    ensures keeps { OnOk result (Keeps found.old.items found.new.items) }
    ensures spelled { (j : InstanceData) → AreSpelled source.now j (map meaning standings.now) found.old.items
        → OnOk result (AreSpelled source.now j (map meaning standings.now) found.new.items) }
    ensures closed { OnOk result (AreGeneratorsClosed source.now found.new.items (length
        source.now.presentation.generators)) }
{
    let generators = source.presentation().generators.as_slice();
    for (number, generator) in generators.iter().enumerate() {
        find_generator(alloc, source, standings, number as u32, generator.1, found)?;
    }
    Ok(())
}

/// Finds the value of a null in a cell of the source, if it is one: that of the attribute at the row to which its row
/// goes.
fn find_cell(
    alloc: Global,
    target: &Instance,
    attribute: u32,
    image: u32,
    cell: &Value,
    found: &mut Vec<Option<Value>>,
) -> Result<(), AllocError>
    ensures keeps { OnOk result (Keeps found.old.items found.new.items) }
    ensures spelled { (i : InstanceData) (B : Assignment) (row : ℕ) → IsInitial i
        → IsCellOf i target.now B attribute row image cell.now → AreSpelled i target.now B found.old.items
        → OnOk result (AreSpelled i target.now B found.new.items) }
    ensures closed { OnOk result (IsClosed found.new.items cell.now) }
{
    if let Some(label) = open_label(found.as_slice(), cell) {
        put(found, label, cell_at(alloc, target, attribute, image)?);
    }
    Ok(())
}

/// Finds the values of the nulls in a column of the source. `images` has the row to which each row goes.
fn find_column(
    alloc: Global,
    target: &Instance,
    attribute: u32,
    images: &[u32],
    column: &[Value],
    found: &mut Vec<Option<Value>>,
) -> Result<(), AllocError>
    ensures keeps { OnOk result (Keeps found.old.items found.new.items) }
    ensures spelled { (i : InstanceData) (B : Assignment) → IsInitial i
        → IsColumnOf i target.now B attribute images.now column.now → AreSpelled i target.now B found.old.items
        → OnOk result (AreSpelled i target.now B found.new.items) }
    ensures closed { OnOk result (AreClosed found.new.items column.now) }
{
    for (row, cell) in column.iter().enumerate() {
        let image = number_at(images, row);
        find_cell(alloc, target, attribute, image, cell, found)?;
    }
    Ok(())
}

/// The entity from which an attribute goes.
fn entity_of(source: &Instance, attribute: u32) -> u32
    ensures { (edge : AnyEdge) → slice_get source.now.schema.attributes attribute ≡ Some edge → result ≡ edge.from }
{
    match source
        .schema()
        .attributes
        .as_slice()
        .get(attribute as usize)
    {
        Some(edge) => edge.from,
        None => 0,
    }
}

/// The column of an attribute, and none where there is no such attribute.
fn column_at(source: &Instance, attribute: u32) -> &[Value]
    ensures { result.now ≡ slice_index_or source.now.tables.sheet.cells attribute [] }
{
    match source.sheet().cells.as_slice().get(attribute as usize) {
        Some(column) => column.as_slice(),
        None => &[],
    }
}

/// The rows of an entity, and none where there is no such entity.
fn images_at(rows: &[Seq<u32>], entity: u32) -> &[u32]
    ensures { result.now ≡ slice_index_or rows.now entity [] }
{
    match rows.get(entity as usize) {
        Some(images) => images.as_slice(),
        None => &[],
    }
}

/// Finds the values of the nulls in the column of an attribute of the source. `rows` has the row to which each row of
/// each entity goes.
fn find_attribute(
    alloc: Global,
    source: &Instance,
    target: &Instance,
    rows: &[Seq<u32>],
    attribute: u32,
    found: &mut Vec<Option<Value>>,
) -> Result<(), AllocError>
    requires { attribute < length source.now.schema.attributes }
    ensures keeps { OnOk result (Keeps found.old.items found.new.items) }
    ensures spelled { (B : Assignment) → IsInitial source.now → rows.now ≡ rows_made source.now target.now B
        → AreSpelled source.now target.now B found.old.items
        → OnOk result (AreSpelled source.now target.now B found.new.items) }
    ensures closed { OnOk result (IsAttributeClosed source.now found.new.items attribute) }
{
    source.is_instance();
    let images = images_at(rows, entity_of(source, attribute));
    let column = column_at(source, attribute);
    match find_column(alloc, target, attribute, images, column, found) {
        Ok(()) => Ok(()),
        Err(refusal) => Err(refusal),
    }
}

/// How many attributes there are.
fn attribute_count(source: &Instance) -> u32
    ensures { result ≡ length source.now.schema.attributes }
{
    let schema = source.schema();
    schema.is_well_sorted();
    schema.attributes.len() as u32
}

/// Finds the values of the nulls in the cells of the source. `rows` has the row to which each row of each entity goes.
fn find_cells(
    alloc: Global,
    source: &Instance,
    target: &Instance,
    rows: &[Seq<u32>],
    found: &mut Vec<Option<Value>>,
) -> Result<(), AllocError>
    ensures keeps { OnOk result (Keeps found.old.items found.new.items) }
    ensures spelled { (B : Assignment) → IsInitial source.now → rows.now ≡ rows_made source.now target.now B
        → AreSpelled source.now target.now B found.old.items
        → OnOk result (AreSpelled source.now target.now B found.new.items) }
    ensures closed { OnOk result (AreAttributesClosed source.now found.new.items
        (length source.now.schema.attributes)) }
{
    for attribute in 0..attribute_count(source) {
        find_attribute(alloc, source, target, rows, attribute, found)?;
    }
    Ok(())
}

/// No value for each of so many nulls.
fn nothing(alloc: Global, count: usize) -> Result<Vec<Option<Value>>, AllocError>
    ensures { IfOk result (λ made. made.items ≡ replicate count None) }
{
    let mut found = Vec::with_capacity(alloc, count)?;
    for _ in 0..count {
        found.push(None)?;
    }
    Ok(found)
}

/// The values to which the nulls of the source go, whose generators stand in the target for these rows and values.
/// `rows` has the row to which each row of each entity goes.
pub(crate) fn nulls(
    alloc: Global,
    source: &Instance,
    target: &Instance,
    standings: &[Standing],
    rows: &[Seq<u32>],
) -> Result<Vec<Value>, AllocError>
    requires { rows.now ≡ rows_made source.now target.now (map meaning standings.now) }
    ensures { IfOk result (λ made. IsInitial source.now
        → AreNulls source.now target.now (map meaning standings.now) made.items) }
{
    let mut found = nothing(alloc, source.algebra().nulls.len())?;
    find_generators(alloc, source, standings, &mut found)?;
    find_cells(alloc, source, target, rows, &mut found)?;
    let here = source.algebra().entries.as_slice();
    find_entries(alloc, here, target, &mut found)?;
    let values = values_of(alloc, found.as_slice())?;
    Ok(values)
}

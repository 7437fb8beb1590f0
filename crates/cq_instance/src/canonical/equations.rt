//! The equations of rows: of each cell, and of each foreign key.
ghost use Rattle.std.specs.Prelude.{ℕ, ◌≡◌, ◌+◌, ◌++◌, ◌∷◌, ◌<◌, ◌^◌, [], IfOk, OnOk, All, length, map, slice_index};
ghost use Rattle.std.specs.Prelude.{slice_index_or};
ghost use Rattle.std.specs.List.{flat_map};
ghost use Rattle.cq_theory.specs.Canonical.{below};
ghost use Rattle.cq_instance.specs.Numbers as made_of;

use crate::canonical::Numbers;
use cq_base::{Seq, number_at};
use cq_terms::{cell_term, push_entries};
use cq_theory::{EntTerm, Entry, Equation, Path, Sheet, TypeTerm, Value, alone};
use std::alloc::{AllocError, Global};

/// A row of an entity: its number among the entity's rows, and its generator.
#[derive(Clone, Copy)]
struct Row {
    number: u32,
    generator: u32,
}

/// The list at a place, and the empty list past the end.
fn list_at(lists: &[Seq<u32>], place: usize) -> &[u32]
    ensures { result.now ≡ slice_index_or lists.now place [] }
{
    match lists.get(place) {
        Some(list) => list.as_slice(),
        None => &[],
    }
}

/// The values at a place, and no values past the end.
fn values_at(columns: &[Seq<Value>], place: usize) -> &[Value]
    ensures { result.now ≡ slice_index_or columns.now place [] }
{
    match columns.get(place) {
        Some(column) => column.as_slice(),
        None => &[],
    }
}

/// The generator of the row to which a foreign key leads.
fn target_generator(sheet: &Sheet, numbers: &Numbers, key: u32, row: u32) -> u32
    requires { made_of.target_generator sheet.now numbers.now key row < 2 ^ 32 }
    ensures { result ≡ made_of.target_generator sheet.now numbers.now key row }
{
    let target = number_at(numbers.targets.as_slice(), key as usize);
    let start = number_at(numbers.starts.as_slice(), target as usize);
    start + number_at(list_at(sheet.keys.as_slice(), key as usize), row as usize)
}

/// The equation of a foreign key at a row.
fn key_equation(
    alloc: Global,
    sheet: &Sheet,
    numbers: &Numbers,
    row: Row,
    key: u32,
) -> Result<Equation, AllocError>
    requires { made_of.target_generator sheet.now numbers.now key row.number < 2 ^ 32 }
    ensures { IfOk result (λ made. made ≡ made_of.key_made sheet.now numbers.now row.generator row.number key) }
{
    let left = EntTerm {
        generator: row.generator,
        path: Path::from_slice(alloc, &[key])?,
    };
    let right = alone(alloc, target_generator(sheet, numbers, key, row.number));
    Ok(Equation::Ent(left, right))
}

/// Appends the equations of foreign keys at a row.
fn push_keys(
    alloc: Global,
    sheet: &Sheet,
    numbers: &Numbers,
    row: Row,
    keys: &[u32],
    made: &mut Vec<Equation>,
) -> Result<(), AllocError>
    requires { All (λ k. made_of.target_generator sheet.now numbers.now k row.number < 2 ^ 32) keys.now }
    ensures { OnOk result (made.new.items ≡ made.old.items
        ++ map (made_of.key_made sheet.now numbers.now row.generator row.number) keys.now) }
{
    for key in keys {
        made.push(key_equation(alloc, sheet, numbers, row, *key)?)?;
    }
    Ok(())
}

/// The equation of an attribute at a row.
fn cell_equation(
    alloc: Global,
    sheet: &Sheet,
    numbers: &Numbers,
    row: Row,
    attribute: u32,
) -> Result<Equation, AllocError>
    requires { numbers.now.first_null + numbers.now.nulls < 2 ^ 32 }
    ensures { IfOk result (λ made. made ≡ made_of.cell_made sheet.now numbers.now row.generator row.number attribute) }
{
    let left = TypeTerm::Att(attribute, alone(alloc, row.generator));
    let right = cell_term(
        alloc,
        numbers.first_null,
        numbers.nulls,
        values_at(sheet.cells.as_slice(), attribute as usize),
        row.number,
    )?;
    Ok(Equation::Typ(left, right))
}

/// Appends the equations of attributes at a row.
fn push_cells(
    alloc: Global,
    sheet: &Sheet,
    numbers: &Numbers,
    row: Row,
    attributes: &[u32],
    made: &mut Vec<Equation>,
) -> Result<(), AllocError>
    requires { numbers.now.first_null + numbers.now.nulls < 2 ^ 32 }
    ensures { OnOk result (made.new.items ≡ made.old.items
        ++ map (made_of.cell_made sheet.now numbers.now row.generator row.number) attributes.now) }
{
    for attribute in attributes {
        made.push(cell_equation(alloc, sheet, numbers, row, *attribute)?)?;
    }
    Ok(())
}

/// Appends the equations at a row.
fn push_row(
    alloc: Global,
    sheet: &Sheet,
    numbers: &Numbers,
    entity: u32,
    row: u32,
    made: &mut Vec<Equation>,
) -> Result<(), AllocError>
    requires room { made_of.HaveRoom sheet.now numbers.now }
    requires row { row < slice_index sheet.now.counts entity }
    ensures { OnOk result (made.new.items ≡ made.old.items ++ made_of.row_made sheet.now numbers.now entity row) }
{
    let generator = number_at(numbers.starts.as_slice(), entity as usize) + row;
    let at = Row {
        number: row,
        generator,
    };
    let attributes = list_at(numbers.attributes.as_slice(), entity as usize);
    push_cells(alloc, sheet, numbers, at, attributes, made)?;
    let keys = list_at(numbers.keys.as_slice(), entity as usize);
    push_keys(alloc, sheet, numbers, at, keys, made)?;
    Ok(())
}

/// Appends the equations at the rows of an entity.
fn push_entity(
    alloc: Global,
    sheet: &Sheet,
    numbers: &Numbers,
    entity: u32,
    made: &mut Vec<Equation>,
) -> Result<(), AllocError>
    requires { made_of.HaveRoom sheet.now numbers.now }
    ensures { OnOk result (made.new.items ≡ made.old.items ++ made_of.entity_made sheet.now numbers.now entity) }
{
    let count = number_at(sheet.counts.as_slice(), entity as usize);
    for row in 0..count {
        push_row(alloc, sheet, numbers, entity, row, made)?;
    }
    Ok(())
}

/// Appends the equations at all rows, entity by entity.
fn push_rows(
    alloc: Global,
    sheet: &Sheet,
    numbers: &Numbers,
    made: &mut Vec<Equation>,
) -> Result<(), AllocError>
    requires room { made_of.HaveRoom sheet.now numbers.now }
    requires entities { length sheet.now.counts < 2 ^ 32 }
    ensures { OnOk result (made.new.items ≡ made.old.items ++ made_of.rows_made sheet.now numbers.now) }
{
    for entity in 0..sheet.counts.len() as u32 {
        push_entity(alloc, sheet, numbers, entity, made)?;
    }
    Ok(())
}

/// The equations at all rows, and then those of the entries.
pub(crate) fn build_equations(
    alloc: Global,
    sheet: &Sheet,
    numbers: &Numbers,
    entries: &[Entry],
) -> Result<Vec<Equation>, AllocError>
    requires room { made_of.HaveRoom sheet.now numbers.now }
    requires entities { length sheet.now.counts < 2 ^ 32 }
    ensures { IfOk result (λ made. made.items ≡ made_of.equations sheet.now numbers.now entries.now) }
{
    let mut equations = Vec::new(alloc);
    push_rows(alloc, sheet, numbers, &mut equations)?;
    push_entries(
        alloc,
        numbers.first_null,
        numbers.nulls,
        entries,
        &mut equations,
    )?;
    Ok(equations)
}

//! The cells of a file, record by record, and those of all files.
ghost use Rattle.std.specs.Prelude.{ℕ, List, ◌≤◌, ◌<◌, ◌^◌, OnOk, All, length, drop};
ghost use Rattle.csv.specs.Records.{fields_of};
ghost use Rattle.cq_import.specs.Cells.{all_cells, entity_cells, row_cells, rows_cells};
ghost use Rattle.cq_import.specs.Context.{IsColumn};
ghost use Rattle.cq_import.specs.Records.{Record, Remains};
ghost use Rattle.cq_import.specs.Rows.{rows_of};
ghost use Rattle.cq_cells.specs.Passes.{IsOver, Passes, sheets_over};

use crate::cells::{Cell, Over, Pass, read_cell};
use crate::readings::bytes_of;
use cq_import::columns::Column;
use cq_import::records::{field, next, start};
use cq_theory::Schema;
use csv::{ByteRecord, Reader};
use std::alloc::AllocError;

/// A file by its number, and its columns.
#[derive(Clone, Copy)]
struct Table<'a> {
    file: u32,
    columns: &'a [Column],
}

/// Tests the cells of the record with this number.
fn read_row(
    over: &Over,
    table: &Table,
    number: u32,
    fields: &ByteRecord,
    pass: &mut Pass,
) -> Result<(), AllocError>
    requires over { IsOver over.now }
    requires columns { All (IsColumn over.now.schema.now) table.now.columns.now }
    requires narrow { length table.now.columns.now ≤ 2 ^ 31 }
    ensures { (generator : ℕ) → OnOk result (Passes over.now pass.old pass.new
        (λ name. row_cells (name table.now.file) table.now.columns.now generator number (fields_of fields.now))) }
{
    for (place, column) in table.columns.iter().enumerate() {
        let cell = Cell {
            file: table.file,
            number,
            place: place as u32 + 2,
            column: *column,
            field: field(fields, place + 1),
        };
        read_cell(over, &cell, pass)?;
    }
    Ok(())
}

/// Tests the cells of the records that are left, as long as more may be listed.
fn read_rows(
    over: &Over,
    table: &Table,
    reader: &mut Reader<&[u8]>,
    fields: &mut ByteRecord,
    pass: &mut Pass,
) -> Result<(), AllocError>
    requires over { IsOver over.now }
    requires columns { All (IsColumn over.now.schema.now) table.now.columns.now }
    requires narrow { length table.now.columns.now ≤ 2 ^ 31 }
    ensures { (rows : List Record) (generator : ℕ) → Remains reader.old rows → OnOk result (Passes over.now pass.old
        pass.new (λ name. rows_cells (name table.now.file) table.now.columns.now generator 1 rows)) }
{
    for number in 1..u32::MAX {
        if pass.is_done() {
            return Ok(());
        }
        if !next(reader, fields)? {
            return Ok(());
        }
        read_row(over, table, number, fields, pass)?;
    }
    Err(AllocError)
}

/// Tests the cells of a file with this text.
fn read_text(over: &Over, table: &Table, text: &[u8], pass: &mut Pass) -> Result<(), AllocError>
    requires over { IsOver over.now }
    requires columns { All (IsColumn over.now.schema.now) table.now.columns.now }
    requires narrow { length table.now.columns.now ≤ 2 ^ 31 }
    ensures { (generator : ℕ) → OnOk result (Passes over.now pass.old pass.new
        (λ name. rows_cells (name table.now.file) table.now.columns.now generator 1 (rows_of text.now))) }
{
    let mut reader = start(over.alloc, text);
    let mut fields = ByteRecord::new(over.alloc);
    if !next(&mut reader, &mut fields)? {
        return Ok(());
    }
    read_rows(over, table, &mut reader, &mut fields, pass)
}

/// Tests the cells of an entity's file.
fn read_entity(over: &Over, entity: u32, pass: &mut Pass) -> Result<(), AllocError>
    requires over { IsOver over.now }
    requires entity { entity < length over.now.schema.now.entities }
    ensures { OnOk result (Passes over.now pass.old pass.new
        (λ name. entity_cells over.now.schema.now (sheets_over over.now name) entity)) }
{
    let schema: &Schema = over.schema;
    schema.is_well_sorted();
    let reading = &over.readings[entity as usize];
    let columns = over.columns[entity as usize].as_slice();
    // No header is so long.
    if columns.len() > 1 << 31 {
        return Err(AllocError);
    }
    let table = Table {
        file: entity,
        columns,
    };
    read_text(over, &table, bytes_of(reading), pass)
}

/// Tests the cells of all files.
pub fn read_cells(over: &Over, pass: &mut Pass) -> Result<(), AllocError>
    requires { IsOver over.now }
    ensures { OnOk result (Passes over.now pass.old pass.new
        (λ name. all_cells over.now.schema.now (sheets_over over.now name))) }
{
    let schema: &Schema = over.schema;
    schema.is_well_sorted();
    for entity in 0..schema.entities.len() as u32 {
        read_entity(over, entity, pass)?;
    }
    Ok(())
}

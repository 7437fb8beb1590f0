//! The cells of a file, record by record, and those of all files.
ghost use Rattle.std.specs.Prelude.{ℕ, List, ◌≡◌, ◌+◌, ◌≤◌, ◌<◌, ◌^◌, OnOk, IfErr, All, length, drop};
ghost use Rattle.csv.specs.Records.{fields_of};
ghost use Rattle.cq_import.specs.Cells.{all_cells, entity_cells, row_cells, rows_cells};
ghost use Rattle.cq_import.specs.Context.{IsColumn, IsContext, Reads, faults_in, sheets_in};
ghost use Rattle.cq_import.specs.Faults.{Tells};
ghost use Rattle.cq_import.specs.Records.{Record, Remains};
ghost use Rattle.cq_import.specs.Rows.{rows_of};

use crate::cells::{Cell, Context, Made, read_cell};
use crate::columns::Column;
use crate::field_places::{place_of, rest_behind_id};
use crate::records::{field, next, open};
use crate::refusal::CsvRefusal;
use cq_base::Source;
use cq_theory::Schema;
use csv::{ByteRecord, Reader};

/// A record with its number and its generator, and the text of its file.
#[derive(Clone, Copy)]
struct Row<'a> {
    file: &'a str,
    number: u32,
    generator: u32,
    fields: &'a ByteRecord,
    text: &'a [u8],
}

/// The columns of a file, the generator of its first record, and its text.
#[derive(Clone, Copy)]
struct Table<'a> {
    file: &'a str,
    columns: &'a [Column],
    start: u32,
    text: &'a [u8],
}

/// Reads the cells of a record.
fn read_row(
    context: &Context,
    columns: &[Column],
    row: &Row,
    made: &mut Made,
) -> Result<(), CsvRefusal>
    requires context { IsContext context.now }
    requires columns { All (IsColumn context.now.schema.now) columns.now }
    requires narrow { length columns.now ≤ 2 ^ 31 }
    requires room { context.now.first + length made.old.labels ≤ 16000000 }
    ensures passed { OnOk result (Reads context.now made.old made.new
        (row_cells row.now.file.now columns.now row.now.generator row.now.number (fields_of row.now.fields.now))) }
    ensures room { OnOk result (context.now.first + length made.new.labels ≤ 16000000) }
    ensures refused { IfErr result (λ r. Tells r (faults_in context.now made.old
        (row_cells row.now.file.now columns.now row.now.generator row.now.number (fields_of row.now.fields.now)))) }
{
    let mut rest = rest_behind_id(row.text, row.fields);
    for (place, column) in columns.iter().enumerate() {
        let field = field(row.fields, place + 1);
        let stands = place_of(row.text, rest, field);
        let cell = Cell {
            file: row.file,
            row_number: row.number,
            column_number: place as u32 + 2,
            generator: row.generator,
            column: *column,
            field,
            rest: stands.content,
        };
        if let Err(refusal) = read_cell(context, &cell, made) {
            return Err(refusal);
        }
        rest = stands.behind;
    }
    Ok(())
}

/// Reads the cells of the records that are left.
fn read_rows(
    context: &Context,
    table: &Table,
    reader: &mut Reader<&[u8]>,
    fields: &mut ByteRecord,
    made: &mut Made,
) -> Result<(), CsvRefusal>
    requires context { IsContext context.now }
    requires columns { All (IsColumn context.now.schema.now) table.now.columns.now }
    requires narrow { length table.now.columns.now ≤ 2 ^ 31 }
    requires room { context.now.first + length made.old.labels ≤ 16000000 }
    ensures passed { (rows : List Record) → Remains reader.old rows → table.now.start + length rows ≤ 16000000
        → OnOk result (Reads context.now made.old made.new
        (rows_cells table.now.file.now table.now.columns.now table.now.start 1 rows)) }
    ensures room { OnOk result (context.now.first + length made.new.labels ≤ 16000000) }
    ensures refused { (rows : List Record) → Remains reader.old rows → table.now.start + length rows ≤ 16000000
        → IfErr result (λ r. Tells r (faults_in context.now made.old
        (rows_cells table.now.file.now table.now.columns.now table.now.start 1 rows))) }
{
    for number in 1..u32::MAX {
        if !next(reader, fields)? {
            return Ok(());
        }
        let row = Row {
            file: table.file,
            number,
            // at most 16,000,000
            generator: table.start.saturating_add(number - 1),
            fields,
            text: table.text,
        };
        if let Err(refusal) = read_row(context, table.columns, &row, made) {
            return Err(refusal);
        }
    }
    Err(CsvRefusal::Memory)
}

/// Reads the cells of a file behind its header.
fn read_records(
    context: &Context,
    table: &Table,
    reader: &mut Reader<&[u8]>,
    fields: &mut ByteRecord,
    made: &mut Made,
) -> Result<(), CsvRefusal>
    requires context { IsContext context.now }
    requires columns { All (IsColumn context.now.schema.now) table.now.columns.now }
    requires narrow { length table.now.columns.now ≤ 2 ^ 31 }
    requires room { context.now.first + length made.old.labels ≤ 16000000 }
    ensures passed { (rows : List Record) → Remains reader.old rows → table.now.start + length (drop 1 rows) ≤ 16000000
        → OnOk result (Reads context.now made.old made.new
        (rows_cells table.now.file.now table.now.columns.now table.now.start 1 (drop 1 rows))) }
    ensures room { OnOk result (context.now.first + length made.new.labels ≤ 16000000) }
    ensures refused { (rows : List Record) → Remains reader.old rows → table.now.start + length (drop 1 rows) ≤ 16000000
        → IfErr result (λ r. Tells r (faults_in context.now made.old
        (rows_cells table.now.file.now table.now.columns.now table.now.start 1 (drop 1 rows)))) }
{
    if !next(reader, fields)? {
        return Ok(());
    }
    read_rows(context, table, reader, fields, made)
}

/// Reads the cells of a file.
fn read_table(context: &Context, table: &Table, made: &mut Made) -> Result<(), CsvRefusal>
    requires context { IsContext context.now }
    requires columns { All (IsColumn context.now.schema.now) table.now.columns.now }
    requires narrow { length table.now.columns.now ≤ 2 ^ 31 }
    requires room { context.now.first + length made.old.labels ≤ 16000000 }
    requires few { table.now.start + length (rows_of table.now.text.now) ≤ 16000000 }
    ensures passed { OnOk result (Reads context.now made.old made.new
        (rows_cells table.now.file.now table.now.columns.now table.now.start 1 (rows_of table.now.text.now))) }
    ensures room { OnOk result (context.now.first + length made.new.labels ≤ 16000000) }
    ensures refused { IfErr result (λ r. Tells r (faults_in context.now made.old
        (rows_cells table.now.file.now table.now.columns.now table.now.start 1 (rows_of table.now.text.now)))) }
{
    made.source = Source::new(context.alloc, table.text)?;
    let mut opened = open(context.alloc, table.text);
    let mut fields = ByteRecord::new(context.alloc);
    match read_records(context, table, &mut opened.reader, &mut fields, made) {
        Ok(()) => Ok(()),
        Err(refusal) => Err(refusal),
    }
}

/// Reads the cells of an entity's file.
fn read_entity(context: &Context, entity: u32, made: &mut Made) -> Result<(), CsvRefusal>
    requires context { IsContext context.now }
    requires entity { entity < length context.now.files.now }
    requires room { context.now.first + length made.old.labels ≤ 16000000 }
    ensures passed { OnOk result (Reads context.now made.old made.new
        (entity_cells context.now.schema.now (sheets_in context.now) entity)) }
    ensures room { OnOk result (context.now.first + length made.new.labels ≤ 16000000) }
    ensures refused { IfErr result (λ r. Tells r (faults_in context.now made.old
        (entity_cells context.now.schema.now (sheets_in context.now) entity))) }
{
    let schema: &Schema = context.schema;
    schema.is_well_sorted();
    let file = &context.files[entity as usize];
    let columns = context.columns[entity as usize].as_slice();
    // No header is so long.
    if columns.len() > 1 << 31 {
        return Err(CsvRefusal::Memory);
    }
    let table = Table {
        file: file.name.as_str(),
        columns,
        start: context.starts[entity as usize],
        text: file.text.as_slice(),
    };
    read_table(context, &table, made)
}

/// Reads the cells of all files.
pub fn read_cells(context: &Context, made: &mut Made) -> Result<(), CsvRefusal>
    requires context { IsContext context.now }
    requires room { context.now.first + length made.old.labels ≤ 16000000 }
    ensures passed { OnOk result (Reads context.now made.old made.new
        (all_cells context.now.schema.now (sheets_in context.now))) }
    ensures room { OnOk result (context.now.first + length made.new.labels ≤ 16000000) }
    ensures refused { IfErr result (λ r. Tells r (faults_in context.now made.old
        (all_cells context.now.schema.now (sheets_in context.now)))) }
{
    context.schema.is_well_sorted();
    for entity in 0..context.files.len() as u32 {
        if let Err(refusal) = read_entity(context, entity, made) {
            return Err(refusal);
        }
    }
    Ok(())
}

//! The records of an entity's file, before the other files are read.
ghost use Rattle.std.specs.Prelude.{ℕ, List, ◌≡◌, ◌+◌, ◌<◌, ◌^◌, ◌-◌, ◌++◌, ◌∷◌, [], Some, None, true, not, is_some};
ghost use Rattle.std.specs.Prelude.{length, drop, IfOk, OnOk, IfErr};
ghost use Rattle.csv.specs.Records.{fields_of};
ghost use Rattle.cq_base.specs.Names.{number_of};
ghost use Rattle.cq_import.specs.Faults.{Tells, NotCsv as NotCsvFault, BadHeader as BadHeaderFault};
ghost use Rattle.cq_import.specs.Faults.{BadCell as BadCellFault, DoubleId as DoubleIdFault};
ghost use Rattle.cq_import.specs.Records.{Record, Remains, records_of};
ghost use Rattle.cq_import.specs.Rows.{id_of, ids_of, row_fault, rows_fault, rows_of, sheet_fault};

use crate::ids::{Id, Ids};
use crate::records::{field, is_row, is_same, next, open};
use crate::refusal::CsvRefusal;
use cq_base::{Hashing, Name};
use csv::{ByteRecord, Reader};
use std::alloc::{AllocError, Global};

/// The refusal of a file for its header.
pub fn bad_header(alloc: Global, file: &str) -> CsvRefusal
    ensures { Tells result (Some (BadHeaderFault file.now)) }
{
    match String::from_str(alloc, file) {
        Ok(file) => CsvRefusal::BadHeader(file),
        Err(_) => CsvRefusal::Memory,
    }
}

/// The refusal of a record for its fields.
pub fn not_csv(alloc: Global, file: &str, number: u32) -> CsvRefusal
    ensures { Tells result (Some (NotCsvFault file.now number)) }
{
    match String::from_str(alloc, file) {
        Ok(file) => CsvRefusal::NotCsv(file, number),
        Err(_) => CsvRefusal::Memory,
    }
}

/// The refusal of a cell.
pub fn bad_cell(alloc: Global, file: &str, number: u32, column: u32) -> CsvRefusal
    ensures { Tells result (Some (BadCellFault file.now number column)) }
{
    match String::from_str(alloc, file) {
        Ok(file) => CsvRefusal::BadCell(file, number, column),
        Err(_) => CsvRefusal::Memory,
    }
}

fn double_id(alloc: Global, file: &str, number: u32) -> CsvRefusal
    ensures { Tells result (Some (DoubleIdFault file.now number)) }
{
    match String::from_str(alloc, file) {
        Ok(file) => CsvRefusal::DoubleId(file, number),
        Err(_) => CsvRefusal::Memory,
    }
}

/// Adds an id, and tells whether it is new.
fn add_id(alloc: Global, id: &[u8], ids: &mut Ids) -> Result<bool, AllocError>
    requires { length ids.old < 2 ^ 32 - 1 }
    ensures known { IfOk result (λ is_new. is_new ≡ not (is_some (number_of ids.old id.now))) }
    ensures added { IfOk result (λ is_new. is_new ≡ true → ids.new ≡ ids.old ++ id.now ∷ []) }
{
    let id = Id::new(alloc, id)?;
    ids.add(id)
}

/// Tests the record with this number, of so many fields, and adds its id.
fn check_row(
    alloc: Global,
    file: &str,
    count: usize,
    number: u32,
    fields: &ByteRecord,
    ids: &mut Ids,
) -> Result<(), CsvRefusal>
    requires { length ids.old < 2 ^ 32 - 1 }
    ensures passed { OnOk result (row_fault file.now count ids.old number (fields_of fields.now) ≡ None) }
    ensures added { OnOk result (ids.new ≡ ids.old ++ id_of (fields_of fields.now) ∷ []) }
    ensures refused { IfErr result (λ r. Tells r (row_fault file.now count ids.old number (fields_of fields.now))) }
{
    if !is_row(fields, count) {
        return Err(not_csv(alloc, file, number));
    }
    let id = field(fields, 0);
    if id.is_empty() {
        return Err(bad_cell(alloc, file, number, 1));
    }
    if !add_id(alloc, id, ids)? {
        return Err(double_id(alloc, file, number));
    }
    Ok(())
}

/// Tests the records that are left, of so many fields, and adds their ids.
fn check_rows(
    alloc: Global,
    file: &str,
    count: usize,
    reader: &mut Reader<&[u8]>,
    fields: &mut ByteRecord,
    ids: &mut Ids,
) -> Result<(), CsvRefusal>
    requires { ids.old ≡ [] }
    ensures passed { (rows : List Record) → Remains reader.old rows
        → OnOk result (rows_fault file.now count [] 1 rows ≡ None) }
    ensures added { (rows : List Record) → Remains reader.old rows → OnOk result (ids.new ≡ ids_of rows) }
    ensures refused { (rows : List Record) → Remains reader.old rows
        → IfErr result (λ r. Tells r (rows_fault file.now count [] 1 rows)) }
{
    for number in 1..u32::MAX {
        if !next(reader, fields)? {
            return Ok(());
        }
        if let Err(refusal) = check_row(alloc, file, count, number, fields, ids) {
            return Err(refusal);
        }
    }
    Err(CsvRefusal::Memory)
}

/// Tests the records that are left, the first of which has to be the wanted header, and adds the ids of the others.
fn check_records(
    alloc: Global,
    file: &str,
    wanted: &[Name],
    reader: &mut Reader<&[u8]>,
    fields: &mut ByteRecord,
    ids: &mut Ids,
) -> Result<(), CsvRefusal>
    requires { ids.old ≡ [] }
    ensures passed { (rows : List Record) → Remains reader.old rows
        → OnOk result (sheet_fault file.now wanted.now rows ≡ None) }
    ensures added { (rows : List Record) → Remains reader.old rows → OnOk result (ids.new ≡ ids_of (drop 1 rows)) }
    ensures refused { (rows : List Record) → Remains reader.old rows
        → IfErr result (λ r. Tells r (sheet_fault file.now wanted.now rows)) }
{
    if !next(reader, fields)? {
        return Err(bad_header(alloc, file));
    }
    if !is_same(fields, wanted) {
        return Err(bad_header(alloc, file));
    }
    check_rows(alloc, file, wanted.len(), reader, fields, ids)
}

/// Tests the records of an entity's file, the first of which has to be the wanted header, and gives the ids of the
/// others.
pub fn check_sheet(
    alloc: Global,
    file: &str,
    wanted: &[Name],
    text: &[u8],
) -> Result<Ids, CsvRefusal>
    ensures passed { OnOk result (sheet_fault file.now wanted.now (records_of text.now) ≡ None) }
    ensures ids { IfOk result (λ ids. ids ≡ ids_of (rows_of text.now)) }
    ensures refused { IfErr result (λ r. Tells r (sheet_fault file.now wanted.now (records_of text.now))) }
{
    let mut opened = open(alloc, text);
    let mut fields = ByteRecord::new(alloc);
    let mut ids = Ids::new(alloc, Hashing::of_text(text));
    let tested = check_records(
        alloc,
        file,
        wanted,
        &mut opened.reader,
        &mut fields,
        &mut ids,
    );
    match tested {
        Ok(()) => Ok(ids),
        Err(refusal) => Err(refusal),
    }
}

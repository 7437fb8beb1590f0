//! The records of nulls.
ghost use Rattle.std.specs.Prelude.{ℕ, List, ◌≡◌, ◌++◌, ◌∷◌, [], None, Some, IfOk, OnOk, IfErr, IfSome};
ghost use Rattle.csv.specs.Records.{fields_of};
ghost use Rattle.cq_values.specs.Built.{label_in};
ghost use Rattle.cq_import.specs.Entries.{given, is_new, kind_fault, null_fault, null_use, nulls_fault};
ghost use Rattle.cq_import.specs.Entries.{type_named as named_type, with_null};
ghost use Rattle.cq_import.specs.Faults.{Tells};
ghost use Rattle.cq_import.specs.Labels.{type_of_label};
ghost use Rattle.cq_import.specs.Records.{Record, Remains};
ghost use Rattle.cq_import.specs.Rows.{rows_of};

use crate::labels::Labels;
use crate::lines::{is_entry, is_null, open_behind};
use crate::records::{field, next};
use crate::refusal::CsvRefusal;
use crate::rows::bad_cell;
use cq_theory::Typeside;
use cq_values::{name_of, read_label};
use csv::{ByteRecord, Reader};
use std::alloc::{AllocError, Global};

/// The label in a field, where it isn't among these.
fn new_label(labels: &Labels, field: &[u8]) -> Option<u64>
    ensures told { result ≡ is_new labels.now (label_in field.now) }
    ensures label { IfSome result (λ label. label_in field.now ≡ Some label) }
    ensures new { IfSome result (λ label. type_of_label labels.now label ≡ None) }
{
    let label = read_label(field)?;
    match labels.type_of(label) {
        Some(_) => None,
        None => Some(label),
    }
}

/// The type with this name.
fn type_named(alloc: Global, typeside: &Typeside, field: &[u8]) -> Result<Option<u32>, AllocError>
    ensures { IfOk result (λ found. found ≡ named_type typeside.now field.now) }
{
    match name_of(alloc, field)? {
        Some(name) => Ok(typeside.find_type(&name)),
        None => Ok(None),
    }
}

/// Reads the record of a null, and adds its label.
fn read_null(
    alloc: Global,
    typeside: &Typeside,
    file: &str,
    number: u32,
    fields: &ByteRecord,
    labels: &mut Labels,
) -> Result<(), CsvRefusal>
    ensures passed { OnOk result (null_fault typeside.now file.now labels.old number (fields_of fields.now) ≡ None) }
    ensures added { OnOk result (labels.new ≡ labels.old ++ null_use typeside.now (fields_of fields.now) ∷ []) }
    ensures refused { IfErr result (λ r. Tells r (null_fault typeside.now file.now labels.old number
        (fields_of fields.now))) }
{
    let Some(label) = new_label(labels, field(fields, 1)) else {
        return Err(bad_cell(alloc, file, number, 2));
    };
    let Some(sort) = type_named(alloc, typeside, field(fields, 2))? else {
        return Err(bad_cell(alloc, file, number, 3));
    };
    labels.add(label, sort)?;
    Ok(())
}

/// Tests the first column of a record, and reads the record of a null.
fn read_line(
    alloc: Global,
    typeside: &Typeside,
    file: &str,
    number: u32,
    fields: &ByteRecord,
    labels: &mut Labels,
) -> Result<(), CsvRefusal>
    ensures passed { OnOk result (kind_fault typeside.now file.now labels.old number (fields_of fields.now) ≡ None) }
    ensures added { OnOk result (labels.new ≡ with_null typeside.now labels.old (fields_of fields.now)) }
    ensures refused { IfErr result (λ r. Tells r (kind_fault typeside.now file.now labels.old number
        (fields_of fields.now))) }
{
    if is_null(fields) {
        read_null(alloc, typeside, file, number, fields, labels)
    } else if is_entry(fields) {
        Ok(())
    } else {
        Err(bad_cell(alloc, file, number, 1))
    }
}

/// Reads the records of nulls among those that are left.
fn read_lines(
    alloc: Global,
    typeside: &Typeside,
    file: &str,
    reader: &mut Reader<&[u8]>,
    fields: &mut ByteRecord,
    labels: &mut Labels,
) -> Result<(), CsvRefusal>
    ensures passed { (lines : List Record) → Remains reader.old lines
        → OnOk result (nulls_fault typeside.now file.now labels.old 1 lines ≡ None) }
    ensures added { (lines : List Record) → Remains reader.old lines
        → OnOk result (labels.new ≡ labels.old ++ given typeside.now lines) }
    ensures refused { (lines : List Record) → Remains reader.old lines
        → IfErr result (λ r. Tells r (nulls_fault typeside.now file.now labels.old 1 lines)) }
{
    for number in 1..u32::MAX {
        if !next(reader, fields)? {
            return Ok(());
        }
        if let Err(refusal) = read_line(alloc, typeside, file, number, fields, labels) {
            return Err(refusal);
        }
    }
    Err(CsvRefusal::Memory)
}

/// Reads the records of nulls, and adds their labels.
pub fn read_nulls(
    alloc: Global,
    typeside: &Typeside,
    file: &str,
    text: &[u8],
    labels: &mut Labels,
) -> Result<(), CsvRefusal>
    ensures passed { OnOk result (nulls_fault typeside.now file.now labels.old 1 (rows_of text.now) ≡ None) }
    ensures added { OnOk result (labels.new ≡ labels.old ++ given typeside.now (rows_of text.now)) }
    ensures refused { IfErr result (λ r. Tells r (nulls_fault typeside.now file.now labels.old 1
        (rows_of text.now))) }
{
    let Some(mut opened) = open_behind(alloc, text)? else {
        return Ok(());
    };
    let mut fields = ByteRecord::new(alloc);
    let read = read_lines(
        alloc,
        typeside,
        file,
        &mut opened.reader,
        &mut fields,
        labels,
    );
    match read {
        Ok(()) => Ok(()),
        Err(refusal) => Err(refusal),
    }
}

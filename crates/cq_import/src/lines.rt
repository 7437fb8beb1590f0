//! The records of the file of the nulls and the entries, before the cells of the other files are read.
ghost use Rattle.std.specs.Prelude.{ℕ, List, ◌≡◌, ◌+◌, ◌-◌, ◌<◌, ◌^◌, [], if◌then◌else◌, filter, length, drop, codes};
ghost use Rattle.std.specs.Prelude.{IfOk, OnOk, IfErr, MatchOption};
ghost use Rattle.csv.specs.Records.{fields_of};
ghost use Rattle.cq_import.specs.Entries.{is_entry as entry_is, is_null as null_is, lines_fault, mark as mark_is};
ghost use Rattle.cq_import.specs.Entries.{marked_fault};
ghost use Rattle.cq_import.specs.Faults.{Tells};
ghost use Rattle.cq_import.specs.Records.{Record, Remains, records_of};
ghost use Rattle.cq_import.specs.Rows.{rows_of};

use crate::records::{Opened, field, is_row, is_same, next, open};
use crate::refusal::CsvRefusal;
use crate::rows::{bad_header, not_csv};
use cq_base::Name;
use csv::{ByteRecord, Reader};
use std::alloc::{AllocError, Global};

/// Whether a record is a null's.
pub fn is_null(fields: &ByteRecord) -> bool
    ensures { result ≡ null_is (fields_of fields.now) }
{
    field(fields, 0) == b"null".as_slice()
}

/// Whether a record is an entry's.
pub fn is_entry(fields: &ByteRecord) -> bool
    ensures { result ≡ entry_is (fields_of fields.now) }
{
    field(fields, 0) == b"entry".as_slice()
}

/// A text, behind its first record, where there is a first one.
pub fn open_behind(alloc: Global, text: &[u8]) -> Result<Option<Opened<'_>>, AllocError>
    ensures { IfOk result (λ found. MatchOption found (records_of text.now ≡ [])
        (λ opened. Remains opened.reader (rows_of text.now))) }
{
    let mut opened = open(alloc, text);
    let mut fields = ByteRecord::new(alloc);
    if next(&mut opened.reader, &mut fields)? {
        Ok(Some(opened))
    } else {
        Ok(None)
    }
}

fn known_name(alloc: Global, text: &str) -> Result<Name, AllocError>
    ensures { IfOk result (λ name. name ≡ text.now) }
{
    match Name::new(alloc, text) {
        Ok(name) => Ok(name),
        Err(_) => Err(AllocError),
    }
}

/// The first record of the file.
fn mark(alloc: Global) -> Result<Vec<Name>, AllocError>
    ensures { IfOk result (λ names. names.items ≡ mark_is) }
{
    let mut names = Vec::new(alloc);
    names.push(known_name(alloc, "format-2")?)?;
    names.push(known_name(alloc, "left")?)?;
    names.push(known_name(alloc, "right")?)?;
    Ok(names)
}

/// The number of nulls, with this record.
fn counted(fields: &ByteRecord, nulls: u32) -> u32
    requires { nulls < 2 ^ 32 - 1 }
    ensures { result ≡ nulls + (if null_is (fields_of fields.now) then 1 else 0) }
{
    if is_null(fields) { nulls + 1 } else { nulls }
}

/// Tests the records that are left, and counts those of nulls.
fn check_lines(
    alloc: Global,
    file: &str,
    reader: &mut Reader<&[u8]>,
    fields: &mut ByteRecord,
) -> Result<u32, CsvRefusal>
    ensures passed { (lines : List Record) → Remains reader.old lines
        → OnOk result (lines_fault file.now 1 lines ≡ None) }
    ensures count { (lines : List Record) → Remains reader.old lines
        → IfOk result (λ nulls. nulls ≡ length (filter null_is lines)) }
    ensures refused { (lines : List Record) → Remains reader.old lines
        → IfErr result (λ r. Tells r (lines_fault file.now 1 lines)) }
{
    let mut nulls = 0;
    for number in 1..u32::MAX {
        if !next(reader, fields)? {
            return Ok(nulls);
        }
        if !is_row(fields, 3) {
            return Err(not_csv(alloc, file, number));
        }
        nulls = counted(fields, nulls);
    }
    Err(CsvRefusal::Memory)
}

/// Tests the records that are left, the first of which has to be the mark, and counts those of nulls.
fn check_records(
    alloc: Global,
    file: &str,
    wanted: &[Name],
    reader: &mut Reader<&[u8]>,
    fields: &mut ByteRecord,
) -> Result<u32, CsvRefusal>
    requires { wanted.now ≡ mark_is }
    ensures passed { (lines : List Record) → Remains reader.old lines
        → OnOk result (marked_fault file.now lines ≡ None) }
    ensures count { (lines : List Record) → Remains reader.old lines
        → IfOk result (λ nulls. nulls ≡ length (filter null_is (drop 1 lines))) }
    ensures refused { (lines : List Record) → Remains reader.old lines
        → IfErr result (λ r. Tells r (marked_fault file.now lines)) }
{
    if !next(reader, fields)? {
        return Err(bad_header(alloc, file));
    }
    if !is_same(fields, wanted) {
        return Err(bad_header(alloc, file));
    }
    check_lines(alloc, file, reader, fields)
}

/// Tests the records of the file, the first of which has to be the mark of the format, and counts those of nulls.
pub fn check_marked(alloc: Global, file: &str, text: &[u8]) -> Result<u32, CsvRefusal>
    ensures passed { OnOk result (marked_fault file.now (records_of text.now) ≡ None) }
    ensures count { IfOk result (λ nulls. nulls ≡ length (filter null_is (rows_of text.now))) }
    ensures refused { IfErr result (λ r. Tells r (marked_fault file.now (records_of text.now))) }
{
    let wanted = mark(alloc)?;
    let mut opened = open(alloc, text);
    let mut fields = ByteRecord::new(alloc);
    let tested = check_records(
        alloc,
        file,
        wanted.as_slice(),
        &mut opened.reader,
        &mut fields,
    );
    match tested {
        Ok(nulls) => Ok(nulls),
        Err(refusal) => Err(refusal),
    }
}

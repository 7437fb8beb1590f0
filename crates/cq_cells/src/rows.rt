//! The records of a file, tested by themselves.
ghost use Rattle.std.specs.Prelude.{ℕ, List, ◌≡◌, ◌+◌, ◌≤◌, ◌++◌, ◌∷◌, [], Some, None, IfOk, OnOk, drop, length};
ghost use Rattle.csv.specs.Records.{fields_of};
ghost use Rattle.cq_base.specs.Names.{number_of};
ghost use Rattle.cq_import.specs.Records.{Record, Remains, records_of};
ghost use Rattle.cq_import.specs.Rows.{id_of, row_fault};
ghost use Rattle.cq_cells.specs.Found.{found_in, rows_found, sheet_found};
ghost use Rattle.cq_cells.specs.Index.{AreRowsNoted, IsIndexOf, IsIndexed};
ghost use Rattle.cq_cells.specs.Readings.{reading_found, text_in};
ghost use Rattle.cq_cells.specs.Shown.{Lists, listed, told};

use crate::faults::{Fault, Faults, Kind};
use crate::ids::Places;
use crate::index::Indexed;
use crate::readings::Reading;
use cq_base::{Hashing, Name};
use cq_import::Id;
use cq_import::records::{field, is_row, is_same, next, start};
use csv::{ByteRecord, Reader};
use std::alloc::{AllocError, Global};

/// What is tested: the file with this number, and the header that it must have.
#[derive(Clone, Copy)]
pub struct Tested<'a> {
    pub alloc: Global,
    pub file: u32,
    pub wanted: &'a [Name],
}

/// Adds a fault of the whole file.
fn add_to_file(tested: &Tested, kind: Kind, faults: &mut Faults) -> Result<(), AllocError>
    ensures found { OnOk result (Lists faults.old faults.new
        (λ name. found_in (Some (told kind (name tested.now.file) 0 0)) None)) }
    ensures some { OnOk result (faults.new ≡ [] → ⊥) }
{
    faults.add(Some(Fault {
        kind,
        file: tested.file,
        number: 0,
        column: 0,
        before: None,
    }))
}

/// The fault of a record, whose id stands first in an earlier record or in none.
fn fault_of_row(
    tested: &Tested,
    number: u32,
    fields: &ByteRecord,
    before: Option<u32>,
) -> Option<Fault>
    ensures { (name : ℕ → List ℕ) (ids : List (List ℕ)) → before ≡ number_of ids (id_of (fields_of fields.now))
        → listed name result ≡ found_in (row_fault (name tested.now.file) (length tested.now.wanted.now) ids
        number (fields_of fields.now)) before }
{
    let file = tested.file;
    if !is_row(fields, tested.wanted.len()) {
        return Some(Fault {
            kind: Kind::NotCsv,
            file,
            number,
            column: 0,
            before,
        });
    }
    if field(fields, 0).is_empty() {
        return Some(Fault {
            kind: Kind::BadCell,
            file,
            number,
            column: 1,
            before,
        });
    }
    if before.is_some() {
        return Some(Fault {
            kind: Kind::DoubleId,
            file,
            number,
            column: 1,
            before,
        });
    }
    None
}

/// Notes the id of the record with this number, from 0, and tells in which one it stands first.
pub fn note_id(
    alloc: Global,
    id: &[u8],
    number: u32,
    places: &mut Places,
) -> Result<Option<u32>, AllocError>
    ensures known { (ids : List (List ℕ)) → IsIndexOf ids places.old
        → IfOk result (λ before. before ≡ number_of ids id.now) }
    ensures index { (ids : List (List ℕ)) → IsIndexOf ids places.old → length ids ≡ number
        → OnOk result (IsIndexOf (ids ++ id.now ∷ []) places.new) }
{
    let id = Id::new(alloc, id)?;
    places.note(id, number)
}

/// Tests the record with this number, and notes its id.
fn check_row(
    tested: &Tested,
    number: u32,
    fields: &ByteRecord,
    places: &mut Places,
    faults: &mut Faults,
) -> Result<(), AllocError>
    requires { 1 ≤ number }
    ensures index { (ids : List (List ℕ)) → IsIndexOf ids places.old → length ids + 1 ≡ number
        → OnOk result (IsIndexOf (ids ++ id_of (fields_of fields.now) ∷ []) places.new) }
    ensures found { (ids : List (List ℕ)) → IsIndexOf ids places.old → OnOk result (Lists faults.old faults.new
        (λ name. found_in (row_fault (name tested.now.file) (length tested.now.wanted.now) ids number
        (fields_of fields.now)) (number_of ids (id_of (fields_of fields.now))))) }
{
    let before = note_id(tested.alloc, field(fields, 0), number - 1, places)?;
    let fault = fault_of_row(tested, number, fields, before);
    faults.add(fault)?;
    Ok(())
}

/// Tests the records that are left, notes their ids and counts them.
fn check_rows(
    tested: &Tested,
    reader: &mut Reader<&[u8]>,
    fields: &mut ByteRecord,
    places: &mut Places,
    faults: &mut Faults,
) -> Result<u32, AllocError>
    requires { places.old ≡ [] }
    ensures found { (rows : List Record) → Remains reader.old rows → OnOk result (Lists faults.old faults.new
        (λ name. rows_found (name tested.now.file) (length tested.now.wanted.now) [] 1 rows)) }
    ensures noted { (rows : List Record) → Remains reader.old rows → IfOk result (AreRowsNoted rows places.new) }
{
    for number in 0..u32::MAX {
        if !next(reader, fields)? {
            return Ok(number);
        }
        check_row(tested, number + 1, fields, places, faults)?;
    }
    Err(AllocError)
}

/// Tests the records that are left, the first of which has to be the header, notes the ids of those behind it and
/// counts them. Behind another header nothing is noted.
fn check_records(
    tested: &Tested,
    reader: &mut Reader<&[u8]>,
    fields: &mut ByteRecord,
    places: &mut Places,
    faults: &mut Faults,
) -> Result<u32, AllocError>
    requires { places.old ≡ [] }
    ensures found { (rows : List Record) → Remains reader.old rows → OnOk result (Lists faults.old faults.new
        (λ name. sheet_found (name tested.now.file) tested.now.wanted.now rows)) }
    ensures noted { (rows : List Record) → Remains reader.old rows
        → IfOk result (λ count. faults.new ≡ [] → AreRowsNoted (drop 1 rows) places.new count) }
{
    if !next(reader, fields)? {
        add_to_file(tested, Kind::BadHeader, faults)?;
        return Ok(0);
    }
    if !is_same(fields, tested.wanted) {
        add_to_file(tested, Kind::BadHeader, faults)?;
        return Ok(0);
    }
    check_rows(tested, reader, fields, places, faults)
}

/// Tests the text of a file, and lists its ids.
fn check_text(tested: &Tested, text: &[u8], faults: &mut Faults) -> Result<Indexed, AllocError>
    ensures found { OnOk result (Lists faults.old faults.new
        (λ name. sheet_found (name tested.now.file) tested.now.wanted.now (records_of text.now))) }
    ensures indexed { IfOk result (λ made. faults.new ≡ [] → IsIndexed text.now made) }
{
    let mut reader = start(tested.alloc, text);
    let mut fields = ByteRecord::new(tested.alloc);
    let mut places = Places::new(tested.alloc, Hashing::of_text(text));
    let count = check_records(tested, &mut reader, &mut fields, &mut places, faults)?;
    Ok(Indexed { places, count })
}

/// Tests what was read of a file, and lists its ids. Where a fault is found, nothing is claimed of that list.
pub fn check_reading(
    tested: &Tested,
    reading: &Reading,
    faults: &mut Faults,
) -> Result<Indexed, AllocError>
    ensures found { OnOk result (Lists faults.old faults.new
        (λ name. reading_found (name tested.now.file) tested.now.wanted.now reading.now)) }
    ensures indexed { IfOk result (λ made. faults.new ≡ [] → IsIndexed (text_in reading.now) made) }
{
    match reading {
        Reading::Absent => check_unread(tested, Kind::Absent, faults),
        Reading::TooLong => check_unread(tested, Kind::TooLong, faults),
        Reading::Text(text) => check_text(tested, text.as_slice(), faults),
    }
}

/// The fault of a file that was not read, which has no ids.
fn check_unread(tested: &Tested, kind: Kind, faults: &mut Faults) -> Result<Indexed, AllocError>
    ensures found { OnOk result (Lists faults.old faults.new
        (λ name. found_in (Some (told kind (name tested.now.file) 0 0)) None)) }
    ensures some { OnOk result (faults.new ≡ [] → ⊥) }
{
    add_to_file(tested, kind, faults)?;
    Ok(Indexed {
        places: Places::new(tested.alloc, Hashing::new()),
        count: 0,
    })
}

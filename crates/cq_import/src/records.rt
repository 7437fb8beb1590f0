//! The records of a file, one after the other.
ghost use Rattle.std.specs.Prelude.{ℕ, List, ◌≡◌, IfOk, length};
ghost use Rattle.std.specs.Str.{is_utf8};
ghost use Rattle.csv.specs.Records.{fields_of};
ghost use Rattle.cq_import.specs.Records.{Record, Remains, Steps, field_in, records_of};
ghost use Rattle.cq_import.specs.Rows.{is_row as row_is, same_record};

use cq_base::Name;
use csv::{ByteRecord, Reader, ReaderBuilder};
use std::alloc::{AllocError, Global};

/// The reader of a text, whose drop is one call here.
pub struct Opened<'a> {
    pub reader: Reader<&'a [u8]>,
}

impl Drop for Opened<'_> {
    fn drop(self) {
        let Self { reader: _ } = self;
    }
}

/// A text, before its first record is read.
pub fn open(alloc: Global, text: &[u8]) -> Opened<'_>
    ensures { Remains result.reader (records_of text.now) }
{
    Opened {
        reader: start(alloc, text),
    }
}

/// A reader of the records of a file, the first one included, which may have different lengths.
pub fn start(alloc: Global, text: &[u8]) -> Reader<&[u8]>
    ensures { Remains result (records_of text.now) }
{
    ReaderBuilder::new()
        .has_headers(false)
        .flexible(true)
        .from_reader(alloc, text)
}

/// Reads the next record, and tells whether there was one.
pub fn next(reader: &mut Reader<&[u8]>, fields: &mut ByteRecord) -> Result<bool, AllocError>
    ensures { IfOk result (λ found. (rows : List Record) → Remains reader.old rows
        → Steps reader.new rows (fields_of fields.new) found) }
{
    let Ok(found) = reader.read_byte_record(fields) else {
        return Err(AllocError);
    };
    Ok(found)
}

/// How many fields a record has.
pub fn width(fields: &ByteRecord) -> usize
    ensures { result ≡ length (fields_of fields.now) }
{
    fields.len()
}

/// The field in a column, from 0; where the record has no such column, the empty field.
pub fn field(fields: &ByteRecord, column: usize) -> &[u8]
    ensures { result.now ≡ field_in (fields_of fields.now) column }
{
    match fields.get(column) {
        Some(field) => field,
        None => &[],
    }
}

/// Whether these are the wanted fields.
pub fn is_same(fields: &ByteRecord, wanted: &[Name]) -> bool
    ensures { result ≡ same_record (fields_of fields.now) wanted.now }
{
    if width(fields) != wanted.len() {
        return false;
    }
    for (column, name) in wanted.iter().enumerate() {
        if field(fields, column) != name.as_str().as_bytes() {
            return false;
        }
    }
    true
}

fn is_text(bytes: &[u8]) -> bool
    ensures { result ≡ is_utf8 bytes.now }
{
    match str::from_utf8(bytes) {
        Ok(_) => true,
        Err(_) => false,
    }
}

/// Whether a record has so many fields, each of which is UTF-8.
pub fn is_row(fields: &ByteRecord, count: usize) -> bool
    ensures { result ≡ row_is count (fields_of fields.now) }
{
    if width(fields) != count {
        return false;
    }
    for column in 0..count {
        if !is_text(field(fields, column)) {
            return false;
        }
    }
    true
}

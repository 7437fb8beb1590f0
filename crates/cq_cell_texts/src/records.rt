//! Records that are read once more, where they stand.
use crate::bytes::append_cell;
use csv::{ByteRecord, ReaderBuilder};
use std::alloc::{AllocError, Global};

/// The first record of a text; without fields, where there is none.
pub fn first_record(alloc: Global, text: &[u8]) -> Result<ByteRecord, AllocError> {
    let mut reader = ReaderBuilder::new()
        .has_headers(false)
        .flexible(true)
        .from_reader(alloc, text);
    let mut fields = ByteRecord::new(alloc);
    match reader.read_byte_record(&mut fields) {
        Ok(_) => Ok(fields),
        Err(_) => Err(AllocError),
    }
}

/// The field in a column, from 0; where the record has no such column, the empty field.
pub fn field(fields: &ByteRecord, column: usize) -> &[u8] {
    match fields.get(column) {
        Some(field) => field,
        None => &[],
    }
}

/// Appends the fields of a record as CSV has them: with commas between them, and quotes where one needs them.
pub fn append_record(fields: &ByteRecord, out: &mut Vec<u8>) -> Result<(), AllocError> {
    for column in 0..fields.len().min(20) {
        if column > 0 {
            out.extend_from_slice(b",")?;
        }
        append_cell(field(fields, column), out)?;
    }
    if fields.len() > 20 {
        out.extend_from_slice(b", ..")?;
    }
    Ok(())
}

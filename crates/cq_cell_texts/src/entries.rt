//! The faults of the records of a file of nulls and entries, each record by itself.
use crate::records::field;
use cq_cells::{Fault, Kind};
use cq_theory::Typeside;
use cq_values::{read_built, read_value};
use csv::{ByteRecord, ReaderBuilder};
use std::alloc::{AllocError, Global};

/// The most faults that are told.
pub const MOST_FAULTS: usize = 100;

/// The first fault that an import tells of the text, and those of the other records, each by itself, in order. What a
/// record says of labels is not compared with the others but for this first fault.
pub fn entry_faults(
    alloc: Global,
    typeside: &Typeside,
    text: &[u8],
    first: Fault,
) -> Result<Vec<Fault>, AllocError> {
    if first.number == 0 {
        return Ok(vec![in alloc; first]?);
    }
    let mut reader = ReaderBuilder::new()
        .has_headers(false)
        .flexible(true)
        .from_reader(alloc, text);
    let mut fields = ByteRecord::new(alloc);
    let mut faults = Vec::new(alloc);
    for number in 0..u32::MAX {
        match reader.read_byte_record(&mut fields) {
            Ok(true) => push_fault(alloc, typeside, number, &fields, first, &mut faults)?,
            Ok(false) => return Ok(faults),
            Err(_) => return Err(AllocError),
        }
    }
    Ok(faults)
}

/// Appends the fault of the record with this number, if it has one. The header has the number 0.
fn push_fault(
    alloc: Global,
    typeside: &Typeside,
    number: u32,
    fields: &ByteRecord,
    first: Fault,
    faults: &mut Vec<Fault>,
) -> Result<(), AllocError> {
    if number == 0 || faults.len() >= MOST_FAULTS {
        return Ok(());
    }
    if number == first.number {
        faults.push(first)?;
        return Ok(());
    }
    if let Some((kind, column)) = wrong_column(alloc, typeside, fields)? {
        faults.push(Fault {
            kind,
            file: first.file,
            number,
            column,
            before: None,
        })?;
    }
    Ok(())
}

/// What is wrong in a record, and the column; 0 where it is the whole record.
fn wrong_column(
    alloc: Global,
    typeside: &Typeside,
    fields: &ByteRecord,
) -> Result<Option<(Kind, u32)>, AllocError> {
    if fields.len() != 3 || fields.iter().any(|one| str::from_utf8(one).is_err()) {
        return Ok(Some((Kind::NotCsv, 0)));
    }
    let column = match field(fields, 0) {
        b"null" => wrong_of_null(typeside, field(fields, 1), field(fields, 2)),
        b"entry" => wrong_of_entry(alloc, typeside, field(fields, 1), field(fields, 2))?,
        _ => Some(1),
    };
    match column {
        Some(column) => Ok(Some((Kind::BadCell, column))),
        None => Ok(None),
    }
}

/// The column that is wrong in the record of a null: its label, or the name of its type.
fn wrong_of_null(typeside: &Typeside, label: &[u8], sort: &[u8]) -> Option<u32> {
    if label.len() < 2 || !label.starts_with(b"?") {
        return Some(2);
    }
    let is_type = typeside
        .types
        .as_slice()
        .iter()
        .any(|name| name.as_str().as_bytes() == sort);
    if is_type { None } else { Some(3) }
}

/// The column that is wrong in the record of an entry: the text of a built value, or that of a value of its type.
fn wrong_of_entry(
    alloc: Global,
    typeside: &Typeside,
    left: &[u8],
    right: &[u8],
) -> Result<Option<u32>, AllocError> {
    let Some((sort, _)) = read_built(alloc, typeside, left)? else {
        return Ok(Some(2));
    };
    match read_value(alloc, typeside, sort, right)? {
        Some(_) => Ok(None),
        None => Ok(Some(3)),
    }
}

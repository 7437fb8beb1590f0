//! All faults of a folder, line by line.
ghost use Rattle.std.specs.Prelude.{◌≡◌, ◌<◌, ◌^◌, length};
ghost use Rattle.cq_lines.specs.Walks.{IsPlace};

use crate::bytes::{append, append_hex, append_latin, append_number, append_quoted};
use crate::header::{append_header, append_wanted};
use crate::numbers::{earlier_lines, line_among};
use crate::records::{append_record, field, first_record};
use crate::rules::{append_entry_rule, append_rule};
use crate::sheet::{Sheet, append_file, append_line, append_place, column_name};
use cq_base::Name;
use cq_cells::{Fault, Kind, Report, Unread, bytes_of, examine};
use cq_import::columns::{Column, columns, header};
use cq_io::Folder;
use cq_lines::{Place, find_place, is_left_open, start, walk_to};
use cq_theory::Schema;
use csv::ByteRecord;
use std::alloc::{AllocError, Global};

/// What is told of the records of a file: where it lies, and the lines of records with which others share their ids.
#[derive(Clone, Copy)]
struct Told<'a> {
    sheet: &'a Sheet<'a>,
    earlier: &'a [(u32, u32)],
}

/// Appends that a file is absent.
fn append_absent(sheet: &Sheet, out: &mut Vec<u8>) -> Result<(), AllocError> {
    append_file(sheet.dir, sheet.entity, out)?;
    let why: &[u8] = if sheet.is_entries {
        b"import_csv2 reads it beside the files of the entities, and import_csv doesn't"
    } else {
        b"there has to be one file for each entity of the schema"
    };
    append(&[b" is absent: ", why, b".\n  Its first line is: "], out)?;
    append_wanted(sheet.wanted, out)
}

/// Appends that a file is too long.
fn append_too_long(sheet: &Sheet, out: &mut Vec<u8>) -> Result<(), AllocError> {
    append_file(sheet.dir, sheet.entity, out)?;
    append(&[b" has over 64 MiB, and is not read. Shorten it.\n"], out)
}

/// Appends the first byte of a field that belongs to no letter.
fn append_no_text(
    sheet: &Sheet,
    column: usize,
    bytes: &[u8],
    out: &mut Vec<u8>,
) -> Result<(), AllocError> {
    let Err(error) = str::from_utf8(bytes) else {
        return Ok(());
    };
    let at = error.valid_up_to();
    append(
        &[b"  Column ", column_name(sheet.wanted, column), b": "],
        out,
    )?;
    append_quoted(bytes, out)?;
    append(&[b" is not UTF-8: byte "], out)?;
    append_number((at as u64).saturating_add(1), out)?;
    let byte = bytes.get(at).copied().unwrap_or(0);
    append(&[b" is 0x"], out)?;
    append_hex(byte, out)?;
    append_latin(byte, out)?;
    append(
        &[b". Save the file in UTF-8: in a spreadsheet, as \"CSV UTF-8\".\n"],
        out,
    )
}

/// Appends how the number of a record's fields is mended.
fn append_mend(
    sheet: &Sheet,
    fields: &ByteRecord,
    rest: &[u8],
    out: &mut Vec<u8>,
) -> Result<(), AllocError> {
    if is_left_open(rest) {
        append(&[b"  In column "], out)?;
        append(
            &[column_name(sheet.wanted, fields.len().saturating_sub(1))],
            out,
        )?;
        return append(
            &[
                b" a double quote is opened and not closed, so that all that follows is one cell. Close it.\n",
            ],
            out,
        );
    }
    if fields.len() > sheet.wanted.len() {
        append(
            &[b"  Delete what is too much, or put a text with a comma between double quotes.\n"],
            out,
        )
    } else {
        append(
            &[b"  Add the commas that are missing: an empty cell has one too.\n"],
            out,
        )
    }
}

/// Appends how many fields a record has, which begins with the bytes `rest`.
fn append_width(
    sheet: &Sheet,
    fields: &ByteRecord,
    rest: &[u8],
    out: &mut Vec<u8>,
) -> Result<(), AllocError> {
    append(&[b"it has "], out)?;
    append_number(fields.len() as u64, out)?;
    append(&[b" fields, and the header has "], out)?;
    append_number(sheet.wanted.len() as u64, out)?;
    append(&[b".\n  "], out)?;
    append_record(fields, out)?;
    append(&[b"\n"], out)?;
    append_mend(sheet, fields, rest, out)
}

/// Appends why a record, which begins with the bytes `rest`, is no row.
fn append_not_csv(
    sheet: &Sheet,
    fields: &ByteRecord,
    rest: &[u8],
    out: &mut Vec<u8>,
) -> Result<(), AllocError> {
    if fields.len() != sheet.wanted.len() {
        return append_width(sheet, fields, rest, out);
    }
    append(&[b"its bytes are no text.\n"], out)?;
    for column in 0..fields.len() {
        append_no_text(sheet, column, field(fields, column), out)?;
    }
    Ok(())
}

/// Appends where an id stood first.
fn append_double(
    told: &Told,
    fault: &Fault,
    id: &[u8],
    out: &mut Vec<u8>,
) -> Result<(), AllocError> {
    let before = fault.before.unwrap_or(0);
    append(&[b"the id "], out)?;
    append_quoted(id, out)?;
    append(&[b" stood before, in line "], out)?;
    append_number(line_among(told.earlier, before) as u64, out)?;
    append(&[b" (record "], out)?;
    append_number((before as u64).saturating_add(1), out)?;
    append(
        &[b").\n  Give one of the two another id, or delete it.\n"],
        out,
    )
}

fn entity_name(schema: &Schema, entity: u32) -> Option<&Name> {
    schema.entities.as_slice().get(entity as usize)
}

/// The entity to which the foreign key in a column leads.
fn find_target<'a>(sheet: &Sheet<'a>, column: u32) -> Option<&'a Name> {
    match sheet.columns.get((column as usize).saturating_sub(2)) {
        Some(Column::Key(_, target)) => entity_name(sheet.schema, *target),
        _ => None,
    }
}

/// Appends that no record has an id.
fn append_no_such_id(
    sheet: &Sheet,
    fault: &Fault,
    id: &[u8],
    out: &mut Vec<u8>,
) -> Result<(), AllocError> {
    append_quoted(id, out)?;
    append(&[b" is the id of no record of "], out)?;
    if let Some(target) = find_target(sheet, fault.column) {
        append_file(sheet.dir, target, out)?;
    }
    append(&[b".\n"], out)?;
    if id.trim_ascii().len() < id.len() {
        append(&[b"  It begins or ends with a space.\n"], out)?;
    }
    append(
        &[b"  Write an id that stands there, add the record there, or leave the cell empty.\n"],
        out,
    )
}

/// Appends what is wrong in a record, which begins in a line with the bytes `rest`.
fn append_in_record(
    told: &Told,
    fault: &Fault,
    line: u32,
    rest: &[u8],
    out: &mut Vec<u8>,
) -> Result<(), AllocError> {
    let sheet = told.sheet;
    let record = first_record(sheet.alloc, rest)?;
    let fields = &record;
    let cell = field(fields, (fault.column as usize).saturating_sub(1));
    append_place(sheet, fault, line, out)?;
    match fault.kind {
        Kind::NotCsv => append_not_csv(sheet, fields, rest, out),
        Kind::DoubleId => append_double(told, fault, cell, out),
        Kind::NoSuchId => append_no_such_id(sheet, fault, cell, out),
        _ if sheet.is_entries => append_entry_rule(fault.column, cell, out),
        _ => append_rule(sheet, fault.column, cell, out),
    }
}

/// Appends a fault of a file, at the place of its record.
fn append_fault(
    told: &Told,
    fault: &Fault,
    place: Place,
    out: &mut Vec<u8>,
) -> Result<(), AllocError>
    requires { IsPlace told.now.sheet.now.text.now fault.now.number place }
{
    let sheet = told.sheet;
    match fault.kind {
        Kind::Absent => append_absent(sheet, out),
        Kind::TooLong => append_too_long(sheet, out),
        Kind::TooLarge => append(
            &[b"The records of the files and the nulls in them are over 16,000,000.\n"],
            out,
        ),
        Kind::BadHeader => {
            let fields = first_record(sheet.alloc, sheet.text)?;
            append_header(sheet, place.line, &fields, out)
        }
        _ => append_in_record(told, fault, place.line, &sheet.text[place.at..], out),
    }
}

/// Appends the faults of a file, in order.
fn append_faults(
    told: &Told,
    file: u32,
    faults: &[Fault],
    out: &mut Vec<u8>,
) -> Result<(), AllocError>
    requires { length told.now.sheet.now.text.now < 2 ^ 31 }
{
    let text = told.sheet.text;
    let mut walk = start(text);
    for fault in faults {
        if fault.file == file {
            walk = walk_to(text, walk, fault.number);
            append_fault(told, fault, find_place(text, walk), out)?;
        }
    }
    Ok(())
}

/// Appends the faults of the file of an entity, in order.
pub fn append_file_faults(
    sheet: &Sheet,
    file: u32,
    faults: &[Fault],
    out: &mut Vec<u8>,
) -> Result<(), AllocError> {
    if !has_fault(faults, file) {
        return Ok(());
    }
    // No file is so long.
    if sheet.text.len() >= 1 << 31 {
        return Err(AllocError);
    }
    let earlier = earlier_lines(sheet.alloc, faults, file, sheet.text)?;
    let told = Told {
        sheet,
        earlier: earlier.as_slice(),
    };
    append_faults(&told, file, faults, out)
}

/// Whether a fault is one of files, each read by itself.
pub fn is_of_file(fault: &Fault) -> bool {
    match fault.kind {
        Kind::NoSuchId => false,
        Kind::TooLarge => false,
        Kind::BadCell => fault.column == 1,
        _ => true,
    }
}

/// The bytes that were read of a file; none, where none were.
fn text_of(report: &Report, file: usize) -> &[u8] {
    match report.readings.as_slice().get(file) {
        Some(reading) => bytes_of(reading),
        None => &[],
    }
}

/// Whether one of the faults is that of this file.
fn has_fault(faults: &[Fault], file: u32) -> bool {
    faults.iter().any(|fault| fault.file == file)
}

/// Appends the faults of a report, in order, each with its file, its line, its record and its column.
pub fn append_report(
    alloc: Global,
    schema: &Schema,
    dir: &Name,
    report: &Report,
    out: &mut Vec<u8>,
) -> Result<(), AllocError> {
    let columns = columns(alloc, schema)?;
    let lists = columns.as_slice();
    for (file, entity) in schema.entities.as_slice().iter().enumerate() {
        let Ok(number) = u32::try_from(file) else {
            return Ok(());
        };
        let Some(list) = lists.get(file) else {
            return Ok(());
        };
        let list = list.as_slice();
        let wanted = header(alloc, schema, list)?;
        let sheet = Sheet {
            alloc,
            schema,
            dir,
            entity,
            columns: list,
            wanted: wanted.as_slice(),
            text: text_of(report, file),
            is_entries: false,
        };
        append_file_faults(&sheet, number, report.faults.as_slice(), out)?;
    }
    append_rest(report.faults.as_slice(), out)
}

/// Appends what isn't told: faults behind the first 100, and those of cells, where files have faults.
fn append_rest(faults: &[Fault], out: &mut Vec<u8>) -> Result<(), AllocError> {
    if faults.len() >= 100 {
        append(&[b"There may be more: the first 100 are told.\n"], out)?;
    }
    if faults.iter().any(is_of_file) {
        append(&[b"The cells are tested once this is mended.\n"], out)?;
    }
    Ok(())
}

/// Reads the files of a folder, and appends the faults in them, in order.
pub fn append_folder<F: Folder>(
    alloc: Global,
    folder: &mut F,
    dir: &Name,
    schema: &Schema,
    out: &mut Vec<u8>,
) -> Result<(), Unread>
    ensures { (F.state folder.new).files ≡ (F.state folder.old).files }
{
    let found = examine(alloc, folder, dir, schema)?;
    append_report(alloc, schema, dir, &found, out)?;
    Ok(())
}

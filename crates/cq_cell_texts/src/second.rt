//! The faults of a folder of the second format, with its file of nulls and entries.
ghost use Rattle.std.specs.Prelude.{◌≡◌, ◌<◌, ◌^◌, length};

use crate::bytes::append;
use crate::entries::{MOST_FAULTS, entry_faults};
use crate::folder::{append_file_faults, append_report, is_of_file};
use crate::records::{field, first_record};
use crate::sheet::Sheet;
use cq_base::Name;
use cq_cells::{Fault, Kind, Reading, Report, Unread, bytes_of, examine, read_file};
use cq_import::{CsvRefusal, import2};
use cq_io::Folder;
use cq_lines::{find_place, start, walk_to};
use cq_theory::Schema;
use std::alloc::{AllocError, Global};

/// What there is to mend in the file of the nulls and the entries, in place of what the code says of other files.
const MEND_ENTRIES: &[u8] =
    b"To mend it: take this file from an export as it is, or import the folder by import_csv, which doesn't read it.\n";

/// A fault of a file, which is named.
#[derive(Drop)]
struct Refused {
    file: String,
    kind: Kind,
    number: u32,
    column: u32,
}

fn some_refused(file: String, kind: Kind, number: u32, column: u32) -> Option<Refused> {
    Some(Refused {
        file,
        kind,
        number,
        column,
    })
}

/// What a refusal tells of a file.
fn refused_of(refusal: CsvRefusal) -> Option<Refused> {
    match refusal {
        CsvRefusal::Absent(file) => some_refused(file, Kind::Absent, 0, 0),
        CsvRefusal::TooLong(file) => some_refused(file, Kind::TooLong, 0, 0),
        CsvRefusal::NotCsv(file, number) => some_refused(file, Kind::NotCsv, number, 0),
        CsvRefusal::BadHeader(file) => some_refused(file, Kind::BadHeader, 0, 0),
        CsvRefusal::BadCell(file, number, column) => some_refused(
            file,
            Kind::BadCell,
            number,
            column,
        ),
        CsvRefusal::DoubleId(file, number) => some_refused(file, Kind::DoubleId, number, 1),
        CsvRefusal::NoSuchId(file, number, column) => some_refused(
            file,
            Kind::NoSuchId,
            number,
            column,
        ),
        CsvRefusal::ReadFault(_) => None,
        CsvRefusal::TooLarge => None,
        CsvRefusal::Memory => None,
    }
}

fn name_of(alloc: Global, text: &str) -> Result<Name, AllocError> {
    match Name::new(alloc, text) {
        Ok(name) => Ok(name),
        Err(_) => Err(AllocError),
    }
}

/// The header of the file of the nulls and the entries.
fn wanted(alloc: Global) -> Result<Vec<Name>, AllocError> {
    let mut names = Vec::new(alloc);
    names.push(name_of(alloc, "format-2")?)?;
    names.push(name_of(alloc, "left")?)?;
    names.push(name_of(alloc, "right")?)?;
    Ok(names)
}

/// Whether this is the name of an entity's file.
fn is_file_of(file: &str, entity: &Name) -> bool {
    let Some(front) = file.strip_suffix(".csv") else {
        return false;
    };
    match front.rsplit_once('/') {
        Some((_, name)) => name == entity.as_str(),
        None => false,
    }
}

/// The number of the entity whose file this is.
fn entity_of(schema: &Schema, file: &str) -> Option<u32> {
    let place = schema
        .entities
        .as_slice()
        .iter()
        .position(|entity| is_file_of(file, entity))?;
    u32::try_from(place).ok()
}

fn fault_of(refused: &Refused, file: u32) -> Fault {
    Fault {
        kind: refused.kind,
        file,
        number: refused.number,
        column: refused.column,
        before: None,
    }
}

/// Whether a cell of a text, at the column of a fault in its record, has a label, which the file of the nulls gives.
fn has_label(alloc: Global, rest: &[u8], fault: &Fault) -> Result<bool, AllocError> {
    let record = first_record(alloc, rest)?;
    let cell = field(&record, (fault.column as usize).saturating_sub(1));
    Ok(cell.contains(&b'?'))
}

/// Whether a fault of a cell, in a record that begins the bytes `rest`, is one whatever labels are given.
fn is_certain(alloc: Global, rest: &[u8], fault: &Fault) -> Result<bool, AllocError> {
    match fault.kind {
        Kind::NoSuchId => Ok(true),
        Kind::BadCell => Ok(!has_label(alloc, rest, fault)?),
        _ => Ok(false),
    }
}

fn is_among(faults: &[Fault], fault: &Fault) -> bool {
    faults.iter().any(|other| {
        other.file == fault.file && other.number == fault.number && other.column == fault.column
    })
}

/// Appends the faults of the cells of a file that are certain, and not told yet.
fn push_certain(
    alloc: Global,
    text: &[u8],
    file: u32,
    faults: &[Fault],
    told: &mut Vec<Fault>,
) -> Result<(), AllocError>
    requires { length text.now < 2 ^ 31 }
{
    let mut walk = start(text);
    for fault in faults {
        if fault.file == file {
            walk = walk_to(text, walk, fault.number);
            let place = find_place(text, walk);
            push_if_certain(alloc, &text[place.at..], fault, told)?;
        }
    }
    Ok(())
}

/// Appends the fault of a cell, in a record that begins the bytes `rest`, if it is certain, and not told yet.
fn push_if_certain(
    alloc: Global,
    rest: &[u8],
    fault: &Fault,
    told: &mut Vec<Fault>,
) -> Result<(), AllocError> {
    if told.len() >= MOST_FAULTS || is_among(told.as_slice(), fault) {
        return Ok(());
    }
    if is_certain(alloc, rest, fault)? {
        told.push(*fault)?;
    }
    Ok(())
}

/// The first fault of a cell that an import tells, if it tells one, and the others that are certain, in order.
fn cell_faults(
    alloc: Global,
    report: &Report,
    first: Option<Fault>,
) -> Result<Vec<Fault>, AllocError> {
    let mut told = Vec::new(alloc);
    if let Some(first) = first {
        told.push(first)?;
    }
    for (file, reading) in report.readings.as_slice().iter().enumerate() {
        let Ok(number) = u32::try_from(file) else {
            return Ok(told);
        };
        let text = bytes_of(reading);
        // No file is so long.
        if text.len() >= 1 << 31 {
            return Err(AllocError);
        }
        push_certain(alloc, text, number, report.faults.as_slice(), &mut told)?;
    }
    Ok(told)
}

/// Appends the faults of cells.
fn append_cells(
    alloc: Global,
    schema: &Schema,
    dir: &Name,
    found: Report,
    first: Option<Fault>,
    out: &mut Vec<u8>,
) -> Result<(), AllocError> {
    let faults = cell_faults(alloc, &found, first)?;
    let report = Report {
        readings: found.readings,
        faults,
    };
    append_report(alloc, schema, dir, &report, out)
}

/// Appends the faults of the file of the nulls and the entries.
fn append_entries<F: Folder>(
    alloc: Global,
    folder: &mut F,
    schema: &Schema,
    dir: &Name,
    refused: &Refused,
    out: &mut Vec<u8>,
) -> Result<(), Unread>
    ensures { (F.state folder.new).files ≡ (F.state folder.old).files }
{
    let entity = name_of(alloc, "entries-2")?;
    let reading = read_file(alloc, folder, dir, &entity)?;
    let names = wanted(alloc)?;
    let sheet = Sheet {
        alloc,
        schema,
        dir,
        entity: &entity,
        columns: &[],
        wanted: names.as_slice(),
        text: bytes_of(&reading),
        is_entries: true,
    };
    let first = fault_of(refused, 0);
    let faults = entry_faults(alloc, &schema.typeside, sheet.text, first)?;
    append_file_faults(&sheet, 0, faults.as_slice(), out)?;
    append(&[MEND_ENTRIES], out)?;
    Ok(())
}

/// Reads the files of a folder that has a file of nulls and entries too, and appends the faults of the entities' files,
/// each read by itself. Where there are none, these are told: the first fault of an import, those of the other records
/// of the same file of nulls and entries, and those of cells that are faults whatever labels are given.
pub fn append_folder2<F: Folder>(
    alloc: Global,
    folder: &mut F,
    dir: &Name,
    schema: &Schema,
    out: &mut Vec<u8>,
) -> Result<(), Unread>
    ensures { (F.state folder.new).files ≡ (F.state folder.old).files }
{
    let found = examine(alloc, folder, dir, schema)?;
    if found.faults.as_slice().iter().any(is_of_file) {
        append_report(alloc, schema, dir, &found, out)?;
        return Ok(());
    }
    let Err(refusal) = import2(alloc, folder, dir, schema) else {
        return Ok(());
    };
    let Some(refused) = refused_of(refusal) else {
        return Ok(());
    };
    let first = match entity_of(schema, refused.file.as_str()) {
        Some(entity) => Some(fault_of(&refused, entity)),
        None => {
            append_entries(alloc, folder, schema, dir, &refused, out)?;
            None
        }
    };
    append_cells(alloc, schema, dir, found, first, out)?;
    Ok(())
}

//! The faults of a folder.
ghost use Rattle.std.specs.Prelude.{ℕ, List, ◌≡◌, ◌++◌, ◌∷◌, [], Some, None, IfOk, OnOk, IfSome, length, map, take};
ghost use Rattle.cq_import.specs.Cells.{all_cells};
ghost use Rattle.cq_import.specs.Columns.{AreColumns, header_with};
ghost use Rattle.cq_import.specs.Faults.{TooLarge};
ghost use Rattle.cq_import.specs.Folders.{name_of};
ghost use Rattle.cq_import.specs.Imports.{fault_of};
ghost use Rattle.cq_cells.specs.Found.{cells_found, found_in};
ghost use Rattle.cq_cells.specs.Index.{AreIndexed, IsIndexed};
ghost use Rattle.cq_cells.specs.Passes.{IsOver, sheets_over, typeside_over};
ghost use Rattle.cq_cells.specs.Readings.{contents_found, files_found, first_of, folder_found, reading_found};
ghost use Rattle.cq_cells.specs.Readings.{text_in};
ghost use Rattle.cq_cells.specs.Shown.{Lists, most_faults, shown};

use crate::cells::{Over, Pass};
use crate::faults::{Fault, Faults, Kind};
use crate::index::{Indexed, find_total, hashing_of};
use crate::readings::{Reading, Unread, read_files};
use crate::rows::{Tested, check_reading};
use crate::tables::read_cells;
use cq_base::Name;
use cq_import::columns::{Column, columns, header};
use cq_import::labels::Labels;
use cq_io::Folder;
use cq_theory::{MOST_GENERATORS, Schema};
use std::alloc::{AllocError, Global};

/// Tests what was read of an entity's file.
fn check_file(
    alloc: Global,
    schema: &Schema,
    columns: &[Column],
    entity: u32,
    reading: &Reading,
    faults: &mut Faults,
) -> Result<Indexed, AllocError>
    ensures found { OnOk result (Lists faults.old faults.new
        (λ name. reading_found (name entity) (header_with schema.now columns.now) reading.now)) }
    ensures indexed { IfOk result (λ made. faults.new ≡ [] → IsIndexed (text_in reading.now) made) }
{
    let wanted = header(alloc, schema, columns)?;
    let tested = Tested {
        alloc,
        file: entity,
        wanted: wanted.as_slice(),
    };
    check_reading(&tested, reading, faults)
}

fn push_indexed(indexed: Indexed, made: &mut Vec<Indexed>) -> Result<(), AllocError>
    ensures { OnOk result (made.new.items ≡ made.old.items ++ indexed ∷ []) }
{
    made.push(indexed)?;
    Ok(())
}

/// Tests what was read of the files of all entities, and lists their ids. Where a fault is found, nothing is claimed of
/// these lists.
fn check_files(
    alloc: Global,
    schema: &Schema,
    columns: &[Vec<Column>],
    readings: &[Reading],
    faults: &mut Faults,
) -> Result<Vec<Indexed>, AllocError>
    requires columns { AreColumns schema.now columns.now }
    requires readings { length readings.now ≡ length schema.now.entities }
    ensures found { OnOk result (Lists faults.old faults.new (λ name. files_found name schema.now readings.now)) }
    ensures indexed { IfOk result (λ made. faults.new ≡ [] → AreIndexed readings.now made.items) }
{
    schema.is_well_sorted();
    let mut made = Vec::new(alloc);
    for entity in 0..schema.entities.len() as u32 {
        let list = columns[entity as usize].as_slice();
        let reading = &readings[entity as usize];
        let indexed = check_file(alloc, schema, list, entity, reading, faults)?;
        push_indexed(indexed, &mut made)?;
    }
    Ok(made)
}

/// Tests the cells, where there aren't too many records.
fn check_cells(
    alloc: Global,
    schema: &Schema,
    columns: &[Vec<Column>],
    readings: &[Reading],
    indexed: &[Indexed],
    faults: Faults,
) -> Result<Faults, AllocError>
    requires columns { AreColumns schema.now columns.now }
    requires readings { length readings.now ≡ length schema.now.entities }
    requires indexed { AreIndexed readings.now indexed.now }
    ensures { IfOk result (λ made. Lists faults made (λ name. contents_found name schema.now readings.now)) }
{
    let Some(total) = find_total(indexed) else {
        return too_large(faults);
    };
    let over = Over {
        alloc,
        schema,
        readings,
        indexed,
        columns,
        most: MOST_GENERATORS - total,
    };
    check_over(&over, faults)
}

/// The fault of too many records.
fn too_large(faults: Faults) -> Result<Faults, AllocError>
    ensures { IfOk result (λ made. Lists faults made (λ name. found_in (Some TooLarge) None)) }
{
    let mut faults = faults;
    faults.add(Some(Fault {
        kind: Kind::TooLarge,
        file: 0,
        number: 0,
        column: 0,
        before: None,
    }))?;
    Ok(faults)
}

/// Tests the cells.
fn check_over(over: &Over, faults: Faults) -> Result<Faults, AllocError>
    requires { IsOver over.now }
    ensures { IfOk result (λ made. Lists faults made (λ name. cells_found (sheets_over over.now name)
        (typeside_over over.now) (Some over.now.most) [] (all_cells over.now.schema.now (sheets_over over.now name)))) }
{
    let labels = Labels::new(over.alloc, hashing_of(over.indexed));
    let mut pass = Pass {
        faults,
        labels,
        going: true,
    };
    read_cells(over, &mut pass)?;
    let Pass { faults, .. } = pass;
    Ok(faults)
}

/// The faults in what was read of the files of all entities: the first 100 of those that an import tells, were there no
/// others before them.
///
/// Those of the files come first, each read by itself: a file that is absent or too long, another header, and then
/// record by record a wrong number of fields or a field that isn't UTF-8, an empty id, and an id that stood before.
/// Where there are none, those of the cells follow: too many records, a cell without meaning, an id that no record
/// has. Behind a label that is wrong in its place nothing is told.
pub fn find_faults(
    alloc: Global,
    schema: &Schema,
    readings: &[Reading],
) -> Result<Vec<Fault>, AllocError>
    requires { length readings.now ≡ length schema.now.entities }
    ensures { IfOk result (λ made. (name : ℕ → List ℕ)
        → map (shown name) made.items ≡ take most_faults (folder_found name schema.now readings.now)) }
{
    schema.is_well_sorted();
    let columns = columns(alloc, schema)?;
    let mut faults = Faults::new(alloc);
    let indexed = check_files(alloc, schema, columns.as_slice(), readings, &mut faults)?;
    if !faults.is_empty() {
        return Ok(faults.into_list());
    }
    let all = check_cells(
        alloc,
        schema,
        columns.as_slice(),
        readings,
        indexed.as_slice(),
        faults,
    )?;
    Ok(all.into_list())
}

/// What was read of the files of a folder, and the faults in it.
#[derive(Drop)]
pub struct Report {
    pub readings: Vec<Reading>,
    pub faults: Vec<Fault>,
}

/// Reads the file `DIR/ENTITY.csv` of each entity of the schema, and lists the faults.
pub fn examine<F: Folder>(
    alloc: Global,
    folder: &mut F,
    dir: &Name,
    schema: &Schema,
) -> Result<Report, Unread>
    ensures files { (F.state folder.new).files ≡ (F.state folder.old).files }
    ensures faults { IfOk result (λ r. (name : ℕ → List ℕ)
        → map (shown name) r.faults.items ≡ take most_faults (folder_found name schema.now r.readings.items)) }

    // The first fault is the one that an import of the folder tells, and there is none exactly where an import is not
    // refused.
    ensures first { IfOk result (λ r. IfSome (F.state folder.old).files (λ files.
        first_of (map (shown (name_of dir.now schema.now)) r.faults.items) ≡ fault_of files dir.now schema.now)) }
{
    let readings = read_files(alloc, folder, dir, schema)?;
    let faults = find_faults(alloc, schema, readings.as_slice())?;
    Ok(Report { readings, faults })
}

//! Folders of CSV files, with one of nulls and entries, as presentations.
ghost use Rattle.std.specs.Prelude.{◌≡◌, length, map, string_bytes, IfOk, OnOk, IfErr};
ghost use Rattle.cq_theory.specs.Presentation.{IsPresentation};
ghost use Rattle.cq_import.specs.Columns.{AreColumns};
ghost use Rattle.cq_import.specs.Context.{sheet_in};
ghost use Rattle.cq_import.specs.Entries.{IsImport2Over, OfFiles2};
ghost use Rattle.cq_import.specs.Folders.{AreRead, Keeps, Raises};

use crate::columns::{Column, columns};
use crate::entity_file::EntityFile;
use crate::entries_file::read_entries_file;
use crate::folder::read_files;
use crate::presenting_entries::present_entries;
use crate::refusal::CsvRefusal;
use cq_base::Name;
use cq_io::Folder;
use cq_theory::{Presentation, Schema};
use std::alloc::Global;

/// The presentation of the files, where those of the entities are read and tested.
fn import_rest<F: Folder>(
    alloc: Global,
    folder: &mut F,
    dir: &Name,
    schema: &Schema,
    columns: &[Vec<Column>],
    files: &[EntityFile],
) -> Result<Presentation, CsvRefusal>
    requires columns { AreColumns schema.now columns.now }
    requires count { length files.now ≡ length schema.now.entities }
    requires read { AreRead dir.now schema.now (F.state folder.old).files files.now }
    ensures keeps { Keeps (F.state folder.old) (F.state folder.new) }
    ensures raises { Raises (F.state folder.old) (F.state folder.new) result }
    ensures answer { OfFiles2 (F.state folder.old).files dir.now
        (λ told text. IsImport2Over told text dir.now schema.now result) }
    ensures presentation { IfOk result (IsPresentation schema.now) }
{
    schema.is_well_sorted();
    match read_entries_file(alloc, folder, dir) {
        Ok(entries) => present_entries(alloc, schema, columns, files, &entries),
        Err(refusal) => Err(refusal),
    }
}

/// The presentation of the CSV files `DIR/ENTITY.csv`, one for each entity of the schema, and `DIR/entries-2.csv`, of
/// at most 64 MiB each. Their form is that in which `files` writes an instance.
///
/// The files of the entities are those that `import` reads, but for their labels: each label that stands in a cell is
/// given in the last file. Its first record is `format-2,left,right`. Each other record is `null`, `?` and a label, and
/// the name of a type, or it is `entry`, the text of a built value, and the text of a value of its type. The records
/// may stand in any order. There is a generator for each record of the entities' files, by entity and record, and then
/// one for each record of a null; and an equation for each cell that isn't empty, and then one for each entry.
///
/// A refusal is the first fault in this order. The files of the entities are read and tested as by `import`. Then the
/// last file is read (`Absent`, `ReadFault`, `TooLong`), its first record is tested (`BadHeader`), and then each record
/// in turn: `NotCsv` where it hasn't three fields, each of UTF-8. Then `TooLarge`, where the records of the entities'
/// files and those of nulls are over 16,000,000. Then, record by record, `BadCell` in column 1 where it is neither
/// `null` nor `entry`, in column 2 where a null has no label or one that stood before, in column 3 where it has no
/// type.
/// Then the cells in order, as by `import`: `BadCell`, also where a label isn't given or has another type, and
/// `NoSuchId`. Then the entries: `BadCell` in column 2 where no built value has the text, in column 3 where no value of
/// its type has it, and in either where a label isn't given or has another type. `Memory` may come at any time.
pub fn import2<F: Folder>(
    alloc: Global,
    folder: &mut F,
    dir: &Name,
    schema: &Schema,
) -> Result<Presentation, CsvRefusal>
    // Where the folder tells its files, the answer is decided by them, but for a read that fails and want of memory;
    // where it tells none, there are files over which it is.
    ensures answer { OfFiles2 (F.state folder.old).files dir.now
        (λ told text. IsImport2Over told text dir.now schema.now result) }
    ensures presentation { IfOk result (IsPresentation schema.now) }

    // No count falls, and a read that is refused has raised its count. A steady folder stays so, and never fails.
    ensures keeps { Keeps (F.state folder.old) (F.state folder.new) }
    ensures raises { Raises (F.state folder.old) (F.state folder.new) result }
{
    schema.is_well_sorted();
    let Ok(columns) = columns(alloc, schema) else {
        return Err(CsvRefusal::Memory);
    };
    match read_files(alloc, folder, dir, schema, columns.as_slice()) {
        Ok(files) => import_rest(
            alloc,
            folder,
            dir,
            schema,
            columns.as_slice(),
            files.as_slice(),
        ),
        Err(refusal) => Err(refusal),
    }
}

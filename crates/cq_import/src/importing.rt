//! Folders of CSV files as presentations.
ghost use Rattle.std.specs.Prelude.{IfOk};
ghost use Rattle.cq_theory.specs.Presentation.{IsPresentation};
ghost use Rattle.cq_import.specs.Folders.{Keeps, Raises};
ghost use Rattle.cq_import.specs.Imports.{IsImport, OfFiles};

use crate::columns::columns;
use crate::folder::read_files;
use crate::presenting::present;
use crate::refusal::CsvRefusal;
use cq_base::Name;
use cq_io::Folder;
use cq_theory::{Presentation, Schema};
use std::alloc::Global;

/// The presentation of the CSV files `DIR/ENTITY.csv`, one for each entity of the schema, of at most 64 MiB each.
///
/// The first record of a file is its header: `id`, then the entity's attributes, then its foreign keys, in the order
/// of the schema. Each other record is a generator, named `g1`, `g2`, .. by entity and record. An empty cell says
/// nothing. In the column of an attribute `?` and a label of one to nine digits is a null, which is one for each label;
/// behind `=` stands a value by its text; all else is the constant with this content. In the column of a foreign key
/// stands the id of the record to which it leads. The labels have generators too, in order of first appearance, and
/// each cell gives an equation.
///
/// A refusal is the first fault in this order. File by file: it is read (`Absent`, `ReadFault`, `TooLong`), its first
/// record is tested (`BadHeader`), and then each record in turn: `NotCsv` where it has another number of fields than
/// the header or a field that isn't UTF-8, `BadCell` in column 1 where its id is empty, `DoubleId` where its id stood
/// before in this file. Then `TooLarge`, where there are over 16,000,000 records. Then the cells in order: `BadCell`
/// where a cell of an attribute has no meaning or has a label that appeared with another type, `NoSuchId` where no
/// record has the id, and `TooLarge` where a new label makes over 16,000,000 generators. `Memory` may come at any time.
pub fn import<F: Folder>(
    alloc: Global,
    folder: &mut F,
    dir: &Name,
    schema: &Schema,
) -> Result<Presentation, CsvRefusal>
    // Where the folder tells its files, the answer is decided by them, but for a read that fails and want of memory;
    // where it tells none, there are files over which it is.
    ensures answer { OfFiles (F.state folder.old).files (λ files. IsImport files dir.now schema.now result) }
    ensures presentation { IfOk result (IsPresentation schema.now) }

    // No count falls, and a read that is refused has raised its count. A steady folder stays so, and never fails.
    ensures keeps { Keeps (F.state folder.old) (F.state folder.new) }
    ensures raises { Raises (F.state folder.old) (F.state folder.new) result }
{
    schema.is_well_sorted();
    let Ok(columns) = columns(alloc, schema) else {
        return Err(CsvRefusal::Memory);
    };
    match read_files(alloc, folder, dir, schema, columns.as_slice()) {
        Ok(files) => present(alloc, schema, columns.as_slice(), files.as_slice()),
        Err(refusal) => Err(refusal),
    }
}

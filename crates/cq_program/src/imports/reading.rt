//! Folders of files: what is posed once they are read.
ghost use Rattle.std.specs.Prelude.{◌≡◌, IfOk, IfErr, string_bytes};
ghost use Rattle.cq_import.specs.Faults.{told};
ghost use Rattle.cq_import.specs.Folders.{Keeps, Raises};
ghost use Rattle.cq_theory.specs.Presentation.{IsPresentation};
ghost use Rattle.cq_program.specs.Checks.{a_folder};
ghost use Rattle.cq_program.specs.Folders.{IsImportOf, OfFolder, Reads};
ghost use Rattle.cq_program.specs.Posing.{IsPosed, IsStated, TellsReading, TellsImport, posed_as, stated_as};

use crate::imports::stating::{FolderImport, Format};
use crate::statement::{Stated, Statement};
use cq_base::{Place, Seq};
use cq_environment::{ProgramRefusal, ReadCause, Reason};
use cq_import::{CsvRefusal, import, import2};
use cq_io::Folder;
use cq_theory::Presentation;
use std::alloc::Global;

/// What is posed once the files of a folder are read, or the first fault in them, or a file that was not read.
pub fn read_stated<F: Folder>(
    alloc: Global,
    place: Place,
    stated: Stated,
    folder: &mut F,
) -> Result<Statement, ProgramRefusal>
    requires stated { IsStated stated }
    ensures reads { IfOk result (λ s. Reads (F.state folder.old).files (stated_as stated) (posed_as s)) }
    ensures well_sorted { IfOk result IsPosed }
    ensures keeps { Keeps (F.state folder.old) (F.state folder.new) }
    ensures refused { IfErr result (TellsReading place (F.state folder.old) (F.state folder.new) (stated_as stated)) }
{
    match stated {
        Stated::AtOnce(statement) => Ok(statement),
        Stated::Folder(files) => read_folder(alloc, place, files, folder),
    }
}

/// The presentation that a folder gives over its schema.
fn read_folder<F: Folder>(
    alloc: Global,
    place: Place,
    files: FolderImport,
    folder: &mut F,
) -> Result<Statement, ProgramRefusal>
    ensures reads { IfOk result (λ s. Reads (F.state folder.old).files
        (a_folder files.format files.name files.schema.value files.dir) (posed_as s)) }
    ensures well_sorted { IfOk result IsPosed }
    ensures keeps { Keeps (F.state folder.old) (F.state folder.new) }
    ensures refused { IfErr result (TellsReading place (F.state folder.old) (F.state folder.new)
        (a_folder files.format files.name files.schema.value files.dir)) }
{
    match import_files(alloc, &files, folder) {
        Ok(presentation) => Ok(Statement::Presentation(files.name, files.schema, presentation)),
        Err(refusal) => Err(tell_import(place, refusal)),
    }
}

/// The import of a folder by its format.
fn import_files<F: Folder>(
    alloc: Global,
    files: &FolderImport,
    folder: &mut F,
) -> Result<Presentation, CsvRefusal>
    ensures answer { OfFolder (F.state folder.old).files files.now.format files.now.dir files.now.schema.value
        (λ c. IsImportOf c result) }
    ensures presentation { IfOk result (IsPresentation files.now.schema.value) }
    ensures keeps { Keeps (F.state folder.old) (F.state folder.new) }
    ensures raises { Raises (F.state folder.old) (F.state folder.new) result }
{
    match files.format {
        Format::First => import(alloc, folder, &files.dir, &files.schema),
        Format::Second => import2(alloc, folder, &files.dir, &files.schema),
    }
}

/// The refusal of an import, at the declaration's place.
fn tell_import(place: Place, refusal: CsvRefusal) -> ProgramRefusal
    ensures { TellsImport place (told refusal) result }
{
    match refusal {
        CsvRefusal::Absent(file) => ProgramRefusal::Read(file, ReadCause::Absent),
        CsvRefusal::ReadFault(file) => ProgramRefusal::Read(file, ReadCause::Failed),
        CsvRefusal::TooLong(file) => ProgramRefusal::Read(file, ReadCause::TooLong),
        CsvRefusal::NotCsv(file, number) => {
            ProgramRefusal::Broken(place, Reason::NotCsv(bytes_of(file), number))
        }
        CsvRefusal::BadHeader(file) => {
            ProgramRefusal::Broken(place, Reason::BadHeader(bytes_of(file)))
        }
        CsvRefusal::BadCell(file, number, column) => {
            ProgramRefusal::Broken(place, Reason::BadCell(bytes_of(file), number, column))
        }
        CsvRefusal::DoubleId(file, number) => {
            ProgramRefusal::Broken(place, Reason::DoubleId(bytes_of(file), number))
        }
        CsvRefusal::NoSuchId(file, number, column) => {
            ProgramRefusal::Broken(place, Reason::NoSuchId(bytes_of(file), number, column))
        }
        CsvRefusal::TooLarge => ProgramRefusal::Broken(place, Reason::ManyRecords),
        CsvRefusal::Memory => ProgramRefusal::Memory,
    }
}

fn bytes_of(text: String) -> Seq<u8>
    ensures { result ≡ string_bytes text }
{
    Seq::from_vec(text.into_bytes())
}

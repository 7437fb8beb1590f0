//! The faults of a folder of CSV files.
ghost use Rattle.std.specs.Prelude.{◌≡◌, ◌<◌, ◌^◌};
ghost use Rattle.cq_parts.specs.Few.{part_count};
ghost use Rattle.cq_environment.specs.Environment.{AreSettled, environment_of};

use crate::case::Case;
use crate::posed::stated_again;
use cq_cell_texts::{append_folder, append_folder2};
use cq_cells::Unread;
use cq_io::Folder;
use cq_program::{FolderImport, Format, Stated};
use std::alloc::{AllocError, Global};

/// Appends the faults of the folder that a declaration names.
pub fn append_folder_faults<F: Folder>(
    case: Case<'_>,
    folder: &mut F,
    out: &mut Vec<u8>,
) -> Result<(), AllocError>
    requires few { part_count case.decl.now.body < 2 ^ 32 }
    requires settled { AreSettled (environment_of case.env.now.names.entries) }
    ensures { (F.state folder.new).files ≡ (F.state folder.old).files }
{
    match stated_again(case)? {
        Some(Stated::Folder(files)) => append_files(case.book.alloc, &files, folder, out),
        Some(Stated::AtOnce(_)) => Ok(()),
        None => Ok(()),
    }
}

/// Appends the faults of a folder. One that is changed meanwhile may have none, or may not be read.
fn append_files<F: Folder>(
    alloc: Global,
    files: &FolderImport,
    folder: &mut F,
    out: &mut Vec<u8>,
) -> Result<(), AllocError>
    ensures { (F.state folder.new).files ≡ (F.state folder.old).files }
{
    let told = match files.format {
        Format::First => append_folder(alloc, folder, &files.dir, &files.schema, out),
        Format::Second => append_folder2(alloc, folder, &files.dir, &files.schema, out),
    };
    match told {
        Ok(()) => Ok(()),
        Err(Unread::Failed(_)) => Ok(()),
        Err(Unread::Memory) => Err(AllocError),
    }
}

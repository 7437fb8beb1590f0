//! The file of the nulls and the entries is read and tested.
ghost use Rattle.std.specs.Prelude.{◌≡◌, IfOk, OnOk, IfErr, string_bytes};
ghost use Rattle.cq_import.specs.Entries.{marked_fault};
ghost use Rattle.cq_import.specs.Faults.{Tells};
ghost use Rattle.cq_import.specs.Folders.{Keeps, Raises};
ghost use Rattle.cq_import.specs.Folders2.{IsEntriesRead, IsEntriesRefused};
ghost use Rattle.cq_import.specs.Records.{records_of};

use crate::entries_text::EntriesFile;
use crate::folder::{file_name, read_text};
use crate::lines::check_marked;
use crate::refusal::CsvRefusal;
use cq_base::Name;
use cq_io::Folder;
use std::alloc::Global;

/// Tests the text of the file.
fn check_text(alloc: Global, name: String, text: Vec<u8>) -> Result<EntriesFile, CsvRefusal>
    ensures named { IfOk result (λ file. (string_bytes file.name ≡ string_bytes name)
        × (file.text.items ≡ text.items)) }
    ensures passed { OnOk result (marked_fault (string_bytes name) (records_of text.items) ≡ None) }
    ensures refused { IfErr result (λ r. Tells r (marked_fault (string_bytes name) (records_of text.items))) }
{
    match check_marked(alloc, name.as_str(), text.as_slice()) {
        Ok(nulls) => Ok(EntriesFile { name, text, nulls }),
        Err(refusal) => Err(refusal),
    }
}

/// Reads and tests the file.
pub fn read_entries_file<F: Folder>(
    alloc: Global,
    folder: &mut F,
    dir: &Name,
) -> Result<EntriesFile, CsvRefusal>
    ensures keeps { Keeps (F.state folder.old) (F.state folder.new) }
    ensures raises { Raises (F.state folder.old) (F.state folder.new) result }
    ensures read { IfOk result (IsEntriesRead dir.now (F.state folder.old).files) }
    ensures refused { IfErr result (IsEntriesRefused dir.now (F.state folder.old).files) }
{
    let name = file_name(alloc, dir, "entries-2")?;
    match read_text(folder, name) {
        Ok((name, text)) => check_text(alloc, name, text),
        Err(refusal) => Err(refusal),
    }
}

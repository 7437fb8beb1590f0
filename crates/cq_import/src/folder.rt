//! The files of a folder are read and tested.
ghost use Rattle.std.specs.Prelude.{◌≡◌, ◌<◌, ◌⊎◌, ◌++◌, ◌∷◌, [], None, IfOk, IfErr, OnOk, length, string_bytes};
ghost use Rattle.cq_import.specs.Columns.{AreColumns, columns as columns_of, header_with};
ghost use Rattle.cq_import.specs.Faults.{Tells};
ghost use Rattle.cq_import.specs.Folders.{AreRead, IsRead, IsReadText, IsRefused, IsUnread, Keeps, Raises, Stops};
ghost use Rattle.cq_import.specs.Imports.{file_name as name_in};
ghost use Rattle.cq_import.specs.Records.{records_of};
ghost use Rattle.cq_import.specs.Rows.{sheet_fault};

use crate::columns::{Column, header};
use crate::entity_file::EntityFile;
use crate::refusal::CsvRefusal;
use crate::rows::check_sheet;
use cq_base::Name;
use cq_io::{Folder, ReadRefusal};
use cq_theory::Schema;
use std::alloc::{AllocError, Global};

/// The most bytes of a file.
pub const LONGEST_FILE: u64 = 64 * 1024 * 1024;

/// The name of a file in a folder.
pub fn file_name(alloc: Global, dir: &Name, file: &str) -> Result<String, AllocError>
    ensures { IfOk result (λ name. string_bytes name ≡ name_in dir.now file.now) }
{
    let mut name = String::from_str(alloc, dir.as_str())?;
    name.push_str("/")?;
    name.push_str(file)?;
    name.push_str(".csv")?;
    Ok(name)
}

/// Reads a file of at most 64 MiB.
pub fn read_text<F: Folder>(folder: &mut F, name: String) -> Result<(String, Vec<u8>), CsvRefusal>
    ensures keeps { Keeps (F.state folder.old) (F.state folder.new) }
    ensures raises { Raises (F.state folder.old) (F.state folder.new) result }
    ensures read { IfOk result (IsReadText (F.state folder.old).files (string_bytes name)) }
    ensures unread { IfErr result (IsUnread (F.state folder.old).files (string_bytes name)) }
{
    match folder.read(name.as_str(), LONGEST_FILE) {
        Ok(text) => Ok((name, text)),
        Err(ReadRefusal::Absent) => Err(CsvRefusal::Absent(name)),
        Err(ReadRefusal::TooLong) => Err(CsvRefusal::TooLong(name)),
        Err(ReadRefusal::Failed) => Err(CsvRefusal::ReadFault(name)),
        Err(ReadRefusal::Memory) => Err(CsvRefusal::Memory),
    }
}

/// Tests the text of an entity's file.
fn check_text(
    alloc: Global,
    schema: &Schema,
    columns: &[Column],
    name: String,
    text: Vec<u8>,
) -> Result<EntityFile, CsvRefusal>
    ensures named { IfOk result (λ file. (string_bytes file.name ≡ string_bytes name)
        × (file.text.items ≡ text.items)) }
    ensures passed { OnOk result (sheet_fault (string_bytes name) (header_with schema.now columns.now)
        (records_of text.items) ≡ None) }
    ensures refused { IfErr result (λ r. Tells r (sheet_fault (string_bytes name) (header_with schema.now columns.now)
        (records_of text.items))) }
{
    let wanted = header(alloc, schema, columns)?;
    match check_sheet(alloc, name.as_str(), wanted.as_slice(), text.as_slice()) {
        Ok(ids) => Ok(EntityFile { name, text, ids }),
        Err(refusal) => Err(refusal),
    }
}

/// Reads and tests the file of an entity.
fn read_entity_file<F: Folder>(
    alloc: Global,
    folder: &mut F,
    dir: &Name,
    schema: &Schema,
    columns: &[Column],
    entity: u32,
) -> Result<EntityFile, CsvRefusal>
    requires entity { entity < length schema.now.entities }
    requires columns { columns.now ≡ columns_of schema.now entity }
    ensures keeps { Keeps (F.state folder.old) (F.state folder.new) }
    ensures raises { Raises (F.state folder.old) (F.state folder.new) result }
    ensures read { IfOk result (IsRead dir.now schema.now (F.state folder.old).files entity) }
    ensures refused { IfErr result (IsRefused dir.now schema.now (F.state folder.old).files entity) }
{
    let entities = schema.entities.as_slice();
    let name = file_name(alloc, dir, entities[entity as usize].as_str())?;
    match read_text(folder, name) {
        Ok((name, text)) => check_text(alloc, schema, columns, name, text),
        Err(refusal) => Err(refusal),
    }
}

/// Reads and tests the files of all entities, in order.
pub fn read_files<F: Folder>(
    alloc: Global,
    folder: &mut F,
    dir: &Name,
    schema: &Schema,
    columns: &[Vec<Column>],
) -> Result<Vec<EntityFile>, CsvRefusal>
    requires { AreColumns schema.now columns.now }
    ensures keeps { Keeps (F.state folder.old) (F.state folder.new) }
    ensures raises { Raises (F.state folder.old) (F.state folder.new) result }
    ensures count { IfOk result (λ made. length made.items ≡ length schema.now.entities) }
    ensures read { IfOk result (λ made. AreRead dir.now schema.now (F.state folder.old).files made.items) }
    ensures refused { IfErr result (λ r. (r ≡ CsvRefusal.Memory)
        ⊎ Stops dir.now schema.now (F.state folder.old).files r) }
{
    let mut made = Vec::new(alloc);
    for entity in 0..schema.entities.len() as u32 {
        let list = columns[entity as usize].as_slice();
        match read_entity_file(alloc, folder, dir, schema, list, entity) {
            Ok(file) => push_file(file, &mut made)?,
            Err(refusal) => return Err(refusal),
        }
    }
    Ok(made)
}

fn push_file(file: EntityFile, made: &mut Vec<EntityFile>) -> Result<(), AllocError>
    ensures { OnOk result (made.new.items ≡ made.old.items ++ file ∷ []) }
{
    made.push(file)?;
    Ok(())
}

//! What is read of the files of a folder.
ghost use Rattle.std.specs.Prelude.{ℕ, ◌≡◌, ◌<◌, ◌++◌, ◌∷◌, [], IfOk, OnOk, IfSome, length, string_bytes};
ghost use Rattle.cq_import.specs.Imports.{file_name as name_in};
ghost use Rattle.cq_cells.specs.Readings.{AreReadings, IsReading, text_in};

use cq_base::Name;
use cq_import::{LONGEST_FILE, file_name};
use cq_io::{Folder, ReadRefusal};
use cq_theory::Schema;
use std::alloc::{AllocError, Global};

/// What was read of a file.
pub enum Reading {
    Absent,
    /// The file has over 64 MiB.
    TooLong,
    Text(Vec<u8>),
}

impl Drop for Reading {
    fn drop(self) {
        match self {
            Reading::Absent => {}
            Reading::TooLong => {}
            Reading::Text(_) => {}
        }
    }
}

/// The bytes that were read; none, where none were.
pub fn bytes_of(reading: &Reading) -> &[u8]
    ensures { result.now ≡ text_in reading.now }
{
    match reading {
        Reading::Text(text) => text.as_slice(),
        Reading::Absent => &[],
        Reading::TooLong => &[],
    }
}

/// Why the files of a folder are not read: a read of this file failed, or want of memory.
#[derive(Debug, Drop)]
pub enum Unread {
    Failed(String),
    Memory,
}

impl From<AllocError> for Unread {
    ghost use Rattle.cq_cells.specs.declared.readings.Unread.TheVariants.{Memory};

    ghost from_gives = { λ _ e. e ≡ Memory };

    fn from(_error: AllocError) -> Unread {
        Unread::Memory
    }
}

/// Reads a file of at most 64 MiB.
fn read_one<F: Folder>(folder: &mut F, name: String) -> Result<Reading, Unread>
    ensures files { (F.state folder.new).files ≡ (F.state folder.old).files }
    ensures told { IfOk result (λ reading. IfSome (F.state folder.old).files
        (λ files. IsReading files (string_bytes name) reading)) }
{
    match folder.read(name.as_str(), LONGEST_FILE) {
        Ok(text) => Ok(Reading::Text(text)),
        Err(ReadRefusal::Absent) => Ok(Reading::Absent),
        Err(ReadRefusal::TooLong) => Ok(Reading::TooLong),
        Err(ReadRefusal::Failed) => Err(Unread::Failed(name)),
        Err(ReadRefusal::Memory) => Err(Unread::Memory),
    }
}

/// Reads the file of a folder with this name before its `.csv`, that of an entity.
pub fn read_file<F: Folder>(
    alloc: Global,
    folder: &mut F,
    dir: &Name,
    entity: &Name,
) -> Result<Reading, Unread>
    ensures files { (F.state folder.new).files ≡ (F.state folder.old).files }
    ensures told { IfOk result (λ reading. IfSome (F.state folder.old).files
        (λ files. IsReading files (name_in dir.now entity.now) reading)) }
{
    let name = file_name(alloc, dir, entity.as_str())?;
    read_one(folder, name)
}

/// Reads the files of all entities, in order.
pub fn read_files<F: Folder>(
    alloc: Global,
    folder: &mut F,
    dir: &Name,
    schema: &Schema,
) -> Result<Vec<Reading>, Unread>
    ensures files { (F.state folder.new).files ≡ (F.state folder.old).files }
    ensures count { IfOk result (λ made. length made.items ≡ length schema.now.entities) }
    ensures told { IfOk result (λ made. IfSome (F.state folder.old).files
        (λ files. AreReadings files dir.now schema.now made.items)) }
{
    let entities = schema.entities.as_slice();
    let mut made = Vec::new(alloc);
    for entity in entities {
        let reading = read_file(alloc, folder, dir, entity)?;
        push_reading(reading, &mut made)?;
    }
    Ok(made)
}

fn push_reading(reading: Reading, made: &mut Vec<Reading>) -> Result<(), AllocError>
    ensures { OnOk result (made.new.items ≡ made.old.items ++ reading ∷ []) }
{
    made.push(reading)?;
    Ok(())
}

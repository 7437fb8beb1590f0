//! Handing files to exporters in turn.

ghost use Rattle.std.specs.Prelude.{◌≡◌, ◌++◌, ◌∷◌, [], ◌≤◌, ◌+◌, map, vec_len, vec_capacity, OnOk, OnErr, IsErrOf};
ghost use Rattle.std.specs.Prelude.{false};
ghost use Rattle.cq_export.specs.Files.{files_in};
ghost use Rattle.cq_export.specs.Handing.{HandsOver, HandsTo};
ghost use Rattle.cq_export.specs.Held.{files_held};
ghost use Rattle.cq_io.specs.Content.{file_of};
ghost use Rattle.cq_io.specs.Counts.{Rose};

use crate::files::FileLists;
use cq_io::{Exporter, Format, PutRefusal};

/// How handing the files over ended.
#[derive(Clone, Copy, Debug, PartialEq, Eq)]
pub enum Handed {
    /// Each exporter took all its files.
    Whole,
    /// Some exporters failed, and all others took all their files.
    Spoiled,
    /// An exporter had no memory.
    Memory,
}

/// Hands each exporter the files of its format. One that fails is moved to the end of `spoiled`, and the next goes
/// on; room for all of them is there, so no memory is taken. One that has no memory ends it, and stays with those
/// behind it.
pub fn hand_over(
    exporters: &mut Vec<Box<dyn Exporter>>,
    spoiled: &mut Vec<Box<dyn Exporter>>,
    files: &FileLists,
) -> Handed
    requires { vec_len spoiled.old + vec_len exporters.old ≤ vec_capacity spoiled.old }
    ensures { HandsOver (files_held files.now) (map account exporters.old.items) (map account exporters.new.items)
        (map account spoiled.old.items) (map account spoiled.new.items) result }
{
    let spoiled_before = spoiled.len();
    let mut at = 0;
    while at < exporters.len() {
        let exporter = &mut exporters[at];
        match hand_files(exporter, files) {
            Ok(()) => at += 1,
            Err(PutRefusal::Failed) => spoiled.push(exporters.remove(at)).unwrap(),
            Err(PutRefusal::Memory) => return Handed::Memory,
        }
    }
    if spoiled.len() == spoiled_before {
        Handed::Whole
    } else {
        Handed::Spoiled
    }
}

/// Hands one exporter the files of its format.
fn hand_files(exporter: &mut Box<dyn Exporter>, files: &FileLists) -> Result<(), PutRefusal>
    ensures { HandsTo (files_in (files_held files.now) (account exporter.old).format) (account exporter.old)
        (account exporter.new) result }
{
    let format = format_of(exporter);
    hand_to(exporter, files.of(format))
}

/// Hands files to one exporter, up to the first that it doesn't take.
fn hand_to(exporter: &mut Box<dyn Exporter>, files: &[(String, Vec<u8>)]) -> Result<(), PutRefusal>
    ensures { HandsTo (map file_of files.now) (account exporter.old) (account exporter.new) result }
{
    for file in files {
        put_to(exporter, file)?;
    }
    Ok(())
}

fn format_of(exporter: &Box<dyn Exporter>) -> Format
    ensures { result ≡ (account exporter.now).format }
{
    exporter.format()
}

fn put_to(exporter: &mut Box<dyn Exporter>, file: &(String, Vec<u8>)) -> Result<(), PutRefusal>
    ensures format { (account exporter.new).format ≡ (account exporter.old).format }
    ensures ok { OnOk result ((account exporter.new).held ≡ (account exporter.old).held ++ file_of file.now ∷ []) }
    ensures err { OnErr result ((account exporter.new).held ≡ (account exporter.old).held) }
    ensures later { (account exporter.old).faults ≤ (account exporter.new).faults }
    ensures failed { IsErrOf result PutRefusal.Failed
        → Rose (account exporter.old).faults (account exporter.new).faults }
    ensures steady { (account exporter.new).steady ≡ (account exporter.old).steady }
    ensures fails { IsErrOf result PutRefusal.Failed → (account exporter.old).steady ≡ false }
{
    exporter.put(file.0.as_str(), file.1.as_slice())
}
